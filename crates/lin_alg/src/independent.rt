// Whether the rows of a matrix are independent.
ghost use Rattle.std.specs.Prelude.{◌≡◌, ◌↔◌, ◌<◌, ◌∷◌, ℕ, true, Err, IfOk, OnOk, OnErr, length};
ghost use Rattle.lin_alg.specs.Spans.{row_vectors, IsInSpan, AreSame};
ghost use Rattle.lin_alg.specs.Rows.{vector, exact_rows};
ghost use Rattle.lin_alg.specs.Insertion.{IsWideInsert};
ghost use Rattle.lin_alg.specs.Echelon.{IsEchelon, IsSpanned};
ghost use Rattle.lin_alg.specs.Matrix.{entry as entry_of};
ghost use Rattle.lin_alg.specs.Solving.{AreIndependent, IsWideIndependent, plain_rows};
ghost use Rattle.lin_alg.specs.declared.errors.LinError.TheVariants as lin_error;
ghost use Rattle.lin_alg.specs.declared.echelon.Grew.TheVariants as grew;

use crate::memory::zeros;
use crate::{Echelon, Grew, LinError, Matrix, Steps};
use cyclo24::Field;
use std::alloc::Global;
use std::marker::Brand;
use std::sync::ledger::{Blank, Ledger};

/// Whether the rows are independent: each, inserted into the form of those before it, is new.
pub fn are_independent<F: Field>(alloc: Global, rows: &Matrix<F>) -> Result<bool, LinError>
    ensures answer { IfOk result (λ b. (b ≡ true) ↔ AreIndependent F.field.laws rows.now.rows (entry_of F.field.laws F.value rows.now)) }
    ensures wide { (result ≡ Err lin_error.Wide) → IsWideIndependent F.field rows.now.rows (entry_of F.field.laws F.value rows.now) }
{
    are_new::<F, Brand>(alloc, rows, Blank::new(1))
}

// Whether each row is new. The blank is for a counter of its own.
fn are_new<F: Field, L: Ledger>(
    alloc: Global,
    rows: &Matrix<F>,
    blank: Blank,
) -> Result<bool, LinError>
    requires name { blank.name ≡ L.name }
    requires parts { blank.parts ≡ L.parts }
    requires some { 0 < blank.parts }
    ensures answer { IfOk result (λ b. (b ≡ true) ↔ AreIndependent F.field.laws rows.now.rows (entry_of F.field.laws F.value rows.now)) }
    ensures wide { (result ≡ Err lin_error.Wide) → IsWideIndependent F.field rows.now.rows (entry_of F.field.laws F.value rows.now) }
{
    let n = rows.rows();
    let mut form = Echelon::new(alloc, rows.cols());
    let mut row = zeros(alloc, rows.cols())?;
    let mut steps = Steps::new(blank);
    for i in 0..n {
        match insert_matrix_row::<F, L>(&mut form, &mut row, rows, i, &mut steps) {
            Ok(Grew::Yes) => {}
            Ok(Grew::No) => return Ok(false),
            Err(error) => return Err(error),
        }
    }
    Ok(true)
}

// Inserts row i. The lent row is only room for it.
fn insert_matrix_row<F: Field, L: Ledger>(
    form: &mut Echelon<F>,
    row: &mut [F],
    rows: &Matrix<F>,
    i: usize,
    steps: &mut Steps<L>,
) -> Result<Grew, LinError>
    requires place { i < rows.now.rows }
    requires room { length row.old ≡ rows.now.cols }
    requires width { form.old.width ≡ rows.now.cols }
    requires whole { form.old.whole ≡ true }
    ensures width { form.new.width ≡ form.old.width }
    ensures whole { OnOk result (form.new.whole ≡ true) }
    ensures form { IsEchelon F.field.laws F.value form.new }
    ensures span { OnOk result (AreSame (IsSpanned F.field.laws F.value form.new) (IsInSpan F.field.laws (entry_of F.field.laws F.value rows.now i ∷ row_vectors (exact_rows F.field.laws F.value form.old.rows)))) }
    ensures grew { IfOk result (λ answer. (answer ≡ grew.Yes) ↔ (IsSpanned F.field.laws F.value form.old (entry_of F.field.laws F.value rows.now i) → ⊥)) }
    ensures wide { (result ≡ Err lin_error.Wide) → IsWideInsert F.field (exact_rows F.field.laws F.value form.old.rows) (entry_of F.field.laws F.value rows.now i) }
{
    fill_row(row, rows, i);
    match form.insert(row, steps) {
        Ok(answer) => Ok(answer),
        Err(error) => Err(error),
    }
}

// Writes row i.
fn fill_row<F: Field>(row: &mut [F], rows: &Matrix<F>, i: usize)
    requires place { i < rows.now.rows }
    requires width { length row.old ≡ rows.now.cols }
    ensures { vector F.field.laws F.value row.new ≡ entry_of F.field.laws F.value rows.now i }
{
    for j in 0..row.len() {
        row[j] = rows.get(i, j);
    }
}
