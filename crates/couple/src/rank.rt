// The dimension of the span of the rows of a matrix.
ghost use Rattle.std.specs.Prelude.{◌≡◌, ◌<◌, ◌≤◌, ◌∷◌, true, Err, IfOk, OnOk, length};
ghost use Rattle.lin_alg.specs.Spans.{row_vectors, IsInSpan, AreSame};
ghost use Rattle.lin_alg.specs.Rows.{vector, exact_rows};
ghost use Rattle.lin_alg.specs.Insertion.{IsWideInsert};
ghost use Rattle.lin_alg.specs.Echelon.{IsEchelon, IsSpanned};
ghost use Rattle.lin_alg.specs.Matrix.{entry as entry_of};
ghost use Rattle.lin_alg.specs.Solving.{IsWideIndependent};
ghost use Rattle.lin_alg.specs.declared.errors.LinError.TheVariants as lin_error;
ghost use Rattle.couple.specs.Links.{HasRank};

use cyclo24::Field;
use lin_alg::{Echelon, LinError, Matrix, Steps, zeros};
use std::alloc::Global;
use std::marker::Brand;
use std::sync::ledger::{Blank, Ledger};

// The dimension of the span of the rows: each is inserted into the form of those before it.
pub(crate) fn rank_of<F: Field>(alloc: Global, rows: &Matrix<F>) -> Result<usize, LinError>
    ensures rank { IfOk result (λ r. HasRank F.field.laws rows.now.rows rows.now.cols (entry_of F.field.laws F.value rows.now) r) }
    ensures few { IfOk result (λ r. r ≤ rows.now.cols) }
    ensures wide { (result ≡ Err lin_error.Wide) → IsWideIndependent F.field rows.now.rows (entry_of F.field.laws F.value rows.now) }
{
    rank_by::<F, Brand>(alloc, rows, Blank::new(1))
}

// The same, with a blank for a counter of its own.
fn rank_by<F: Field, L: Ledger>(
    alloc: Global,
    rows: &Matrix<F>,
    blank: Blank,
) -> Result<usize, LinError>
    requires name { blank.name ≡ L.name }
    requires parts { blank.parts ≡ L.parts }
    requires some { 0 < blank.parts }
    ensures rank { IfOk result (λ r. HasRank F.field.laws rows.now.rows rows.now.cols (entry_of F.field.laws F.value rows.now) r) }
    ensures few { IfOk result (λ r. r ≤ rows.now.cols) }
    ensures wide { (result ≡ Err lin_error.Wide) → IsWideIndependent F.field rows.now.rows (entry_of F.field.laws F.value rows.now) }
{
    let n = rows.rows();
    let mut form = Echelon::new(alloc, rows.cols());
    let mut row = zeros(alloc, rows.cols())?;
    let mut steps = Steps::new(blank);
    for i in 0..n {
        match insert_matrix_row::<F, L>(&mut form, &mut row, rows, i, &mut steps) {
            Ok(()) => {}
            Err(error) => return Err(error),
        }
    }
    Ok(form.len())
}

// Inserts row i. The lent row is only room for it.
fn insert_matrix_row<F: Field, L: Ledger>(
    form: &mut Echelon<F>,
    row: &mut [F],
    rows: &Matrix<F>,
    i: usize,
    steps: &mut Steps<L>,
) -> Result<(), LinError>
    requires place { i < rows.now.rows }
    requires room { length row.old ≡ rows.now.cols }
    requires width { form.old.width ≡ rows.now.cols }
    requires whole { form.old.whole ≡ true }
    ensures width { form.new.width ≡ form.old.width }
    ensures whole { OnOk result (form.new.whole ≡ true) }
    ensures form { IsEchelon F.field.laws F.value form.new }
    ensures span { OnOk result (AreSame (IsSpanned F.field.laws F.value form.new) (IsInSpan F.field.laws (entry_of F.field.laws F.value rows.now i ∷ row_vectors (exact_rows F.field.laws F.value form.old.rows)))) }
    ensures wide { (result ≡ Err lin_error.Wide) → IsWideInsert F.field (exact_rows F.field.laws F.value form.old.rows) (entry_of F.field.laws F.value rows.now i) }
{
    fill_row(row, rows, i);
    match form.insert(row, steps) {
        Ok(_) => Ok(()),
        Err(error) => Err(error),
    }
}

// Writes row i.
fn fill_row<F: Field>(row: &mut [F], rows: &Matrix<F>, i: usize)
    requires place { i < rows.now.rows }
    requires width { length row.old ≡ rows.now.cols }
    ensures { vector F.field.laws F.value row.new ≡ entry_of F.field.laws F.value rows.now i }
{
    for j in 0..row.len() {
        row[j] = rows.get(i, j);
    }
}
