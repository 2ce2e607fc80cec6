// Solving systems of linear equations.
ghost use Rattle.std.specs.Prelude.{◌≡◌, ◌<◌, ◌≤◌, ◌+◌, ◌∷◌, ℕ, true, Err, None, IfOk, IfSome, OnOk, length};
ghost use Rattle.cyclo24.specs.ExactField.{Value};
ghost use Rattle.lin_alg.specs.Spans.{row_vectors, IsInSpan, AreSame};
ghost use Rattle.lin_alg.specs.Rows.{vector, exact_rows};
ghost use Rattle.lin_alg.specs.Equations.{unit_vector};
ghost use Rattle.lin_alg.specs.Insertion.{IsWideInsert};
ghost use Rattle.lin_alg.specs.Echelon.{IsEchelon, IsSpanned};
ghost use Rattle.lin_alg.specs.Matrix.{entry as entry_of};
ghost use Rattle.lin_alg.specs.Solving.{combination, AreIndependent, joined, joined_rows, IsWideSolve};
ghost use Rattle.lin_alg.specs.declared.errors.LinError.TheVariants as lin_error;

use crate::memory::zeros;
use crate::{Echelon, LinError, Matrix, Row, Steps};
use cyclo24::Field;
use iso_text::NoMemory;
use std::alloc::Global;
use std::marker::Brand;
use std::sync::ledger::{Blank, Ledger};

/// The x with x 0 times row 0, + .. + x (n - 1) times row n - 1 equal to the target, and `None`
/// where there is none. The n rows are independent. Each row, with its unit vector in front, is
/// inserted into an empty form, and the target, with zeros in front, is taken to 0 in its pivot
/// columns: the front then holds the answer with its signs changed.
pub fn solve<F: Field>(
    alloc: Global,
    rows: &Matrix<F>,
    target: &[F],
) -> Result<Option<Row<F>>, LinError>
    requires width { length target.now ≡ rows.now.cols }
    requires independent { AreIndependent F.field.laws rows.now.rows (entry_of F.field.laws F.value rows.now) }
    ensures length { IfOk result (λ answer. IfSome answer (λ x. length x ≡ rows.now.rows)) }
    ensures solution { IfOk result (λ answer. IfSome answer (λ x. (j : ℕ) → combination F.field.laws rows.now.rows (vector F.field.laws F.value x) (entry_of F.field.laws F.value rows.now) j ≡ vector F.field.laws F.value target.now j)) }
    ensures only { IfOk result (λ answer. IfSome answer (λ x. (y : ℕ → Value F.field) → ((j : ℕ) → combination F.field.laws rows.now.rows y (entry_of F.field.laws F.value rows.now) j ≡ vector F.field.laws F.value target.now j) → (i : ℕ) → i < rows.now.rows → y i ≡ vector F.field.laws F.value x i)) }
    ensures none { IfOk result (λ answer. answer ≡ None → (y : ℕ → Value F.field) → ((j : ℕ) → combination F.field.laws rows.now.rows y (entry_of F.field.laws F.value rows.now) j ≡ vector F.field.laws F.value target.now j) → ⊥) }
    ensures wide { (result ≡ Err lin_error.Wide) → IsWideSolve F.field rows.now.rows (entry_of F.field.laws F.value rows.now) (vector F.field.laws F.value target.now) }
{
    let n = rows.rows();
    let form = match joined_form::<F, Brand>(alloc, rows, Blank::new(1)) {
        Ok(form) => form,
        Err(error) => return Err(error),
    };
    let mut left = zeros(alloc, n + rows.cols())?;
    solve_by(alloc, &form, &mut left, rows, target)
}

// Solves by the form of the joined rows, in a lent row of zeros.
fn solve_by<F: Field>(
    alloc: Global,
    form: &Echelon<F>,
    left: &mut [F],
    rows: &Matrix<F>,
    target: &[F],
) -> Result<Option<Row<F>>, LinError>
    requires whole { form.now.whole ≡ true }
    requires form { IsEchelon F.field.laws F.value form.now }
    requires span { AreSame (IsSpanned F.field.laws F.value form.now) (IsInSpan F.field.laws (joined_rows F.field.laws rows.now.rows (entry_of F.field.laws F.value rows.now) rows.now.rows)) }
    requires room { length left.old ≡ form.now.width }
    requires width { rows.now.rows + length target.now ≡ length left.old }
    requires zero { (j : ℕ) → vector F.field.laws F.value left.old j ≡ F.field.laws.nought }
    requires independent { AreIndependent F.field.laws rows.now.rows (entry_of F.field.laws F.value rows.now) }
    ensures length { IfOk result (λ answer. IfSome answer (λ x. length x ≡ rows.now.rows)) }
    ensures solution { IfOk result (λ answer. IfSome answer (λ x. (j : ℕ) → combination F.field.laws rows.now.rows (vector F.field.laws F.value x) (entry_of F.field.laws F.value rows.now) j ≡ vector F.field.laws F.value target.now j)) }
    ensures only { IfOk result (λ answer. IfSome answer (λ x. (y : ℕ → Value F.field) → ((j : ℕ) → combination F.field.laws rows.now.rows y (entry_of F.field.laws F.value rows.now) j ≡ vector F.field.laws F.value target.now j) → (i : ℕ) → i < rows.now.rows → y i ≡ vector F.field.laws F.value x i)) }
    ensures none { IfOk result (λ answer. answer ≡ None → (y : ℕ → Value F.field) → ((j : ℕ) → combination F.field.laws rows.now.rows y (entry_of F.field.laws F.value rows.now) j ≡ vector F.field.laws F.value target.now j) → ⊥) }
    ensures wide { (result ≡ Err lin_error.Wide) → IsWideSolve F.field rows.now.rows (entry_of F.field.laws F.value rows.now) (vector F.field.laws F.value target.now) }
{
    let n = rows.rows();
    place_target(left, n, target);
    match form.reduce(left) {
        Ok(()) => {}
        Err(_) => return Err(LinError::Wide),
    }
    match answer_of(alloc, left, n)? {
        Some(x) => Ok(Some(x)),
        None => Ok(None),
    }
}

// Writes the target behind n zeros.
fn place_target<F: Field>(row: &mut [F], n: usize, target: &[F])
    requires width { n + length target.now ≡ length row.old }
    requires zero { (j : ℕ) → vector F.field.laws F.value row.old j ≡ F.field.laws.nought }
    ensures { vector F.field.laws F.value row.new ≡ joined n (λ _. F.field.laws.nought) (vector F.field.laws F.value target.now) }
{
    for p in n..row.len() {
        row[p] = target[p - n];
    }
}

// The first n entries with changed signs, where the others are 0.
fn answer_of<F: Field>(alloc: Global, left: &[F], n: usize) -> Result<Option<Row<F>>, NoMemory>
    requires { n ≤ length left.now }
    ensures length { IfOk result (λ answer. IfSome answer (λ x. length x ≡ n)) }
    ensures front { IfOk result (λ answer. IfSome answer (λ x. (j : ℕ) → j < n → vector F.field.laws F.value x j ≡ F.field.laws.neg (vector F.field.laws F.value left.now j))) }
    ensures zero { IfOk result (λ answer. IfSome answer (λ _. (j : ℕ) → vector F.field.laws F.value left.now (n + j) ≡ F.field.laws.nought)) }
    ensures none { IfOk result (λ answer. answer ≡ None → ((j : ℕ) → vector F.field.laws F.value left.now (n + j) ≡ F.field.laws.nought) → ⊥) }
{
    if is_zero(&left[n..]) {
        let x = negated(alloc, &left[..n])?;
        Ok(Some(Row::from_vec(x)))
    } else {
        Ok(None)
    }
}

// The form of the joined rows: each row with its unit vector in front. The blank is for a counter of
// its own.
fn joined_form<F: Field, L: Ledger>(
    alloc: Global,
    rows: &Matrix<F>,
    blank: Blank,
) -> Result<Echelon<F>, LinError>
    requires name { blank.name ≡ L.name }
    requires parts { blank.parts ≡ L.parts }
    requires some { 0 < blank.parts }
    ensures width { IfOk result (λ form. form.width ≡ rows.now.rows + rows.now.cols) }
    ensures whole { IfOk result (λ form. form.whole ≡ true) }
    ensures form { IfOk result (λ form. IsEchelon F.field.laws F.value form) }
    ensures span { IfOk result (λ form. AreSame (IsSpanned F.field.laws F.value form) (IsInSpan F.field.laws (joined_rows F.field.laws rows.now.rows (entry_of F.field.laws F.value rows.now) rows.now.rows))) }
    ensures wide { (t : ℕ → Value F.field) → (result ≡ Err lin_error.Wide) → IsWideSolve F.field rows.now.rows (entry_of F.field.laws F.value rows.now) t }
{
    let n = rows.rows();
    let width = n + rows.cols();
    let mut form = Echelon::new(alloc, width);
    form.reserve(n)?;
    let mut row = zeros(alloc, width)?;
    let mut steps = Steps::new(blank);
    for i in 0..n {
        match insert_joined::<F, L>(&mut form, &mut row, rows, i, &mut steps) {
            Ok(()) => {}
            Err(error) => return Err(error),
        }
    }
    Ok(form)
}

// Inserts row i with its unit vector in front. The lent row is only room for it.
fn insert_joined<F: Field, L: Ledger>(
    form: &mut Echelon<F>,
    row: &mut [F],
    rows: &Matrix<F>,
    i: usize,
    steps: &mut Steps<L>,
) -> Result<(), LinError>
    requires place { i < rows.now.rows }
    requires room { length row.old ≡ rows.now.rows + rows.now.cols }
    requires width { form.old.width ≡ rows.now.rows + rows.now.cols }
    requires whole { form.old.whole ≡ true }
    ensures width { form.new.width ≡ form.old.width }
    ensures whole { OnOk result (form.new.whole ≡ true) }
    ensures form { IsEchelon F.field.laws F.value form.new }
    ensures span { OnOk result (AreSame (IsSpanned F.field.laws F.value form.new) (IsInSpan F.field.laws (joined rows.now.rows (unit_vector F.field.laws i) (entry_of F.field.laws F.value rows.now i) ∷ row_vectors (exact_rows F.field.laws F.value form.old.rows)))) }
    ensures wide { (result ≡ Err lin_error.Wide) → IsWideInsert F.field (exact_rows F.field.laws F.value form.old.rows) (joined rows.now.rows (unit_vector F.field.laws i) (entry_of F.field.laws F.value rows.now i)) }
{
    fill_joined(row, rows, i);
    match form.insert(row, steps) {
        Ok(_) => Ok(()),
        Err(error) => Err(error),
    }
}

// Writes row i with its unit vector in front.
fn fill_joined<F: Field>(row: &mut [F], rows: &Matrix<F>, i: usize)
    requires place { i < rows.now.rows }
    requires width { length row.old ≡ rows.now.rows + rows.now.cols }
    ensures { vector F.field.laws F.value row.new ≡ joined rows.now.rows (unit_vector F.field.laws i) (entry_of F.field.laws F.value rows.now i) }
{
    for p in 0..row.len() {
        row[p] = joined_entry(rows, i, p);
    }
}

// The entry at p of row i with its unit vector in front.
fn joined_entry<F: Field>(rows: &Matrix<F>, i: usize, p: usize) -> F
    requires place { i < rows.now.rows }
    requires column { p < rows.now.rows + rows.now.cols }
    ensures { F.value result ≡ joined rows.now.rows (unit_vector F.field.laws i) (entry_of F.field.laws F.value rows.now i) p }
{
    let n = rows.rows();
    if p < n {
        if p == i { F::one() } else { F::zero() }
    } else {
        rows.get(i, p - n)
    }
}

// Whether each entry is 0.
fn is_zero<F: Field>(row: &[F]) -> bool
    ensures zero { (result ≡ true) → (j : ℕ) → vector F.field.laws F.value row.now j ≡ F.field.laws.nought }
    ensures other { ((j : ℕ) → vector F.field.laws F.value row.now j ≡ F.field.laws.nought) → result ≡ true }
{
    for x in row {
        if !x.is_zero() {
            return false;
        }
    }
    true
}

// The entries with changed signs.
fn negated<F: Field>(alloc: Global, row: &[F]) -> Result<Vec<F>, NoMemory>
    ensures len { IfOk result (λ v. length v.items ≡ length row.now) }
    ensures entries { IfOk result (λ v. (j : ℕ) → vector F.field.laws F.value v.items j ≡ F.field.laws.neg (vector F.field.laws F.value row.now j)) }
{
    let mut entries = Vec::with_capacity(alloc, row.len())?;
    for x in row {
        match entries.push(x.neg()) {
            Ok(()) => {}
            Err(_) => return Err(NoMemory),
        }
    }
    Ok(entries)
}
