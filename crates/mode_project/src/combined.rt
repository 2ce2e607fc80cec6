// Combinations of vectors, and their form.
ghost use Rattle.std.specs.Prelude.{◌≡◌, ◌<◌, ◌+◌, ℕ, [], Err, IfOk, OnOk, OnErr, length, slice_index_or};
ghost use Rattle.lin_alg.specs.Matrix.{entry as entry_of, IsWideDot, IsWideTerm};
ghost use Rattle.lin_alg.specs.Rows.{vector};
ghost use Rattle.lin_alg.specs.declared.errors.LinError.TheVariants as lin_error;
ghost use Rattle.mode_project.specs.DirectionParts.{combined as combined_rows, IsWideCombined};
ghost use Rattle.mode_project.specs.Parts.{rows_in, row_in, HoldsSpan};

use crate::insertion::insert;
use cyclo24::{Field, Wide};
use lin_alg::{Echelon, LinError, Matrix, add_product, zeros};
use std::alloc::Global;

// The sum and x times entry i of the row.
fn add_entry<F: Field>(sum: F, x: F, row: &[F], i: usize) -> Result<F, Wide>
    requires { i < length row.now }
    ensures exact { IfOk result (λ r. F.value r ≡ F.field.laws.plus (F.value sum) (F.field.laws.times (F.value x) (vector F.field.laws F.value row.now i))) }
    ensures wide { OnErr result (IsWideTerm F.field (F.value sum) (F.value x) (vector F.field.laws F.value row.now i)) }
{
    add_product(sum, x, row[i])
}

// Entry i of the combination of the rows with the entries of row n of x as factors.
fn combined<F: Field>(x: &Matrix<F>, n: usize, rows: &[Vec<F>], i: usize) -> Result<F, Wide>
    requires factors { n < x.now.rows }
    requires count { length rows.now ≡ x.now.cols }
    requires long { (k : ℕ) → k < length rows.now → i < length (slice_index_or (rows_in rows.now) k []) }
    ensures exact { IfOk result (λ r. F.value r ≡ combined_rows F.field.laws (length rows.now) (entry_of F.field.laws F.value x.now) (row_in F.field.laws F.value (rows_in rows.now)) n i) }
    ensures wide { OnErr result (IsWideDot F.field (length rows.now) (entry_of F.field.laws F.value x.now n) (λ k. row_in F.field.laws F.value (rows_in rows.now) k i)) }
{
    let mut sum = F::zero();
    for k in 0..rows.len() {
        sum = add_entry(sum, x.get(n, k), &rows[k], i)?;
    }
    Ok(sum)
}

// Writes the combination with row n of x.
fn fill_combined<F: Field>(
    row: &mut [F],
    x: &Matrix<F>,
    n: usize,
    rows: &[Vec<F>],
) -> Result<(), Wide>
    requires factors { n < x.now.rows }
    requires count { length rows.now ≡ x.now.cols }
    requires long { (k : ℕ) → k < length rows.now → length (slice_index_or (rows_in rows.now) k []) ≡ length row.old }
    ensures exact { OnOk result (vector F.field.laws F.value row.new ≡ combined_rows F.field.laws (length rows.now) (entry_of F.field.laws F.value x.now) (row_in F.field.laws F.value (rows_in rows.now)) n) }
    ensures wide { OnErr result ((i : ℕ) × (i < length row.old) × IsWideDot F.field (length rows.now) (entry_of F.field.laws F.value x.now n) (λ k. row_in F.field.laws F.value (rows_in rows.now) k i)) }
{
    for i in 0..row.len() {
        row[i] = combined(x, n, rows, i)?;
    }
    Ok(())
}

// Inserts the combination with row n of x. The lent row is only room.
fn insert_combined<F: Field>(
    form: &mut Echelon<F>,
    row: &mut [F],
    x: &Matrix<F>,
    n: usize,
    rows: &[Vec<F>],
) -> Result<(), LinError>
    requires factors { n < x.now.rows }
    requires count { length rows.now ≡ x.now.cols }
    requires long { (k : ℕ) → k < length rows.now → length (slice_index_or (rows_in rows.now) k []) ≡ length row.old }
    requires held { HoldsSpan F.field.laws F.value (length row.old) (combined_rows F.field.laws (length rows.now) (entry_of F.field.laws F.value x.now) (row_in F.field.laws F.value (rows_in rows.now))) n form.old }
    ensures held { OnOk result (HoldsSpan F.field.laws F.value (length row.old) (combined_rows F.field.laws (length rows.now) (entry_of F.field.laws F.value x.now) (row_in F.field.laws F.value (rows_in rows.now))) (n + 1) form.new) }
    ensures wide { (result ≡ Err lin_error.Wide) → IsWideCombined F.field (length row.old) x.now.rows (length rows.now) (entry_of F.field.laws F.value x.now) (row_in F.field.laws F.value (rows_in rows.now)) }
{
    match fill_combined(row, x, n, rows) {
        Ok(()) => {}
        Err(_) => return Err(LinError::Wide),
    }
    match insert(form, row) {
        Ok(_) => Ok(()),
        Err(error) => Err(error),
    }
}

// The form of the combinations with the rows of x.
pub(crate) fn combined_form<F: Field>(
    alloc: Global,
    size: usize,
    x: &Matrix<F>,
    rows: &[Vec<F>],
) -> Result<Echelon<F>, LinError>
    requires count { length rows.now ≡ x.now.cols }
    requires long { (k : ℕ) → k < length rows.now → length (slice_index_or (rows_in rows.now) k []) ≡ size }
    ensures held { IfOk result (λ form. HoldsSpan F.field.laws F.value size (combined_rows F.field.laws (length rows.now) (entry_of F.field.laws F.value x.now) (row_in F.field.laws F.value (rows_in rows.now))) x.now.rows form) }
    ensures wide { (result ≡ Err lin_error.Wide) → IsWideCombined F.field size x.now.rows (length rows.now) (entry_of F.field.laws F.value x.now) (row_in F.field.laws F.value (rows_in rows.now)) }
{
    let mut form = Echelon::new(alloc, size);
    let mut row = zeros(alloc, size)?;
    for n in 0..x.rows() {
        match insert_combined(&mut form, &mut row, x, n, rows) {
            Ok(()) => {}
            Err(error) => return Err(error),
        }
    }
    Ok(form)
}
