// Amplitudes of rows, and of unit vectors behind them.
ghost use Rattle.std.specs.Prelude.{◌≡◌, ◌<◌, ◌+◌, ◌^◌, ℕ, List, Err, IfOk, OnErr, IsTrue, length, slice_index};
ghost use Rattle.std.specs.List.{Contains};
ghost use Rattle.cyclo24.specs.ExactField.{Value};
ghost use Rattle.lin_alg.specs.Matrix.{IsWideDot, IsWideTerm};
ghost use Rattle.lin_alg.specs.Rows.{vector};
ghost use Rattle.lin_alg.specs.Solving.{combination};
ghost use Rattle.lin_alg.specs.Spans.{row_vectors};
ghost use Rattle.lin_alg.specs.declared.errors.LinError.TheVariants as lin_error;
ghost use Rattle.mode_project.specs.Amplitudes.{AreAmplitudes, IsModeBasis, ArePivotColumns, cut_to, cut_row, IsWideRest, IsWideAmplitudes};
ghost use Rattle.mode_project.specs.Joined.{lines_in, joined_rows_in, AreLong};
ghost use Rattle.mode_project.specs.Modes.{all_modes, vector_at};

use crate::cut::{cut, cut_table, line};
use crate::joint::copied;
use crate::pivots::pivot_columns;
use cyclo24::{Field, Wide};
use lin_alg::{LinError, Row, add_product, solve};
use std::alloc::Global;

// The sum and x times the entry of the row at column c.
fn add_entry<F: Field>(sum: F, x: F, row: &[F], c: usize) -> Result<F, Wide>
    requires { c < length row.now }
    ensures exact { IfOk result (λ r. F.value r ≡ F.field.laws.plus (F.value sum) (F.field.laws.times (F.value x) (vector F.field.laws F.value row.now c))) }
    ensures wide { OnErr result (IsWideTerm F.field (F.value sum) (F.value x) (vector F.field.laws F.value row.now c)) }
{
    add_product(sum, x, row[c])
}

// The sum of the amplitudes times the rows at column c.
fn sum_at<F: Field>(x: &[F], rows: &[(usize, Vec<F>)], c: usize) -> Result<F, Wide>
    requires count { length x.now ≡ length rows.now }
    requires inside { (d : ℕ) × AreLong d (lines_in rows.now) × (c < d) }
    ensures exact { IfOk result (λ r. F.value r ≡ combination F.field.laws (length rows.now) (vector F.field.laws F.value x.now) (vector_at F.field.laws (row_vectors (joined_rows_in F.field.laws F.value rows.now))) c) }
    ensures wide { OnErr result (IsWideDot F.field (length rows.now) (vector F.field.laws F.value x.now) (λ k. vector_at F.field.laws (row_vectors (joined_rows_in F.field.laws F.value rows.now)) k c)) }
{
    let mut sum = F::zero();
    for k in 0..rows.len() {
        sum = add_entry(sum, x[k], line(rows, k), c)?;
    }
    Ok(sum)
}

// The entry of the target at column c less x.
fn less_at<F: Field>(target: &[F], c: usize, x: F) -> Result<F, Wide>
    requires { c < length target.now }
    ensures exact { IfOk result (λ r. F.value r ≡ F.field.laws.plus (vector F.field.laws F.value target.now c) (F.field.laws.neg (F.value x))) }
    ensures wide { OnErr result (IsTrue (F.field.is_wide_difference (vector F.field.laws F.value target.now c) (F.value x))) }
{
    target[c].sub(x)
}

// What the amplitudes of the rows leave of the target at column c.
fn rest_at<F: Field>(x: &[F], rows: &[(usize, Vec<F>)], target: &[F], c: usize) -> Result<F, Wide>
    requires count { length x.now ≡ length rows.now }
    requires long { AreLong (length target.now) (lines_in rows.now) }
    requires column { c < length target.now }
    ensures exact { IfOk result (λ r. F.value r ≡ F.field.laws.plus (vector F.field.laws F.value target.now c) (F.field.laws.neg (combination F.field.laws (length rows.now) (vector F.field.laws F.value x.now) (vector_at F.field.laws (row_vectors (joined_rows_in F.field.laws F.value rows.now))) c))) }
    ensures wide { OnErr result (IsWideRest F.field (joined_rows_in F.field.laws F.value rows.now) (vector F.field.laws F.value target.now) (vector F.field.laws F.value x.now) c) }
{
    let sum = match sum_at(x, rows, c) {
        Ok(sum) => sum,
        Err(error) => return Err(error),
    };
    match less_at(target, c, sum) {
        Ok(rest) => Ok(rest),
        Err(error) => Err(error),
    }
}

// The amplitudes of the rows, and behind them those of the unit vectors at the sites.
fn with_rest<F: Field>(
    alloc: Global,
    x: &[F],
    rows: &[(usize, Vec<F>)],
    sites: &[usize],
    target: &[F],
) -> Result<Vec<F>, LinError>
    requires count { length x.now ≡ length rows.now }
    requires long { AreLong (length target.now) (lines_in rows.now) }
    requires inside { (k : ℕ) → k < length sites.now → slice_index sites.now k < length target.now }
    ensures count { IfOk result (λ v. length v.items ≡ length rows.now + length sites.now) }
    ensures front { IfOk result (λ v. (m : ℕ) → m < length rows.now → vector F.field.laws F.value v.items m ≡ vector F.field.laws F.value x.now m) }
    ensures behind { IfOk result (λ v. (k : ℕ) → k < length sites.now → vector F.field.laws F.value v.items (length rows.now + k) ≡ F.field.laws.plus (vector F.field.laws F.value target.now (slice_index sites.now k)) (F.field.laws.neg (combination F.field.laws (length rows.now) (vector F.field.laws F.value x.now) (vector_at F.field.laws (row_vectors (joined_rows_in F.field.laws F.value rows.now))) (slice_index sites.now k)))) }
    ensures wide { (result ≡ Err lin_error.Wide) → (c : ℕ) × Contains sites.now c × IsWideRest F.field (joined_rows_in F.field.laws F.value rows.now) (vector F.field.laws F.value target.now) (vector F.field.laws F.value x.now) c }
{
    let mut all = match copied(alloc, x) {
        Ok(all) => all,
        Err(error) => return Err(error),
    };
    for k in 0..sites.len() {
        let rest = match rest_at(x, rows, target, sites[k]) {
            Ok(rest) => rest,
            Err(_) => return Err(LinError::Wide),
        };
        match all.push(rest) {
            Ok(()) => {}
            Err(_) => return Err(LinError::NoMemory),
        }
    }
    Ok(all)
}

// The amplitudes of the rows in the pivot columns.
fn front<F: Field>(
    alloc: Global,
    rows: &[(usize, Vec<F>)],
    sites: &[usize],
    target: &[F],
) -> Result<Row<F>, LinError>
    requires small { length target.now < 2 ^ 16 }
    requires long { AreLong (length target.now) (lines_in rows.now) }
    requires basis { IsModeBasis F.field.laws (length target.now) (joined_rows_in F.field.laws F.value rows.now) sites.now }
    ensures count { IfOk result (λ x. length x ≡ length rows.now) }
    ensures amplitudes { IfOk result (λ x. (columns : List ℕ) × ArePivotColumns (length target.now) sites.now columns × AreAmplitudes F.field.laws (length rows.now) (cut_row F.field.laws columns (joined_rows_in F.field.laws F.value rows.now)) (length columns) (cut_to F.field.laws columns (vector F.field.laws F.value target.now)) (vector F.field.laws F.value x)) }
    ensures wide { (result ≡ Err lin_error.Wide) → IsWideAmplitudes F.field (length target.now) (joined_rows_in F.field.laws F.value rows.now) sites.now (vector F.field.laws F.value target.now) }
{
    let columns = match pivot_columns(alloc, target.len(), sites) {
        Ok(columns) => columns,
        Err(_) => return Err(LinError::NoMemory),
    };
    let table = cut_table(alloc, rows, &columns)?;
    let entries = cut(alloc, target, &columns)?;
    match solve(alloc, &table, &entries) {
        Ok(Some(x)) => Ok(x),
        Ok(None) => unreachable!(),
        Err(error) => Err(error),
    }
}

/// The factors of the rows, and behind them of the unit vectors at the sites, in the sum that is the
/// target: by solving in the columns that are no sites, where the unit vectors are 0, and then column by
/// column. Condition: the rows and unit vectors are a basis, and the sites rise.
pub(crate) fn solved<F: Field>(
    alloc: Global,
    rows: &[(usize, Vec<F>)],
    sites: &[usize],
    target: &[F],
) -> Result<Vec<F>, LinError>
    requires small { length target.now < 2 ^ 16 }
    requires long { AreLong (length target.now) (lines_in rows.now) }
    requires basis { IsModeBasis F.field.laws (length target.now) (joined_rows_in F.field.laws F.value rows.now) sites.now }
    ensures count { IfOk result (λ v. length v.items ≡ length target.now) }
    ensures amplitudes { IfOk result (λ v. AreAmplitudes F.field.laws (length target.now) (vector_at F.field.laws (all_modes F.field.laws (joined_rows_in F.field.laws F.value rows.now) sites.now)) (length target.now) (vector F.field.laws F.value target.now) (vector F.field.laws F.value v.items)) }
    ensures only { IfOk result (λ v. (b : ℕ → Value F.field) → AreAmplitudes F.field.laws (length target.now) (vector_at F.field.laws (all_modes F.field.laws (joined_rows_in F.field.laws F.value rows.now) sites.now)) (length target.now) (vector F.field.laws F.value target.now) b → (m : ℕ) → m < length target.now → b m ≡ vector F.field.laws F.value v.items m) }
    ensures wide { (result ≡ Err lin_error.Wide) → IsWideAmplitudes F.field (length target.now) (joined_rows_in F.field.laws F.value rows.now) sites.now (vector F.field.laws F.value target.now) }
{
    let x = match front(alloc, rows, sites, target) {
        Ok(x) => x,
        Err(error) => return Err(error),
    };
    match with_rest(alloc, x.as_slice(), rows, sites, target) {
        Ok(all) => Ok(all),
        Err(error) => Err(error),
    }
}
