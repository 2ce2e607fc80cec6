// Rows cut to columns.
ghost use Rattle.std.specs.Prelude.{◌≡◌, ◌<◌, ◌*◌, ◌^◌, ℕ, [], IfOk, length, slice_index, slice_index_or};
ghost use Rattle.lin_alg.specs.Matrix.{entry as entry_of};
ghost use Rattle.lin_alg.specs.Rows.{vector};
ghost use Rattle.mode_project.specs.Amplitudes.{cut_to, cut_row};
ghost use Rattle.mode_project.specs.Joined.{lines_in, joined_rows_in, AreLong};

use crate::table::put_row;
use cyclo24::Field;
use iso_text::NoMemory;
use lin_alg::Matrix;
use std::alloc::Global;

// Row i.
pub(crate) fn line<F: Field>(rows: &[(usize, Vec<F>)], i: usize) -> &[F]
    requires { i < length rows.now }
    ensures { result.now ≡ (slice_index_or (lines_in rows.now) i (0, [])).1 }
{
    &rows[i].1
}

// The entries of a row at the columns, in their order.
pub(crate) fn cut<F: Field>(alloc: Global, row: &[F], columns: &[usize]) -> Result<Vec<F>, NoMemory>
    requires { (k : ℕ) → k < length columns.now → slice_index columns.now k < length row.now }
    ensures len { IfOk result (λ v. length v.items ≡ length columns.now) }
    ensures entries { IfOk result (λ v. vector F.field.laws F.value v.items ≡ cut_to F.field.laws columns.now (vector F.field.laws F.value row.now)) }
{
    let mut entries = Vec::with_capacity(alloc, columns.len())?;
    for k in 0..columns.len() {
        match entries.push(row[columns[k]]) {
            Ok(()) => {}
            Err(_) => return Err(NoMemory),
        }
    }
    Ok(entries)
}

// The rows cut to the columns.
pub(crate) fn cut_table<F: Field>(
    alloc: Global,
    rows: &[(usize, Vec<F>)],
    columns: &[usize],
) -> Result<Matrix<F>, NoMemory>
    requires small { length rows.now * length columns.now < 2 ^ 32 }
    requires inside { (d : ℕ) × AreLong d (lines_in rows.now) × ((k : ℕ) → k < length columns.now → slice_index columns.now k < d) }
    ensures rows { IfOk result (λ m. m.rows ≡ length rows.now) }
    ensures cols { IfOk result (λ m. m.cols ≡ length columns.now) }
    ensures entries { IfOk result (λ m. (i : ℕ) → i < length rows.now → entry_of F.field.laws F.value m i ≡ cut_row F.field.laws columns.now (joined_rows_in F.field.laws F.value rows.now) i) }
{
    let mut table = Matrix::new(alloc, rows.len(), columns.len())?;
    for i in 0..rows.len() {
        match cut(alloc, line(rows, i), columns) {
            Ok(entries) => put_row(&mut table, i, &entries),
            Err(error) => return Err(error),
        }
    }
    Ok(table)
}
