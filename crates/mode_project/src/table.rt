// The rows of a form, as vectors and as a matrix.
ghost use Rattle.std.specs.Prelude.{◌≡◌, ◌<◌, ◌*◌, ◌^◌, ℕ, [], Err, IfOk, length, slice_index_or};
ghost use Rattle.lin_alg.specs.Matrix.{entry as entry_of};
ghost use Rattle.lin_alg.specs.Rows.{vector, exact_rows};
ghost use Rattle.lin_alg.specs.Spans.{row_vectors};
ghost use Rattle.lin_alg.specs.declared.errors.LinError.TheVariants as lin_error;
ghost use Rattle.mode_project.specs.Modes.{vector_at};
ghost use Rattle.mode_project.specs.Parts.{rows_in, AreVectors};

use crate::joint::copied;
use cyclo24::Field;
use iso_text::NoMemory;
use lin_alg::{Echelon, LinError, Matrix};
use std::alloc::Global;

// The rows of a form.
pub(crate) fn rows_of<F: Field>(alloc: Global, form: &Echelon<F>) -> Result<Vec<Vec<F>>, LinError>
    ensures rows { IfOk result (λ vs. AreVectors F.field.laws F.value form.now.width (vector_at F.field.laws (row_vectors (exact_rows F.field.laws F.value form.now.rows))) (rows_in vs.items) (length form.now.rows)) }
    ensures memory { result ≡ Err lin_error.Wide → ⊥ }
{
    let _whole = form.is_whole();
    let mut rows = Vec::new(alloc);
    for k in 0..form.len() {
        let row = match copied(alloc, form.row(k)) {
            Ok(row) => row,
            Err(error) => return Err(error),
        };
        match rows.push(row) {
            Ok(()) => {}
            Err(_) => return Err(LinError::NoMemory),
        }
    }
    Ok(rows)
}

// Writes row i.
pub(crate) fn put_row<F: Field>(table: &mut Matrix<F>, i: usize, row: &[F])
    requires place { i < table.old.rows }
    requires width { length row.now ≡ table.old.cols }
    ensures rows { table.new.rows ≡ table.old.rows }
    ensures cols { table.new.cols ≡ table.old.cols }
    ensures here { entry_of F.field.laws F.value table.new i ≡ vector F.field.laws F.value row.now }
    ensures others { (k : ℕ) → (k ≡ i → ⊥) → entry_of F.field.laws F.value table.new k ≡ entry_of F.field.laws F.value table.old k }
{
    for j in 0..row.len() {
        table.set(i, j, row[j]);
    }
}

// The rows of a form as a matrix.
pub(crate) fn table_of<F: Field>(alloc: Global, form: &Echelon<F>) -> Result<Matrix<F>, NoMemory>
    requires small { length form.now.rows * form.now.width < 2 ^ 32 }
    ensures rows { IfOk result (λ m. m.rows ≡ length form.now.rows) }
    ensures cols { IfOk result (λ m. m.cols ≡ form.now.width) }
    ensures entries { IfOk result (λ m. (i : ℕ) → i < m.rows → entry_of F.field.laws F.value m i ≡ vector_at F.field.laws (row_vectors (exact_rows F.field.laws F.value form.now.rows)) i) }
{
    let _whole = form.is_whole();
    let mut table = Matrix::new(alloc, form.len(), form.width())?;
    for i in 0..form.len() {
        put_row(&mut table, i, form.row(i));
    }
    Ok(table)
}
