// The free basis of a form.
ghost use Rattle.std.specs.Prelude.{◌≡◌, ◌<◌, ◌≤◌, ◌+◌, ◌-◌, ◌*◌, ◌^◌, ℕ, IfOk, length, map, true, false};
ghost use Rattle.std.specs.List.{slice_index};
ghost use Rattle.lin_alg.specs.Reduced.{IsReduced, is_pivot, free_columns as columns_of};
ghost use Rattle.lin_alg.specs.Rows.{vector, exact_rows, HaveWidth};
ghost use Rattle.lin_alg.specs.Equations.{free_vector, unit_vector};
ghost use Rattle.lin_alg.specs.Echelon.{IsSolution};
ghost use Rattle.lin_alg.specs.Matrix.{entry as entry_of, with_entry};

use super::Echelon;
use crate::Matrix;
use crate::elimination::entry;
use cyclo24::Field;
use iso_text::NoMemory;
use std::alloc::Global;

impl<F: Field> Echelon<F> {
    /// The basis of the vectors on which each row vanishes: one vector for each column without pivot,
    /// by rising column, 1 there and 0 at the other such columns.
    pub fn free_basis(&self, alloc: Global) -> Result<Matrix<F>, NoMemory>
        requires whole { self.now.whole ≡ true }
        requires small { (self.now.width - length self.now.rows) * self.now.width < 2 ^ 32 }
        ensures rows { IfOk result (λ m. m.rows ≡ length (columns_of self.now.width self.now.rows)) }
        ensures count { IfOk result (λ m. m.rows + length self.now.rows ≡ self.now.width) }
        ensures cols { IfOk result (λ m. m.cols ≡ self.now.width) }
        ensures vectors { IfOk result (λ m. (i : ℕ) → i < m.rows → (j : ℕ) → entry_of F.field.laws F.value m i j ≡ free_vector F.field.laws (exact_rows F.field.laws F.value self.now.rows) (slice_index (columns_of self.now.width self.now.rows) i) j) }
        ensures units { IfOk result (λ m. (i k : ℕ) → i < m.rows → k < m.rows → entry_of F.field.laws F.value m i (slice_index (columns_of self.now.width self.now.rows) k) ≡ unit_vector F.field.laws (slice_index (columns_of self.now.width self.now.rows) i) (slice_index (columns_of self.now.width self.now.rows) k)) }
        ensures vanishes { IfOk result (λ m. (i : ℕ) → i < m.rows → IsSolution F.field.laws F.value self.now (entry_of F.field.laws F.value m i)) }
    {
        let columns = free_columns(alloc, &self.lines, self.width)?;
        let mut basis = Matrix::new(alloc, columns.len(), self.width)?;
        fill_basis(&mut basis, &columns, &self.lines);
        Ok(basis)
    }
}

// Writes the free vector of each column into its row.
fn fill_basis<F: Field>(basis: &mut Matrix<F>, columns: &[usize], lines: &[(usize, Vec<F>)])
    requires rows { basis.old.rows ≡ length columns.now }
    requires shape { HaveWidth basis.old.cols (map (λ r. (r.0, r.1.items)) lines.now) }
    requires form { IsReduced F.field.laws (exact_rows F.field.laws F.value (map (λ r. (r.0, r.1.items)) lines.now)) }
    requires inside { (i : ℕ) → i < length columns.now → slice_index columns.now i < basis.old.cols }
    requires free { (i : ℕ) → i < length columns.now → is_pivot (slice_index columns.now i) (map (λ r. (r.0, r.1.items)) lines.now) ≡ false }
    requires zero { (i j : ℕ) → entry_of F.field.laws F.value basis.old i j ≡ F.field.laws.nought }
    ensures rows { basis.new.rows ≡ basis.old.rows }
    ensures cols { basis.new.cols ≡ basis.old.cols }
    ensures vectors { (i : ℕ) → i < length columns.now → (j : ℕ) → entry_of F.field.laws F.value basis.new i j ≡ free_vector F.field.laws (exact_rows F.field.laws F.value (map (λ r. (r.0, r.1.items)) lines.now)) (slice_index columns.now i) j }
{
    for i in 0..columns.len() {
        fill_free(basis, i, columns[i], lines);
    }
}

// Whether a row has its pivot at p.
fn has_pivot<F: Field>(lines: &[(usize, Vec<F>)], p: usize) -> bool
    ensures { result ≡ is_pivot p (map (λ r. (r.0, r.1.items)) lines.now) }
{
    for line in lines {
        if p == line.0 {
            return true;
        }
    }
    false
}

// The columns without pivot, rising.
fn free_columns<F: Field>(
    alloc: Global,
    lines: &[(usize, Vec<F>)],
    width: usize,
) -> Result<Vec<usize>, NoMemory>
    ensures { IfOk result (λ v. v.items ≡ columns_of width (map (λ r. (r.0, r.1.items)) lines.now)) }
{
    let mut columns = Vec::new(alloc);
    for j in 0..width {
        if !has_pivot(lines, j) {
            match columns.push(j) {
                Ok(()) => {}
                Err(_) => return Err(NoMemory),
            }
        }
    }
    Ok(columns)
}

// Writes the free vector of column c into row i, which is 0.
fn fill_free<F: Field>(basis: &mut Matrix<F>, i: usize, c: usize, lines: &[(usize, Vec<F>)])
    requires row { i < basis.old.rows }
    requires column { c < basis.old.cols }
    requires shape { HaveWidth basis.old.cols (map (λ r. (r.0, r.1.items)) lines.now) }
    requires form { IsReduced F.field.laws (exact_rows F.field.laws F.value (map (λ r. (r.0, r.1.items)) lines.now)) }
    requires free { is_pivot c (map (λ r. (r.0, r.1.items)) lines.now) ≡ false }
    requires zero { (j : ℕ) → entry_of F.field.laws F.value basis.old i j ≡ F.field.laws.nought }
    ensures rows { basis.new.rows ≡ basis.old.rows }
    ensures cols { basis.new.cols ≡ basis.old.cols }
    ensures others { (k j : ℕ) → (k ≡ i → ⊥) → entry_of F.field.laws F.value basis.new k j ≡ entry_of F.field.laws F.value basis.old k j }
    ensures vector { (j : ℕ) → entry_of F.field.laws F.value basis.new i j ≡ free_vector F.field.laws (exact_rows F.field.laws F.value (map (λ r. (r.0, r.1.items)) lines.now)) c j }
{
    basis.set(i, c, F::one());
    for s in (0..lines.len()).rev() {
        set_pivot(basis, i, c, &lines[s]);
    }
}

// Writes minus the stored row's entry at c into row i, in the column of its pivot.
fn set_pivot<F: Field>(basis: &mut Matrix<F>, i: usize, c: usize, line: &(usize, Vec<F>))
    requires row { i < basis.old.rows }
    requires pivot { line.now.0 < basis.old.cols }
    requires column { c < length line.now.1.items }
    ensures rows { basis.new.rows ≡ basis.old.rows }
    ensures cols { basis.new.cols ≡ basis.old.cols }
    ensures entries { (k l : ℕ) → entry_of F.field.laws F.value basis.new k l ≡ with_entry i line.now.0 (F.field.laws.neg (vector F.field.laws F.value line.now.1.items c)) (entry_of F.field.laws F.value basis.old) k l }
{
    let x = entry(&line.1, c);
    basis.set(i, line.0, x.neg());
}
