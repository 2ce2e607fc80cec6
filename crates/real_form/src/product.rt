// Products of rows and matrices.
ghost use Rattle.std.specs.Prelude.{◌≡◌, ◌<◌, ◌≤◌, ◌+◌, ◌*◌, ◌^◌, ◌↔◌, ◌⊎◌, ℕ, IfOk, OnOk, OnErr, IsErr, length};
ghost use Rattle.lin_alg.specs.Rows.{vector};
ghost use Rattle.lin_alg.specs.Matrices.{mul};
ghost use Rattle.lin_alg.specs.Matrix.{entry, IsWideTerm, IsWideDot};
ghost use Rattle.cyclo24.specs.Sums.{total};
ghost use Rattle.real_form.specs.Products.{IsWideRow};

use cyclo24::{Field, Wide};
use lin_alg::{Matrix, add_product};

// Sets each entry to 0.
pub(crate) fn clear<F: Field>(row: &mut [F])
    ensures { vector F.field.laws F.value row.new ≡ (λ _. F.field.laws.nought) }
{
    for j in 0..row.len() {
        row[j] = F::zero();
    }
}

// Adds x times row k of the matrix to the row.
fn add_multiple<F: Field>(into: &mut [F], x: F, right: &Matrix<F>, k: usize) -> Result<(), Wide>
    requires row { k < right.now.rows }
    requires room { length into.old ≡ right.now.cols }
    ensures exact { OnOk result ((j : ℕ) → j < right.now.cols → vector F.field.laws F.value into.new j ≡ F.field.laws.plus (vector F.field.laws F.value into.old j) (F.field.laws.times (F.value x) (entry F.field.laws F.value right.now k j))) }
    ensures wide { OnErr result ((j : ℕ) × (j < right.now.cols) × IsWideTerm F.field (vector F.field.laws F.value into.old j) (F.value x) (entry F.field.laws F.value right.now k j)) }
    ensures narrow { OnOk result ((j : ℕ) → j < right.now.cols → IsWideTerm F.field (vector F.field.laws F.value into.old j) (F.value x) (entry F.field.laws F.value right.now k j) → ⊥) }
{
    if x.is_zero() {
        return Ok(());
    }
    for j in 0..into.len() {
        into[j] = add_product(into[j], x, right.get(k, j))?;
    }
    Ok(())
}

// Row p of the left matrix times the square matrix whose first row is that one of the right. The
// products are added row by row of that matrix, each sum from left to right; a factor 0 costs no more
// than its test.
pub(crate) fn product_row<F: Field>(
    left: &Matrix<F>,
    p: usize,
    right: &Matrix<F>,
    first: usize,
    into: &mut [F],
) -> Result<(), Wide>
    requires place { p < left.now.rows }
    requires rows { first + left.now.cols ≤ right.now.rows }
    requires room { length into.old ≡ right.now.cols }
    requires small { right.now.rows < 2 ^ 64 }
    ensures exact { OnOk result ((j : ℕ) → j < right.now.cols → vector F.field.laws F.value into.new j ≡ total F.field.laws left.now.cols (λ k. F.field.laws.times (entry F.field.laws F.value left.now p k) (entry F.field.laws F.value right.now (first + k) j))) }
    ensures wide { OnErr result ((j : ℕ) × (j < right.now.cols) × IsWideDot F.field left.now.cols (entry F.field.laws F.value left.now p) (λ k. entry F.field.laws F.value right.now (first + k) j)) }
    ensures narrow { OnOk result ((j : ℕ) → j < right.now.cols → IsWideDot F.field left.now.cols (entry F.field.laws F.value left.now p) (λ k. entry F.field.laws F.value right.now (first + k) j) → ⊥) }
{
    clear(into);
    for k in 0..left.cols() {
        add_multiple(into, left.get(p, k), right, first + k)?;
    }
    Ok(())
}
