// Whether products of matrices are wide, as short values show it.
ghost use Rattle.std.specs.Prelude.{◌≡◌, ◌<◌, ◌+◌, ◌*◌, ℕ, true, IfSome, OnOk, OnErr, length};
ghost use Rattle.cyclo24.specs.K24.{exact24};
ghost use Rattle.cyclo24.specs.ShortK24.{exact_short};
ghost use Rattle.cyclo24.specs.ExactK24.{k24, k24_laws};
ghost use Rattle.lin_alg.specs.Matrix.{entry, IsWideDot};

use crate::matrices::check_products;
use cyclo24::{K24, ShortK24, Wide};
use lin_alg::{Matrix, zeros};
use std::alloc::Global;

// Writes row i of the matrix in short values. False where a value isn't short.
fn fill_row(into: &mut Matrix<ShortK24>, i: usize, matrix: &Matrix<K24>) -> bool
    requires place { i < into.old.rows }
    requires row { i < matrix.now.rows }
    requires cols { into.old.cols ≡ matrix.now.cols }
    ensures rows { into.new.rows ≡ into.old.rows }
    ensures cols { into.new.cols ≡ into.old.cols }
    ensures row { (result ≡ true) → (j : ℕ) → j < matrix.now.cols → entry k24_laws exact_short into.new i j ≡ entry k24_laws exact24 matrix.now i j }
    ensures others { (k l : ℕ) → (k ≡ i → ⊥) → entry k24_laws exact_short into.new k l ≡ entry k24_laws exact_short into.old k l }
{
    for j in 0..matrix.cols() {
        match ShortK24::from_k24(matrix.get(i, j)) {
            Some(short) => into.set(i, j, short),
            None => return false,
        }
    }
    true
}

// The matrix in short values. None where a value isn't short, or for want of memory.
fn short_matrix(alloc: Global, matrix: &Matrix<K24>) -> Option<Matrix<ShortK24>>
    ensures rows { IfSome result (λ m. m.rows ≡ matrix.now.rows) }
    ensures cols { IfSome result (λ m. m.cols ≡ matrix.now.cols) }
    ensures entries { IfSome result (λ m. (i j : ℕ) → i < matrix.now.rows → j < matrix.now.cols → entry k24_laws exact_short m i j ≡ entry k24_laws exact24 matrix.now i j) }
{
    let rows = matrix.rows();
    let Ok(mut short) = Matrix::new(alloc, rows, matrix.cols()) else {
        return None;
    };
    for i in 0..rows {
        if !fill_row(&mut short, i, matrix) {
            return None;
        }
    }
    Some(short)
}

// Whether no product of a row of the left matrix and a square matrix of the right is wide, as short
// values show it. False says nothing.
fn are_narrow(alloc: Global, left: &Matrix<K24>, right: &Matrix<K24>, count: usize) -> bool
    requires square { left.now.cols ≡ right.now.cols }
    requires rows { right.now.rows ≡ count * left.now.cols }
    ensures { (result ≡ true) → (p r j : ℕ) → p < left.now.rows → r < count → j < left.now.cols → IsWideDot k24 left.now.cols (entry k24_laws exact24 left.now p) (λ k. entry k24_laws exact24 right.now (r * left.now.cols + k) j) → ⊥ }
{
    let Some(a) = short_matrix(alloc, left) else {
        return false;
    };
    let Some(b) = short_matrix(alloc, right) else {
        return false;
    };
    let Ok(mut room) = zeros(alloc, b.cols()) else {
        return false;
    };
    check_products(&a, &b, count, &mut room).is_ok()
}

// Whether no product of a row of the left matrix and a square matrix of the right is wide. Short values
// are tried first, which are computed faster. The lent row is only room for the products.
pub(crate) fn check_matrices(
    alloc: Global,
    left: &Matrix<K24>,
    right: &Matrix<K24>,
    count: usize,
    room: &mut [K24],
) -> Result<(), Wide>
    requires square { left.now.cols ≡ right.now.cols }
    requires rows { right.now.rows ≡ count * left.now.cols }
    requires room { length room.old ≡ right.now.cols }
    ensures narrow { OnOk result ((p r j : ℕ) → p < left.now.rows → r < count → j < left.now.cols → IsWideDot k24 left.now.cols (entry k24_laws exact24 left.now p) (λ k. entry k24_laws exact24 right.now (r * left.now.cols + k) j) → ⊥) }
    ensures wide { OnErr result ((p r j : ℕ) × (p < left.now.rows) × (r < count) × (j < left.now.cols) × IsWideDot k24 left.now.cols (entry k24_laws exact24 left.now p) (λ k. entry k24_laws exact24 right.now (r * left.now.cols + k) j)) }
{
    if are_narrow(alloc, left, right, count) {
        return Ok(());
    }
    check_products(left, right, count, room)
}
