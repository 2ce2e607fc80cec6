// Matrices in a basis.
ghost use Rattle.std.specs.Prelude.{◌≡◌, ◌<◌, ◌≤◌, ◌+◌, ◌*◌, ◌/◌, ◌%◌, ◌^◌, ℕ, IfOk, OnOk, OnErr, Err, length};
ghost use Rattle.cyclo24.specs.K24.{exact24};
ghost use Rattle.cyclo24.specs.Z24.{exact_z24};
ghost use Rattle.cyclo24.specs.ExactK24.{k24, k24_laws};
ghost use Rattle.cyclo24.specs.ExactZ24.{z24, z24_laws};
ghost use Rattle.lin_alg.specs.Rows.{vector};
ghost use Rattle.lin_alg.specs.Matrix.{entry, IsWideDot};
ghost use Rattle.real_form.specs.Complexes.{z24_parts};
ghost use Rattle.std.specs.Prelude.{slice_index};
ghost use Rattle.lin_alg.specs.declared.errors.LinError.TheVariants as lin_error;
ghost use Rattle.real_form.specs.Vectors.{vector_at, AreLong};
ghost use Rattle.super_group.specs.Quotient.{order_of};
ghost use Rattle.induce.specs.Tables.{dimension_in, matrix_in};
ghost use Rattle.induce.specs.InducedView.{IsInducedOf};
ghost use Rattle.real_form.specs.Parts.{orbit};
ghost use Rattle.real_form.specs.Wide.{IsWideImage};

use crate::image::image_part;
use crate::product::product_row;
use cyclo24::{Field, K24, Wide, Z24};
use induce::Induced;
use lin_alg::{LinError, Matrix};
use std::alloc::Global;
use super_group::Quotient;

// Writes column m of the matrices A(0), A(step), A(2 step), .., one below the other: entry i is the
// entry at pivot i of the image of the complex vector w, which is row m of the basis.
fn fill_column(
    into: &mut Matrix<K24>,
    m: usize,
    pivots: &[usize],
    quotient: &Quotient,
    induced: &Induced,
    w: &[Z24],
    step: usize,
) -> Result<(), Wide>
    requires of { IsInducedOf quotient.now induced.now }
    requires length { length w.now ≡ (dimension_in induced.now.tables) }
    requires column { m < into.old.cols }
    requires some { 0 < length pivots.now }
    requires pivots { (i : ℕ) → i < length pivots.now → slice_index pivots.now i < (dimension_in induced.now.tables) + (dimension_in induced.now.tables) }
    requires elements { (k : ℕ) → k < into.old.rows → (k / length pivots.now) * step < order_of quotient.now }
    ensures rows { into.new.rows ≡ into.old.rows }
    ensures cols { into.new.cols ≡ into.old.cols }
    ensures column { OnOk result ((k : ℕ) → k < into.old.rows → entry k24_laws exact24 into.new k m ≡ orbit z24_parts (dimension_in induced.now.tables) (matrix_in quotient.now induced.now.tables) (vector z24_laws exact_z24 w.now) ((k / length pivots.now) * step) (slice_index pivots.now (k % length pivots.now))) }
    ensures others { (k l : ℕ) → (l ≡ m → ⊥) → entry k24_laws exact24 into.new k l ≡ entry k24_laws exact24 into.old k l }
    ensures wide { OnErr result ((q : ℕ) × (q < order_of quotient.now) × IsWideImage (dimension_in induced.now.tables) (matrix_in quotient.now induced.now.tables) q (vector z24_laws exact_z24 w.now)) }
{
    let d = pivots.len();
    let _order = quotient.order();
    for k in 0..into.rows() {
        let x = image_part(quotient, induced, w, (k / d) * step, pivots[k % d])?;
        into.set(k, m, x);
    }
    Ok(())
}

// The matrices A(0), A(step), A(2 step), .., one below the other: column m holds, at the pivots, the
// image of the complex vector that row m of the basis is.
pub(crate) fn stacked(
    alloc: Global,
    vectors: &[Vec<Z24>],
    pivots: &[usize],
    quotient: &Quotient,
    induced: &Induced,
    count: usize,
    step: usize,
) -> Result<Matrix<K24>, LinError>
    requires of { IsInducedOf quotient.now induced.now }
    requires vectors { AreLong (dimension_in induced.now.tables) vectors.now }
    requires square { length vectors.now ≡ length pivots.now }
    requires few { length pivots.now ≤ 24 }
    requires pivots { (i : ℕ) → i < length pivots.now → slice_index pivots.now i < (dimension_in induced.now.tables) + (dimension_in induced.now.tables) }
    requires elements { (k : ℕ) → k < count → k * step < order_of quotient.now }
    requires small { count ≤ 6144 }
    ensures rows { IfOk result (λ m. m.rows ≡ count * length pivots.now) }
    ensures cols { IfOk result (λ m. m.cols ≡ length pivots.now) }
    ensures entries { IfOk result (λ a. (k m : ℕ) → k < count * length pivots.now → m < length pivots.now → entry k24_laws exact24 a k m ≡ orbit z24_parts (dimension_in induced.now.tables) (matrix_in quotient.now induced.now.tables) (vector_at vectors.now m) ((k / length pivots.now) * step) (slice_index pivots.now (k % length pivots.now))) }
    ensures wide { (result ≡ Err lin_error.Wide) → (m q : ℕ) × (m < length pivots.now) × (q < order_of quotient.now) × IsWideImage (dimension_in induced.now.tables) (matrix_in quotient.now induced.now.tables) q (vector_at vectors.now m) }
{
    let d = pivots.len();
    let mut matrices = Matrix::new(alloc, count * d, d)?;
    for m in 0..d {
        match fill_column(
            &mut matrices,
            m,
            pivots,
            quotient,
            induced,
            &vectors[m],
            step,
        ) {
            Ok(()) => {}
            Err(_) => return Err(LinError::Wide),
        }
    }
    Ok(matrices)
}

// Whether no product of a row of the left matrix and a square matrix of the right is wide. The lent
// row is only room for them.
pub(crate) fn check_products<F: Field>(
    left: &Matrix<F>,
    right: &Matrix<F>,
    count: usize,
    room: &mut [F],
) -> Result<(), Wide>
    requires square { left.now.cols ≡ right.now.cols }
    requires rows { right.now.rows ≡ count * left.now.cols }
    requires room { length room.old ≡ right.now.cols }
    ensures narrow { OnOk result ((p r j : ℕ) → p < left.now.rows → r < count → j < left.now.cols → IsWideDot F.field left.now.cols (entry F.field.laws F.value left.now p) (λ k. entry F.field.laws F.value right.now (r * left.now.cols + k) j) → ⊥) }
    ensures wide { OnErr result ((p r j : ℕ) × (p < left.now.rows) × (r < count) × (j < left.now.cols) × IsWideDot F.field left.now.cols (entry F.field.laws F.value left.now p) (λ k. entry F.field.laws F.value right.now (r * left.now.cols + k) j)) }
{
    let _rows = right.rows();
    for p in 0..left.rows() {
        check_row(left, p, right, count, room)?;
    }
    Ok(())
}

// The same for one row of the left matrix.
fn check_row<F: Field>(
    left: &Matrix<F>,
    p: usize,
    right: &Matrix<F>,
    count: usize,
    room: &mut [F],
) -> Result<(), Wide>
    requires square { left.now.cols ≡ right.now.cols }
    requires rows { right.now.rows ≡ count * left.now.cols }
    requires room { length room.old ≡ right.now.cols }
    requires place { p < left.now.rows }
    ensures narrow { OnOk result ((r j : ℕ) → r < count → j < left.now.cols → IsWideDot F.field left.now.cols (entry F.field.laws F.value left.now p) (λ k. entry F.field.laws F.value right.now (r * left.now.cols + k) j) → ⊥) }
    ensures wide { OnErr result ((r j : ℕ) × (r < count) × (j < left.now.cols) × IsWideDot F.field left.now.cols (entry F.field.laws F.value left.now p) (λ k. entry F.field.laws F.value right.now (r * left.now.cols + k) j)) }
{
    let d = left.cols();
    let _rows = right.rows();
    for r in 0..count {
        product_row(left, p, right, r * d, room)?;
    }
    Ok(())
}
