// Matrices.
ghost use Rattle.std.specs.Prelude.{◌≡◌, ◌<◌, ◌≤◌, ◌*◌, ◌/◌, ◌%◌, ◌^◌, ◌⊎◌, ℕ, IfOk, OnOk, OnErr, Err, false, IsTrue, length};
ghost use Rattle.lin_alg.specs.Rows.{vector};
ghost use Rattle.lin_alg.specs.Matrix.{entry, with_entry, IsWideTerm, IsWideDot, IsWideMul, IsWideTrace};
ghost use Rattle.lin_alg.specs.Matrices.{mul, trace};
ghost use Rattle.lin_alg.specs.declared.errors.LinError.TheVariants as lin_error;

mod equal;

use crate::LinError;
use crate::memory::zeros;
use cyclo24::{Field, Wide};
pub use equal::are_equal;
use iso_text::NoMemory;
use std::alloc::Global;
use std::marker::Model;

/// A matrix of field values. Rows and columns are numbered from 0.
#[derive(Drop)]
pub struct Matrix<F: Field> {
    rows: usize,
    cols: usize,
    entries: Vec<F>,
}

impl<F: Field> Model for Matrix<F> {
    ghost use Rattle.std.specs.Prelude.{length, ◌≡◌, ◌*◌, ◌<◌, ◌^◌};
    ghost use Rattle.lin_alg.specs.Matrix.{MatrixView};

    ghost Value = { MatrixView F };

    ghost view = { λ m. record { rows = m.rows; cols = m.cols; entries = m.entries.items } };

    ghost invariant = { λ m. (length m.entries.items ≡ m.rows * m.cols) × (m.rows * m.cols < 2 ^ 32) };
}

impl<F: Field> Matrix<F> {
    /// A matrix of zeros.
    pub fn new(alloc: Global, rows: usize, cols: usize) -> Result<Matrix<F>, NoMemory>
        requires { rows * cols < 2 ^ 32 }
        ensures rows { IfOk result (λ m. m.rows ≡ rows) }
        ensures cols { IfOk result (λ m. m.cols ≡ cols) }
        ensures zero { IfOk result (λ m. (i j : ℕ) → entry F.field.laws F.value m i j ≡ F.field.laws.nought) }
    {
        let entries = zeros(alloc, rows * cols)?;
        Ok(Matrix {
            rows,
            cols,
            entries,
        })
    }

    /// How many rows it has.
    pub fn rows(&self) -> usize
        ensures value { result ≡ self.now.rows }
        ensures small { self.now.rows * self.now.cols < 2 ^ 32 }
    {
        self.rows
    }

    /// How many columns it has.
    pub fn cols(&self) -> usize
        ensures { result ≡ self.now.cols }
    {
        self.cols
    }

    /// The entry in row i and column j.
    #[inline(always)]
    pub fn get(&self, i: usize, j: usize) -> F
        requires row { i < self.now.rows }
        requires column { j < self.now.cols }
        ensures { F.value result ≡ entry F.field.laws F.value self.now i j }
    {
        self.entries[i * self.cols + j]
    }

    /// Puts a value into row i and column j.
    pub fn set(&mut self, i: usize, j: usize, value: F)
        requires row { i < self.old.rows }
        requires column { j < self.old.cols }
        ensures rows { self.new.rows ≡ self.old.rows }
        ensures cols { self.new.cols ≡ self.old.cols }
        ensures entries { (k l : ℕ) → entry F.field.laws F.value self.new k l ≡ with_entry i j (F.value value) (entry F.field.laws F.value self.old) k l }
    {
        let at = i * self.cols + j;
        self.entries[at] = value;
    }

    /// The product, row times column. Each entry is a sum of products from left to right; a product
    /// with a factor 0 isn't formed.
    pub fn mul(&self, alloc: Global, other: &Matrix<F>) -> Result<Matrix<F>, LinError>
        requires inner { self.now.cols ≡ other.now.rows }
        requires small { self.now.rows * other.now.cols < 2 ^ 32 }
        ensures rows { IfOk result (λ m. m.rows ≡ self.now.rows) }
        ensures cols { IfOk result (λ m. m.cols ≡ other.now.cols) }
        ensures product { IfOk result (λ m. (i j : ℕ) → entry F.field.laws F.value m i j ≡ mul F.field.laws self.now.cols (entry F.field.laws F.value self.now) (entry F.field.laws F.value other.now) i j) }
        ensures wide { (result ≡ Err lin_error.Wide) → IsWideMul F.field self.now.rows self.now.cols other.now.cols (entry F.field.laws F.value self.now) (entry F.field.laws F.value other.now) }
    {
        let mut entries = zeros(alloc, self.rows * other.cols)?;
        fill_product(&mut entries, self, other)?;
        Ok(Matrix {
            rows: self.rows,
            cols: other.cols,
            entries,
        })
    }

    /// The sum of the entries on the diagonal of the square matrix, from left to right.
    pub fn trace(&self) -> Result<F, Wide>
        requires { self.now.rows ≡ self.now.cols }
        ensures exact { IfOk result (λ r. F.value r ≡ trace F.field.laws self.now.rows (entry F.field.laws F.value self.now)) }
        ensures wide { OnErr result (IsWideTrace F.field self.now.rows (entry F.field.laws F.value self.now)) }
    {
        let mut sum = F::zero();
        for i in 0..self.rows() {
            sum = sum.add(self.get(i, i))?;
        }
        Ok(sum)
    }
}

// Writes the entries of the product, row by row.
fn fill_product<F: Field>(entries: &mut [F], a: &Matrix<F>, b: &Matrix<F>) -> Result<(), Wide>
    requires inner { a.now.cols ≡ b.now.rows }
    requires size { length entries.old ≡ a.now.rows * b.now.cols }
    ensures exact { OnOk result ((p : ℕ) → p < length entries.new → vector F.field.laws F.value entries.new p ≡ mul F.field.laws a.now.cols (entry F.field.laws F.value a.now) (entry F.field.laws F.value b.now) (p / b.now.cols) (p % b.now.cols)) }
    ensures wide { OnErr result (IsWideMul F.field a.now.rows a.now.cols b.now.cols (entry F.field.laws F.value a.now) (entry F.field.laws F.value b.now)) }
{
    for p in 0..entries.len() {
        entries[p] = product_entry(a, b, p / b.cols, p % b.cols)?;
    }
    Ok(())
}

// Row i times column j.
fn product_entry<F: Field>(a: &Matrix<F>, b: &Matrix<F>, i: usize, j: usize) -> Result<F, Wide>
    requires inner { a.now.cols ≡ b.now.rows }
    requires row { i < a.now.rows }
    requires column { j < b.now.cols }
    ensures exact { IfOk result (λ x. F.value x ≡ mul F.field.laws a.now.cols (entry F.field.laws F.value a.now) (entry F.field.laws F.value b.now) i j) }
    ensures wide { OnErr result (IsWideDot F.field a.now.cols (entry F.field.laws F.value a.now i) (λ k. entry F.field.laws F.value b.now k j)) }
{
    let mut sum = F::zero();
    for k in 0..a.cols {
        sum = add_product(sum, a.get(i, k), b.get(k, j))?;
    }
    Ok(sum)
}

/// The sum and the product x y, one step of a row times a column. A product with a factor 0 isn't
/// formed, and a product alone isn't added.
// Called in inner loops on numbers of up to 144 bytes, most of them 0: inlined, it copies none of these.
#[inline(always)]
pub fn add_product<F: Field>(sum: F, x: F, y: F) -> Result<F, Wide>
    ensures exact { IfOk result (λ r. F.value r ≡ F.field.laws.plus (F.value sum) (F.field.laws.times (F.value x) (F.value y))) }
    ensures wide { OnErr result (IsWideTerm F.field (F.value sum) (F.value x) (F.value y)) }
    ensures narrow { OnOk result (IsWideTerm F.field (F.value sum) (F.value x) (F.value y) → ⊥) }
{
    if x.is_zero() {
        return Ok(sum);
    }
    if y.is_zero() {
        return Ok(sum);
    }
    let product = x.mul(y)?;
    if sum.is_zero() {
        return Ok(product);
    }
    let more = sum.add(product)?;
    Ok(more)
}
