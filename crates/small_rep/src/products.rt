// Products of square matrices, compared entry by entry without being kept.
ghost use Rattle.std.specs.Prelude.{◌≡◌, ◌<◌, ◌⊎◌, ℕ, true, false, Ok, IfOk, OnErr, IsTrue};
ghost use Rattle.lin_alg.specs.Matrix.{entry, IsWideDot, IsWideMul, IsWideMultiple};
ghost use Rattle.lin_alg.specs.Matrices.{AreEqualBelow, mul, multiple};
ghost use Rattle.small_rep.specs.Products.{AreOfSize, IsEntry, IsWideEntry};

use cyclo24::{Field, Wide};
use lin_alg::{Matrix, add_product, are_equal};

/// The product of a factor and a number. It isn't formed where the factor is 1 or the number 0.
pub fn times<F: Field>(factor: F, x: F) -> Result<F, Wide>
    ensures exact { IfOk result (λ r. F.value r ≡ F.field.laws.times (F.value factor) (F.value x)) }
    ensures wide { OnErr result (IsTrue (F.field.is_wide_product (F.value factor) (F.value x))) }
{
    if x.is_zero() {
        return Ok(x);
    }
    if are_equal(factor, F::one()) {
        return Ok(x);
    }
    factor.mul(x)
}

/// Row i times column j.
fn row_times_column<F: Field>(a: &Matrix<F>, b: &Matrix<F>, i: usize, j: usize) -> Result<F, Wide>
    requires inner { a.now.cols ≡ b.now.rows }
    requires row { i < a.now.rows }
    requires column { j < b.now.cols }
    ensures exact { IfOk result (λ x. F.value x ≡ mul F.field.laws a.now.cols (entry F.field.laws F.value a.now) (entry F.field.laws F.value b.now) i j) }
    ensures wide { OnErr result (IsWideDot F.field a.now.cols (entry F.field.laws F.value a.now i) (λ k. entry F.field.laws F.value b.now k j)) }
{
    let mut sum = F::zero();
    for k in 0..a.cols() {
        sum = add_product(sum, a.get(i, k), b.get(k, j))?;
    }
    Ok(sum)
}

/// Whether entry (i, j) of the product of a and b is a factor times that of c.
fn is_entry<F: Field>(
    a: &Matrix<F>,
    b: &Matrix<F>,
    factor: F,
    c: &Matrix<F>,
    i: usize,
    j: usize,
) -> Result<bool, Wide>
    requires size { AreOfSize a.now.cols a.now b.now c.now }
    requires row { i < a.now.cols }
    requires column { j < a.now.cols }
    ensures yes { result ≡ Ok true → IsEntry F.field F.value a.now.cols (F.value factor) a.now b.now c.now i j }
    ensures no { result ≡ Ok false → IsEntry F.field F.value a.now.cols (F.value factor) a.now b.now c.now i j → ⊥ }
    ensures wide { OnErr result (IsWideEntry F.field F.value a.now.cols (F.value factor) a.now b.now c.now i j) }
{
    let product = row_times_column(a, b, i, j)?;
    let wanted = times(factor, c.get(i, j))?;
    Ok(are_equal(product, wanted))
}

/// Whether row i of the product of a and b is a factor times that of c.
fn is_row<F: Field>(
    a: &Matrix<F>,
    b: &Matrix<F>,
    factor: F,
    c: &Matrix<F>,
    i: usize,
) -> Result<bool, Wide>
    requires size { AreOfSize a.now.cols a.now b.now c.now }
    requires row { i < a.now.cols }
    ensures yes { result ≡ Ok true → (j : ℕ) → j < a.now.cols → IsEntry F.field F.value a.now.cols (F.value factor) a.now b.now c.now i j }
    ensures no { result ≡ Ok false → ((j : ℕ) → j < a.now.cols → IsEntry F.field F.value a.now.cols (F.value factor) a.now b.now c.now i j) → ⊥ }
    ensures wide { OnErr result ((j : ℕ) × (j < a.now.cols) × IsWideEntry F.field F.value a.now.cols (F.value factor) a.now b.now c.now i j) }
{
    for j in 0..a.cols() {
        match is_entry(a, b, factor, c, i, j) {
            Ok(true) => {}
            Ok(false) => return Ok(false),
            Err(error) => return Err(error),
        }
    }
    Ok(true)
}

/// Whether the product of two square matrices is a factor times a third one of their size. The
/// entries are formed row by row, up to the first that differs, and none is kept.
pub fn multiply_to<F: Field>(
    a: &Matrix<F>,
    b: &Matrix<F>,
    factor: F,
    c: &Matrix<F>,
) -> Result<bool, Wide>
    requires { AreOfSize a.now.cols a.now b.now c.now }
    ensures yes { result ≡ Ok true → AreEqualBelow a.now.cols (mul F.field.laws a.now.cols (entry F.field.laws F.value a.now) (entry F.field.laws F.value b.now)) (multiple F.field.laws (F.value factor) (entry F.field.laws F.value c.now)) }
    ensures no { result ≡ Ok false → AreEqualBelow a.now.cols (mul F.field.laws a.now.cols (entry F.field.laws F.value a.now) (entry F.field.laws F.value b.now)) (multiple F.field.laws (F.value factor) (entry F.field.laws F.value c.now)) → ⊥ }
    ensures wide { OnErr result (IsWideMul F.field a.now.cols a.now.cols a.now.cols (entry F.field.laws F.value a.now) (entry F.field.laws F.value b.now) ⊎ IsWideMultiple F.field a.now.cols (F.value factor) (entry F.field.laws F.value c.now)) }
{
    for i in 0..a.cols() {
        match is_row(a, b, factor, c, i) {
            Ok(true) => {}
            Ok(false) => return Ok(false),
            Err(error) => return Err(error),
        }
    }
    Ok(true)
}
