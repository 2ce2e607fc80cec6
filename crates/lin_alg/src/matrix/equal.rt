// Whether entries are those that are wanted.
ghost use Rattle.std.specs.Prelude.{◌≡◌, true, false, Ok, OnErr};
ghost use Rattle.lin_alg.specs.Matrix.{entry, IsWideMultiple};
ghost use Rattle.lin_alg.specs.Matrices.{AreEqualBelow, unit_entry, multiple};

use super::Matrix;
use cyclo24::{Field, Wide};

/// Whether two values are equal.
pub fn are_equal<F: Field>(x: F, y: F) -> bool
    ensures yes { result ≡ true → F.value x ≡ F.value y }
    ensures no { result ≡ false → F.value x ≡ F.value y → ⊥ }
{
    x == y
}

// The entry of the unit matrix.
fn unit_at<F: Field>(i: usize, j: usize) -> F
    ensures { F.value result ≡ unit_entry F.field.laws i j }
{
    if i == j { F::one() } else { F::zero() }
}

impl<F: Field> Matrix<F> {
    /// Whether the square matrix is the unit matrix.
    pub fn is_unit(&self) -> bool
        requires { self.now.rows ≡ self.now.cols }
        ensures yes { result ≡ true → AreEqualBelow self.now.rows (entry F.field.laws F.value self.now) (unit_entry F.field.laws) }
        ensures no { result ≡ false → AreEqualBelow self.now.rows (entry F.field.laws F.value self.now) (unit_entry F.field.laws) → ⊥ }
    {
        let size = self.rows();
        for e in 0..size * size {
            if !are_equal(self.get(e / size, e % size), unit_at(e / size, e % size)) {
                return false;
            }
        }
        true
    }

    /// Whether the square matrix is a factor times another one of its size. The products are formed
    /// row by row, up to the first entry that differs.
    pub fn is_multiple(&self, factor: F, other: &Matrix<F>) -> Result<bool, Wide>
        requires square { self.now.rows ≡ self.now.cols }
        requires rows { other.now.rows ≡ self.now.rows }
        requires cols { other.now.cols ≡ self.now.rows }
        ensures yes { result ≡ Ok true → AreEqualBelow self.now.rows (entry F.field.laws F.value self.now) (multiple F.field.laws (F.value factor) (entry F.field.laws F.value other.now)) }
        ensures no { result ≡ Ok false → AreEqualBelow self.now.rows (entry F.field.laws F.value self.now) (multiple F.field.laws (F.value factor) (entry F.field.laws F.value other.now)) → ⊥ }
        ensures wide { OnErr result (IsWideMultiple F.field self.now.rows (F.value factor) (entry F.field.laws F.value other.now)) }
    {
        let size = self.rows();
        for e in 0..size * size {
            let wanted = factor.mul(other.get(e / size, e % size))?;
            if !are_equal(self.get(e / size, e % size), wanted) {
                return Ok(false);
            }
        }
        Ok(true)
    }
}
