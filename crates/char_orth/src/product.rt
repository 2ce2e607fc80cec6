// The inner product of two lists of weights.
ghost use Rattle.std.specs.Prelude.{◌≡◌, IfOk, OnErr, length};
ghost use Rattle.cyclo24.specs.Sums.{total};
ghost use Rattle.lin_alg.specs.Matrix.{IsWideDot};
ghost use Rattle.lin_alg.specs.Rows.{vector};

use cyclo24::{Field, Wide};
use lin_alg::add_product;

/// The sum, by number of q, of the left weight of q times the right weight of q. A product with a
/// factor 0 isn't formed.
pub fn inner_product<F: Field>(left: &[F], right: &[F]) -> Result<F, Wide>
    requires { length right.now ≡ length left.now }
    ensures exact { IfOk result (λ r. F.value r ≡ total F.field.laws (length left.now) (λ q. F.field.laws.times (vector F.field.laws F.value left.now q) (vector F.field.laws F.value right.now q))) }
    ensures wide { OnErr result (IsWideDot F.field (length left.now) (vector F.field.laws F.value left.now) (vector F.field.laws F.value right.now)) }
{
    let mut sum = F::zero();
    for q in 0..left.len() {
        sum = add_product(sum, left[q], right[q])?;
    }
    Ok(sum)
}
