// Whether two induced representations are apart.
ghost use Rattle.std.specs.Prelude.{◌≡◌, ◌↔◌, true, IfOk, OnErr};
ghost use Rattle.cyclo24.specs.ExactK24.{k24, k24_laws};
ghost use Rattle.super_group.specs.Quotient.{quotient_group};
ghost use Rattle.induce.specs.InducedView.{IsInducedOf};
ghost use Rattle.induce.specs.Apart.{AreApart, weights_by};
ghost use Rattle.char_orth.specs.Wide.{IsWideApart};

use crate::product::inner_product;
use cyclo24::{Field, Wide};
use induce::Induced;
use super_group::Quotient;

/// Whether two representations are apart: the weights of each are the same on q and on q^-1, and for
/// each p the sum over all q of the left weight of q times the right weight of q^-1 p is 0. The first
/// holds of all induced representations, so that the sum at the identity is that of the left weight of
/// q times the right weight of q; and that sum decides, since it is the order times a whole number,
/// which is 0 only where the sum at each p is. Condition: both are of this quotient. Errors: a number
/// that is too wide.
pub fn apart(quotient: &Quotient, left: &Induced, right: &Induced) -> Result<bool, Wide>
    requires left { IsInducedOf quotient.now left.now }
    requires right { IsInducedOf quotient.now right.now }
    ensures exact { IfOk result (λ yes. (yes ≡ true) ↔ AreApart k24_laws (quotient_group quotient.now) (weights_by left.now) (weights_by right.now)) }
    ensures wide { OnErr result (IsWideApart k24 (quotient_group quotient.now) (weights_by left.now) (weights_by right.now)) }
{
    let sum = inner_product(left.weights(), right.weights())?;
    Ok(sum.is_zero())
}
