// Characters and their norms.
ghost use Rattle.std.specs.Prelude.{◌≡◌, ◌<◌, ◌+◌, IfOk, OnErr, length};
ghost use Rattle.cyclo24.specs.K24.{exact24};
ghost use Rattle.cyclo24.specs.Z24.{exact_z24};
ghost use Rattle.small_rep.specs.SmallRep.{norm_of, norms_of, character_sum};
ghost use Rattle.small_rep.specs.Check.{IsWideNorm, IsWideCharacter, IsWideSum};
ghost use Rattle.small_rep.specs.Rep.{matrices_of};

use crate::SmallRep;
use cyclo24::{Field, K24, Wide, Z24};

/// |x|^2.
fn norm(x: Z24) -> Result<Z24, Wide>
    ensures exact { IfOk result (λ r. exact_z24 r ≡ norm_of (exact_z24 x)) }
    ensures wide { OnErr result (IsWideNorm (exact_z24 x)) }
{
    let conjugate = x.conj()?;
    x.mul(conjugate)
}

/// The sum so far, and |character|^2 of rotation k of the little group.
fn add_norm(rep: &SmallRep, sum: Z24, k: usize) -> Result<Z24, Wide>
    requires listed { k < length rep.now.little }
    requires sum { exact_z24 sum ≡ norms_of rep.now.little rep.now.size (matrices_of rep.now) k }
    ensures exact { IfOk result (λ r. exact_z24 r ≡ norms_of rep.now.little rep.now.size (matrices_of rep.now) (k + 1)) }
    ensures wide { OnErr result (IsWideCharacter rep.now.little rep.now.size (matrices_of rep.now) k) }
{
    let character = rep.matrix(rep.rotation(k)).trace()?;
    let square = norm(character)?;
    sum.add(square)
}

/// The sum of |character|^2 over the little group.
pub fn sum_of_norms(rep: &SmallRep) -> Result<K24, Wide>
    ensures exact { IfOk result (λ r. exact24 r ≡ character_sum rep.now.little rep.now.size (matrices_of rep.now)) }
    ensures wide { OnErr result (IsWideSum rep.now.little rep.now.size (matrices_of rep.now)) }
{
    let mut sum = Z24::zero();
    for k in 0..rep.count() {
        sum = add_norm(rep, sum, k)?;
    }
    sum.real_part()
}
