// The law of ordered pairs.
ghost use Rattle.std.specs.Prelude.{◌≡◌, ◌<◌, ℕ, true, false, Ok, Some, None, OnErr, length};
ghost use Rattle.small_rep.specs.RepCheck.{PairMultiplies, AllPairsMultiply, IsWideTablePair};

use crate::SmallRep;
use crate::products::multiply_to;
use cyclo24::{Wide, Z24};

/// Whether the matrices of ordered pair e of the little group multiply with its phase.
fn multiplies(rep: &SmallRep, e: usize) -> Result<bool, Wide>
    requires { e < length rep.now.pairs }
    ensures yes { result ≡ Ok true → PairMultiplies rep.now e }
    ensures no { result ≡ Ok false → PairMultiplies rep.now e → ⊥ }
    ensures wide { OnErr result (IsWideTablePair rep.now e) }
{
    let count = rep.count();
    let pair = rep.pair(e);
    let left = rep.matrix(rep.rotation(e / count));
    let right = rep.matrix(rep.rotation(e % count));
    let product = rep.matrix(pair.product);
    multiply_to(left, right, Z24::root(pair.power), product)
}

/// The number of the first ordered pair whose matrices don't multiply.
pub fn first_failing(rep: &SmallRep) -> Result<Option<usize>, Wide>
    ensures none { result ≡ Ok None → AllPairsMultiply rep.now }
    ensures some { (e : ℕ) → result ≡ Ok (Some e) → (e < length rep.now.pairs) × ((i : ℕ) → i < e → PairMultiplies rep.now i) × (PairMultiplies rep.now e → ⊥) }
    ensures wide { OnErr result ((e : ℕ) × (e < length rep.now.pairs) × IsWideTablePair rep.now e) }
{
    let count = rep.count();
    for e in 0..count * count {
        match multiplies(rep, e) {
            Ok(true) => {}
            Ok(false) => return Ok(Some(e)),
            Err(error) => return Err(error),
        }
    }
    Ok(None)
}
