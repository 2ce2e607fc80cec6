// The representatives of the arms, as numbers of the quotient.
ghost use Rattle.std.specs.Prelude.{◌≡◌, IfOk};
ghost use Rattle.kstar.specs.Star.{IsStarOf};
ghost use Rattle.induce.specs.Arms.{AreArmNumbers};

use iso_text::NoMemory;
use kstar::Star;
use std::alloc::Global;
use super_group::Quotient;

/// The numbers of the representative of an arm and of its inverse.
#[derive(Clone, Copy, Debug, PartialEq, Eq)]
pub struct ArmNumber {
    pub forth: usize,
    pub back: usize,
}

/// The numbers of the representatives of the arms.
pub fn arm_numbers(
    alloc: Global,
    quotient: &Quotient,
    star: &Star,
) -> Result<Vec<ArmNumber>, NoMemory>
    requires { IsStarOf quotient.now.parent star.now.row star.now }
    ensures { IfOk result (λ arms. AreArmNumbers quotient.now star.now arms.items) }
{
    let _order = quotient.order();
    let mut arms: Vec<ArmNumber> = Vec::new(alloc);
    for i in 0..star.arms() {
        let forth = quotient.number(quotient.group().op(star.by(i)));
        let back = quotient.inverse(forth);
        match arms.push(ArmNumber { forth, back }) {
            Ok(()) => {}
            Err(_) => return Err(NoMemory),
        }
    }
    Ok(arms)
}
