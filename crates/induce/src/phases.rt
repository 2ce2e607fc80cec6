// The phases of the translations of the supercell on the arms.
ghost use Rattle.std.specs.Prelude.{◌≡◌, ◌<◌, ◌*◌, ℕ, IfOk, length};
ghost use Rattle.super_group.specs.Quotient.{element_of};
ghost use Rattle.induce.specs.Induced.{IsStarOn, part_phase};
ghost use Rattle.induce.specs.Arms.{AreArmNumbers};
ghost use Rattle.induce.specs.Tables.{ArePhases};

use crate::arms::ArmNumber;
use crate::turned::turned;
use iso_text::NoMemory;
use kstar::Star;
use std::alloc::Global;
use super_group::Quotient;

/// The phase of r_j^-1 {E|t} r_j, for translation t of the supercell: that of R_j^-1 t.
fn phase_of_translation(
    quotient: &Quotient,
    star: &Star,
    arms: &[ArmNumber],
    j: usize,
    t: usize,
) -> u8
    requires star { IsStarOn quotient.now star.now }
    requires arms { AreArmNumbers quotient.now star.now arms.now }
    requires arm { j < length star.now.by }
    requires translation { t < length quotient.now.translations }
    ensures { result ≡ part_phase quotient.now.parent star.now (element_of quotient.now t) j j }
{
    let back = quotient
        .group()
        .op(arms[j].back / quotient.translations().len());
    star.power(turned(back.rot, quotient.translations()[t]))
}

/// The phases of all translations on all arms, arm by arm.
pub fn phases(
    alloc: Global,
    quotient: &Quotient,
    star: &Star,
    arms: &[ArmNumber],
) -> Result<Vec<u8>, NoMemory>
    requires star { IsStarOn quotient.now star.now }
    requires arms { AreArmNumbers quotient.now star.now arms.now }
    ensures { IfOk result (λ phases. ArePhases quotient.now star.now phases.items (length star.now.by * length quotient.now.translations)) }
{
    let _order = quotient.order();
    let count = quotient.translations().len();
    let mut phases: Vec<u8> = Vec::new(alloc);
    for d in 0..star.arms() * count {
        match phases.push(phase_of_translation(quotient, star, arms, d / count, d % count)) {
            Ok(()) => {}
            Err(_) => return Err(NoMemory),
        }
    }
    Ok(phases)
}
