// The parent group modulo the supercell of the wave vectors.
ghost use Rattle.std.specs.Prelude.{◌≡◌, All, IfOk, map};
ghost use Rattle.iso_text.specs.Ranges.{IsBlock};
ghost use Rattle.iso_text.specs.declared.sections.IrrepText.{IrrepText as Irrep};
ghost use Rattle.report_steps.specs.HeldFiles.{AreStarsHeld, IsCelled};
ghost use Rattle.report_steps.specs.Stages.{RefusesOrder};
ghost use Rattle.report_steps.specs.Steps.{Answers};

use crate::context::{Celled, Divided, Parented, Starred};
use crate::list::add;
use crate::refusal::Refusal;
use crate::step::Step;
use iso_text::{IrrepText, NoMemory};
use std::alloc::Global;
use super_group::{Quotient, QuotientError, multipliers};

// The denominators of the wave vectors of irreps.
fn denominators_of(alloc: Global, irreps: &[IrrepText]) -> Result<Vec<[u8; 3]>, NoMemory>
    requires { All IsBlock irreps.now }
    ensures { IfOk result (λ dens. dens.items ≡ map (λ (i : Irrep). map (λ v. v.den) i.k) irreps.now) }
{
    let mut dens: Vec<[u8; 3]> = Vec::new(alloc);
    for irrep in irreps {
        let k = &irrep.k;
        add(&mut dens, [k[0].den, k[1].den, k[2].den])?;
    }
    Ok(dens)
}

/// The quotient of the parent group by the least supercell in which all wave vectors are whole.
pub fn divide(alloc: Global, starred: Starred) -> Result<Step<Celled>, NoMemory>
    requires { AreStarsHeld starred }
    ensures { IfOk result (λ step. Answers (RefusesOrder starred.parented) (IsCelled starred.parented) step) }
{
    let Starred { parented, stars } = starred;
    let Parented { document, group } = parented;
    let dens = denominators_of(alloc, document.irreps())?;
    let d = multipliers(&group, &dens);
    match Quotient::new(alloc, group, d) {
        Ok(quotient) => {
            let divided = Divided { document, quotient };
            Ok(Step::Passed(Celled { divided, stars }))
        }
        Err(QuotientError::TooLargeGroup(order)) => {
            Ok(Step::Refused(Refusal::TooLargeGroup(order)))
        }
        Err(QuotientError::NoMemory) => Err(NoMemory),
    }
}
