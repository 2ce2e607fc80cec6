// The stars of the wave vectors of a file.
ghost use Rattle.std.specs.Prelude.{All, IfOk};
ghost use Rattle.iso_text.specs.Ranges.{IsBlock, IsInRange};
ghost use Rattle.report_steps.specs.Held.{IsStarHeld};
ghost use Rattle.report_steps.specs.HeldFiles.{IsStarred};
ghost use Rattle.report_steps.specs.IrrepSteps.{IsFirstRefused, Each};
ghost use Rattle.report_steps.specs.Irreps.{HasPhase, RefusesPhase};
ghost use Rattle.report_steps.specs.Stages.{RefusesPhases};
ghost use Rattle.report_steps.specs.Steps.{Answers};

use crate::context::{Parented, Starred};
use crate::list::add;
use crate::refusal::Refusal;
use crate::step::Step;
use iso_text::{IrrepText, NoMemory};
use kstar::{KVector, Star, StarError};
use space_ops::Group;
use std::alloc::Global;

// The star of the wave vector of an irrep, or its first phase that is no multiple of 1/24.
fn star_of(alloc: Global, group: &Group, irrep: &IrrepText) -> Result<Step<Star>, NoMemory>
    requires { IsBlock irrep.now }
    ensures { IfOk result (λ step. Answers (RefusesPhase group.now irrep.now) (IsStarHeld group.now irrep.now) step) }
{
    let k = KVector { parts: irrep.k };
    match Star::new(alloc, group, k) {
        Ok(star) => Ok(Step::Passed(star)),
        Err(StarError::BadPhase(phase)) => {
            Ok(Step::Refused(Refusal::BadPhase(irrep.name, phase)))
        }
        Err(StarError::NoMemory) => Err(NoMemory),
    }
}

// The star of each irrep, or the first refusal.
fn all_stars(
    alloc: Global,
    group: &Group,
    irreps: &[IrrepText],
) -> Result<Step<Vec<Star>>, NoMemory>
    requires { All IsBlock irreps.now }
    ensures { IfOk result (λ step. Answers (IsFirstRefused (HasPhase group.now) (RefusesPhase group.now) irreps.now) (λ stars. Each (IsStarHeld group.now) irreps.now stars.items) step) }
{
    let mut stars: Vec<Star> = Vec::new(alloc);
    for irrep in irreps {
        match star_of(alloc, group, irrep)? {
            Step::Passed(star) => add(&mut stars, star)?,
            Step::Refused(refusal) => return Ok(Step::Refused(refusal)),
        }
    }
    Ok(Step::Passed(stars))
}

/// The file with the stars of its wave vectors.
pub fn stars_of(alloc: Global, parented: Parented) -> Result<Step<Starred>, NoMemory>
    requires { IsInRange parented.file }
    ensures { IfOk result (λ step. Answers (RefusesPhases parented) (IsStarred parented) step) }
{
    match all_stars(alloc, &parented.group, parented.document.irreps())? {
        Step::Passed(stars) => Ok(Step::Passed(Starred { parented, stars })),
        Step::Refused(refusal) => Ok(Step::Refused(refusal)),
    }
}
