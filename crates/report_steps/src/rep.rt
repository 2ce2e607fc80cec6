// The small representations of a file.
ghost use Rattle.std.specs.Prelude.{IfOk, IfErr};
ghost use Rattle.kstar.specs.Star.{IsStarOf};
ghost use Rattle.iso_text.specs.Ranges.{IsBlock};
ghost use Rattle.report_steps.specs.Held.{IsRepOfLines, IsCellHeld, IsRepHeld};
ghost use Rattle.report_steps.specs.HeldFiles.{AreCellsHeld, IsRepresentedFile};
ghost use Rattle.report_steps.specs.IrrepSteps.{IsFirstRefused, IsWideAmong, Each};
ghost use Rattle.report_steps.specs.Irreps.{row_of_irrep, IsRefusalOf, IsRepCause, HasRep, RefusesRep, IsWideRep};
ghost use Rattle.report_steps.specs.Stages.{RefusesReps, AreWideReps};
ghost use Rattle.report_steps.specs.Steps.{Answers, OrWide};

use crate::context::{AcceptedRep, Celled, Represented};
use crate::list::add;
use crate::refusal::Refusal;
use crate::step::Step;
use iso_text::{IrrepText, Name, NoMemory};
use kstar::Star;
use small_rep::{CheckedRep, RepError, SmallRep};
use space_ops::Group;
use std::alloc::Global;
use super_group::Quotient;

// The small representation that the lines of an irrep give.
fn accepted(
    alloc: Global,
    group: &Group,
    star: &Star,
    irrep: &IrrepText,
) -> Result<CheckedRep, RepError>
    requires block { IsBlock irrep.now }
    requires star { IsStarOf group.now (row_of_irrep irrep.now) star.now }
    ensures rep { IfOk result (λ rep. IsRepOfLines group.now irrep.now star.now rep) }
    ensures cause { IfErr result (λ e. IsRepCause group.now irrep.now e) }
{
    match SmallRep::read(alloc, group, star, irrep) {
        Ok(rep) => rep.check(alloc),
        Err(error) => Err(error),
    }
}

// The refusal of an irrep without a small representation.
fn refusal_of(name: Name, error: RepError) -> Result<Refusal, NoMemory>
    ensures { IfOk result (λ refusal. IsRefusalOf name error refusal) }
{
    match error {
        RepError::NotLittle(n) => Ok(Refusal::NotLittle(n)),
        RepError::RotationTwice(n) => Ok(Refusal::RotationTwice(n)),
        RepError::RotationMissing(op) => Ok(Refusal::RotationMissing(name, op)),
        RepError::NotUnit => Ok(Refusal::NotUnit(name)),
        RepError::NotMultiplying(a, b) => Ok(Refusal::NotMultiplying(name, a, b)),
        RepError::NotIrreducible(sum, n) => Ok(Refusal::NotIrreducible(name, sum, n)),
        RepError::Wide(family) => Ok(Refusal::Wide(family)),
        RepError::NoMemory => Err(NoMemory),
    }
}

// The star of an irrep with its small representation, or why there is none.
fn rep_of(
    alloc: Global,
    quotient: &Quotient,
    star: Star,
    irrep: &IrrepText,
) -> Result<Step<AcceptedRep>, NoMemory>
    requires { IsCellHeld quotient.now irrep.now star }
    ensures { IfOk result (λ step. Answers (OrWide (RefusesRep quotient.now.parent) (IsWideRep quotient.now.parent) irrep.now) (IsRepHeld quotient.now irrep.now) step) }
{
    match accepted(alloc, quotient.group(), &star, irrep) {
        Ok(rep) => Ok(Step::Passed(AcceptedRep { star, rep })),
        Err(error) => Ok(Step::Refused(refusal_of(irrep.name, error)?)),
    }
}

// The small representation of each irrep, or why there is none.
fn all_reps(
    alloc: Global,
    quotient: &Quotient,
    stars: Vec<Star>,
    irreps: &[IrrepText],
) -> Result<Step<Vec<AcceptedRep>>, NoMemory>
    requires { Each (IsCellHeld quotient.now) irreps.now stars.items }
    ensures { IfOk result (λ step. Answers (OrWide (IsFirstRefused (HasRep quotient.now.parent) (RefusesRep quotient.now.parent)) (IsWideAmong (IsWideRep quotient.now.parent)) irreps.now) (λ reps. Each (IsRepHeld quotient.now) irreps.now reps.items) step) }
{
    let mut reps: Vec<AcceptedRep> = Vec::new(alloc);
    let mut stars = stars.into_iter();
    for irrep in irreps {
        let Some(star) = stars.next() else {
            unreachable!()
        };
        match rep_of(alloc, quotient, star, irrep)? {
            Step::Passed(rep) => add(&mut reps, rep)?,
            Step::Refused(refusal) => return Ok(Step::Refused(refusal)),
        }
    }
    Ok(Step::Passed(reps))
}

/// The file with its small representations.
pub fn reps_of(alloc: Global, celled: Celled) -> Result<Step<Represented>, NoMemory>
    requires { AreCellsHeld celled }
    ensures { IfOk result (λ step. Answers (OrWide RefusesReps AreWideReps celled.divided) (IsRepresentedFile celled.divided) step) }
{
    let Celled { divided, stars } = celled;
    match all_reps(alloc, &divided.quotient, stars, divided.document.irreps())? {
        Step::Passed(reps) => Ok(Step::Passed(Represented { divided, reps })),
        Step::Refused(refusal) => Ok(Step::Refused(refusal)),
    }
}
