// The matrices that the irreps of a file induce.
ghost use Rattle.std.specs.Prelude.{◌≡◌, ◌≤◌, IfOk, MatchOption};
ghost use Rattle.iso_text.specs.Ranges.{IsBlock};
ghost use Rattle.induce.specs.InducedView.{InducedView};
ghost use Rattle.induce.specs.Kinds.{real_dimension};
ghost use Rattle.induce.specs.Tables.{dimension_in};
ghost use Rattle.report_steps.specs.Held.{IsRepHeld, IsInducedHeld};
ghost use Rattle.report_steps.specs.HeldFiles.{AreRepsHeld, IsInducedFile};
ghost use Rattle.report_steps.specs.IrrepSteps.{IsFirstRefused, IsWideAmong, Each};
ghost use Rattle.report_steps.specs.Irreps.{IsVectorOf, IsVectorCause, HasInduced, RefusesInduced, IsWideInducedRep};
ghost use Rattle.report_steps.specs.Stages.{RefusesDimensions, AreWideInduced};
ghost use Rattle.report_steps.specs.Steps.{Answers, OrWide};

use crate::context::{AcceptedRep, InducedFile, Represented};
use crate::list::add;
use crate::refusal::Refusal;
use crate::step::Step;
use induce::{InduceError, Induced};
use iso_text::{IrrepText, NoMemory};
use std::alloc::Global;
use super_group::Quotient;

// The refusal of a given vector of another size than the representation's.
fn vector_refusal(irrep: &IrrepText, dimension: usize) -> Option<Refusal>
    requires block { IsBlock irrep.now }
    requires few { dimension ≤ 288 }
    ensures { MatchOption result (IsVectorOf dimension irrep.now.vector) (IsVectorCause dimension irrep.now.vector) }
{
    let Some(vector) = &irrep.vector else {
        return None;
    };
    let given = vector.numbers.as_slice().len();
    if given == dimension {
        return None;
    }
    Some(Refusal::VectorSize(vector.line, given as u32, dimension as u32))
}

// The matrices, where a given vector has their size. The real dimension is that of their kind.
fn fitting(irrep: &IrrepText, induced: Induced) -> Step<Induced>
    requires { IsBlock irrep.now }
    ensures answer { Answers (IsVectorCause (dimension_in induced.tables) irrep.now.vector) (λ (v : InducedView). IsVectorOf (dimension_in induced.tables) irrep.now.vector × (v ≡ induced)) result }
    ensures real { induced.real_dim ≡ real_dimension induced.kind (dimension_in induced.tables) }
    ensures few { induced.real_dim ≤ 24 }
{
    let _real = induced.real_dim();
    match vector_refusal(irrep, induced.dim()) {
        Some(refusal) => Step::Refused(refusal),
        None => Step::Passed(induced),
    }
}

// The matrices that an irrep induces, or why there are none.
fn induced_rep(
    alloc: Global,
    quotient: &Quotient,
    accepted: AcceptedRep,
    irrep: &IrrepText,
) -> Result<Step<Induced>, NoMemory>
    requires { IsRepHeld quotient.now irrep.now accepted }
    ensures { IfOk result (λ step. Answers (OrWide (RefusesInduced quotient.now) (IsWideInducedRep quotient.now) irrep.now) (IsInducedHeld quotient.now irrep.now) step) }
{
    let AcceptedRep { star, rep } = accepted;
    match Induced::new(alloc, quotient, star, rep) {
        Ok(induced) => Ok(fitting(irrep, induced)),
        Err(InduceError::TooManyDimensions(n)) => Ok(Step::Refused(Refusal::TooManyDimensions(
            irrep.name, n,
        ))),
        Err(InduceError::Wide(family)) => Ok(Step::Refused(Refusal::Wide(family))),
        Err(InduceError::NoMemory) => Err(NoMemory),
    }
}

// The matrices that each irrep induces, or why there are none.
fn all_induced(
    alloc: Global,
    quotient: &Quotient,
    reps: Vec<AcceptedRep>,
    irreps: &[IrrepText],
) -> Result<Step<Vec<Induced>>, NoMemory>
    requires { Each (IsRepHeld quotient.now) irreps.now reps.items }
    ensures { IfOk result (λ step. Answers (OrWide (IsFirstRefused (HasInduced quotient.now) (RefusesInduced quotient.now)) (IsWideAmong (IsWideInducedRep quotient.now)) irreps.now) (λ all. Each (IsInducedHeld quotient.now) irreps.now all.items) step) }
{
    let mut all: Vec<Induced> = Vec::new(alloc);
    let mut reps = reps.into_iter();
    for irrep in irreps {
        let Some(accepted) = reps.next() else {
            unreachable!()
        };
        match induced_rep(alloc, quotient, accepted, irrep)? {
            Step::Passed(induced) => add(&mut all, induced)?,
            Step::Refused(refusal) => return Ok(Step::Refused(refusal)),
        }
    }
    Ok(Step::Passed(all))
}

/// The file with the matrices that its small representations induce.
pub fn induced_of(alloc: Global, represented: Represented) -> Result<Step<InducedFile>, NoMemory>
    requires { AreRepsHeld represented }
    ensures { IfOk result (λ step. Answers (OrWide RefusesDimensions AreWideInduced represented.divided) (IsInducedFile represented.divided) step) }
{
    let Represented { divided, reps } = represented;
    match all_induced(alloc, &divided.quotient, reps, divided.document.irreps())? {
        Step::Passed(irreps) => Ok(Step::Passed(InducedFile { divided, irreps })),
        Step::Refused(refusal) => Ok(Step::Refused(refusal)),
    }
}
