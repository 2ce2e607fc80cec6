// The parent group of a file.
ghost use Rattle.std.specs.Prelude.{◌≡◌, IfOk};
ghost use Rattle.iso_text.specs.Ranges.{IsInRange};
ghost use Rattle.space_ops.specs.Group.{AreGenerators};
ghost use Rattle.report_steps.specs.Contexts.{Parented as ParentedFile};
ghost use Rattle.report_steps.specs.Stages.{RefusesGroup, IsParentOf, RefusesParent, IsParented};
ghost use Rattle.report_steps.specs.Steps.{Answers};

use crate::context::Parented;
use crate::generators::generators_of;
use crate::refusal::Refusal;
use crate::step::Step;
use hall_symbol::Generators;
use iso_text::{Document, NoMemory};
use space_ops::{Group, GroupError};
use std::alloc::Global;

// The group of the generators.
fn closed(
    alloc: Global,
    document: Document,
    generators: &Generators,
) -> Result<Step<Parented>, NoMemory>
    requires { AreGenerators generators.now.ops.items }
    ensures { IfOk result (λ step. Answers (RefusesGroup generators.now.lattice generators.now.ops.items) (λ (p : ParentedFile). IsParentOf generators.now.lattice generators.now.ops.items p.parent × (p.file ≡ document)) step) }
{
    match Group::close(alloc, generators.ops.as_slice(), generators.lattice) {
        Ok(group) => Ok(Step::Passed(Parented { document, group })),
        Err(GroupError::TooManyRotations) => Ok(Step::Refused(Refusal::TooManyRotations)),
        Err(GroupError::ExtraTranslation) => Ok(Step::Refused(Refusal::ExtraTranslation)),
        Err(GroupError::NoMemory) => Err(NoMemory),
    }
}

/// The file with its parent group.
pub fn parent_of(alloc: Global, document: Document) -> Result<Step<Parented>, NoMemory>
    requires { IsInRange document }
    ensures { IfOk result (λ step. Answers (RefusesParent document) (IsParented document) step) }
{
    match generators_of(&document) {
        Step::Passed(generators) => closed(alloc, document, &generators),
        Step::Refused(refusal) => Ok(Step::Refused(refusal)),
    }
}
