// What `modes` finds in a file.
ghost use Rattle.std.specs.Prelude.{IfOk};
ghost use Rattle.iso_text.specs.Ranges.{IsInRange};
ghost use Rattle.report_steps.specs.HeldFiles.{AreInducedHeld};
ghost use Rattle.report_steps.specs.IrrepSteps.{Each};
ghost use Rattle.report_steps.specs.Steps.{Answers, OrWide};
ghost use Rattle.mode_report.specs.Atoms.{RefusesAtoms};
ghost use Rattle.mode_report.specs.Held.{AreOrbitsHeld, HasSizeOf, told_in};
ghost use Rattle.mode_report.specs.ModesFound.{AreWideAll, AreToldOf};

use crate::atoms::orbits_of;
use crate::orbit_modes::all_modes;
use crate::weights::weights_of;
use iso_text::NoMemory;
use mode_project::Modes;
use report_steps::{InducedFile, Step};
use std::alloc::Global;
use wyckoff::Orbits;

/// One orbit for each atom line of a file, and the modes of each orbit.
#[derive(Drop)]
pub struct FoundModes {
    pub orbits: Orbits,
    pub modes: Vec<Modes>,
}

// The modes of these orbits.
fn modes_at(alloc: Global, file: &InducedFile, orbits: Orbits) -> Result<Step<FoundModes>, NoMemory>
    requires file { AreInducedHeld file.now }
    requires orbits { AreOrbitsHeld file.now.divided orbits }
    ensures { IfOk result (λ step. Answers (OrWide RefusesAtoms AreWideAll file.now.divided) (λ found. AreToldOf file.now.divided (told_in file.now.divided.file.irreps found.orbits found.modes.items) × Each HasSizeOf found.orbits found.modes.items) step) }
{
    let weights = weights_of(alloc, file)?;
    match all_modes(alloc, file.divided.quotient(), &orbits, &weights)? {
        Step::Passed(modes) => Ok(Step::Passed(FoundModes { orbits, modes })),
        Step::Refused(refusal) => Ok(Step::Refused(refusal)),
    }
}

/// The orbits of the atoms of a file, and the modes of each; or the first atom line that is refused, or
/// that a number of the modes is too wide. Condition: what the file holds is what its irreps induce,
/// and it is in the ranges of the file grammar. Errors: want of memory.
pub fn modes_found(alloc: Global, file: &InducedFile) -> Result<Step<FoundModes>, NoMemory>
    requires induced { AreInducedHeld file.now }
    requires ranges { IsInRange file.now.divided.file }
    ensures { IfOk result (λ step. Answers (OrWide RefusesAtoms AreWideAll file.now.divided) (λ found. AreToldOf file.now.divided (told_in file.now.divided.file.irreps found.orbits found.modes.items) × Each HasSizeOf found.orbits found.modes.items) step) }
{
    match orbits_of(alloc, file)? {
        Step::Passed(orbits) => modes_at(alloc, file, orbits),
        Step::Refused(refusal) => Ok(Step::Refused(refusal)),
    }
}
