// What `occ` and `axial` find in a file.
ghost use Rattle.std.specs.Prelude.{IfOk};
ghost use Rattle.iso_text.specs.Ranges.{IsInRange};
ghost use Rattle.report_steps.specs.HeldFiles.{AreInducedHeld};
ghost use Rattle.mode_report.specs.Held.{AreOrbitsHeld};
ghost use Rattle.extra_report.specs.ExtraFound.{AreExtraFound};
ghost use Rattle.extra_report.specs.FoundExtra.{FindsExtra};

use crate::orbit_modes::all_modes;
use extra_modes::{ExtraModes, Nature};
use iso_text::NoMemory;
use mode_report::orbits_of;
use report_steps::{InducedFile, Step};
use std::alloc::Global;
use wyckoff::Orbits;

/// One orbit for each atom line of a file, and the modes of each orbit.
#[derive(Drop)]
pub struct FoundExtra {
    pub file: InducedFile,
    pub nature: Nature,
    pub orbits: Orbits,
    pub modes: Vec<ExtraModes>,
}

// What is found behind the orbits of the atoms.
fn after_orbits(
    alloc: Global,
    file: InducedFile,
    nature: Nature,
    orbits: Orbits,
) -> Result<Step<FoundExtra>, NoMemory>
    requires file { AreInducedHeld file }
    requires orbits { AreOrbitsHeld file.divided orbits }
    ensures { IfOk result (FindsExtra (AreExtraFound nature file.divided)) }
{
    match all_modes(
        alloc,
        file.divided.quotient(),
        &orbits,
        &file.irreps,
        nature,
    )? {
        Step::Passed(modes) => Ok(Step::Passed(FoundExtra {
            file,
            nature,
            orbits,
            modes,
        })),
        Step::Refused(refusal) => Ok(Step::Refused(refusal)),
    }
}

/// The orbits of the atoms of a file, and the modes of each; or the first atom line that is refused, or
/// that a number of the modes is too wide. Condition: what the file holds is what its irreps induce,
/// and it is in the ranges of the file grammar. Errors: want of memory.
pub fn extra_found(
    alloc: Global,
    file: InducedFile,
    nature: Nature,
) -> Result<Step<FoundExtra>, NoMemory>
    requires held { AreInducedHeld file }
    requires ranged { IsInRange file.divided.file }
    ensures { IfOk result (FindsExtra (AreExtraFound nature file.divided)) }
{
    match orbits_of(alloc, &file)? {
        Step::Passed(orbits) => after_orbits(alloc, file, nature, orbits),
        Step::Refused(refusal) => Ok(Step::Refused(refusal)),
    }
}
