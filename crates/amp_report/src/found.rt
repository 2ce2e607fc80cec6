// What `amps` finds in a file.
ghost use Rattle.std.specs.Prelude.{IfOk};
ghost use Rattle.iso_text.specs.Ranges.{IsInRange};
ghost use Rattle.distort_match.specs.Outcomes.{AreShiftsOf};
ghost use Rattle.report_steps.specs.HeldFiles.{AreInducedHeld};
ghost use Rattle.mode_report.specs.Held.{AreOrbitsHeld};
ghost use Rattle.amp_report.specs.AmpsFound.{matching_of, AfterShifts, AfterModes, AreAmpsFound};
ghost use Rattle.amp_report.specs.FoundAmps.{FindsAmps};
ghost use Rattle.amp_report.specs.Held.{AreModesHeld, moded_in, shifted_in};

use crate::modes::modes_at;
use crate::rows::rows_of;
use crate::shifts::shifts_at;
use cyclo24::K24;
use distort_match::Shifts;
use iso_text::NoMemory;
use lin_alg::Row;
use mode_project::Modes;
use mode_report::orbits_of;
use report_steps::{InducedFile, Step};
use std::alloc::Global;
use wyckoff::Orbits;

/// The amplitudes of the orbits of a file: for each orbit its modes, and a number for each of them.
#[derive(Drop)]
pub struct FoundAmplitudes {
    pub file: InducedFile,
    pub orbits: Orbits,
    pub modes: Vec<Modes>,
    pub rows: Vec<Row<K24>>,
}

// What is found behind the displacements.
fn after_shifts(
    alloc: Global,
    file: InducedFile,
    orbits: Orbits,
    modes: Vec<Modes>,
    shifts: &Shifts,
) -> Result<Step<FoundAmplitudes>, NoMemory>
    requires modes { AreModesHeld file.divided orbits modes.items }
    requires shifts { AreShiftsOf (matching_of file.divided orbits) shifts.now }
    ensures { IfOk result (FindsAmps (AfterShifts file.divided.file.format (shifted_in file.divided orbits modes.items shifts.now))) }
{
    match rows_of(alloc, &modes, shifts)? {
        Step::Passed(rows) => Ok(Step::Passed(FoundAmplitudes {
            file,
            orbits,
            modes,
            rows,
        })),
        Step::Refused(refusal) => Ok(Step::Refused(refusal)),
    }
}

// What is found behind the modes of the orbits.
fn after_modes(
    alloc: Global,
    file: InducedFile,
    orbits: Orbits,
    modes: Vec<Modes>,
) -> Result<Step<FoundAmplitudes>, NoMemory>
    requires ranged { IsInRange file.divided.file }
    requires orbits { AreOrbitsHeld file.divided orbits }
    requires modes { AreModesHeld file.divided orbits modes.items }
    ensures { IfOk result (FindsAmps (AfterModes file.divided.file.format (moded_in file.divided orbits modes.items))) }
{
    match shifts_at(alloc, &file, &orbits)? {
        Step::Passed(shifts) => after_shifts(alloc, file, orbits, modes, &shifts),
        Step::Refused(refusal) => Ok(Step::Refused(refusal)),
    }
}

// What is found behind the orbits of the atoms.
fn after_orbits(
    alloc: Global,
    file: InducedFile,
    orbits: Orbits,
) -> Result<Step<FoundAmplitudes>, NoMemory>
    requires file { AreInducedHeld file }
    requires ranged { IsInRange file.divided.file }
    requires orbits { AreOrbitsHeld file.divided orbits }
    ensures { IfOk result (FindsAmps (AreAmpsFound file.divided)) }
{
    match modes_at(alloc, &file, &orbits)? {
        Step::Passed(modes) => after_modes(alloc, file, orbits, modes),
        Step::Refused(refusal) => Ok(Step::Refused(refusal)),
    }
}

/// The amplitudes of the modes of the orbits of the atoms of a file; or the first line or atom that is
/// refused, or that a number is too wide. Condition: what the file holds is what its irreps induce, and
/// it is in the ranges of the file grammar. Errors: want of memory.
pub fn amps_found(alloc: Global, file: InducedFile) -> Result<Step<FoundAmplitudes>, NoMemory>
    requires held { AreInducedHeld file }
    requires ranged { IsInRange file.divided.file }
    ensures { IfOk result (FindsAmps (AreAmpsFound file.divided)) }
{
    match orbits_of(alloc, &file)? {
        Step::Passed(orbits) => after_orbits(alloc, file, orbits),
        Step::Refused(refusal) => Ok(Step::Refused(refusal)),
    }
}
