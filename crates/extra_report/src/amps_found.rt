// What `occ-amps` and `axial-amps` find in a file.
ghost use Rattle.std.specs.Prelude.{IfOk};
ghost use Rattle.iso_text.specs.Ranges.{IsInRange};
ghost use Rattle.extra_modes.specs.Amounts.{AreAmounts};
ghost use Rattle.extra_modes.specs.ExtraSpace.{extra_space};
ghost use Rattle.report_steps.specs.HeldFiles.{AreInducedHeld};
ghost use Rattle.mode_report.specs.Held.{AreOrbitsHeld};
ghost use Rattle.mode_report.specs.ModesReport.{each_of};
ghost use Rattle.amp_report.specs.Held.{AreModesHeldBy, moded_in};
ghost use Rattle.extra_report.specs.ExtraAmpsFound.{AfterAmounts, AfterModes, AreExtraAmpsFound, naming_in};
ghost use Rattle.extra_report.specs.ExtraReport.{entries_of};
ghost use Rattle.extra_report.specs.FoundExtraAmps.{FindsExtraAmps};

use crate::gathered::amounts_at;
use crate::orbit_modes::all_modes;
use crate::rows::rows_of;
use cyclo24::K24;
use extra_modes::{Amounts, ExtraModes, Nature};
use iso_text::NoMemory;
use lin_alg::Row;
use mode_report::orbits_of;
use report_steps::{InducedFile, Step};
use std::alloc::Global;
use wyckoff::Orbits;

/// The amplitudes of the orbits of a file: for each orbit its modes, and a number for each of them.
#[derive(Drop)]
pub struct FoundExtraAmps {
    pub file: InducedFile,
    pub nature: Nature,
    pub orbits: Orbits,
    pub modes: Vec<ExtraModes>,
    pub rows: Vec<Row<K24>>,
}

// What is found behind the amounts of the atoms.
fn after_amounts(
    alloc: Global,
    file: InducedFile,
    nature: Nature,
    orbits: Orbits,
    modes: Vec<ExtraModes>,
    amounts: &Amounts,
) -> Result<Step<FoundExtraAmps>, NoMemory>
    requires modes { AreModesHeldBy (extra_space nature) (each_of (entries_of nature)) file.divided orbits modes.items }
    requires amounts { AreAmounts (naming_in nature file.divided orbits) (each_of (entries_of nature)) amounts.now }
    ensures { IfOk result (FindsExtraAmps (AfterAmounts nature file.divided.file.format (record { moded = moded_in file.divided orbits modes.items; amounts = amounts.now }))) }
{
    match rows_of(alloc, &modes, amounts)? {
        Step::Passed(rows) => Ok(Step::Passed(FoundExtraAmps {
            file,
            nature,
            orbits,
            modes,
            rows,
        })),
        Step::Refused(refusal) => Ok(Step::Refused(refusal)),
    }
}

// What is found behind the modes of the orbits.
fn after_modes(
    alloc: Global,
    file: InducedFile,
    nature: Nature,
    orbits: Orbits,
    modes: Vec<ExtraModes>,
) -> Result<Step<FoundExtraAmps>, NoMemory>
    requires ranged { IsInRange file.divided.file }
    requires orbits { AreOrbitsHeld file.divided orbits }
    requires modes { AreModesHeldBy (extra_space nature) (each_of (entries_of nature)) file.divided orbits modes.items }
    ensures { IfOk result (FindsExtraAmps (AfterModes nature file.divided.file.format (moded_in file.divided orbits modes.items))) }
{
    match amounts_at(alloc, &file, nature, &orbits)? {
        Step::Passed(amounts) => after_amounts(alloc, file, nature, orbits, modes, &amounts),
        Step::Refused(refusal) => Ok(Step::Refused(refusal)),
    }
}

// What is found behind the orbits of the atoms.
fn after_orbits(
    alloc: Global,
    file: InducedFile,
    nature: Nature,
    orbits: Orbits,
) -> Result<Step<FoundExtraAmps>, NoMemory>
    requires file { AreInducedHeld file }
    requires ranged { IsInRange file.divided.file }
    requires orbits { AreOrbitsHeld file.divided orbits }
    ensures { IfOk result (FindsExtraAmps (AreExtraAmpsFound nature file.divided)) }
{
    match all_modes(
        alloc,
        file.divided.quotient(),
        &orbits,
        &file.irreps,
        nature,
    )? {
        Step::Passed(modes) => after_modes(alloc, file, nature, orbits, modes),
        Step::Refused(refusal) => Ok(Step::Refused(refusal)),
    }
}

/// The amplitudes of the modes of the orbits of the atoms of a file; or the first line that is refused,
/// or that a number is too wide. Condition: what the file holds is what its irreps induce, and it is in
/// the ranges of the file grammar. Errors: want of memory.
pub fn extra_amps_found(
    alloc: Global,
    file: InducedFile,
    nature: Nature,
) -> Result<Step<FoundExtraAmps>, NoMemory>
    requires held { AreInducedHeld file }
    requires ranged { IsInRange file.divided.file }
    ensures { IfOk result (FindsExtraAmps (AreExtraAmpsFound nature file.divided)) }
{
    match orbits_of(alloc, &file)? {
        Step::Passed(orbits) => after_orbits(alloc, file, nature, orbits),
        Step::Refused(refusal) => Ok(Step::Refused(refusal)),
    }
}
