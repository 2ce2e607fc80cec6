// The amounts that the lines of a file give.
ghost use Rattle.std.specs.Prelude.{IfOk, IfErr};
ghost use Rattle.iso_text.specs.Ranges.{IsInRange};
ghost use Rattle.extra_modes.specs.Amounts.{Naming, AreAmounts, IsGatherCause};
ghost use Rattle.report_steps.specs.Steps.{Answers};
ghost use Rattle.mode_report.specs.Held.{AreOrbitsHeld};
ghost use Rattle.mode_report.specs.ModesReport.{each_of};
ghost use Rattle.extra_report.specs.ExtraAmpsFound.{RefusesLines, naming_in};
ghost use Rattle.extra_report.specs.ExtraReport.{entries_of};

use extra_modes::{Amounts, ExtraError, Nature, gather_axials, gather_values};
use iso_text::NoMemory;
use report_steps::{InducedFile, Refusal, Step};
use std::alloc::Global;
use wyckoff::Orbits;

// The refusal of a file whose lines give no amounts; none for want of memory.
fn refusal_of(error: ExtraError) -> Result<Refusal, NoMemory>
    ensures { IfOk result (λ refusal. (g : Naming) → IsGatherCause g error → RefusesLines g refusal) }
{
    match error {
        ExtraError::Unmatched(line) => Ok(Refusal::Unmatched(line)),
        ExtraError::Ambiguous(line) => Ok(Refusal::Ambiguous(line)),
        ExtraError::Wide(_) => Err(NoMemory),
        ExtraError::NoMemory => Err(NoMemory),
    }
}

// The amounts of the atoms of these orbits.
fn gathered(
    alloc: Global,
    file: &InducedFile,
    nature: Nature,
    orbits: &Orbits,
) -> Result<Amounts, ExtraError>
    requires ranged { IsInRange file.now.divided.file }
    requires orbits { AreOrbitsHeld file.now.divided orbits.now }
    ensures amounts { IfOk result (AreAmounts (naming_in nature file.now.divided orbits.now) (each_of (entries_of nature))) }
    ensures cause { IfErr result (IsGatherCause (naming_in nature file.now.divided orbits.now)) }
{
    let document = file.divided.document();
    let quotient = file.divided.quotient();
    match nature {
        Nature::Occupation => gather_values(alloc, quotient, orbits, document.values()),
        Nature::Axial => gather_axials(alloc, quotient, orbits, document.axials()),
    }
}

/// The amounts of the atoms of these orbits, or the first line that is refused.
pub(crate) fn amounts_at(
    alloc: Global,
    file: &InducedFile,
    nature: Nature,
    orbits: &Orbits,
) -> Result<Step<Amounts>, NoMemory>
    requires ranged { IsInRange file.now.divided.file }
    requires orbits { AreOrbitsHeld file.now.divided orbits.now }
    ensures { IfOk result (λ step. Answers (RefusesLines (naming_in nature file.now.divided orbits.now)) (AreAmounts (naming_in nature file.now.divided orbits.now) (each_of (entries_of nature))) step) }
{
    match gathered(alloc, file, nature, orbits) {
        Ok(amounts) => Ok(Step::Passed(amounts)),
        Err(error) => Ok(Step::Refused(refusal_of(error)?)),
    }
}
