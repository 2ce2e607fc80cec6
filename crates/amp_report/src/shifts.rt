// The displacements of the atoms of a file.
ghost use Rattle.std.specs.Prelude.{IfOk};
ghost use Rattle.iso_text.specs.Ranges.{IsInRange};
ghost use Rattle.distort_match.specs.Matches.{Matching};
ghost use Rattle.distort_match.specs.Outcomes.{AreShiftsOf, IsMatchCause};
ghost use Rattle.report_steps.specs.Steps.{Answers};
ghost use Rattle.mode_report.specs.Held.{AreOrbitsHeld};
ghost use Rattle.amp_report.specs.AmpsFound.{RefusesMatching, matching_of};

use distort_match::{MatchError, Shifts, match_atoms};
use iso_text::NoMemory;
use report_steps::{InducedFile, Refusal, Step};
use std::alloc::Global;
use wyckoff::Orbits;

// The refusal of a file whose listed atoms and atoms don't match; none for want of memory.
fn refusal_of(error: MatchError) -> Result<Refusal, NoMemory>
    ensures { IfOk result (λ refusal. (m : Matching) → IsMatchCause m error → RefusesMatching m refusal) }
{
    match error {
        MatchError::BadCell(line) => Ok(Refusal::BadCell(line)),
        MatchError::OffGrid(line) => Ok(Refusal::OffGrid(line)),
        MatchError::Unmatched(line) => Ok(Refusal::Unmatched(line)),
        MatchError::Ambiguous(line) => Ok(Refusal::Ambiguous(line)),
        MatchError::MissingAtom(label, place) => Ok(Refusal::MissingAtom(label, place)),
        MatchError::NoMemory => Err(NoMemory),
    }
}

/// The displacement of each atom of these orbits by the listed atoms of the file.
pub(crate) fn shifts_at(
    alloc: Global,
    file: &InducedFile,
    orbits: &Orbits,
) -> Result<Step<Shifts>, NoMemory>
    requires ranged { IsInRange file.now.divided.file }
    requires orbits { AreOrbitsHeld file.now.divided orbits.now }
    ensures { IfOk result (λ step. Answers (RefusesMatching (matching_of file.now.divided orbits.now)) (AreShiftsOf (matching_of file.now.divided orbits.now)) step) }
{
    let document = file.divided.document();
    match match_atoms(
        alloc,
        file.divided.quotient(),
        orbits,
        document.listed(),
        document.tolerance(),
        document.cell(),
    ) {
        Ok(shifts) => Ok(Step::Passed(shifts)),
        Err(error) => Ok(Step::Refused(refusal_of(error)?)),
    }
}
