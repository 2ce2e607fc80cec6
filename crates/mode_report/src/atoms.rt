// The orbits of the atoms of a file.
ghost use Rattle.std.specs.Prelude.{IfOk};
ghost use Rattle.iso_text.specs.Ranges.{IsInRange};
ghost use Rattle.report_steps.specs.Steps.{Answers};
ghost use Rattle.mode_report.specs.Atoms.{RefusesAtoms};
ghost use Rattle.mode_report.specs.Held.{AreOrbitsHeld};

use iso_text::NoMemory;
use report_steps::{InducedFile, Refusal, Step};
use std::alloc::Global;
use wyckoff::{AtomError, Orbits};

/// One orbit for each atom line, or the first line that is refused.
pub fn orbits_of(alloc: Global, file: &InducedFile) -> Result<Step<Orbits>, NoMemory>
    requires { IsInRange file.now.divided.file }
    ensures { IfOk result (λ step. Answers (RefusesAtoms file.now.divided) (AreOrbitsHeld file.now.divided) step) }
{
    match Orbits::new(
        alloc,
        file.divided.quotient(),
        file.divided.document().atoms(),
    ) {
        Ok(orbits) => Ok(Step::Passed(orbits)),
        Err(AtomError::SameSite(earlier, line)) => {
            Ok(Step::Refused(Refusal::SameSite(earlier, line)))
        }
        Err(AtomError::TooManyAtoms(line, size)) => {
            Ok(Step::Refused(Refusal::TooManyAtoms(line, size)))
        }
        Err(AtomError::NoMemory) => Err(NoMemory),
    }
}
