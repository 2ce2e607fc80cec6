// The modes of the orbits of a file.
ghost use Rattle.std.specs.Prelude.{IfOk};
ghost use Rattle.report_steps.specs.HeldFiles.{AreInducedHeld};
ghost use Rattle.report_steps.specs.Steps.{Answers, OrWide};
ghost use Rattle.mode_report.specs.Atoms.{RefusesAtoms};
ghost use Rattle.mode_report.specs.Held.{AreOrbitsHeld};
ghost use Rattle.mode_report.specs.ModesFound.{AreWideAll};
ghost use Rattle.amp_report.specs.Held.{AreModesHeld};

use iso_text::NoMemory;
use mode_project::Modes;
use mode_report::{all_modes, weights_of};
use report_steps::{InducedFile, Step};
use std::alloc::Global;
use wyckoff::Orbits;

/// The modes of these orbits.
pub(crate) fn modes_at(
    alloc: Global,
    file: &InducedFile,
    orbits: &Orbits,
) -> Result<Step<Vec<Modes>>, NoMemory>
    requires file { AreInducedHeld file.now }
    requires orbits { AreOrbitsHeld file.now.divided orbits.now }
    ensures { IfOk result (λ step. Answers (OrWide RefusesAtoms AreWideAll file.now.divided) (λ all. AreModesHeld file.now.divided orbits.now all.items) step) }
{
    let weights = weights_of(alloc, file)?;
    all_modes(alloc, file.divided.quotient(), orbits, &weights)
}
