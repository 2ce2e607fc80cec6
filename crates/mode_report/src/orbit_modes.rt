// The modes of all orbits.
ghost use Rattle.std.specs.Prelude.{◌≡◌, IfOk, length};
ghost use Rattle.mode_project.specs.AtomSpace.{IsOrbit};
ghost use Rattle.mode_project.specs.Weights.{AreWeights, exact_weights};
ghost use Rattle.report_steps.specs.IrrepSteps.{Each};
ghost use Rattle.report_steps.specs.Steps.{Answers, OrWide};
ghost use Rattle.std.specs.List.{All};
ghost use Rattle.mode_report.specs.Held.{AreModesOfOrbit, IsWideOrbit, IsWideSomeOrbit, RefusesNothing};

use iso_text::NoMemory;
use mode_project::{ModeError, Modes, Weights, modes};
use report_steps::{Refusal, Step, add};
use std::alloc::Global;
use super_group::Quotient;
use wyckoff::{Orbit, Orbits};

// The modes of an orbit.
fn orbit_modes(
    alloc: Global,
    quotient: &Quotient,
    orbit: &Orbit,
    weights: &Weights,
) -> Result<Step<Modes>, NoMemory>
    requires orbit { IsOrbit quotient.now orbit.now }
    requires weights { AreWeights quotient.now weights.now }
    ensures { IfOk result (λ step. Answers (OrWide RefusesNothing (IsWideOrbit quotient.now (exact_weights weights.now)) orbit.now) (AreModesOfOrbit quotient.now (exact_weights weights.now) orbit.now) step) }
{
    match modes(alloc, quotient, orbit, weights) {
        Ok(found) => Ok(Step::Passed(found)),
        Err(ModeError::Wide(family)) => Ok(Step::Refused(Refusal::Wide(family))),
        Err(ModeError::NoMemory) => Err(NoMemory),
    }
}

/// The modes of each orbit, in order.
pub fn all_modes(
    alloc: Global,
    quotient: &Quotient,
    orbits: &Orbits,
    weights: &Weights,
) -> Result<Step<Vec<Modes>>, NoMemory>
    requires orbits { All (IsOrbit quotient.now) orbits.now }
    requires weights { AreWeights quotient.now weights.now }
    ensures { IfOk result (λ step. Answers (OrWide RefusesNothing (IsWideSomeOrbit quotient.now (exact_weights weights.now)) orbits.now) (λ all. Each (AreModesOfOrbit quotient.now (exact_weights weights.now)) orbits.now all.items) step) }
{
    let mut all: Vec<Modes> = Vec::new(alloc);
    for i in 0..orbits.len() {
        match orbit_modes(alloc, quotient, orbits.get(i), weights)? {
            Step::Passed(found) => add(&mut all, found)?,
            Step::Refused(refusal) => return Ok(Step::Refused(refusal)),
        }
    }
    Ok(Step::Passed(all))
}
