// The modes of all orbits.
ghost use Rattle.std.specs.Prelude.{◌≡◌, IfOk, length, map};
ghost use Rattle.std.specs.List.{All};
ghost use Rattle.induce.specs.InducedView.{IsInducedOf};
ghost use Rattle.mode_project.specs.AtomSpace.{IsOrbit};
ghost use Rattle.mode_project.specs.Weights.{exact_weights, weights_in};
ghost use Rattle.extra_modes.specs.ExtraSpace.{extra_space};
ghost use Rattle.report_steps.specs.IrrepSteps.{Each};
ghost use Rattle.report_steps.specs.Steps.{Answers, OrWide};
ghost use Rattle.mode_report.specs.Held.{AreModesBy, IsWideOrbitBy, IsWideSomeBy, RefusesNothing};

use extra_modes::{ExtraError, ExtraModes, Nature, modes};
use induce::Induced;
use iso_text::NoMemory;
use report_steps::{Refusal, Step, add};
use std::alloc::Global;
use super_group::Quotient;
use wyckoff::{Orbit, Orbits};

// The modes of an orbit.
fn orbit_modes(
    alloc: Global,
    quotient: &Quotient,
    orbit: &Orbit,
    induced: &[Induced],
    nature: Nature,
) -> Result<Step<ExtraModes>, NoMemory>
    requires orbit { IsOrbit quotient.now orbit.now }
    requires induced { All (IsInducedOf quotient.now) induced.now }
    ensures { IfOk result (λ step. Answers (OrWide RefusesNothing (IsWideOrbitBy (extra_space nature) 8 quotient.now (exact_weights (map weights_in induced.now))) orbit.now) (AreModesBy (extra_space nature) quotient.now (exact_weights (map weights_in induced.now)) orbit.now) step) }
{
    match modes(alloc, quotient, orbit, induced, nature) {
        Ok(found) => Ok(Step::Passed(found)),
        Err(ExtraError::Wide(family)) => Ok(Step::Refused(Refusal::Wide(family))),
        Err(_) => Err(NoMemory),
    }
}

/// The modes of each orbit, in order.
pub(crate) fn all_modes(
    alloc: Global,
    quotient: &Quotient,
    orbits: &Orbits,
    induced: &[Induced],
    nature: Nature,
) -> Result<Step<Vec<ExtraModes>>, NoMemory>
    requires orbits { All (IsOrbit quotient.now) orbits.now }
    requires induced { All (IsInducedOf quotient.now) induced.now }
    ensures { IfOk result (λ step. Answers (OrWide RefusesNothing (IsWideSomeBy (extra_space nature) 8 quotient.now (exact_weights (map weights_in induced.now))) orbits.now) (λ all. Each (AreModesBy (extra_space nature) quotient.now (exact_weights (map weights_in induced.now))) orbits.now all.items) step) }
{
    let mut all: Vec<ExtraModes> = Vec::new(alloc);
    for i in 0..orbits.len() {
        match orbit_modes(alloc, quotient, orbits.get(i), induced, nature)? {
            Step::Passed(found) => add(&mut all, found)?,
            Step::Refused(refusal) => return Ok(Step::Refused(refusal)),
        }
    }
    Ok(Step::Passed(all))
}
