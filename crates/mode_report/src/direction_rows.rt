// The modes that a stabiliser leaves, as rows.
ghost use Rattle.std.specs.Prelude.{◌≡◌, ◌<◌, IfOk, length};
ghost use Rattle.std.specs.List.{All};
ghost use Rattle.algebra.specs.Subgroup.{IsSubgroup};
ghost use Rattle.cyclo24.specs.ExactK24.{k24_laws};
ghost use Rattle.super_group.specs.Quotient.{quotient_group};
ghost use Rattle.mode_project.specs.AtomSpace.{IsOrbit};
ghost use Rattle.mode_project.specs.Modes.{vector_at};
ghost use Rattle.mode_project.specs.Weights.{AreWeights, exact_weights};
ghost use Rattle.report_steps.specs.IrrepSteps.{Each};
ghost use Rattle.report_steps.specs.Steps.{Answers, OrWide};
ghost use Rattle.mode_report.specs.DirectionHeld.{IsWideIrrep, AreIrrepRows, IsWideOnOrbit, AreOrbitRows, IsWideOnSome};
ghost use Rattle.mode_report.specs.Held.{RefusesNothing};

use cyclo24::K24;
use iso_text::NoMemory;
use lin_alg::Matrix;
use mode_project::{ModeError, Weights, modes_of};
use report_steps::{Refusal, Step, add};
use std::alloc::Global;
use super_group::Quotient;
use wyckoff::{Orbit, Orbits};

// The modes of irrep j on an orbit that the elements of the stabiliser leave, as rows.
fn irrep_rows(
    alloc: Global,
    quotient: &Quotient,
    orbit: &Orbit,
    weights: &Weights,
    j: usize,
    stab: &[usize],
) -> Result<Step<Matrix<K24>>, NoMemory>
    requires orbit { IsOrbit quotient.now orbit.now }
    requires weights { AreWeights quotient.now weights.now }
    requires irrep { j < length weights.now }
    requires stabiliser { IsSubgroup (quotient_group quotient.now) stab.now }
    ensures { IfOk result (λ step. Answers (OrWide RefusesNothing (IsWideIrrep quotient.now stab.now orbit.now) (vector_at k24_laws (exact_weights weights.now) j)) (AreIrrepRows quotient.now stab.now orbit.now (vector_at k24_laws (exact_weights weights.now) j)) step) }
{
    match modes_of(alloc, quotient, orbit, weights, j, stab) {
        Ok(rows) => Ok(Step::Passed(rows)),
        Err(ModeError::Wide(family)) => Ok(Step::Refused(Refusal::Wide(family))),
        Err(ModeError::NoMemory) => Err(NoMemory),
    }
}

// Those of all irreps, in file order.
fn orbit_rows(
    alloc: Global,
    quotient: &Quotient,
    orbit: &Orbit,
    weights: &Weights,
    irreps: usize,
    stab: &[usize],
) -> Result<Step<Vec<Matrix<K24>>>, NoMemory>
    requires orbit { IsOrbit quotient.now orbit.now }
    requires weights { AreWeights quotient.now weights.now }
    requires irreps { irreps ≡ length weights.now }
    requires stabiliser { IsSubgroup (quotient_group quotient.now) stab.now }
    ensures { IfOk result (λ step. Answers (OrWide RefusesNothing (IsWideOnOrbit quotient.now stab.now (exact_weights weights.now)) orbit.now) (AreOrbitRows quotient.now stab.now (exact_weights weights.now) orbit.now) step) }
{
    let mut all: Vec<Matrix<K24>> = Vec::new(alloc);
    for j in 0..irreps {
        match irrep_rows(alloc, quotient, orbit, weights, j, stab)? {
            Step::Passed(rows) => add(&mut all, rows)?,
            Step::Refused(refusal) => return Ok(Step::Refused(refusal)),
        }
    }
    Ok(Step::Passed(all))
}

/// The modes of each orbit that the elements of a stabiliser leave: for each orbit in order, and for
/// each irrep in file order, as rows. Condition: the orbits and the weights of `irreps` irreps are of
/// the quotient, and the stabiliser is a subgroup of it. Errors: want of memory.
pub fn all_rows(
    alloc: Global,
    quotient: &Quotient,
    orbits: &Orbits,
    weights: &Weights,
    irreps: usize,
    stab: &[usize],
) -> Result<Step<Vec<Vec<Matrix<K24>>>>, NoMemory>
    requires orbits { All (IsOrbit quotient.now) orbits.now }
    requires weights { AreWeights quotient.now weights.now }
    requires irreps { irreps ≡ length weights.now }
    requires stabiliser { IsSubgroup (quotient_group quotient.now) stab.now }
    ensures { IfOk result (λ step. Answers (OrWide RefusesNothing (IsWideOnSome quotient.now stab.now (exact_weights weights.now)) orbits.now) (λ all. Each (AreOrbitRows quotient.now stab.now (exact_weights weights.now)) orbits.now all.items) step) }
{
    let mut all: Vec<Vec<Matrix<K24>>> = Vec::new(alloc);
    for i in 0..orbits.len() {
        match orbit_rows(alloc, quotient, orbits.get(i), weights, irreps, stab)? {
            Step::Passed(rows) => add(&mut all, rows)?,
            Step::Refused(refusal) => return Ok(Step::Refused(refusal)),
        }
    }
    Ok(Step::Passed(all))
}
