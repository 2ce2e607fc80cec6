// The amplitudes of the modes of all orbits.
ghost use Rattle.std.specs.Prelude.{◌≡◌, ◌<◌, ◌*◌, [], IfOk, length, slice_index_or};
ghost use Rattle.mode_project.specs.OrbitAmplitudes.{AreModesOfSome};
ghost use Rattle.report_steps.specs.Steps.{Answers, OrWide};
ghost use Rattle.mode_report.specs.Held.{RefusesNothing};
ghost use Rattle.amp_report.specs.Held.{AreSolvable, IsWideRow, IsRowOf, IsWideSomeRow, AreRowsOf};

use cyclo24::K24;
use distort_match::Shifts;
use iso_text::NoMemory;
use lin_alg::Row;
use mode_project::{AmpError, Modes, amplitudes};
use report_steps::{Refusal, Step, add};
use std::alloc::Global;

// The amplitudes of the modes of orbit n.
fn orbit_amplitudes(
    alloc: Global,
    modes: &Modes,
    shifts: &Shifts,
    n: usize,
) -> Result<Step<Row<K24>>, NoMemory>
    requires orbit { n < length shifts.now }
    requires atoms { 3 * length (slice_index_or shifts.now n []) ≡ modes.now.size }
    requires modes { AreModesOfSome modes.now }
    ensures { IfOk result (λ step. Answers (OrWide RefusesNothing (IsWideRow shifts.now n) modes.now) (IsRowOf shifts.now n modes.now) step) }
{
    match amplitudes(alloc, modes, shifts, n) {
        Ok(row) => Ok(Step::Passed(row)),
        Err(AmpError::Wide(family)) => Ok(Step::Refused(Refusal::Wide(family))),
        Err(AmpError::NoMemory) => Err(NoMemory),
    }
}

/// The amplitudes of the modes of each orbit, in order.
pub(crate) fn rows_of(
    alloc: Global,
    modes: &[Modes],
    shifts: &Shifts,
) -> Result<Step<Vec<Row<K24>>>, NoMemory>
    requires { AreSolvable modes.now shifts.now }
    ensures { IfOk result (λ step. Answers (OrWide RefusesNothing (IsWideSomeRow modes.now) shifts.now) (λ rows. AreRowsOf modes.now shifts.now (length modes.now) rows.items) step) }
{
    let mut rows: Vec<Row<K24>> = Vec::new(alloc);
    for n in 0..modes.len() {
        match orbit_amplitudes(alloc, &modes[n], shifts, n)? {
            Step::Passed(row) => add(&mut rows, row)?,
            Step::Refused(refusal) => return Ok(Step::Refused(refusal)),
        }
    }
    Ok(Step::Passed(rows))
}
