// The amplitudes of the modes of all orbits.
ghost use Rattle.std.specs.Prelude.{◌≡◌, ◌<◌, ◌*◌, [], IfOk, length, slice_index_or};
ghost use Rattle.mode_project.specs.OrbitAmplitudes.{AreModesOfSome};
ghost use Rattle.extra_modes.specs.ExtraAmplitudes.{amounts_of};
ghost use Rattle.report_steps.specs.Steps.{Answers, OrWide};
ghost use Rattle.mode_report.specs.Held.{RefusesNothing};
ghost use Rattle.amp_report.specs.Held.{IsWideRowBy, IsRowBy, IsWideSomeRowBy, AreRowsBy};
ghost use Rattle.extra_report.specs.ExtraAmpsFound.{AreSolvable};

use cyclo24::K24;
use extra_modes::{Amounts, ExtraError, ExtraModes, amplitudes};
use iso_text::NoMemory;
use lin_alg::Row;
use report_steps::{Refusal, Step, add};
use std::alloc::Global;

// The amplitudes of the modes of orbit n.
fn orbit_amplitudes(
    alloc: Global,
    modes: &ExtraModes,
    amounts: &Amounts,
    n: usize,
) -> Result<Step<Row<K24>>, NoMemory>
    requires orbit { n < length amounts.now.atoms }
    requires atoms { length (slice_index_or amounts.now.atoms n []) * amounts.now.each ≡ modes.now.size }
    requires modes { AreModesOfSome modes.now }
    ensures { IfOk result (λ step. Answers (OrWide RefusesNothing (IsWideRowBy 9 (amounts_of amounts.now) n) modes.now) (IsRowBy (amounts_of amounts.now) n modes.now) step) }
{
    match amplitudes(alloc, modes, amounts, n) {
        Ok(row) => Ok(Step::Passed(row)),
        Err(ExtraError::Wide(family)) => Ok(Step::Refused(Refusal::Wide(family))),
        Err(_) => Err(NoMemory),
    }
}

/// The amplitudes of the modes of each orbit, in order.
pub(crate) fn rows_of(
    alloc: Global,
    modes: &[ExtraModes],
    amounts: &Amounts,
) -> Result<Step<Vec<Row<K24>>>, NoMemory>
    requires { AreSolvable modes.now amounts.now }
    ensures { IfOk result (λ step. Answers (OrWide RefusesNothing (IsWideSomeRowBy 9 modes.now) (amounts_of amounts.now)) (λ rows. AreRowsBy modes.now (amounts_of amounts.now) (length modes.now) rows.items) step) }
{
    let mut rows: Vec<Row<K24>> = Vec::new(alloc);
    for n in 0..modes.len() {
        match orbit_amplitudes(alloc, &modes[n], amounts, n)? {
            Step::Passed(row) => add(&mut rows, row)?,
            Step::Refused(refusal) => return Ok(Step::Refused(refusal)),
        }
    }
    Ok(Step::Passed(rows))
}
