// Whether the irreps of each pair are apart.
ghost use Rattle.std.specs.Prelude.{◌<◌, IfOk, length};
ghost use Rattle.report_steps.specs.HeldFiles.{AreInducedHeld};
ghost use Rattle.report_steps.specs.IrrepSteps.{Each};
ghost use Rattle.report_steps.specs.Steps.{Answers, OrWide};
ghost use Rattle.mode_report.specs.Held.{RefusesNothing};
ghost use Rattle.apart_report.specs.Held.{held_weights, IsWidePair, IsAnswer, IsWideSomePair, AreBelow};

use char_orth::apart;
use iso_text::NoMemory;
use report_steps::{InducedFile, Refusal, Step, add};
use std::alloc::Global;

// Whether irreps i and j are apart.
fn pair_answer(file: &InducedFile, i: usize, j: usize) -> Step<bool>
    requires held { AreInducedHeld file.now }
    requires first { i < length file.now.irreps.items }
    requires second { j < length file.now.irreps.items }
    ensures { Answers (OrWide RefusesNothing (IsWidePair file.now.divided.quotient (held_weights file.now)) (i, j)) (IsAnswer file.now.divided.quotient (held_weights file.now) (i, j)) result }
{
    match apart(file.divided.quotient(), &file.irreps[i], &file.irreps[j]) {
        Ok(answer) => Step::Passed(answer),
        Err(_) => Step::Refused(Refusal::Wide(10)),
    }
}

/// Whether the irreps of each pair are apart, in order.
pub(crate) fn all_answers(
    alloc: Global,
    file: &InducedFile,
    pairs: &[(usize, usize)],
) -> Result<Step<Vec<bool>>, NoMemory>
    requires held { AreInducedHeld file.now }
    requires below { AreBelow (length file.now.irreps.items) pairs.now }
    ensures { IfOk result (λ step. Answers (OrWide RefusesNothing (IsWideSomePair file.now.divided.quotient (held_weights file.now)) pairs.now) (λ answers. Each (IsAnswer file.now.divided.quotient (held_weights file.now)) pairs.now answers.items) step) }
{
    let mut answers: Vec<bool> = Vec::new(alloc);
    for k in 0..pairs.len() {
        match pair_answer(file, pairs[k].0, pairs[k].1) {
            Step::Passed(answer) => add(&mut answers, answer)?,
            Step::Refused(refusal) => return Ok(Step::Refused(refusal)),
        }
    }
    Ok(Step::Passed(answers))
}
