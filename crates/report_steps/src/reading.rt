// The first step of the work: the text.
ghost use Rattle.std.specs.Prelude.{◌≤◌, length, IfOk};
ghost use Rattle.iso_text.specs.Ranges.{IsInRange};
ghost use Rattle.report_steps.specs.Stages.{RefusesText, IsRead};
ghost use Rattle.report_steps.specs.Steps.{Answers, IfPassed};

use crate::refusal::Refusal;
use crate::step::Step;
use iso_text::{Document, MAX_BYTES, NoMemory, ReadError};
use std::alloc::Global;

/// The file that the bytes are, at most `MAX_BYTES`.
pub fn read_file(alloc: Global, bytes: &[u8]) -> Result<Step<Document>, NoMemory>
    requires { length bytes.now ≤ MAX_BYTES }
    ensures answer { IfOk result (λ step. Answers (RefusesText bytes.now) (IsRead bytes.now) step) }
    ensures ranges { IfOk result (λ step. IfPassed step IsInRange) }
{
    match Document::read(alloc, bytes) {
        Ok(document) => Ok(Step::Passed(document)),
        Err(ReadError::BadText(n)) => Ok(Step::Refused(Refusal::BadText(n))),
        Err(ReadError::NoMemory) => Err(NoMemory),
    }
}
