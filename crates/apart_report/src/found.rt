// What `apart` finds in a file.
ghost use Rattle.std.specs.Prelude.{IfOk};
ghost use Rattle.report_steps.specs.FoundBy.{FindsBy};
ghost use Rattle.report_steps.specs.HeldFiles.{AreInducedHeld};
ghost use Rattle.apart_report.specs.ApartFound.{AreApartFound};
ghost use Rattle.apart_report.specs.FoundPairs.{ArePairsHeld, apart_of};

use crate::answers::all_answers;
use crate::pairs::pairs_below;
use iso_text::NoMemory;
use report_steps::{InducedFile, Step};
use std::alloc::Global;

/// A file, and for each pair of its irreps whether they are apart: the earlier one first, by the first
/// and then the second.
#[derive(Drop)]
pub struct FoundPairs {
    pub file: InducedFile,
    pub answers: Vec<bool>,
}

/// Whether the irreps of each pair of a file are apart; or that a number is too wide. Condition: what
/// the file holds is what its irreps induce. Errors: want of memory.
pub fn apart_found(alloc: Global, file: InducedFile) -> Result<Step<FoundPairs>, NoMemory>
    requires { AreInducedHeld file }
    ensures { IfOk result (FindsBy apart_of ArePairsHeld (AreApartFound file.divided)) }
{
    let pairs = pairs_below(alloc, file.irreps.len())?;
    match all_answers(alloc, &file, &pairs)? {
        Step::Passed(answers) => Ok(Step::Passed(FoundPairs { file, answers })),
        Step::Refused(refusal) => Ok(Step::Refused(refusal)),
    }
}
