// The report of `occ` and `axial`, in pieces.
ghost use Rattle.std.specs.Prelude.{ℕ, List, ◌≡◌, IfOk};
ghost use Rattle.mode_report.specs.Parts.{IsPart};
ghost use Rattle.extra_report.specs.ExtraPieces.{IsExtraReport, extra_front, extra_told};
ghost use Rattle.extra_report.specs.ExtraReport.{entries_of};
ghost use Rattle.extra_report.specs.FoundExtra.{IsExtraHeld};

use crate::found::FoundExtra;
use crate::head::{entries_of, head, word_of};
use iso_text::{NoMemory, Text};
use mode_report::{Part, mode_part, modes_parts, orbit_part};
use report_buffer::Report;
use std::alloc::Global;

/// What is reported of the modes of the orbits of a file, with the table of the pieces of the report.
#[derive(Drop)]
pub struct ExtraReport {
    pub found: FoundExtra,
    pub parts: Vec<Part>,
}

impl ExtraReport {
    /// The report of the modes that were found in a file. Condition: there are modes for each orbit, with
    /// so many numbers for each atom. Errors: want of memory.
    pub fn new(alloc: Global, found: FoundExtra) -> Result<ExtraReport, NoMemory>
        requires { IsExtraHeld found }
        ensures fits { IfOk result IsExtraReport }
        ensures found { IfOk result (λ report. report.found ≡ found) }
    {
        let parts = modes_parts(alloc, &found.modes)?;
        Ok(ExtraReport { found, parts })
    }
}

// The first line.
fn front_text(alloc: Global, found: &FoundExtra) -> Result<Text, NoMemory>
    ensures { IfOk result (λ text. text ≡ extra_front found.now) }
{
    let document = found.file.divided.document();
    head(alloc, document.format(), word_of(found.nature))
}

// The text of a piece.
fn part_text(alloc: Global, found: &FoundExtra, part: Part) -> Result<Text, NoMemory>
    requires held { IsExtraHeld found.now }
    requires part { (text : List ℕ) × IsPart (entries_of found.now.nature) (extra_front found.now) (extra_told found.now) part text }
    ensures { IfOk result (IsPart (entries_of found.now.nature) (extra_front found.now) (extra_told found.now) part) }
{
    let irreps = found.file.divided.document().irreps();
    let entries = entries_of(found.nature);
    let orbits = &found.orbits;
    let all = found.modes.as_slice();
    match part {
        Part::Front => front_text(alloc, found),
        Part::Orbit(i) => orbit_part(alloc, orbits, all, i),
        Part::Mode(i, m) => mode_part(alloc, entries, irreps, orbits, all, i, m),
    }
}

/// The first line; and for each orbit its first lines, and each mode. Errors: want of memory.
impl Report for ExtraReport {
    ghost use Rattle.extra_report.specs.ExtraPieces.{IsExtraReport, extra_pieces};

    ghost fits = { IsExtraReport };

    ghost pieces = { extra_pieces };

    fn count(&self) -> usize {
        self.parts.len()
    }

    fn piece(&self, alloc: Global, number: usize) -> Result<Text, NoMemory> {
        part_text(alloc, &self.found, self.parts[number])
    }
}
