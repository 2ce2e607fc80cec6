// The report of all modes, in pieces.
ghost use Rattle.std.specs.Prelude.{ℕ, List, ◌≡◌, ◌<◌, IfOk, Some, length, map, slice_get};
ghost use Rattle.iso_text.specs.declared.sections.IrrepText.{IrrepText as Irrep};
ghost use Rattle.mode_project.specs.ModesView.{count_in};
ghost use Rattle.report_steps.specs.IrrepSteps.{Each};
ghost use Rattle.mode_report.specs.Held.{HasSizeBy, HasSizeOf, told_in};
ghost use Rattle.mode_report.specs.ModesReport.{each_of, head_text};
ghost use Rattle.mode_report.specs.Parts.{IsOrbitPart, IsModePart, IsPart, parts_of};
ghost use Rattle.mode_report.specs.ReportPieces.{IsModesReport, modes_told};
ghost use Rattle.mode_report.specs.Told.{OrbitModes};
ghost use Rattle.mode_report.specs.declared.moves.AtomEntries.TheVariants as atom;

use crate::found::FoundModes;
use crate::head::modes_head;
use crate::mode_pieces::{mode_piece, orbit_front};
use crate::moves::AtomEntries;
use crate::parts::{Part, parts_of};
use iso_text::{IrrepText, NoMemory, Text};
use mode_project::Modes;
use report_buffer::Report;
use report_steps::{InducedFile, add};
use std::alloc::Global;
use wyckoff::Orbits;

/// What is reported of all modes of the orbits of a file, with the table of the pieces of the report.
#[derive(Drop)]
pub struct ModesReport {
    pub file: InducedFile,
    pub found: FoundModes,
    pub parts: Vec<Part>,
}

impl ModesReport {
    /// The report of the modes that were found in a file. Condition: the modes have three numbers for
    /// each atom. Errors: want of memory.
    pub fn new(alloc: Global, file: InducedFile, found: FoundModes) -> Result<ModesReport, NoMemory>
        requires { Each HasSizeOf found.orbits found.modes.items }
        ensures fits { IfOk result IsModesReport }
        ensures file { IfOk result (λ report. report.file ≡ file) }
        ensures found { IfOk result (λ report. report.found ≡ found) }
    {
        let parts = modes_parts(alloc, &found.modes)?;
        Ok(ModesReport { file, found, parts })
    }
}

// How many modes each orbit has.
fn counts_of(alloc: Global, all: &[Modes]) -> Result<Vec<usize>, NoMemory>
    ensures { IfOk result (λ counts. counts.items ≡ map count_in all.now) }
{
    let mut counts: Vec<usize> = Vec::new(alloc);
    for i in 0..all.len() {
        add(&mut counts, all[i].len())?;
    }
    Ok(counts)
}

/// The table of the pieces of a report on orbits with these modes. Errors: want of memory.
pub fn modes_parts(alloc: Global, all: &[Modes]) -> Result<Vec<Part>, NoMemory>
    ensures { IfOk result (λ parts. parts.items ≡ parts_of (map count_in all.now)) }
{
    let counts = counts_of(alloc, all)?;
    parts_of(alloc, &counts)
}

/// The first lines of orbit i: its line and its places. Condition: there are modes for each orbit.
/// Errors: want of memory.
pub fn orbit_part(alloc: Global, orbits: &Orbits, all: &[Modes], i: usize) -> Result<Text, NoMemory>
    requires count { length orbits.now ≡ length all.now }
    requires orbit { i < length all.now }
    ensures { IfOk result (λ text. (irreps : List Irrep) → IsOrbitPart (told_in irreps orbits.now all.now) i text) }
{
    orbit_front(alloc, i as u64 + 1, orbits.get(i), &all[i])
}

/// The lines of mode m of orbit i, with so many numbers an atom. Condition: the modes have so many
/// numbers for each atom. Errors: want of memory.
pub fn mode_part(
    alloc: Global,
    entries: AtomEntries,
    irreps: &[IrrepText],
    orbits: &Orbits,
    all: &[Modes],
    i: usize,
    m: usize,
) -> Result<Text, NoMemory>
    requires sizes { Each (HasSizeBy (each_of entries)) orbits.now all.now }
    requires orbit { i < length all.now }
    requires mode { (o : OrbitModes) → slice_get (told_in irreps.now orbits.now all.now) i ≡ Some o → m < length o.modes }
    ensures { IfOk result (IsModePart entries (told_in irreps.now orbits.now all.now) i m) }
{
    mode_piece(alloc, entries, irreps, orbits.get(i), &all[i], m)
}

// The text of a piece.
fn part_text(alloc: Global, report: &ModesReport, part: Part) -> Result<Text, NoMemory>
    requires fits { IsModesReport report.now }
    requires part { (text : List ℕ) × IsPart atom.Three (head_text report.now.file.divided.file.format) (modes_told report.now) part text }
    ensures { IfOk result (IsPart atom.Three (head_text report.now.file.divided.file.format) (modes_told report.now) part) }
{
    let document = report.file.divided.document();
    let orbits = &report.found.orbits;
    let all = report.found.modes.as_slice();
    match part {
        Part::Front => modes_head(alloc, document.format()),
        Part::Orbit(i) => orbit_part(alloc, orbits, all, i),
        Part::Mode(i, m) => mode_part(
            alloc,
            AtomEntries::Three,
            document.irreps(),
            orbits,
            all,
            i,
            m,
        ),
    }
}

/// The first line; and for each orbit its first lines, and each mode. Errors: want of memory.
impl Report for ModesReport {
    ghost use Rattle.mode_report.specs.ReportPieces.{IsModesReport, modes_pieces};

    ghost fits = { IsModesReport };

    ghost pieces = { modes_pieces };

    fn count(&self) -> usize {
        self.parts.len()
    }

    fn piece(&self, alloc: Global, number: usize) -> Result<Text, NoMemory> {
        part_text(alloc, self, self.parts[number])
    }
}
