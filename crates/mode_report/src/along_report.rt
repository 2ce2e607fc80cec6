// The report of the modes that a direction allows, in pieces.
ghost use Rattle.std.specs.Prelude.{ℕ, List, ◌≡◌, ◌<◌, IfOk, Some, length, map, slice_get};
ghost use Rattle.std.specs.List.{All};
ghost use Rattle.iso_text.specs.declared.sections.IrrepText.{IrrepText as Irrep};
ghost use Rattle.report_steps.specs.IrrepSteps.{Each};
ghost use Rattle.mode_report.specs.DirectionHeld.{AreFit, along_in, named_matrices};
ghost use Rattle.mode_report.specs.FoundAlong.{IsAlongHeld};
ghost use Rattle.mode_report.specs.Parts.{IsOrbitPart, IsModePart, IsPart};
ghost use Rattle.mode_report.specs.ReportPieces.{IsAlongReport, along_front, along_told};
ghost use Rattle.mode_report.specs.Told.{OrbitModes};
ghost use Rattle.mode_report.specs.declared.moves.AtomEntries.TheVariants as atom;

use crate::along::ModesAlong;
use crate::along_pieces::{along_mode, along_orbit, count_of};
use crate::head::{direction_head, modes_head};
use crate::parts::{Part, parts_of};
use cyclo24::K24;
use iso_text::{IrrepText, NoMemory, Text};
use lin_alg::Matrix;
use report_buffer::Report;
use report_steps::add;
use std::alloc::Global;
use wyckoff::Orbits;

/// What is reported of the modes along a direction, with the table of the pieces of the report.
#[derive(Drop)]
pub struct AlongReport {
    pub along: ModesAlong,
    pub parts: Vec<Part>,
}

impl AlongReport {
    /// The report of modes along a direction. Condition: there is a matrix for each irrep on each orbit,
    /// with three columns for each atom. Errors: want of memory.
    pub fn new(alloc: Global, along: ModesAlong) -> Result<AlongReport, NoMemory>
        requires { IsAlongHeld along }
        ensures fits { IfOk result IsAlongReport }
        ensures along { IfOk result (λ report. report.along ≡ along) }
    {
        let counts = counts_of(alloc, &along.rows)?;
        let parts = parts_of(alloc, &counts)?;
        Ok(AlongReport { along, parts })
    }
}

// How many modes each orbit has.
fn counts_of(alloc: Global, all: &[Vec<Matrix<K24>>]) -> Result<Vec<usize>, NoMemory>
    ensures { IfOk result (λ counts. (irreps : List Irrep) → All (λ ms. length irreps ≡ length ms.items) all.now → counts.items ≡ map (λ ms. length (named_matrices irreps ms.items)) all.now) }
{
    let mut counts: Vec<usize> = Vec::new(alloc);
    for i in 0..all.len() {
        let matrices = &all[i];
        add(&mut counts, count_of(matrices)?)?;
    }
    Ok(counts)
}

// The first two lines.
fn front_text(alloc: Global, along: &ModesAlong) -> Result<Text, NoMemory>
    ensures { IfOk result (λ text. text ≡ along_front along.now) }
{
    let mut text = modes_head(alloc, along.file.divided.document().format())?;
    let line = direction_head(alloc, along.name.as_slice(), along.number)?;
    text.push(line.as_slice())?;
    Ok(text)
}

// The first lines of orbit i.
fn orbit_part(
    alloc: Global,
    orbits: &Orbits,
    all: &[Vec<Matrix<K24>>],
    i: usize,
) -> Result<Text, NoMemory>
    requires orbits { length orbits.now ≡ length all.now }
    requires orbit { i < length all.now }
    ensures { IfOk result (λ text. (irreps : List Irrep) → Each (AreFit irreps) orbits.now all.now → IsOrbitPart (along_in irreps orbits.now all.now) i text) }
{
    let matrices = &all[i];
    along_orbit(alloc, i as u64 + 1, orbits.get(i), matrices)
}

// The lines of mode m of orbit i.
fn mode_part(
    alloc: Global,
    irreps: &[IrrepText],
    orbits: &Orbits,
    all: &[Vec<Matrix<K24>>],
    i: usize,
    m: usize,
) -> Result<Text, NoMemory>
    requires fit { Each (AreFit irreps.now) orbits.now all.now }
    requires orbit { i < length all.now }
    requires mode { (o : OrbitModes) → slice_get (along_in irreps.now orbits.now all.now) i ≡ Some o → m < length o.modes }
    ensures { IfOk result (IsModePart atom.Three (along_in irreps.now orbits.now all.now) i m) }
{
    let matrices = &all[i];
    along_mode(alloc, irreps, orbits.get(i).atoms(), matrices, m)
}

// The text of a piece.
fn part_text(alloc: Global, along: &ModesAlong, part: Part) -> Result<Text, NoMemory>
    requires held { IsAlongHeld along.now }
    requires part { (text : List ℕ) × IsPart atom.Three (along_front along.now) (along_told along.now) part text }
    ensures { IfOk result (IsPart atom.Three (along_front along.now) (along_told along.now) part) }
{
    let irreps = along.file.divided.document().irreps();
    let all = along.rows.as_slice();
    match part {
        Part::Front => front_text(alloc, along),
        Part::Orbit(i) => orbit_part(alloc, &along.orbits, all, i),
        Part::Mode(i, m) => mode_part(alloc, irreps, &along.orbits, all, i, m),
    }
}

/// The first line and that of the direction; and for each orbit its first lines, and each mode. Errors:
/// want of memory.
impl Report for AlongReport {
    ghost use Rattle.mode_report.specs.ReportPieces.{IsAlongReport, along_pieces};

    ghost fits = { IsAlongReport };

    ghost pieces = { along_pieces };

    fn count(&self) -> usize {
        self.parts.len()
    }

    fn piece(&self, alloc: Global, number: usize) -> Result<Text, NoMemory> {
        part_text(alloc, &self.along, self.parts[number])
    }
}
