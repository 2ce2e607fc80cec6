// The report of all amplitudes, in pieces.
ghost use Rattle.std.specs.Prelude.{◌≡◌, ◌<◌, IfOk, Some, length, map, slice_get};
ghost use Rattle.std.specs.List.{enumerate_from};
ghost use Rattle.report_steps.specs.IrrepSteps.{Each};
ghost use Rattle.amp_report.specs.AmpsPieces.{orbit_pieces};
ghost use Rattle.amp_report.specs.AmpsReport.{head_text, orbit_text};
ghost use Rattle.amp_report.specs.FoundAmps.{AreAmpsHeld};
ghost use Rattle.amp_report.specs.Held.{HasRow, told_in};

use crate::found::FoundAmplitudes;
use crate::orbit_text::push_orbit;
use cyclo24::K24;
use iso_text::{IrrepText, NoMemory, Text};
use lin_alg::Row;
use mode_project::Modes;
use report_buffer::Report;
use std::alloc::Global;
use wyckoff::Orbits;

// The first line, with the file's format.
fn head(alloc: Global, format: u8) -> Result<Text, NoMemory>
    ensures { IfOk result (λ text. text ≡ head_text format) }
{
    let mut text = Text::new(alloc);
    text.push(b"isodist ")?;
    text.push_number(u64::from(format))?;
    text.push(b" amps")?;
    text.push(b"\n")?;
    Ok(text)
}

/// The lines of the amplitudes of orbit i, under its number in the report. Condition: there are modes for
/// each orbit, with a number for each. Errors: want of memory.
pub fn orbit_piece(
    alloc: Global,
    irreps: &[IrrepText],
    orbits: &Orbits,
    modes: &[Modes],
    rows: &[Row<K24>],
    i: usize,
) -> Result<Text, NoMemory>
    requires orbits { length orbits.now ≡ length modes.now }
    requires rows { Each HasRow modes.now rows.now }
    requires orbit { i < length modes.now }
    ensures { IfOk result (λ text. slice_get (map orbit_text (enumerate_from 1 (told_in irreps.now orbits.now modes.now rows.now))) i ≡ Some text) }
{
    let mut text = Text::new(alloc);
    let row = rows[i].as_slice();
    push_orbit(
        alloc,
        &mut text,
        irreps,
        i as u64 + 1,
        orbits.get(i),
        &modes[i],
        row,
    )?;
    Ok(text)
}

// The lines of orbit i of amplitudes.
fn found_piece(alloc: Global, found: &FoundAmplitudes, i: usize) -> Result<Text, NoMemory>
    requires held { AreAmpsHeld found.now }
    requires orbit { i < length found.now.modes.items }
    ensures { IfOk result (λ text. slice_get (orbit_pieces found.now) i ≡ Some text) }
{
    orbit_piece(
        alloc,
        found.file.divided.document().irreps(),
        &found.orbits,
        &found.modes,
        &found.rows,
        i,
    )
}

/// The report of the amplitudes of all orbits: the first line, and the lines of each orbit in the order
/// of the atom lines. Condition: there are modes for each orbit, with a number for each. Errors: want of
/// memory.
impl Report for FoundAmplitudes {
    ghost use Rattle.amp_report.specs.AmpsPieces.{amps_pieces};
    ghost use Rattle.amp_report.specs.FoundAmps.{AreAmpsHeld};

    ghost fits = { AreAmpsHeld };

    ghost pieces = { amps_pieces };

    fn count(&self) -> usize {
        self.modes.len() + 1
    }

    fn piece(&self, alloc: Global, number: usize) -> Result<Text, NoMemory> {
        if number == 0 {
            return head(alloc, self.file.divided.document().format());
        }
        found_piece(alloc, self, number - 1)
    }
}
