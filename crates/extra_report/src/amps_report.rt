// The report of amplitudes, in pieces.
ghost use Rattle.std.specs.Prelude.{◌≡◌, ◌<◌, IfOk, Some, length, slice_get};
ghost use Rattle.extra_report.specs.ExtraAmpsPieces.{amps_head, orbit_pieces};
ghost use Rattle.extra_report.specs.FoundExtraAmps.{AreExtraAmpsHeld};

use crate::amps_found::FoundExtraAmps;
use crate::head::{amps_word_of, head};
use amp_report::orbit_piece;
use iso_text::{NoMemory, Text};
use report_buffer::Report;
use std::alloc::Global;

// The first line of amplitudes.
fn first_piece(alloc: Global, found: &FoundExtraAmps) -> Result<Text, NoMemory>
    ensures { IfOk result (λ text. text ≡ amps_head found.now) }
{
    let format = found.file.divided.document().format();
    head(alloc, format, amps_word_of(found.nature))
}

// The lines of orbit i of amplitudes.
fn amps_piece(alloc: Global, found: &FoundExtraAmps, i: usize) -> Result<Text, NoMemory>
    requires held { AreExtraAmpsHeld found.now }
    requires orbit { i < length found.now.modes.items }
    ensures { IfOk result (λ text. slice_get (orbit_pieces found.now) i ≡ Some text) }
{
    orbit_piece(
        alloc,
        found.file.divided.document().irreps(),
        &found.orbits,
        &found.modes,
        &found.rows,
        i,
    )
}

/// The report of the amplitudes of all orbits: the first line, and the lines of each orbit in the order
/// of the atom lines. Condition: there are modes for each orbit, with a number for each. Errors: want of
/// memory.
impl Report for FoundExtraAmps {
    ghost use Rattle.extra_report.specs.ExtraAmpsPieces.{extra_amps_pieces};
    ghost use Rattle.extra_report.specs.FoundExtraAmps.{AreExtraAmpsHeld};

    ghost fits = { AreExtraAmpsHeld };

    ghost pieces = { extra_amps_pieces };

    fn count(&self) -> usize {
        self.modes.len() + 1
    }

    fn piece(&self, alloc: Global, number: usize) -> Result<Text, NoMemory> {
        if number == 0 {
            return first_piece(alloc, self);
        }
        amps_piece(alloc, self, number - 1)
    }
}
