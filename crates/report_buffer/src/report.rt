// Reports in pieces, and writing one.
ghost use Rattle.std.specs.Prelude.{◌≡◌, ◌≤◌, ◌<◌, ℕ, List, [], Some, IfOk, OnOk, OnErr, IsErrOf, length, slice_get};
ghost use Rattle.std.specs.List.{concat};
ghost use Rattle.iso_text.specs.Counts.{HasRisen};
ghost use Rattle.iso_text.specs.Streams.{GrownBy, GrownByPrefix};
ghost use Rattle.report_buffer.specs.Passing.{IsPassedOn};

use crate::{Buffer, ReportError};
use iso_text::{NoMemory, Sink, Text};
use std::alloc::Global;

/// What can be reported, in pieces of a few lines each.
pub trait Report {
    /// That a value can be reported.
    ghost fits: { Self → Type 0 };

    /// The pieces of the report, in order.
    ghost pieces: { Self → List (List ℕ) };

    /// How many pieces there are.
    fn count(&self) -> usize
        requires { fits self.now }
        ensures { result ≡ length (pieces self.now) };

    /// The piece of this number, from 0.
    fn piece(&self, alloc: Global, number: usize) -> Result<Text, NoMemory>
        requires fits { fits self.now }
        requires place { number < length (pieces self.now) }
        ensures { IfOk result (λ text. slice_get (pieces self.now) number ≡ Some text) };
}

// Passes all pieces of a report to a buffer.
fn push_pieces<R: Report, O: Sink>(
    alloc: Global,
    report: &R,
    buffer: &mut Buffer,
    out: &mut O,
) -> Result<(), ReportError>
    requires fits { R.fits report.now }
    requires empty { buffer.old ≡ [] }
    ensures ok { OnOk result (IsPassedOn (concat (R.pieces report.now)) buffer.new (O.written out.old) (O.written out.new)) }
    ensures err { OnErr result (GrownByPrefix (concat (R.pieces report.now)) (O.written out.old) (O.written out.new)) }
    ensures cause { IsErrOf result ReportError.WriteFault → HasRisen (O.faults out.old) (O.faults out.new) }
    ensures faults { O.faults out.old ≤ O.faults out.new }
{
    for number in 0..report.count() {
        let piece = report.piece(alloc, number)?;
        buffer.push(piece.as_slice(), out)?;
    }
    Ok(())
}

/// Writes a report piece by piece through one buffer.
///
/// After `WriteFault` a prefix of the report was written, and the sink counted a fault; after `NoMemory` a
/// prefix was.
pub fn write_report<R: Report, O: Sink>(
    alloc: Global,
    report: &R,
    out: &mut O,
) -> Result<(), ReportError>
    requires { R.fits report.now }
    ensures ok { OnOk result (GrownBy (concat (R.pieces report.now)) (O.written out.old) (O.written out.new)) }
    ensures err { OnErr result (GrownByPrefix (concat (R.pieces report.now)) (O.written out.old) (O.written out.new)) }
    ensures cause { IsErrOf result ReportError.WriteFault → HasRisen (O.faults out.old) (O.faults out.new) }
    ensures faults { O.faults out.old ≤ O.faults out.new }
{
    let mut buffer = Buffer::new(alloc)?;
    push_pieces(alloc, report, &mut buffer, out)?;
    buffer.flush(out)?;
    Ok(())
}
