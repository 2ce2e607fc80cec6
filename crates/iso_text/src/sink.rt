// Sinks of bytes, and writing a whole piece.
ghost use Rattle.std.specs.Prelude.{◌≡◌, ◌≤◌, ◌<◌, ℕ, List, Option, length, take, IfOk, OnOk, OnErr};
ghost use Rattle.iso_text.specs.Counts.{HasRisen};
ghost use Rattle.iso_text.specs.Streams.{GrownBy, GrownByPrefix};

use crate::{Failed, WriteFault};

/// A stream that bytes are written to, at its end.
pub trait Sink {
    /// The bytes written so far, where the sink tells them.
    ghost written: { Self → Option (List ℕ) };

    /// How often a write has failed.
    ghost faults: { Self → ℕ };

    /// Writes a front of the piece, and says how many bytes; at least one where the piece isn't
    /// empty. `Failed` comes only where the sink counted a fault, and then nothing was written.
    fn write(&mut self, piece: &[u8]) -> Result<usize, Failed>
        ensures fits { IfOk result (λ n. n ≤ length piece.now) }
        ensures some { IfOk result (λ n. 0 < length piece.now → 0 < n) }
        ensures bytes { IfOk result (λ n. GrownBy (take n piece.now) (written self.old) (written self.new)) }
        ensures failed { OnErr result (written self.new ≡ written self.old) }
        ensures faults { faults self.old ≤ faults self.new }
        ensures cause { OnErr result (HasRisen (faults self.old) (faults self.new)) };
}

/// Writes all of the piece. It takes no memory.
///
/// After `WriteFault` a prefix of the piece was written, and the sink counted a fault.
pub fn put_all<O: Sink>(sink: &mut O, piece: &[u8]) -> Result<(), WriteFault>
    ensures ok { OnOk result (GrownBy piece.now (O.written sink.old) (O.written sink.new)) }
    ensures err { OnErr result (GrownByPrefix piece.now (O.written sink.old) (O.written sink.new)) }
    ensures cause { OnErr result (HasRisen (O.faults sink.old) (O.faults sink.new)) }
    ensures faults { O.faults sink.old ≤ O.faults sink.new }
{
    let mut done = 0;
    while done < piece.len() {
        match sink.write(&piece[done..]) {
            Ok(n) => done += n,
            Err(_) => return Err(WriteFault),
        }
    }
    Ok(())
}
