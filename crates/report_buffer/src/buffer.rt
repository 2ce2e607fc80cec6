// A buffer of fixed size in front of a sink.
ghost use Rattle.std.specs.Prelude.{◌≡◌, ◌≤◌, ◌+◌, ◌++◌, [], length, IfOk, OnOk, OnErr};
ghost use Rattle.iso_text.specs.Counts.{HasRisen};
ghost use Rattle.iso_text.specs.Streams.{GrownBy, GrownByPrefix};
ghost use Rattle.report_buffer.specs.Passing.{IsPassedOn};

use iso_text::{NoMemory, Sink, WriteFault, put_all};
use std::alloc::Global;
use std::marker::Model;

/// How many bytes a buffer holds at most.
pub const ROOM: usize = 65_536;

/// Bytes on their way to a sink, at most `ROOM`, seen as their list.
#[derive(Drop)]
pub struct Buffer {
    bytes: Vec<u8>,
}

impl Model for Buffer {
    ghost use Rattle.std.specs.Prelude.{◌≤◌, ℕ, List, vec_len, vec_capacity};

    ghost Value = { List ℕ };

    ghost view = { λ b. b.bytes.items };

    ghost invariant = { λ b. (vec_len b.bytes ≤ 65536) × (65536 ≤ vec_capacity b.bytes) };
}

impl Buffer {
    /// An empty buffer. The memory for all that it may hold is taken here.
    pub fn new(alloc: Global) -> Result<Self, NoMemory>
        ensures { IfOk result (λ b. b ≡ []) }
    {
        match Vec::with_capacity(alloc, ROOM) {
            Ok(bytes) => Ok(Buffer { bytes }),
            Err(_) => Err(NoMemory),
        }
    }

    // Keeps a piece that there is room for.
    fn keep(&mut self, piece: &[u8])
        requires { length self.old + length piece.now ≤ ROOM }
        ensures { self.new ≡ self.old ++ piece.now }
    {
        match self.bytes.extend_from_slice(piece) {
            Ok(()) => (),
            // The room was made by `new`.
            Err(_) => unreachable!(),
        }
    }

    /// Writes all that it holds to the sink. It takes no memory.
    ///
    /// After `WriteFault` a prefix was written, and the sink counted a fault. It is empty after either.
    pub fn flush<O: Sink>(&mut self, out: &mut O) -> Result<(), WriteFault>
        ensures ok { OnOk result (GrownBy self.old (O.written out.old) (O.written out.new)) }
        ensures err { OnErr result (GrownByPrefix self.old (O.written out.old) (O.written out.new)) }
        ensures empty { self.new ≡ [] }
        ensures cause { OnErr result (HasRisen (O.faults out.old) (O.faults out.new)) }
        ensures faults { O.faults out.old ≤ O.faults out.new }
    {
        let answer = put_all(out, &self.bytes);
        self.bytes.clear();
        answer
    }

    /// Takes a piece. What it holds goes to the sink where there is no room for the piece too, and so
    /// does a piece that is longer than `ROOM`. It takes no memory.
    ///
    /// After `WriteFault` the sink has grown by a prefix of what the buffer held and the piece, the sink
    /// counted a fault, and the buffer is empty.
    pub fn push<O: Sink>(&mut self, piece: &[u8], out: &mut O) -> Result<(), WriteFault>
        ensures ok { OnOk result (IsPassedOn (self.old ++ piece.now) self.new (O.written out.old) (O.written out.new)) }
        ensures err { OnErr result (GrownByPrefix (self.old ++ piece.now) (O.written out.old) (O.written out.new)) }
        ensures empty { OnErr result (self.new ≡ []) }
        ensures cause { OnErr result (HasRisen (O.faults out.old) (O.faults out.new)) }
        ensures faults { O.faults out.old ≤ O.faults out.new }
        ensures room { length self.new ≤ ROOM }
    {
        if piece.len() <= ROOM - self.bytes.len() {
            self.keep(piece);
            return Ok(());
        }
        self.flush(out)?;
        if piece.len() <= ROOM {
            self.keep(piece);
            return Ok(());
        }
        put_all(out, piece)
    }
}
