// Sinks in memory.
ghost use Rattle.std.specs.Prelude.{◌≡◌, ◌≤◌, ◌<◌, ◌+◌, ◌++◌, ◌||◌, ◌&&◌, ◌==◌, ◌↔◌, IsErr, IsTrue, IfOk, OnErr, OnOk, Some, Ok, Err, [], take, length, nat_lt, nat_eq};
ghost use Rattle.iso_text.specs.Counts.{last_count, HasRisen};
ghost use Rattle.iso_text.specs.Memory.{next_fails, after_call, after_fault, accepted, write_fails};

use crate::calls::CallLog;
use crate::{Failed, NoMemory, Sink};
use std::alloc::Global;
use std::marker::Model;

/// A sink in memory that holds at most `room` bytes and takes at most `piece` bytes a call, with
/// calls that fail.
#[derive(Drop)]
pub struct MemSink {
    bytes: Vec<u8>,
    room: usize,
    piece: usize,
    calls: CallLog,
}

impl Model for MemSink {
    ghost use Rattle.std.specs.Prelude.{◌≤◌, ◌<◌, vec_len, vec_capacity};
    ghost use Rattle.iso_text.specs.Memory.{MemWriting};

    ghost Value = { MemWriting };

    ghost view = { λ s. record { written = s.bytes.items; room = s.room; piece = s.piece; calls = s.calls } };

    ghost invariant = { λ s. (vec_len s.bytes ≤ s.room) × (s.room ≤ vec_capacity s.bytes) × (0 < s.piece) };
}

impl MemSink {
    /// Nothing written yet. The memory for all of the room is taken here. The calls of the numbers
    /// in `fail`, from 1, fail.
    pub fn new(alloc: Global, room: usize, piece: usize, fail: Vec<u64>) -> Result<Self, NoMemory>
        requires { 0 < piece }
        ensures written { IfOk result (λ s. s.written ≡ []) }
        ensures sizes { IfOk result (λ s. (s.room ≡ room) × (s.piece ≡ piece)) }
        ensures calls { IfOk result (λ s. s.calls ≡ record { fail = fail.items; call = 0; faults = 0 }) }
    {
        match Vec::with_capacity(alloc, room) {
            Ok(bytes) => Ok(MemSink {
                bytes,
                room,
                piece,
                calls: CallLog::new(fail),
            }),
            Err(_) => Err(NoMemory),
        }
    }

    /// What was written.
    pub fn as_slice(&self) -> &[u8]
        ensures { result.now ≡ self.now.written }
    {
        &self.bytes
    }
}

impl Sink for MemSink {
    ghost written = { λ s. Some s.written };

    ghost faults = { λ s. s.calls.faults };

    /// Fails exactly at the calls that were told, and at a piece that isn't empty while the room is
    /// full; else takes exactly the least of `piece`, the piece's length and the free room. It takes
    /// no memory.
    fn write(&mut self, piece: &[u8]) -> Result<usize, Failed>
        ensures fails { IsErr result ↔ IsTrue (write_fails self.old (length piece.now)) }
        ensures count { IfOk result (λ n. n ≡ accepted self.old (length piece.now)) }
        ensures fits { IfOk result (λ n. n ≤ length piece.now) }
        ensures some { IfOk result (λ n. 0 < length piece.now → 0 < n) }
        ensures bytes { IfOk result (λ n. self.new.written ≡ self.old.written ++ take n piece.now) }
        ensures sizes { (self.new.room ≡ self.old.room) × (self.new.piece ≡ self.old.piece) }
        ensures calls { OnOk result (self.new.calls ≡ after_call self.old.calls) }
        ensures fault { OnErr result (self.new.calls ≡ after_fault self.old.calls) }
        ensures cause { OnErr result (HasRisen self.old.calls.faults self.new.calls.faults) }
        ensures faults { self.old.calls.faults ≤ self.new.calls.faults }
        ensures failed { OnErr result (self.new.written ≡ self.old.written) }
    {
        let free = self.room - self.bytes.len();
        if self.calls.next_fails() || (free == 0 && !piece.is_empty()) {
            self.calls.count_fault();
            return Err(Failed);
        }
        let n = self.piece.min(piece.len()).min(free);
        match self.bytes.extend_from_slice(&piece[..n]) {
            Ok(()) => {
                self.calls.count();
                Ok(n)
            }
            // The room was made by `new`.
            Err(_) => unreachable!(),
        }
    }
}
