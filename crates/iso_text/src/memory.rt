// Sources in memory.
ghost use Rattle.std.specs.Prelude.{◌≡◌, ◌≤◌, ◌<◌, ◌+◌, ◌↔◌, IfOk, IfSome, OnErr, OnOk, IsTrue, IsErr, IsOk, Some, Ok, Err, [], drop, length, min};
ghost use Rattle.iso_text.specs.Counts.{last_count, raised, HasRisen};
ghost use Rattle.iso_text.specs.Memory.{next_fails, after_call, after_fault, given};
ghost use Rattle.iso_text.specs.Streams.{Reads, IsAtEnd};

use crate::calls::CallLog;
use crate::{Failed, Source};
use std::marker::Model;

/// Bytes in memory that never fail, read in pieces of at most `piece` bytes.
#[derive(Drop)]
pub struct CalmSource {
    bytes: Vec<u8>,
    at: usize,
    piece: usize,
    taken: u64,
}

impl Model for CalmSource {
    ghost use Rattle.std.specs.Prelude.{◌≤◌, ◌<◌, drop, vec_len};
    ghost use Rattle.iso_text.specs.Memory.{CalmReading};

    ghost Value = { CalmReading };

    ghost view = { λ s. record { left = drop s.at s.bytes.items; piece = s.piece; taken = s.taken } };

    ghost invariant = { λ s. (s.at ≤ vec_len s.bytes) × (0 < s.piece) };
}

impl CalmSource {
    /// These bytes, in pieces of at most `piece` bytes, 1 or more.
    pub fn new(bytes: Vec<u8>, piece: usize) -> Self
        requires { 0 < piece }
        ensures { result ≡ record { left = bytes.items; piece = piece; taken = 0 } }
    {
        CalmSource {
            bytes,
            at: 0,
            piece,
            taken: 0,
        }
    }

    // Gives the next bytes, and says how many.
    fn give(&mut self, buf: &mut [u8]) -> usize
        ensures count { result ≡ given self.old (length buf.old) }
        ensures fits { result ≤ length buf.old }
        ensures bytes { Reads result buf.new self.old.left (Some self.new.left) }
        ensures end { result ≡ 0 → 0 < length buf.old → self.old.left ≡ [] }
        ensures taken { self.new.taken ≡ raised result self.old.taken }
        ensures piece { self.new.piece ≡ self.old.piece }
    {
        let n = self.piece.min(buf.len()).min(self.bytes.len() - self.at);
        buf[..n].copy_from_slice(&self.bytes[self.at..self.at + n]);
        self.at += n;
        self.taken = self.taken.saturating_add(n as u64);
        n
    }
}

impl Source for CalmSource {
    ghost left = { λ s. Some s.left };

    ghost faults = { λ s. 0 };

    ghost taken = { λ s. s.taken };

    /// Gives exactly the least of the piece, the buffer's length and what is left.
    fn read(&mut self, buf: &mut [u8]) -> Result<usize, Failed>
        ensures count { result ≡ Ok (given self.old (length buf.old)) }
        ensures fits { IfOk result (λ n. n ≤ length buf.old) }
        ensures bytes { IfOk result (λ n. Reads n buf.new self.old.left (Some self.new.left)) }
        ensures end { IfOk result (λ n. n ≡ 0 → 0 < length buf.old → self.old.left ≡ []) }
        ensures counted { IfOk result (λ n. self.new.taken ≡ raised n self.old.taken) }
        ensures piece { self.new.piece ≡ self.old.piece }
    {
        Ok(self.give(buf))
    }
}

/// Bytes in memory, read in pieces of at most `piece` bytes, with calls that fail.
#[derive(Drop)]
pub struct MemSource {
    source: CalmSource,
    calls: CallLog,
}

impl Model for MemSource {
    ghost use Rattle.iso_text.specs.Memory.{MemReading};

    ghost Value = { MemReading };

    ghost view = { λ s. record { source = s.source; calls = s.calls } };
}

impl MemSource {
    /// These bytes, in pieces of at most `piece` bytes, 1 or more. The calls of the numbers in
    /// `fail`, from 1, fail.
    pub fn new(bytes: Vec<u8>, piece: usize, fail: Vec<u64>) -> Self
        requires { 0 < piece }
        ensures source { result.source ≡ record { left = bytes.items; piece = piece; taken = 0 } }
        ensures calls { result.calls ≡ record { fail = fail.items; call = 0; faults = 0 } }
    {
        MemSource {
            source: CalmSource::new(bytes, piece),
            calls: CallLog::new(fail),
        }
    }
}

impl Source for MemSource {
    ghost left = { λ s. Some s.source.left };

    ghost faults = { λ s. s.calls.faults };

    ghost taken = { λ s. s.source.taken };

    /// Fails exactly at the calls that were told; else gives exactly the least of the piece, the
    /// buffer's length and what is left.
    fn read(&mut self, buf: &mut [u8]) -> Result<usize, Failed>
        ensures fails { IsErr result ↔ IsTrue (next_fails self.old.calls) }
        ensures count { IfOk result (λ n. n ≡ given self.old.source (length buf.old)) }
        ensures fits { IfOk result (λ n. n ≤ length buf.old) }
        ensures bytes { IfOk result (λ n. Reads n buf.new self.old.source.left (Some self.new.source.left)) }
        ensures end { IfOk result (λ n. n ≡ 0 → 0 < length buf.old → self.old.source.left ≡ []) }
        ensures counted { IfOk result (λ n. self.new.source.taken ≡ raised n self.old.source.taken) }
        ensures piece { self.new.source.piece ≡ self.old.source.piece }
        ensures calls { OnOk result (self.new.calls ≡ after_call self.old.calls) }
        ensures fault { OnErr result (self.new.calls ≡ after_fault self.old.calls) }
        ensures cause { OnErr result (HasRisen self.old.calls.faults self.new.calls.faults) }
        ensures faults { self.old.calls.faults ≤ self.new.calls.faults }
        ensures failed { OnErr result (self.new.source ≡ self.old.source) }
    {
        if self.calls.next_fails() {
            self.calls.count_fault();
            Err(Failed)
        } else {
            self.calls.count();
            Ok(self.source.give(buf))
        }
    }
}
