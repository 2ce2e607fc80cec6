// Sources of bytes, and taking all that a source has.
ghost use Rattle.std.specs.Prelude.{◌≡◌, ◌+◌, ◌≤◌, ◌<◌, ℕ, List, [], Option, Some, length, IfOk, IfSome, OnOk, OnErr, IsErrOf};
ghost use Rattle.iso_text.specs.Counts.{raised, HasRisen};
ghost use Rattle.iso_text.specs.Streams.{Reads, IsRestOf, IsAtEnd};

use crate::{Failed, TakeError};
use std::alloc::{AllocError, Global};

/// The most bytes that a file may have.
pub const MAX_BYTES: usize = 1_048_576;

/// A stream of bytes that are read once, from the front.
pub trait Source {
    /// The bytes not yet read, where the source tells them.
    ghost left: { Self → Option (List ℕ) };

    /// How often a read has failed.
    ghost faults: { Self → ℕ };

    /// How many bytes were given.
    ghost taken: { Self → ℕ };

    /// Reads some bytes into the front of the buffer, and says how many. 0 of a buffer that isn't
    /// empty is the end. `Failed` comes only where the source counted a fault.
    fn read(&mut self, buf: &mut [u8]) -> Result<usize, Failed>
        ensures fits { IfOk result (λ n. n ≤ length buf.old) }
        ensures bytes { IfOk result (λ n. IfSome (left self.old) (λ bytes. Reads n buf.new bytes (left self.new))) }
        ensures end { IfOk result (λ n. n ≡ 0 → 0 < length buf.old → IsAtEnd (left self.old)) }
        ensures counted { IfOk result (λ n. taken self.new ≡ raised n (taken self.old)) }
        ensures failed { OnErr result (left self.new ≡ left self.old) }
        ensures failed_count { OnErr result (taken self.new ≡ taken self.old) }
        ensures faults { faults self.old ≤ faults self.new }
        ensures cause { OnErr result (HasRisen (faults self.old) (faults self.new)) };
}

// A buffer of this length.
fn zeros(alloc: Global, len: usize) -> Result<Vec<u8>, AllocError>
    ensures { IfOk result (λ v. length v.items ≡ len) }
{
    vec![in alloc; 0u8; len]
}

// Reads until the buffer is full or the source ends, and says how many bytes it read. Each read
// asks for at least one byte.
fn fill<S: Source>(source: &mut S, buf: &mut [u8]) -> Result<usize, Failed>
    ensures fits { IfOk result (λ n. n ≤ length buf.old) }
    ensures bytes { IfOk result (λ n. IfSome (S.left source.old) (λ bytes. Reads n buf.new bytes (S.left source.new))) }
    ensures end { IfOk result (λ n. n < length buf.old → IfSome (S.left source.old) (λ bytes. n ≡ length bytes)) }
    ensures counted { IfOk result (λ n. S.taken source.new ≡ raised n (S.taken source.old)) }
    ensures failed { OnErr result (S.taken source.new ≤ S.taken source.old + length buf.old) }
    ensures rest { OnErr result (IsRestOf (S.left source.old) (S.left source.new)) }
    ensures faults { S.faults source.old ≤ S.faults source.new }
    ensures cause { OnErr result (HasRisen (S.faults source.old) (S.faults source.new)) }
{
    let mut got = 0;
    while got < buf.len() {
        let n = source.read(&mut buf[got..])?;
        if n == 0 {
            return Ok(got);
        }
        got += n;
    }
    Ok(got)
}

/// Takes all that is left, at most `MAX_BYTES`. Its memory is taken before the first read.
///
/// `ReadFault` comes only where the source counted a fault; `TooLong` exactly where more bytes
/// were left, where the source tells them; after `NoMemory` the source is as it was.
pub fn take_all<S: Source>(alloc: Global, source: &mut S) -> Result<Vec<u8>, TakeError>
    ensures all { IfOk result (λ v. IfSome (S.left source.old) (λ bytes. v.items ≡ bytes)) }
    ensures end { OnOk result (IfSome (S.left source.old) (λ _. S.left source.new ≡ Some [])) }
    ensures short { IfOk result (λ v. length v.items ≤ MAX_BYTES) }

    // The causes of the refusals.
    ensures too_long { IsErrOf result TakeError.TooLong → IfSome (S.left source.old) (λ bytes. MAX_BYTES < length bytes) }
    ensures too_long_count { IsErrOf result TakeError.TooLong → S.taken source.new ≡ raised (MAX_BYTES + 1) (S.taken source.old) }
    ensures read_fault { IsErrOf result TakeError.ReadFault → HasRisen (S.faults source.old) (S.faults source.new) }
    ensures no_memory { IsErrOf result TakeError.NoMemory → source.new ≡ source.old }

    // What holds of every answer.
    ensures rest { IsRestOf (S.left source.old) (S.left source.new) }
    ensures faults { S.faults source.old ≤ S.faults source.new }
    ensures taken { S.taken source.new ≤ S.taken source.old + (MAX_BYTES + 1) }
{
    let mut bytes = zeros(alloc, MAX_BYTES + 1)?;
    let got = fill(source, &mut bytes)?;
    if got > MAX_BYTES {
        return Err(TakeError::TooLong);
    }
    bytes.truncate(got);
    Ok(bytes)
}
