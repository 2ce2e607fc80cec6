// Why a call on a stream, or a call that takes memory, did not do its work.
ghost use Rattle.std.specs.Prelude.{◌≡◌};
ghost use Rattle.iso_text.specs.declared.errors.NoMemory as no_memory;
ghost use Rattle.iso_text.specs.declared.errors.TakeError.TheVariants as take_error;

use std::alloc::AllocError;
use thiserror::Error;

/// A read or a write that failed; the stream has counted it.
#[derive(Clone, Copy, Debug, PartialEq, Eq, Error)]
#[error("the stream failed")]
pub struct Failed;

/// A write that failed before the whole piece was written.
#[derive(Clone, Copy, Debug, PartialEq, Eq, Error)]
#[error("write failed")]
pub struct WriteFault;

/// Want of memory.
#[derive(Clone, Copy, Debug, PartialEq, Eq, Error)]
#[error("out of memory")]
pub struct NoMemory;

impl From<AllocError> for NoMemory {
    fn from(_: AllocError) -> Self {
        NoMemory
    }
}

/// Why not all of a source was taken.
#[derive(Clone, Copy, Debug, PartialEq, Eq, Error)]
pub enum TakeError {
    /// A read failed.
    #[error("read failed")]
    ReadFault,
    /// More than `MAX_BYTES` bytes were left.
    #[error("file is too long")]
    TooLong,
    /// Want of memory; nothing was read.
    #[error("out of memory")]
    NoMemory,
}

impl From<AllocError> for TakeError {
    ghost from_gives = { λ _ e. e ≡ take_error.NoMemory };

    fn from(_: AllocError) -> Self {
        TakeError::NoMemory
    }
}

impl From<Failed> for TakeError {
    ghost from_gives = { λ _ e. e ≡ take_error.ReadFault };

    fn from(_: Failed) -> Self {
        TakeError::ReadFault
    }
}
