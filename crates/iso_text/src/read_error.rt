// Why bytes are no file that was read.
ghost use Rattle.std.specs.Prelude.{◌≡◌};
ghost use Rattle.iso_text.specs.declared.read_error.ReadError.TheVariants as read_error;

use crate::NoMemory;
use thiserror::Error;

/// Why bytes are no file that was read.
#[derive(Clone, Copy, Debug, PartialEq, Eq, Error)]
pub enum ReadError {
    /// The number of the first line that can't go on as a file, or one more than the number of lines
    /// where the end is missing.
    #[error("line {0}: bad text")]
    BadText(u32),
    /// Want of memory.
    #[error("out of memory")]
    NoMemory,
}

impl From<NoMemory> for ReadError {
    ghost from_gives = { λ _ e. e ≡ read_error.NoMemory };

    fn from(_: NoMemory) -> Self {
        ReadError::NoMemory
    }
}
