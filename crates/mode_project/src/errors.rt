// Why there are no modes, or no amplitudes.
use thiserror::Error;

// The number of the family of numbers of modes.
pub(crate) const FAMILY: u8 = 5;

// The number of the family of numbers of amplitudes.
pub(crate) const AMPLITUDE_FAMILY: u8 = 6;

/// Why an orbit has no modes.
#[derive(Clone, Copy, Debug, PartialEq, Eq, Error)]
pub enum ModeError {
    /// A number of this family, 5, reached 2^126.
    #[error("a number is too wide")]
    Wide(u8),
    /// Want of memory.
    #[error("out of memory")]
    NoMemory,
}

/// Why an orbit has no amplitudes.
#[derive(Clone, Copy, Debug, PartialEq, Eq, Error)]
pub enum AmpError {
    /// A number of this family, 6, reached 2^126.
    #[error("a number is too wide")]
    Wide(u8),
    /// Want of memory.
    #[error("out of memory")]
    NoMemory,
}
