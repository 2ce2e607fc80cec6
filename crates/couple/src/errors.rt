// Why calls gave no answer.
use thiserror::Error;

/// Why two actions aren't coupled.
#[derive(Clone, Copy, Debug, PartialEq, Eq, Error)]
pub enum CoupleError {
    /// The sum of the dimensions, which passes 24.
    #[error("the real dimension passes 24")]
    TooManyCoupled(u32),
}

/// Why no link was looked for to the end.
#[derive(Clone, Copy, Debug, PartialEq, Eq, Error)]
pub enum LinkError {
    /// A number of this family, 7, reached 2^126.
    #[error("a number is too wide")]
    Wide(u8),
    /// Want of memory.
    #[error("out of memory")]
    NoMemory,
}

// The number of the family of numbers of links.
pub(crate) const FAMILY: u8 = 7;

// The greatest real dimension.
pub(crate) const MAX_DIMENSION: usize = 24;
