// Why a small representation induces no matrices.
use thiserror::Error;

/// Why a small representation induces no matrices.
#[derive(Clone, Copy, Debug, PartialEq, Eq, Error)]
pub enum InduceError {
    /// The real dimension, which passes 24.
    #[error("the real dimension passes 24")]
    TooManyDimensions(u32),
    /// A number of this family reached the bound.
    #[error("a number is too wide")]
    Wide(u8),
    /// Want of memory.
    #[error("out of memory")]
    NoMemory,
}

/// The family of the numbers of small representations and induced matrices.
pub const FAMILY: u8 = 0;

/// The greatest real dimension.
pub const MAX_DIMENSION: usize = 24;

/// The order of z = exp(2 pi i / 24).
pub const ROOT_ORDER: u8 = 24;
