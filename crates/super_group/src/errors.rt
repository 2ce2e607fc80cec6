// Why a supercell has no quotient.
use thiserror::Error;

/// The greatest order of a quotient.
pub const MAX_ORDER: u64 = 6144;

/// Why a supercell has no quotient.
#[derive(Clone, Copy, Debug, PartialEq, Eq, Error)]
pub enum QuotientError {
    /// The order, which passes 6,144.
    #[error("the order passes 6144")]
    TooLargeGroup(u64),
    /// Want of memory.
    #[error("out of memory")]
    NoMemory,
}
