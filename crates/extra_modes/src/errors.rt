// Why there are no modes, amounts or amplitudes.
use thiserror::Error;

/// Why an orbit has no extra modes or amplitudes, or lines give no amounts. Lines are named by their
/// numbers in the file.
#[derive(Clone, Copy, Debug, PartialEq, Eq, Error)]
pub enum ExtraError {
    /// A number of this family, 8 or 9, reached 2^126.
    #[error("a number is too wide")]
    Wide(u8),
    /// This line names no atom of the supercell.
    #[error("a line names no atom")]
    Unmatched(u32),
    /// This line names an atom that an earlier line of its kind names.
    #[error("a line names an atom again")]
    Ambiguous(u32),
    /// Want of memory.
    #[error("out of memory")]
    NoMemory,
}
