// Why a run stops.
use report_steps::Refusal;
use thiserror::Error;

/// Why a run did not write its whole report.
#[derive(Clone, Copy, Debug, PartialEq, Eq, Error)]
pub enum RunError {
    /// The file is refused; nothing was written.
    #[error("the file is refused")]
    Refused(Refusal),
    /// A write failed; a prefix of the report was written.
    #[error("write failed")]
    WriteFault,
    /// Want of memory.
    #[error("out of memory")]
    NoMemory,
}
