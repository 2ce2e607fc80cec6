// Why a report was not written whole.
ghost use Rattle.std.specs.Prelude.{◌≡◌};
ghost use Rattle.report_buffer.specs.declared.report_error.ReportError.TheVariants as report_error;

use iso_text::{NoMemory, WriteFault};
use thiserror::Error;

/// Why a report was not written whole; a prefix of it was.
#[derive(Clone, Copy, Debug, PartialEq, Eq, Error)]
pub enum ReportError {
    /// A write failed, and the sink counted a fault.
    #[error("write failed")]
    WriteFault,
    /// Want of memory.
    #[error("out of memory")]
    NoMemory,
}

impl From<WriteFault> for ReportError {
    ghost from_gives = { λ _ e. e ≡ report_error.WriteFault };

    fn from(_: WriteFault) -> Self {
        ReportError::WriteFault
    }
}

impl From<NoMemory> for ReportError {
    ghost from_gives = { λ _ e. e ≡ report_error.NoMemory };

    fn from(_: NoMemory) -> Self {
        ReportError::NoMemory
    }
}
