//! Reports that are written piece by piece through a buffer of fixed size.
//!
//! A `Report` says how many pieces it has and gives each as a text. `write_report` writes them through one
//! `Buffer`, so that the memory of a report is that of its longest piece and of the buffer. The layer above
//! uses `write_report`, by the bytes that the sink grew by.
#![tactic(auto)]

mod buffer;
mod report;
mod report_error;

pub use buffer::{Buffer, ROOM};
pub use report::{Report, write_report};
pub use report_error::ReportError;
