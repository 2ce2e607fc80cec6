//! The program: its words, a file on a source, one report on out or one line on err.
//!
//! The contract for a caller is `isodist`; `main_status` runs it over the standard streams.
#![tactic(auto)]

mod command_line;
mod program;
mod standard;
mod status;
mod top;
mod usage;
mod values;
mod words;

pub use program::main_status;
pub use standard::{StdErr, StdOut, StdSource};
pub use status::Status;
pub use top::isodist;
