//! The report of a job over the bytes of a source, or the refusal that the definitions give.
//!
//! Conventions: an operation is x' = R x + t with t in twelfths of a cell edge; elements are numbered
//! from 0, directions from 1. The layer above uses `run`.
#![tactic(auto)]

mod check;
mod found;
mod irrep_report;
mod job;
mod laws;
mod outcome;
mod run_error;

pub use job::Job;
pub use laws::law_of_outcomes;
pub use list_report::{law_of_kept_lines, law_of_report_pages};
pub use outcome::run;
pub use report_steps::{Refusal, refusal_line};
pub use run_error::RunError;
