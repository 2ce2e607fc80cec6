//! What `demo` finds in a generated file, and its report: a summary of the listing of its irrep and of
//! the modes of its atoms.
//!
//! Conventions: an order is a count of elements of the quotient; orbits are numbered from 1 in the report.
//! The layer above uses `demo_found`, and `FoundDemo` as a `Report`.
#![tactic(auto)]

mod found;
mod laws;
mod orbit_lines;
mod report;

pub use found::{FoundDemo, demo_found};
pub use laws::{law_of_demo_found, law_of_demo_pieces};
