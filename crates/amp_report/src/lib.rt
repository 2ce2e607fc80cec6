//! What `amps` finds in a file, and its report.
//!
//! Conventions: an amplitude is the factor of a mode in the one sum that is the displacement of the
//! atoms of an orbit, in cell edges; orbits and modes are numbered from 1 in the report.
#![tactic(auto)]

mod found;
mod laws;
mod modes;
mod orbit_text;
mod report;
mod rows;
mod shifts;

pub use found::{FoundAmplitudes, amps_found};
pub use laws::{law_of_amps_found, law_of_amps_pieces};
pub use report::orbit_piece;
