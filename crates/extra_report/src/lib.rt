//! What `occ`, `axial`, `occ-amps` and `axial-amps` find in a file, and their reports: modes of
//! occupations and of axial vectors, and the amplitudes of those that the lines of the file give.
//!
//! Conventions: an occupation mode is a row of one number for each atom, an axial mode one of three
//! along the cell edges; orbits, places, modes and atoms are numbered from 1 in the report.
#![tactic(auto)]

mod amps_found;
mod amps_report;
mod found;
mod gathered;
mod head;
mod laws;
mod orbit_modes;
mod report;
mod rows;

pub use amps_found::{FoundExtraAmps, extra_amps_found};
pub use found::{FoundExtra, extra_found};
pub use laws::{
    law_of_extra_amps_found, law_of_extra_amps_pieces, law_of_extra_found, law_of_extra_pieces,
};
pub use report::ExtraReport;
