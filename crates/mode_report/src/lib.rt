//! What `modes` finds in a file, and its report.
//!
//! Conventions: a place is in units of 1/12,000,000 of the cell edges; a mode is a row of three
//! numbers for each atom; orbits, places, modes and atoms are numbered from 1 in the report.
#![tactic(auto)]

mod along;
mod along_pieces;
mod along_report;
mod atoms;
mod direction;
mod direction_form;
mod direction_rows;
mod found;
mod head;
mod laws;
mod mode_pieces;
mod mode_text;
mod moves;
mod orbit_modes;
mod orbit_text;
mod parts;
mod place_text;
mod report;
mod weights;

pub use along::ModesAlong;
pub use along_report::AlongReport;
pub use atoms::orbits_of;
pub use direction::modes_along;
pub use direction_form::formed_of;
pub use found::{FoundModes, modes_found};
pub use laws::{
    law_of_along_pieces, law_of_modes_along, law_of_modes_found, law_of_modes_in_spaces,
    law_of_modes_pieces,
};
pub use moves::AtomEntries;
pub use orbit_modes::all_modes;
pub use orbit_text::{counts_text, push_orbit_head};
pub use parts::Part;
pub use report::{ModesReport, mode_part, modes_parts, orbit_part};
pub use weights::weights_of;
