//! What `apart` finds in a file, and its report: for each pair of irreps, whether what they induce is
//! apart.
//!
//! Conventions: the earlier irrep of a pair stands first; pairs go by the first irrep and then the
//! second, in file order.
#![tactic(auto)]

mod answers;
mod found;
mod laws;
mod pairs;
mod report;

pub use found::{FoundPairs, apart_found};
pub use laws::{law_of_apart_found, law_of_apart_pieces};
