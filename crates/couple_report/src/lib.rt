//! What `couple` and `link` do behind the steps that all jobs share, and their reports.
//!
//! Two irreps of a file are taken together. For `couple` the quotient acts on the pairs of their order
//! parameters, the coordinates of the first in front, and one direction is listed for each class of
//! isotropy subgroups of pairs. For `link` the matrices that both induce are linked. Conventions: elements
//! are numbered from 0, directions from 1. The layer above uses `couple_found` and
//! `link_found`, and the reports of what they find.
#![tactic(auto)]

mod closing;
mod couple_text;
mod forms;
mod laws;
mod link;
mod link_text;
mod pair_listing;
mod places;
mod together;

pub use laws::{
    law_of_couple_found, law_of_couple_pieces, law_of_coupled_listing, law_of_link_found,
    law_of_link_pieces,
};
pub use link::{FoundLink, link_found};
pub use pair_listing::couple_found;
pub use together::FoundCouple;
