//! Listings of order parameter directions over `K24`, found in short values of the same field where
//! these suffice.
//!
//! What is computed in a short type holds over `K24`, since its exact values, its laws and its order
//! are the same; so a short run is refused as wide alone where more can be done in `K24`.
//! The contract for the layers above is `listing_of`, whose clauses are those of `close` and `listing`
//! over `K24`.
#![tactic(auto)]

mod acts;
mod errors;
mod forms;
mod runs;

pub use errors::ListingError;
pub use runs::listing_of;
