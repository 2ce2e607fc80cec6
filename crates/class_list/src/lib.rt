//! The listing of order parameter directions: one fixed subspace for each class of isotropy
//! subgroups, with its whole pointwise stabiliser.
//!
//! Source: isotropy subgroups and order parameter directions (Stokes & Hatch, Isotropy Subgroups of
//! the 230 Crystallographic Space Groups). Conventions: an equation is a row e with e.v = 0, moved by
//! e A(q^-1); elements and places are numbered from 0, directions of a page from 1. It says nothing of
//! crystals. Classes are found by the images of forms under the generators alone: a set of subspaces
//! that the generators keep is kept by the group.
//! The contract for the layers above is `listing`: exactly one direction for each class, the least of
//! it, in order. The smallest call: `listing(alloc, &acts, spaces, Order::Dimension, &mut steps)`.
#![tactic(auto)]

mod arrows;
mod classes;
mod direction;
mod errors;
mod fixing;
mod image;
mod laws;
mod least;
mod order;
mod pages;
mod ranked;

pub use direction::Direction;
pub use errors::ListError;
pub use fixing::stabiliser;
pub use laws::{law_of_listings, law_of_pages};
pub use least::listing;
pub use order::Order;
pub use pages::Listing;
