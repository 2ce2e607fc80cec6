//! The matrices of a space group that a small representation of a little group induces, with their
//! characters, weights and kind.
//!
//! Sources: Bradley and Cracknell, The Mathematical Theory of Symmetry in Solids, chapter 4; Serre,
//! Linear Representations of Finite Groups, 7 and 13.2. Conventions are those of `kstar` and
//! `super_group`; a column is the image of a basis vector, arms are the outer index.
//!
//! For the layer above: `Induced::new` forms the matrices D(q) over a quotient, or refuses a real
//! dimension past 24; `entry` is the defined entry, and D(a) D(b) = D(ab); `phase` and `moved` tell
//! how a translation changes its rows and which of its blocks aren't 0. The smallest call:
//! `Induced::new(alloc, &quotient, star, rep)?.entry(&quotient, q, 0, 0)`.
#![tactic(auto)]

mod arms;
mod characters;
mod errors;
mod indicator;
mod induced;
mod kinds;
mod laws;
mod moves;
mod parts;
mod phases;
mod places;
mod products;
mod tables;
mod turned;
mod weights;

pub use errors::InduceError;
pub use induced::Induced;
pub use kinds::Kind;
pub use laws::{law_of_cells, law_of_induced_matrices};
