//! Wave vectors of a space group: their stars, little groups and phases.
//!
//! Conventions: a wave vector is a row of fractions on the dual of the conventional basis, and its
//! image under R is k R^-1; a phase is exp(-2 pi i k.t), as a power of z = exp(2 pi i / 24). Source:
//! Bradley & Cracknell, The Mathematical Theory of Symmetry in Solids, chapter 3.
//!
//! For the layer above: `Star::new` gives the star of a wave vector under a group, or the first phase
//! that is no multiple of 1/24; `Star::power` gives the phase of a lattice translation.
#![tactic(auto)]

mod equivalence;
mod fraction;
mod image;
mod laws;
mod numbers;
mod phase;
mod product;
mod rows;
mod star;
mod wave_vector;

pub use laws::{
    equivalence_is_equivalence, image_of_a_product, law_of_moves, law_of_phases,
    phases_of_the_little_group,
};
pub use star::{Star, StarError};
pub use wave_vector::KVector;
