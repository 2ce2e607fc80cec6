//! Displacement modes: a basis of the displacements of all atoms of an orbit, sorted by irreps; and
//! such a basis of anything else that atoms have and rotations turn.
//!
//! Source: Serre, Linear Representations of Finite Groups, 2.6, for the projections, which aren't
//! normalised here. Conventions: a displacement is a column along the cell edges, number a of atom i in
//! column 3 i + a, from 0; column m of M(q) is the image of unit vector m.
//! For the layer above: `modes` gives the defined modes, which are a basis, `modes_of` those of one
//! irrep that a stabiliser leaves as they are, and `amplitudes` the one list of factors with which the
//! modes sum up to a displacement; `modes_in` and `amplitudes_in` do the same for any `AtomQuantity` and
//! `AtomNumbers`. All are found in short values of the same field where these suffice, else in `K24`,
//! whose numbers alone are ever too wide for an answer.
//! The smallest call: `modes(alloc, &quotient, &orbit, &weights)`.
#![tactic(auto)]

mod basis;
mod column;
mod combined;
mod cut;
mod direction;
mod errors;
mod found;
mod image;
mod insertion;
mod irreps;
mod joint;
mod laws;
mod left;
mod orbit_amplitudes;
mod pivots;
mod quantity;
mod quantity_modes;
mod quick;
mod range;
mod rank;
mod rotations;
mod rows;
mod scale;
mod short;
mod short_solved;
mod sites;
mod solved;
mod space;
mod table;
mod turns;
mod unit_numbers;
mod weights;

pub use basis::{modes, modes_in};
pub use direction::modes_of;
pub use errors::{AmpError, ModeError};
pub use found::Modes;
pub use laws::{
    law_of_amplitudes, law_of_displacements, law_of_modes, law_of_one_basis, law_of_one_orbit,
    law_of_one_space, law_of_projections, law_of_spaces,
};
pub use orbit_amplitudes::{amplitudes, amplitudes_in};
pub use quantity::AtomQuantity;
pub use unit_numbers::AtomNumbers;
pub use weights::Weights;
