//! Occupation and axial vector modes: bases of the numbers and the axial vectors of all atoms of an
//! orbit, sorted by irreps; and the amounts that lines give the atoms.
//!
//! Source: Serre, Linear Representations of Finite Groups, 2.6, for the projections, as in `mode_project`.
//! Conventions: number a of atom i stands in column c i + a, from 0, for c numbers an atom: one of an
//! occupation, three along the cell edges of an axial vector, which {R|t} turns by det(R) R.
//! For the layer above: `modes` gives the defined modes, which are a basis; `gather_values` and
//! `gather_axials` the amounts of the atoms; and `amplitudes` the one list of factors with which the modes
//! sum up to them. The smallest call: `modes(alloc, &quotient, &orbit, &induced, Nature::Axial)`.
#![tactic(auto)]

mod amount_laws;
mod amount_lines;
mod amounts;
mod basis;
mod errors;
mod gathering;
mod laws;
mod named_atoms;
mod nature;
mod orbit_amplitudes;
mod quantity;

pub use amount_laws::law_of_amounts;
pub use amounts::Amounts;
pub use basis::{ExtraModes, modes};
pub use errors::ExtraError;
pub use gathering::{gather_axials, gather_values};
pub use laws::law_of_extra_spaces;
pub use nature::Nature;
pub use orbit_amplitudes::amplitudes;
