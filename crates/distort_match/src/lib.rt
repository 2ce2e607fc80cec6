//! The atoms of a distorted structure, matched with the atoms of a supercell.
//!
//! Conventions are those of `wyckoff`: a place is in units of 1/12,000,000 of a cell edge of the
//! parent. A listed atom matches an atom of the supercell with its label whose place differs from its
//! own, modulo the supercell, by at most a tolerance in each coordinate; that difference is the
//! displacement of the atom. Listed places may be written in a cell of their own, whose lattice lies
//! between those of the supercell and of the parent.
//!
//! For the layer above: `match_atoms` gives the displacement of each atom, or the first line or atom
//! that has none.
#![tactic(auto)]

mod cell_frame;
mod cells;
mod errors;
mod found;
mod frame;
mod laws;
mod lines;
mod marks;
mod matching;
mod shifts;
mod windows;

pub use errors::MatchError;
pub use laws::law_of_matches;
pub use matching::match_atoms;
pub use shifts::Shifts;
