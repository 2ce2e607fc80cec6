//! The atoms of a crystal in a supercell: the orbit of each atom under the group modulo the supercell.
//!
//! Conventions are those of `space_ops`; a place is in units of 1/12,000,000 of a cell edge, each
//! coordinate from 0 up to but without the length of the supercell. Orbits and site symmetries: T.
//! Hahn, International Tables for Crystallography A, section 8.3.
//!
//! For the layer above: `Orbits::new` gives one orbit for each atom line, with its places, and where
//! each element of the group takes each of its atoms.
#![tactic(auto)]

mod laws;
mod orbit;
mod orbits;
mod places;
mod reduced;
mod tables;

pub use laws::{law_of_images, law_of_orbits, law_of_sites};
pub use orbit::Orbit;
pub use orbits::{AtomError, Orbits};
