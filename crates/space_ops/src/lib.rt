//! Symmetry operations in Seitz notation, the lattices of the Hall symbols, and the groups that
//! operations generate with a lattice.
//!
//! Conventions: coordinates are columns, `x' = R x + t`; matrices stand row by row; translations are
//! in twelfths of a cell edge. Hall symbols: S. R. Hall, Acta Cryst. A37 (1981) 517.
//!
//! For the layer above: `Group::close` lists the group of all words over generators, their inverses
//! and lattice translations, or tells by its cause why it does not.
#![tactic(auto)]

mod closing;
mod find;
mod generators;
mod group;
mod keeping;
mod lattice;
mod laws;
mod least_shift;
mod op;
mod op_text;
mod order;
mod rotation;
mod shift;
mod steps;

pub use group::{Group, GroupError};
pub use lattice::{Lattice, law_of_letters};
pub use laws::{law_of_lists, law_of_members, law_of_operations, law_of_texts};
pub use op::{Op, TWELFTHS};
