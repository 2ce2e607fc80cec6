//! Hall symbols of space groups: which texts are one, and the generators that a symbol gives.
//!
//! Source: S. R. Hall, Acta Cryst. A37 (1981) 517; International Tables for Crystallography B, A1.4.2.
//! Conventions: coordinates are columns, `x' = R x + t`; matrices stand row by row; translations are in
//! twelfths of a cell edge; a text is a list of bytes.
//!
//! The contract for the layer above is that of `read`: it is Ok exactly for the texts of
//! `IsHallSymbol` in `specs/Grammar.antt`, with exactly their generators.
#![tactic(auto)]

mod generator;
mod laws;
mod operation;
mod origin;
mod part;
mod rotation;
mod symbol;
mod table;
mod words;

pub use laws::{law_of_parts, law_of_rotations, law_of_symbols};
pub use symbol::{BadHall, Generators, read};
