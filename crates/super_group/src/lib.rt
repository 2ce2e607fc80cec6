//! A space group modulo the translations of a supercell: a finite group whose elements are numbered.
//!
//! The supercell has d1, d2 and d3 cell edges along the axes, so that each wave vector of a file has
//! whole products with its translations. Conventions are those of `space_ops`.
//!
//! For the layer above: `multipliers` gives the supercell of some wave vectors, and `Quotient` its
//! group, with elements from numbers and numbers from operations.
#![tactic(auto)]

mod denominators;
mod errors;
mod inside;
mod joined;
mod laws;
mod motions;
mod numbering;
mod products;
mod quotient;
mod squares;
mod translations;

pub use denominators::{are_denominators, multipliers};
pub use errors::{MAX_ORDER, QuotientError};
pub use laws::{law_of_elements, law_of_multipliers};
pub use quotient::Quotient;
