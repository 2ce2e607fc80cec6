//! Two order parameters coupled to one, and links between two induced representations.
//!
//! Source: Serre, Linear Representations of Finite Groups, 2.2: the averages of the matrices with a
//! single 1 span all intertwiners. Conventions: a pair of vectors is one vector, the coordinates of the
//! first in front; an intertwiner is a matrix X with D_left(q) X = X D_right(q) for each q.
//! For the layer above: `Coupled` is an `Acts` by matrices of two blocks, whose stabiliser of a pair is
//! the meet of both stabilisers; `link` gives the first average that isn't zero, or nothing exactly
//! where zero is the only intertwiner. The smallest call: `link(alloc, &quotient, &left, &right)`.
#![tactic(auto)]

mod averages;
mod both;
mod coupled;
mod errors;
mod laws;
mod linking;
mod links;
mod pairs;
mod rank;

pub use coupled::Coupled;
pub use errors::{CoupleError, LinkError};
pub use laws::{law_of_links, law_of_pairs};
pub use linking::link;
pub use links::Link;
