//! Whether representations that small representations induce are apart: projections by the weights of
//! two such representations have ranges that meet only in zero.
//!
//! Source: Serre, Linear Representations of Finite Groups, 2.1, 2.3 and 2.6. Conventions are those of
//! `induce`.
//! For the layer above: `apart` tells it by the weights alone. The smallest call:
//! `apart(&quotient, &left, &right)`.
#![tactic(auto)]

mod orthogonal;
mod product;

pub use orthogonal::apart;
