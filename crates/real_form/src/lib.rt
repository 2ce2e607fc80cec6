//! Real forms of induced representations: a basis over the real field, and the matrices in it.
//!
//! Source: Bradley and Cracknell on physically irreducible representations; Serre, 13.2, on
//! representations over real fields. Conventions: a complex vector of n entries is the real one of its n
//! real parts and then its n imaginary parts; column m of A(q) is the image of basis vector m.
//! For the layer above: `RealForm` is an `Acts<K24>` of the quotient that is never wide. The smallest
//! call: `RealForm::new(alloc, &quotient, &induced, None)?.basis(0)`.
#![tactic(auto)]

mod assembly;
mod basis;
mod candidate;
mod candidates;
mod combined;
mod errors;
mod form;
mod image;
mod insertion;
mod lifting;
mod matrices;
mod narrow;
mod phases;
mod places;
mod product;
mod real_basis;
mod search;
mod shifts;
mod span;
mod sparse;

pub use errors::FormError;
pub use form::RealForm;
