//! Small representations of the little group of a wave vector: read from the `mat` lines of a file,
//! and checked by the law of ordered pairs with its phase and the sum of the squared characters.
//!
//! Sources: Bradley and Cracknell, The Mathematical Theory of Symmetry in Solids, chapter 3; Serre,
//! Linear Representations of Finite Groups, 2.3. Conventions are those of `kstar`: a lattice
//! translation t acts by exp(-2 pi i k.t).
//!
//! For the layer above: `SmallRep::read` and then `SmallRep::check` answer Ok exactly where the
//! matrices of the lines are a small representation, but for numbers that are too wide and want of
//! memory; each refusal names the first cause. The smallest call:
//! `SmallRep::read(alloc, &group, &star, &text)?.check(alloc)?`.
#![tactic(auto)]

mod carry;
mod characters;
mod checked;
mod errors;
mod laws;
mod line;
mod lines;
mod missing;
mod pair_check;
mod pairs;
mod products;
mod read;
mod rep;
mod shift;

pub use checked::CheckedRep;
pub use errors::RepError;
pub use laws::law_of_little_matrices;
pub use rep::SmallRep;
