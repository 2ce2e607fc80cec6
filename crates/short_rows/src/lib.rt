//! Rows of short values as rows of `K24`, and back.
//!
//! What is computed in a short type holds over `K24`, since its exact values, its laws and its order
//! are the same. The layers above use `shortened` and `lengthened`, and the laws in `specs`.
#![tactic(auto)]

mod rows;

pub use rows::{lengthened, shortened};
