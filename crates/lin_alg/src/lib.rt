//! Exact linear algebra over a field: matrices, and the one reduced echelon form of a span.
//!
//! Source: the reduced row echelon form, with the pivot last in its row; it is the usual one of the
//! mirrored columns. Conventions: rows and columns are numbered from 0; an equation is a row e with
//! e.v = 0; column m of a matrix is the image of basis vector m; an equation moves by e A(q^-1).
//! The contract for the layers above is `Echelon::insert`: it keeps the one reduced form of the span
//! with the row, which vanishes where the row and the form before do. `Acts` is a group with matrices.
//! The smallest call: `Echelon::new(alloc, 2)` and `insert` of a row of two values with a counter.
#![tactic(auto)]

mod acts;
mod echelon;
mod elimination;
mod errors;
mod independent;
mod laws;
mod matrix;
mod memory;
mod row;
mod solving;
mod steps;

pub use acts::Acts;
pub use echelon::{Echelon, Grew};
pub use errors::LinError;
pub use independent::are_independent;
pub use laws::{
    law_of_equal_forms, law_of_equal_values, law_of_equations, law_of_fixed_vectors, law_of_images,
    law_of_matrices, law_of_no_forms, law_of_unions, law_of_unique_forms,
};
pub use matrix::{Matrix, add_product, are_equal};
pub use memory::zeros;
pub use row::Row;
pub use solving::solve;
pub use steps::Steps;
