//! The exact numbers of the program: fields of exact values, kept in 128 bits or refused.
//!
//! Source: Washington, Introduction to Cyclotomic Fields, chapter 2, for the 24th roots of unity.
//! The contract for the layers above is the trait `Field`.
#![tactic(auto)]

mod cyclotomic_laws;
mod field;
mod formulas4;
mod formulas8;
mod fraction4;
mod fraction8;
mod k24;
mod laws;
mod lowest4;
mod lowest8;
mod packed;
mod packed4;
mod powers;
mod print;
mod ratio;
mod short;
mod short4;
mod short8;
mod short_k24;
mod short_rational;
mod small;
mod terms;
mod whole;
mod z24;

pub use cyclotomic_laws::{
    law_of_conjugation, law_of_cyclotomic_coefficients, law_of_cyclotomic_formulas, law_of_parts,
    law_of_powers, law_of_products_of_parts, law_of_real_numbers,
};
pub use field::{Field, Wide};
pub use k24::K24;
pub use laws::{
    law_of_coefficients, law_of_formulas, law_of_renumbering, law_of_roots, law_of_squares,
    law_of_sums, law_of_whole_numbers,
};
pub use short::Short;
pub use short_k24::ShortK24;
pub use short_rational::ShortRational;
pub use z24::Z24;
