//! Tests of the exact fields and of linear algebra over them, through their public calls: what the
//! rows of `number_rows` don't reach.
#![tactic(auto)]

#[cfg(test)]
mod bounds;
#[cfg(test)]
mod echelon_forms;
#[cfg(test)]
mod fields;
#[cfg(test)]
mod forms_of_roots;
#[cfg(test)]
mod matrices;
#[cfg(test)]
mod measured_forms;
#[cfg(test)]
mod rows;
#[cfg(test)]
mod sign;
#[cfg(test)]
mod values;
