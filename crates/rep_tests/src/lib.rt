//! Tests of small representations, of what they induce and of its real form, through the public calls
//! from a file's bytes to matrices.
#![tactic(auto)]

#[cfg(test)]
mod cases;
#[cfg(test)]
mod forms;
#[cfg(test)]
mod hexagonal;
#[cfg(test)]
mod induced;
#[cfg(test)]
mod measured_forms;
