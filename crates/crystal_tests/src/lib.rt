//! Tests of operations, groups and quotients, through the public calls of `space_ops` and
//! `super_group`: what the rows of `group_rows` don't reach.
#![tactic(auto)]

#[cfg(test)]
mod cells;
#[cfg(test)]
mod groups;
#[cfg(test)]
mod operations;
#[cfg(test)]
mod quotients;
