//! Tests of the orbits of atoms in supercells and of listed atoms that match them, from a file's
//! bytes, through the public calls of `wyckoff` and `distort_match`.
#![tactic(auto)]

#[cfg(test)]
mod cases;
#[cfg(test)]
mod lines;
#[cfg(test)]
mod matches;
#[cfg(test)]
mod orbits;
#[cfg(test)]
mod sites;
