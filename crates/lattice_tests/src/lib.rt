//! Tests of the fixed subspaces of actions and of their listings, through their public calls, on
//! actions whose laws are proved.
#![tactic(auto)]

#[cfg(test)]
mod flips;
#[cfg(test)]
mod listings;
#[cfg(test)]
mod octahedron;
#[cfg(test)]
mod octahedron_tables;
#[cfg(test)]
mod prism;
#[cfg(test)]
mod subspaces;
#[cfg(test)]
mod tables;
#[cfg(test)]
mod tetrahedron;
#[cfg(test)]
mod writing;
