//! Demo files: 64 small crystal files of format 1 by their number, to try the program without a file
//! of one's own. Each has one of four cubic groups and an irrep V, by which a polar or an axial vector
//! moves at the centre or at a corner of the Brillouin zone.
//!
//! The contract for the layer above is that of `demo_file`: its text is that of `IsDemoFile` in
//! `specs/Demo.antt`, and a number has one such text (`law_of_demo_files`).
#![tactic(auto)]

mod demo;
mod laws;

pub use demo::demo_file;
pub use laws::law_of_demo_files;
