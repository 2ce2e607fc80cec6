// What the steps of the work have found of a file so far.
use induce::Induced;
use iso_text::Document;
use kstar::Star;
use small_rep::CheckedRep;
use space_ops::Group;
use std::marker::Model;
use super_group::Quotient;

/// What was read, with the parent group.
#[derive(Drop)]
pub struct Parented {
    pub(crate) document: Document,
    pub(crate) group: Group,
}

impl Model for Parented {
    ghost use Rattle.report_steps.specs.Contexts.{Parented};

    ghost Value = { Parented };

    ghost view = { λ p. record { file = p.document; parent = p.group } };
}

/// With the star of the wave vector of each irrep.
#[derive(Drop)]
pub struct Starred {
    pub parented: Parented,
    pub stars: Vec<Star>,
}

/// What was read, with the parent group modulo its supercell.
#[derive(Drop)]
pub struct Divided {
    pub(crate) document: Document,
    pub(crate) quotient: Quotient,
}

impl Model for Divided {
    ghost use Rattle.report_steps.specs.Contexts.{Divided};

    ghost Value = { Divided };

    ghost view = { λ d. record { file = d.document; quotient = d.quotient } };
}

impl Divided {
    ghost use Rattle.std.specs.Prelude.{◌≡◌};

    /// What was read.
    pub fn document(&self) -> &Document
        ensures { result.now ≡ self.now.file }
    {
        &self.document
    }

    /// The parent group modulo the supercell.
    pub fn quotient(&self) -> &Quotient
        ensures { result.now ≡ self.now.quotient }
    {
        &self.quotient
    }

    /// What was read, and the parent group modulo the supercell.
    pub fn into_parts(self) -> (Document, Quotient)
        ensures file { result.0 ≡ self.file }
        ensures quotient { result.1 ≡ self.quotient }
    {
        (self.document, self.quotient)
    }
}

/// With the stars, whose wave vectors are whole on the supercell.
#[derive(Drop)]
pub struct Celled {
    pub divided: Divided,
    pub stars: Vec<Star>,
}

/// The star of an irrep and its small representation.
#[derive(Drop)]
pub struct AcceptedRep {
    pub star: Star,
    pub rep: CheckedRep,
}

/// With the small representation of each irrep.
#[derive(Drop)]
pub struct Represented {
    pub divided: Divided,
    pub reps: Vec<AcceptedRep>,
}

/// With the matrices that each irrep induces.
#[derive(Drop)]
pub struct InducedFile {
    pub divided: Divided,
    pub irreps: Vec<Induced>,
}
