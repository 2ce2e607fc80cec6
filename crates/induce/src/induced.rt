// Induced matrices.
ghost use Rattle.std.specs.Prelude.{◌≡◌, IfOk, IfErr};
ghost use Rattle.kstar.specs.Star.{IsStarOf};
ghost use Rattle.super_group.specs.Quotient.{order_of};
ghost use Rattle.small_rep.specs.Rep.{IsRepOf, matrices_of};
ghost use Rattle.induce.specs.CellPhase.{AreWholeOn};
ghost use Rattle.induce.specs.Induced.{IsInducible};
ghost use Rattle.induce.specs.Tables.{AreTablesOf, AreCharacters, size_in, matrices_in};
ghost use Rattle.induce.specs.Weights.{AreWeights};
ghost use Rattle.induce.specs.Wide.{IsInduceCause};
ghost use Rattle.induce.specs.InducedView.{IsInducedOf};

use crate::InduceError;
use crate::characters::characters;
use crate::errors::FAMILY;
use crate::indicator::{dimension, judge};
use crate::kinds::Kind;
use crate::places::{entry_of, moved_arm, phase_at};
use crate::tables::{Tables, form_tables};
use crate::weights::form_weights;
use cyclo24::{K24, Z24};
use kstar::Star;
use lin_alg::LinError;
use small_rep::CheckedRep;
use std::alloc::Global;
use std::marker::Model;
use super_group::Quotient;

/// The matrices of a space group that a small representation induces: block (j, i) of D(q) is
/// G(r_j^-1 q r_i) where that product is in the little group, and 0 elsewhere; arms are the outer
/// index. Each z^a G(R) that stands in a D(q) is kept.
#[derive(Drop)]
pub struct Induced {
    tables: Tables,
    kind: Kind,
    real_dim: usize,
    characters: Vec<Z24>,
    weights: Vec<K24>,
}

impl Model for Induced {
    ghost use Rattle.induce.specs.InducedView.{InducedView};

    ghost Value = { InducedView };

    ghost use Rattle.induce.specs.InsideView.{view_of, IsHeld};

    ghost view = { view_of };

    ghost invariant = { IsHeld };
}

/// The tables of a star and a representation, or why there are none.
fn tables_of(
    alloc: Global,
    quotient: &Quotient,
    star: Star,
    rep: CheckedRep,
) -> Result<Tables, InduceError>
    requires star { IsStarOf quotient.now.parent star.row star }
    requires cells { AreWholeOn quotient.now.d star }
    requires rep { IsRepOf quotient.now.parent star rep.rep }
    ensures tables { IfOk result (λ tables. AreTablesOf quotient.now tables) }
    ensures star { IfOk result (λ tables. tables.star ≡ star) }
    ensures rep { IfOk result (λ tables. tables.rep ≡ rep) }
    ensures inducible { IsInducible quotient.now star rep.rep.size (matrices_of rep.rep) }
    ensures cause { IfErr result (λ e. IsInduceCause quotient.now star rep.rep.size (matrices_of rep.rep) e) }
{
    let _order = quotient.order();
    let _arms = star.arms();
    let _size = rep.size();
    match form_tables(alloc, quotient, star, rep) {
        Ok(tables) => Ok(tables),
        Err(LinError::Wide) => Err(InduceError::Wide(FAMILY)),
        Err(LinError::NoMemory) => Err(InduceError::NoMemory),
    }
}

/// The characters of all elements, or why there are none.
fn characters_of(
    alloc: Global,
    quotient: &Quotient,
    tables: &Tables,
) -> Result<Vec<Z24>, InduceError>
    requires { AreTablesOf quotient.now tables.now }
    ensures characters { IfOk result (λ xs. AreCharacters quotient.now tables.now xs.items (order_of quotient.now)) }
    ensures cause { IfErr result (λ e. IsInduceCause quotient.now tables.now.star (size_in tables.now) (matrices_in tables.now) e) }
{
    match characters(alloc, tables, quotient) {
        Ok(characters) => Ok(characters),
        Err(LinError::Wide) => Err(InduceError::Wide(FAMILY)),
        Err(LinError::NoMemory) => Err(InduceError::NoMemory),
    }
}

/// The weights of all elements, or why there are none.
fn weights_of(
    alloc: Global,
    quotient: &Quotient,
    tables: &Tables,
    characters: &[Z24],
) -> Result<Vec<K24>, InduceError>
    requires { AreCharacters quotient.now tables.now characters.now (order_of quotient.now) }
    ensures weights { IfOk result (λ ws. AreWeights characters.now ws.items (order_of quotient.now)) }
    ensures cause { IfErr result (λ e. IsInduceCause quotient.now tables.now.star (size_in tables.now) (matrices_in tables.now) e) }
{
    let _order = quotient.order();
    let _arms = tables.star.arms();
    match form_weights(alloc, characters) {
        Ok(weights) => Ok(weights),
        Err(LinError::Wide) => Err(InduceError::Wide(FAMILY)),
        Err(LinError::NoMemory) => Err(InduceError::NoMemory),
    }
}

/// The induced matrices from their tables.
fn induced_by(alloc: Global, quotient: &Quotient, tables: Tables) -> Result<Induced, InduceError>
    requires { AreTablesOf quotient.now tables }
    ensures of { IfOk result (λ induced. IsInducedOf quotient.now induced) }
    ensures tables { IfOk result (λ induced. induced.tables ≡ tables) }
    ensures cause { IfErr result (λ e. IsInduceCause quotient.now tables.star (size_in tables) (matrices_in tables) e) }
{
    let characters = match characters_of(alloc, quotient, &tables) {
        Ok(characters) => characters,
        Err(error) => return Err(error),
    };
    let judged = match judge(&tables, quotient, &characters) {
        Ok(judged) => judged,
        Err(error) => return Err(error),
    };
    let weights = match weights_of(alloc, quotient, &tables, &characters) {
        Ok(weights) => weights,
        Err(error) => return Err(error),
    };
    Ok(Induced {
        tables,
        kind: judged.kind,
        real_dim: judged.real_dim,
        characters,
        weights,
    })
}

impl Induced {
    ghost use Rattle.std.specs.Prelude.{◌≡◌, ℕ, ◌<◌, ◌≤◌, ◌+◌, ◌*◌, ◌/◌, IfOk, IfErr, length};
    ghost use Rattle.cyclo24.specs.ExactZ24.{z24_laws};
    ghost use Rattle.cyclo24.specs.K24.{exact24};
    ghost use Rattle.cyclo24.specs.Z24.{exact_z24};
    ghost use Rattle.kstar.specs.Star.{IsStarOf};
    ghost use Rattle.lin_alg.specs.Matrices.{IsRepresentation, AreEqualBelow, unit_entry};
    ghost use Rattle.super_group.specs.Quotient.{SupercellGroup, order_of, quotient_group};
    ghost use Rattle.small_rep.specs.Rep.{IsRepOf, matrices_of};
    ghost use Rattle.small_rep.specs.SmallRep.{phased};
    ghost use Rattle.induce.specs.CellPhase.{AreWholeOn};
    ghost use Rattle.induce.specs.Induced.{dimension_of, induced_of, weight_of};
    ghost use Rattle.induce.specs.Kinds.{real_dimension};
    ghost use Rattle.induce.specs.Tables.{size_in, dimension_in, matrix_in, character_in};
    ghost use Rattle.induce.specs.Wide.{IsInduceCause};
    ghost use Rattle.induce.specs.InducedView.{IsInducedOf, star_in, rep_in};

    /// The matrices that the representation induces. Condition: it is of this star, the star is of the
    /// quotient's group, and d_i times coordinate i of each arm is a whole number. Errors: a real
    /// dimension past 24, with it; a number that is too wide; want of memory.
    pub fn new(
        alloc: Global,
        quotient: &Quotient,
        star: Star,
        rep: CheckedRep,
    ) -> Result<Induced, InduceError>
        requires star { IsStarOf quotient.now.parent star.row star }
        requires cells { AreWholeOn quotient.now.d star }
        requires rep { IsRepOf quotient.now.parent star rep.rep }
        ensures of { IfOk result (λ induced. IsInducedOf quotient.now induced) }
        ensures star { IfOk result (λ induced. star_in induced ≡ star) }
        ensures rep { IfOk result (λ induced. rep_in induced ≡ rep) }
        ensures multiplies { IfOk result (λ _. IsRepresentation z24_laws (quotient_group quotient.now) (dimension_of star rep.rep.size) (induced_of quotient.now star rep.rep.size (matrices_of rep.rep))) }
        ensures identity { IfOk result (λ _. AreEqualBelow (dimension_of star rep.rep.size) (induced_of quotient.now star rep.rep.size (matrices_of rep.rep) 0) (unit_entry z24_laws)) }
        ensures cause { IfErr result (λ e. IsInduceCause quotient.now star rep.rep.size (matrices_of rep.rep) e) }
    {
        let tables = match tables_of(alloc, quotient, star, rep) {
            Ok(tables) => tables,
            Err(error) => return Err(error),
        };
        induced_by(alloc, quotient, tables)
    }

    /// The dimension of the matrices: arms times the dimension of the small representation.
    pub fn dim(&self) -> usize
        ensures value { result ≡ dimension_in self.now.tables }
        ensures few { result ≤ 288 }
        ensures multiplies { (q : SupercellGroup) → IsInducedOf q self.now → IsRepresentation z24_laws (quotient_group q) result (matrix_in q self.now.tables) }
        ensures identity { (q : SupercellGroup) → IsInducedOf q self.now → AreEqualBelow result (matrix_in q self.now.tables 0) (unit_entry z24_laws) }
    {
        dimension(&self.tables)
    }

    /// The dimension of the real form, at most 24: that of the matrices for the real kind, else twice
    /// that.
    pub fn real_dim(&self) -> usize
        ensures value { result ≡ self.now.real_dim }
        ensures kind { result ≡ real_dimension self.now.kind (dimension_in self.now.tables) }
        ensures few { result ≤ 24 }
    {
        self.real_dim
    }

    /// The star that `new` was given.
    pub fn star(&self) -> &Star
        ensures { result.now ≡ star_in self.now }
    {
        &self.tables.star
    }

    /// The representation that `new` was given.
    pub fn rep(&self) -> &CheckedRep
        ensures { result.now ≡ rep_in self.now }
    {
        &self.tables.rep
    }

    /// The kind: real, complex or pseudoreal.
    pub fn kind(&self) -> Kind
        ensures { result ≡ self.now.kind }
    {
        self.kind
    }

    /// The character of D(q), its trace. Condition: q is below the order of the quotient of `new`.
    pub fn character(&self, q: usize) -> Z24
        requires { q < length self.now.characters }
        ensures { (g : SupercellGroup) → IsInducedOf g self.now → exact_z24 result ≡ character_in g self.now.tables q }
    {
        self.characters[q]
    }

    /// The character of D(q) plus its conjugate. Condition: q is below the order of the quotient of
    /// `new`.
    pub fn weight(&self, q: usize) -> K24
        requires { q < length self.now.weights }
        ensures { (g : SupercellGroup) → IsInducedOf g self.now → exact24 result ≡ weight_of (character_in g self.now.tables q) }
    {
        self.weights[q]
    }

    /// The weights of all elements, by their numbers.
    pub fn weights(&self) -> &[K24]
        ensures { result.now ≡ self.now.weights }
    {
        &self.weights
    }

    /// Entry (i, j) of D(q). Condition: the quotient is that of `new`.
    pub fn entry(&self, quotient: &Quotient, q: usize, i: usize, j: usize) -> Z24
        requires of { IsInducedOf quotient.now self.now }
        requires element { q < order_of quotient.now }
        requires row { i < dimension_in self.now.tables }
        requires column { j < dimension_in self.now.tables }
        ensures { exact_z24 result ≡ matrix_in quotient.now self.now.tables q i j }
    {
        entry_of(&self.tables, quotient, q, i, j)
    }

    /// The power of z by which the rows of arm j of D(r T + t) are those of D(r T), whatever the
    /// rotation r: the phase of translation t of the supercell on arm j. Condition: the quotient is
    /// that of `new`.
    pub fn phase(&self, quotient: &Quotient, t: usize, j: usize) -> u8
        requires of { IsInducedOf quotient.now self.now }
        requires translation { t < length quotient.now.translations }
        requires arm { j < length (star_in self.now).by }
        ensures below { result < 24 }
        ensures matrix { (r a b : ℕ) → r < length quotient.now.parent.ops → a < dimension_in self.now.tables → b < dimension_in self.now.tables → a / size_in self.now.tables ≡ j → matrix_in quotient.now self.now.tables (r * length quotient.now.translations + t) a b ≡ phased result (matrix_in quotient.now self.now.tables (r * length quotient.now.translations) a b) }
    {
        phase_at(&self.tables, quotient, t, j)
    }

    /// The arm to which element q moves arm i: the row of blocks of D(q) that isn't 0 in column i of
    /// blocks. Condition: the quotient is that of `new`.
    pub fn moved(&self, quotient: &Quotient, q: usize, i: usize) -> usize
        requires of { IsInducedOf quotient.now self.now }
        requires element { q < order_of quotient.now }
        requires arm { i < length (star_in self.now).by }
        ensures below { result < length (star_in self.now).by }
        ensures zero { (a b : ℕ) → a < dimension_in self.now.tables → b < dimension_in self.now.tables → b / size_in self.now.tables ≡ i → (a / size_in self.now.tables ≡ result → ⊥) → matrix_in quotient.now self.now.tables q a b ≡ z24_laws.nought }
    {
        moved_arm(&self.tables, quotient, q, i)
    }
}
