// The orbit of an atom.
ghost use Rattle.std.specs.Prelude.{◌≡◌, ◌<◌, ◌≤◌, ◌+◌, ◌*◌, ◌↔◌, IsTrue, IfOk, OnOk, Contains, length, slice_index_or, []};
ghost use Rattle.algebra.specs.RisingLists.{IsRisingListOf};
ghost use Rattle.space_ops.specs.Op.{vector_of, IsShiftWithin};
ghost use Rattle.super_group.specs.Quotient.{IsQuotient};
ghost use Rattle.wyckoff.specs.Orbit.{ArePlacesOf, entry_of, image_of, IsOrbitOf};
ghost use Rattle.wyckoff.specs.OrbitParts.{IsRising, AreShaped};
ghost use Rattle.wyckoff.specs.Sites.{IsSiteOf};

use crate::tables::{shifts_of, turns_of};
use iso_text::{AtomText, Name, NoMemory, Stab};
use std::alloc::Global;
use std::marker::Model;
use super_group::Quotient;

/// The most atoms of an orbit: a third of 1,152 coordinates.
pub const MAX_ATOMS: usize = 384;

// An entry of a table with so many atoms a row.
fn entry(table: &[u16], atoms: usize, row: usize, atom: usize) -> usize
    requires { row * atoms + atom < length table.now }
    ensures { result ≡ entry_of table.now atoms row atom }
{
    usize::from(table[row * atoms + atom])
}

/// The orbit of an atom under the group modulo a supercell. Its atoms are numbered from 0 in the
/// order of their places. Element q = r T + t takes atom i where the listed operation r takes it, and
/// then translation t.
#[derive(Drop)]
pub struct Orbit {
    label: Name,
    line: u32,
    rotations: usize,
    translations: usize,
    places: Vec<[i64; 3]>,
    turns: Vec<u16>,
    shifts: Vec<u16>,
}

impl Model for Orbit {
    ghost use Rattle.wyckoff.specs.Orbit.{OrbitView};

    ghost Value = { OrbitView };

    ghost use Rattle.wyckoff.specs.OrbitTables.{view_of, IsHeld};

    ghost view = { view_of };

    ghost invariant = { IsHeld };
}

impl Orbit {
    // The orbit of an atom, whose places these are.
    pub(crate) fn new(
        alloc: Global,
        quotient: &Quotient,
        atom: &AtomText,
        places: Vec<[i64; 3]>,
    ) -> Result<Orbit, NoMemory>
        requires quotient { IsQuotient quotient.now }
        requires places { ArePlacesOf quotient.now (vector_of atom.now.place) places.items }
        requires few { length places.items ≤ 384 }
        ensures { IfOk result (λ orbit. IsOrbitOf quotient.now atom.now orbit) }
    {
        let _ = quotient.order();
        let turns = turns_of(alloc, quotient, &places)?;
        let shifts = shifts_of(alloc, quotient, &places)?;
        Ok(Orbit {
            label: atom.label,
            line: atom.line,
            rotations: quotient.group().len(),
            translations: quotient.translations().len(),
            places,
            turns,
            shifts,
        })
    }

    // Whether one of its atoms is in this place.
    pub(crate) fn has_place(&self, place: [i64; 3]) -> bool
        requires rising { IsRising self.now.places }
        requires shaped { AreShaped self.now.places }
        ensures { IsTrue result ↔ Contains self.now.places place }
    {
        match self.places.binary_search(&place) {
            Ok(_) => true,
            Err(_) => false,
        }
    }

    // Adds q where it leaves atom i in its place.
    fn add_member(&self, q: usize, i: usize, members: &mut Vec<usize>) -> Result<(), NoMemory>
        requires element { q < self.now.order }
        requires atom { i < length self.now.places }
        requires members { IsRisingListOf q (λ p. image_of self.now p i ≡ i) members.old.items }
        ensures { OnOk result (IsRisingListOf (q + 1) (λ p. image_of self.now p i ≡ i) members.new.items) }
    {
        if self.image(q, i) != i {
            return Ok(());
        }
        match members.push(q) {
            Ok(()) => Ok(()),
            Err(_) => Err(NoMemory),
        }
    }

    /// The label of the atom.
    pub fn label(&self) -> &Name
        ensures { result.now ≡ self.now.label }
    {
        &self.label
    }

    /// The number of the atom's line.
    pub fn line(&self) -> u32
        ensures { result ≡ self.now.line }
    {
        self.line
    }

    /// How many atoms it has, at most 384.
    pub fn atoms(&self) -> usize
        ensures value { result ≡ length self.now.places }
        ensures few { result ≤ MAX_ATOMS }
    {
        self.places.len()
    }

    /// The place of atom i, in units of 1/12,000,000 of a cell edge.
    pub fn place(&self, i: usize) -> [i64; 3]
        requires { i < length self.now.places }
        ensures value { result ≡ slice_index_or self.now.places i [] }
        ensures near { IsShiftWithin 144000000 result }
    {
        self.places[i]
    }

    /// The order of the group modulo the supercell.
    pub fn order(&self) -> usize
        ensures { result ≡ self.now.order }
    {
        self.rotations * self.translations
    }

    /// The atom to which element q takes atom i.
    pub fn image(&self, q: usize, i: usize) -> usize
        requires element { q < self.now.order }
        requires atom { i < length self.now.places }
        ensures value { result ≡ image_of self.now q i }
        ensures below { result < length self.now.places }
    {
        let turned = entry(&self.turns, self.atoms(), q / self.translations, i);
        entry(&self.shifts, self.atoms(), q % self.translations, turned)
    }

    /// The numbers of the elements that leave atom i in its place, rising.
    pub fn site(&self, alloc: Global, i: usize) -> Result<Stab, NoMemory>
        requires { i < length self.now.places }
        ensures { IfOk result (λ stab. IsSiteOf self.now i stab) }
    {
        let mut members = Vec::new(alloc);
        for q in 0..self.order() {
            match self.add_member(q, i, &mut members) {
                Ok(()) => {}
                Err(_) => return Err(NoMemory),
            }
        }
        Ok(Stab::from_vec(members))
    }
}
