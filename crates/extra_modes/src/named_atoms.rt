// The atoms that lines name.
ghost use Rattle.std.specs.Prelude.{◌≡◌, ℕ, ◌<◌, ◌≤◌, ◌+◌, ◌*◌, ◌↔◌, ◌+ℤ◌, neg_ℤ, IsTrue, IfOk, IfErr, OnOk, Some, length, map, slice_get};
ghost use Rattle.std.specs.List.{All};
ghost use Rattle.algebra.specs.Multiples.{IsMultiple};
ghost use Rattle.space_ops.specs.Op.{vector_of, IsWithin, IsShiftWithin};
ghost use Rattle.super_group.specs.Supercell.{multiplier};
ghost use Rattle.extra_modes.specs.declared.amount_lines.AmountLine.{AmountLine};
ghost use Rattle.extra_modes.specs.Amounts.{labelled, IsInPlace, IsGatherCause};
ghost use Rattle.extra_modes.specs.GatherParts.{IsPlaceFound, IsAtomFoundIn, IsAtomFound, AreApart, AreNamed};

use crate::amount_lines::AmountLine;
use crate::errors::ExtraError;
use iso_text::{Name, UNITS_PER_EDGE};
use std::alloc::Global;
use wyckoff::{Orbit, Orbits};

/// The number of an orbit, and of an atom of it.
#[derive(Clone, Copy)]
pub(crate) struct AtomNumber {
    pub orbit: usize,
    pub atom: usize,
}

// Whether coordinates differ by whole lengths of the supercell along their axis.
fn is_same_along(x: i64, a: i64, multiplier: u32) -> bool
    requires place { IsWithin 1200000000 x }
    requires atom { IsWithin 144000000 a }
    requires positive { 0 < multiplier }
    requires few { multiplier ≤ 12 }
    ensures { IsTrue result ↔ IsMultiple (12000000 * multiplier) (x +ℤ neg_ℤ a) }
{
    (x - a).rem_euclid(UNITS_PER_EDGE * i64::from(multiplier)) == 0
}

// Whether places differ by a translation of the supercell.
fn is_in_place(x: [i64; 3], a: [i64; 3], d: [u32; 3]) -> bool
    requires place { IsShiftWithin 1200000000 x }
    requires atom { IsShiftWithin 144000000 a }
    requires positive { (i : ℕ) → i < 3 → 0 < multiplier d i }
    requires few { (i : ℕ) → i < 3 → multiplier d i ≤ 12 }
    ensures { IsTrue result ↔ IsInPlace d (vector_of x) (vector_of a) }
{
    if !is_same_along(x[0], a[0], d[0]) {
        return false;
    }
    if !is_same_along(x[1], a[1], d[1]) {
        return false;
    }
    is_same_along(x[2], a[2], d[2])
}

// The atom of an orbit in this place.
fn place_in(orbit: &Orbit, x: [i64; 3], d: [u32; 3]) -> Option<usize>
    requires place { IsShiftWithin 1200000000 x }
    requires positive { (i : ℕ) → i < 3 → 0 < multiplier d i }
    requires few { (i : ℕ) → i < 3 → multiplier d i ≤ 12 }
    ensures { IsPlaceFound d (vector_of x) orbit.now.places result }
{
    for i in 0..orbit.atoms() {
        if is_in_place(x, orbit.place(i), d) {
            return Some(i);
        }
    }
    None
}

// The atom of orbit o in this place, where the orbit has this label.
fn atom_in(orbits: &Orbits, o: usize, label: &Name, x: [i64; 3], d: [u32; 3]) -> Option<usize>
    requires orbit { o < length orbits.now }
    requires place { IsShiftWithin 1200000000 x }
    requires positive { (i : ℕ) → i < 3 → 0 < multiplier d i }
    requires few { (i : ℕ) → i < 3 → multiplier d i ≤ 12 }
    ensures { IsAtomFoundIn d (map labelled orbits.now) label.now (vector_of x) o result }
{
    let orbit = orbits.get(o);
    if orbit.label().as_slice() == label.as_slice() {
        place_in(orbit, x, d)
    } else {
        None
    }
}

// An atom with this label in this place.
fn atom_at(orbits: &Orbits, label: &Name, x: [i64; 3], d: [u32; 3]) -> Option<AtomNumber>
    requires place { IsShiftWithin 1200000000 x }
    requires positive { (i : ℕ) → i < 3 → 0 < multiplier d i }
    requires few { (i : ℕ) → i < 3 → multiplier d i ≤ 12 }
    ensures { IsAtomFound d (map labelled orbits.now) label.now (vector_of x) result }
{
    for orbit in 0..orbits.len() {
        if let Some(atom) = atom_in(orbits, orbit, label, x, d) {
            return Some(AtomNumber { orbit, atom });
        }
    }
    None
}

// Whether an atom is one of these.
fn is_among(atoms: &[AtomNumber], a: AtomNumber) -> bool
    ensures { IsTrue result ↔ ((k : ℕ) × (slice_get atoms.now k ≡ Some a)) }
{
    for k in 0..atoms.len() {
        if atoms[k].orbit == a.orbit && atoms[k].atom == a.atom {
            return true;
        }
    }
    false
}

// Adds the atom that line n names.
fn add_named(
    atoms: &mut Vec<AtomNumber>,
    d: [u32; 3],
    orbits: &Orbits,
    lines: &[AmountLine],
    n: usize,
) -> Result<(), ExtraError>
    requires line { n < length lines.now }
    requires near { All (λ (l : AmountLine). IsShiftWithin 1200000000 l.place) lines.now }
    requires positive { (i : ℕ) → i < 3 → 0 < multiplier d i }
    requires few { (i : ℕ) → i < 3 → multiplier d i ≤ 12 }
    requires apart { AreApart d (map labelled orbits.now) }
    requires named { AreNamed (record { d = d; orbits = map labelled orbits.now; lines = lines.now }) n atoms.old.items }
    ensures named { OnOk result (AreNamed (record { d = d; orbits = map labelled orbits.now; lines = lines.now }) (n + 1) atoms.new.items) }
    ensures cause { IfErr result (IsGatherCause (record { d = d; orbits = map labelled orbits.now; lines = lines.now })) }
{
    let line = &lines[n];
    let atom = match atom_at(orbits, &line.label, line.place, d) {
        Some(atom) => atom,
        None => return Err(ExtraError::Unmatched(line.line)),
    };
    if is_among(atoms, atom) {
        return Err(ExtraError::Ambiguous(line.line));
    }
    match atoms.push(atom) {
        Ok(()) => Ok(()),
        Err(_) => Err(ExtraError::NoMemory),
    }
}

/// The atoms that the lines name, or the first line that is refused.
pub(crate) fn named_atoms(
    alloc: Global,
    d: [u32; 3],
    orbits: &Orbits,
    lines: &[AmountLine],
) -> Result<Vec<AtomNumber>, ExtraError>
    requires near { All (λ (l : AmountLine). IsShiftWithin 1200000000 l.place) lines.now }
    requires positive { (i : ℕ) → i < 3 → 0 < multiplier d i }
    requires few { (i : ℕ) → i < 3 → multiplier d i ≤ 12 }
    requires apart { AreApart d (map labelled orbits.now) }
    ensures named { IfOk result (λ atoms. AreNamed (record { d = d; orbits = map labelled orbits.now; lines = lines.now }) (length lines.now) atoms.items) }
    ensures cause { IfErr result (IsGatherCause (record { d = d; orbits = map labelled orbits.now; lines = lines.now })) }
{
    let mut atoms = Vec::new(alloc);
    for n in 0..lines.len() {
        match add_named(&mut atoms, d, orbits, lines, n) {
            Ok(()) => {}
            Err(error) => return Err(error),
        }
    }
    Ok(atoms)
}
