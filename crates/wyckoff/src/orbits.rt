// The orbits of the atoms of a file.
ghost use Rattle.std.specs.Prelude.{◌≡◌, ◌<◌, ◌+◌, length, slice_get, Some, IfOk, IfErr, OnOk};
ghost use Rattle.std.specs.List.{All};
ghost use Rattle.super_group.specs.Quotient.{IsQuotient};
ghost use Rattle.wyckoff.specs.AtomLines.{AreAccepted, IsNewOrbit, IsAtomCause};
ghost use Rattle.wyckoff.specs.Orbit.{OrbitView};
ghost use Rattle.wyckoff.specs.OrbitParts.{IsRising, AreShaped, AreOrbitsBefore, IsFirstWith};
ghost use Rattle.iso_text.specs.Ranges.{IsSite};
ghost use Rattle.iso_text.specs.declared.sections.AtomText.{AtomText};

use crate::orbit::{MAX_ATOMS, Orbit};
use crate::places::places_of;
use crate::reduced::reduced;
use iso_text::AtomText;
use std::alloc::Global;
use std::marker::Model;
use super_group::Quotient;
use thiserror::Error;

/// Why the atoms have no orbits.
#[derive(Clone, Copy, Debug, PartialEq, Eq, Error)]
pub enum AtomError {
    /// The place of a line is on the orbit of an earlier line: the number of the first such line, and
    /// that of the line.
    #[error("two lines on one orbit")]
    SameSite(u32, u32),
    /// The orbit of a line has more than 1,152 coordinates: the number of the line, and of the
    /// coordinates, three an atom.
    #[error("an orbit past 1152 coordinates")]
    TooManyAtoms(u32, u32),
    /// Want of memory.
    #[error("out of memory")]
    NoMemory,
}

/// One orbit for each atom line, in order.
#[derive(Drop)]
pub struct Orbits {
    orbits: Vec<Orbit>,
}

impl Model for Orbits {
    ghost use Rattle.std.specs.Prelude.{List};
    ghost use Rattle.wyckoff.specs.Orbit.{OrbitView};

    ghost Value = { List OrbitView };

    ghost view = { λ o. o.orbits.items };
}

impl Orbits {
    ghost use Rattle.wyckoff.specs.AtomLines.{AreAccepted, AreOrbitsOf, IsAtomCause};

    /// The orbits of atoms under a quotient. The lines are judged one by one: first whether the place
    /// is on the orbit of an earlier line, then whether the orbit has more than 1,152 coordinates.
    /// Condition: the atoms are in the ranges of the file grammar.
    pub fn new(alloc: Global, quotient: &Quotient, atoms: &[AtomText]) -> Result<Orbits, AtomError>
        requires { All (λ (a : AtomText). IsSite a.label a.place) atoms.now }
        ensures orbits { IfOk result (λ orbits. AreOrbitsOf quotient.now atoms.now orbits) }
        ensures accepted { IfOk result (λ _. AreAccepted quotient.now atoms.now (length atoms.now)) }
        ensures cause { IfErr result (λ error. IsAtomCause quotient.now atoms.now error) }
    {
        let _ = quotient.order();
        let mut orbits = Vec::new(alloc);
        for n in 0..atoms.len() {
            add_orbit(&mut orbits, alloc, quotient, atoms, n)?;
        }
        Ok(Orbits { orbits })
    }

    /// How many orbits there are.
    pub fn len(&self) -> usize
        ensures { result ≡ length self.now }
    {
        self.orbits.len()
    }

    /// Orbit i, from 0.
    pub fn get(&self, i: usize) -> &Orbit
        requires { i < length self.now }
        ensures { slice_get self.now i ≡ Some result.now }
    {
        &self.orbits[i]
    }
}

// The number of the first orbit that has an atom in this place.
fn first_with(orbits: &[Orbit], place: [i64; 3]) -> Option<usize>
    requires rising { All (λ (o : OrbitView). IsRising o.places) orbits.now }
    requires shaped { All (λ (o : OrbitView). AreShaped o.places) orbits.now }
    ensures { IsFirstWith orbits.now place result }
{
    for i in 0..orbits.len() {
        if orbits[i].has_place(place) {
            return Some(i);
        }
    }
    None
}

// Adds the orbit of line n, or tells why there is none.
fn add_orbit(
    orbits: &mut Vec<Orbit>,
    alloc: Global,
    quotient: &Quotient,
    atoms: &[AtomText],
    n: usize,
) -> Result<(), AtomError>
    requires quotient { IsQuotient quotient.now }
    requires atoms { All (λ (a : AtomText). IsSite a.label a.place) atoms.now }
    requires line { n < length atoms.now }
    requires orbits { AreOrbitsBefore quotient.now atoms.now n orbits.old.items }
    requires accepted { AreAccepted quotient.now atoms.now n }
    ensures orbits { OnOk result (AreOrbitsBefore quotient.now atoms.now (n + 1) orbits.new.items) }
    ensures accepted { OnOk result (AreAccepted quotient.now atoms.now (n + 1)) }
    ensures cause { IfErr result (λ error. IsAtomCause quotient.now atoms.now error) }
{
    let atom = &atoms[n];
    match first_with(orbits, reduced(atom.place, quotient.d())) {
        Some(i) => Err(AtomError::SameSite(orbits[i].line(), atom.line)),
        None => add_new_orbit(orbits, alloc, quotient, atoms, n),
    }
}

// The same, where line n is on the orbit of no earlier line.
fn add_new_orbit(
    orbits: &mut Vec<Orbit>,
    alloc: Global,
    quotient: &Quotient,
    atoms: &[AtomText],
    n: usize,
) -> Result<(), AtomError>
    requires quotient { IsQuotient quotient.now }
    requires atoms { All (λ (a : AtomText). IsSite a.label a.place) atoms.now }
    requires line { n < length atoms.now }
    requires orbits { AreOrbitsBefore quotient.now atoms.now n orbits.old.items }
    requires accepted { AreAccepted quotient.now atoms.now n }
    requires new { IsNewOrbit quotient.now atoms.now n }
    ensures orbits { OnOk result (AreOrbitsBefore quotient.now atoms.now (n + 1) orbits.new.items) }
    ensures accepted { OnOk result (AreAccepted quotient.now atoms.now (n + 1)) }
    ensures cause { IfErr result (λ error. IsAtomCause quotient.now atoms.now error) }
{
    // at most 6,144, so that three times as many places fit
    let _ = quotient.order();
    let atom = &atoms[n];
    let places = match places_of(alloc, quotient, atom.place) {
        Ok(places) => places,
        Err(_) => return Err(AtomError::NoMemory),
    };
    if places.len() > MAX_ATOMS {
        return Err(AtomError::TooManyAtoms(atom.line, 3 * places.len() as u32));
    }
    let orbit = match Orbit::new(alloc, quotient, atom, places) {
        Ok(orbit) => orbit,
        Err(_) => return Err(AtomError::NoMemory),
    };
    match orbits.push(orbit) {
        Ok(()) => Ok(()),
        Err(_) => Err(AtomError::NoMemory),
    }
}
