// The displacements that are found so far.
ghost use Rattle.std.specs.Prelude.{◌≡◌, ◌<◌, ℕ, IfOk, IfErr, OnOk, length, slice_index_or, None, []};
ghost use Rattle.distort_match.specs.declared.errors.MatchError.TheVariants as match_error;
ghost use Rattle.distort_match.specs.MarkParts.{mark_at, set_mark, AreMarksFor, AreAllMarked, IsOrbitCause, IsFoundInside, IsFoundTaken, IsFoundRefused, AreAllShifts, IsMissingCause};

use crate::errors::MatchError;
use crate::found::Found;
use crate::shifts::{OrbitShifts, Shifts};
use std::alloc::Global;
use std::marker::Model;
use wyckoff::{Orbit, Orbits};

/// The displacements of the atoms of one orbit, where they are found.
#[derive(Drop)]
pub(crate) struct OrbitMarks {
    marks: Vec<Option<[i64; 3]>>,
}

impl Model for OrbitMarks {
    ghost use Rattle.std.specs.Prelude.{List, Option, ℤ};

    ghost Value = { List (Option (List ℤ)) };

    ghost view = { λ m. m.marks.items };
}

impl OrbitMarks {
    ghost use Rattle.std.specs.Prelude.{◌≡◌, ◌<◌, ℕ, None, Some, IfOk, IfErr, length, slice_index_or, slice_set};
    ghost use Rattle.distort_match.specs.declared.errors.MatchError.TheVariants as match_error;

    // Nothing found for so many atoms.
    fn new(alloc: Global, atoms: usize) -> Result<OrbitMarks, MatchError>
        ensures count { IfOk result (λ marks. length marks ≡ atoms) }
        ensures free { IfOk result (λ marks. (i : ℕ) → slice_index_or marks i None ≡ None) }
        ensures error { IfErr result (λ error. error ≡ match_error.NoMemory) }
    {
        let mut marks = Vec::new(alloc);
        for _ in 0..atoms {
            match marks.push(None) {
                Ok(()) => {}
                Err(_) => return Err(MatchError::NoMemory),
            }
        }
        Ok(OrbitMarks { marks })
    }

    // The displacement of atom i, where it is found.
    fn get(&self, i: usize) -> Option<[i64; 3]>
        requires { i < length self.now }
        ensures { result ≡ slice_index_or self.now i None }
    {
        self.marks[i]
    }

    // Notes the displacement of atom i.
    fn set(&mut self, i: usize, shift: [i64; 3])
        requires { i < length self.old }
        ensures { self.new ≡ slice_set self.old i (Some shift) }
    {
        self.marks[i] = Some(shift);
    }
}

/// Notes the displacement of atom i of orbit o.
pub(crate) fn set_mark(marks: &mut Vec<OrbitMarks>, o: usize, i: usize, shift: [i64; 3])
    requires orbit { o < length marks.old.items }
    requires atom { i < length (slice_index_or marks.old.items o []) }
    ensures { marks.new.items ≡ set_mark marks.old.items o i shift }
{
    marks[o].set(i, shift);
}

/// No displacements found, one for each atom of each orbit.
pub(crate) fn no_marks(alloc: Global, orbits: &Orbits) -> Result<Vec<OrbitMarks>, MatchError>
    ensures shape { IfOk result (λ marks. AreMarksFor orbits.now marks.items) }
    ensures free { IfOk result (λ marks. (o i : ℕ) → mark_at marks.items o i ≡ None) }
    ensures error { IfErr result (λ error. error ≡ match_error.NoMemory) }
{
    let mut marks = Vec::new(alloc);
    for o in 0..orbits.len() {
        let row = OrbitMarks::new(alloc, orbits.get(o).atoms())?;
        match marks.push(row) {
            Ok(()) => {}
            Err(_) => return Err(MatchError::NoMemory),
        }
    }
    Ok(marks)
}

/// Notes what a place of this line matches.
pub(crate) fn take_found(
    marks: &mut Vec<OrbitMarks>,
    found: Found,
    line: u32,
) -> Result<(), MatchError>
    requires { IsFoundInside found marks.old.items }
    ensures taken { OnOk result (IsFoundTaken found marks.old.items marks.new.items) }
    ensures cause { IfErr result (IsFoundRefused found marks.old.items line) }
{
    match found {
        Found::Nothing => Err(MatchError::Unmatched(line)),
        Found::One(orbit, atom, shift) => match marks[orbit].get(atom) {
            Some(_) => Err(MatchError::Ambiguous(line)),
            None => {
                set_mark(marks, orbit, atom, shift);
                Ok(())
            }
        },
        Found::Many => Err(MatchError::Ambiguous(line)),
    }
}

// The displacements of an orbit, or its first atom without one.
fn orbit_shifts(alloc: Global, orbit: &Orbit, marks: &OrbitMarks) -> Result<OrbitShifts, MatchError>
    requires { length marks.now ≡ length orbit.now.places }
    ensures shifts { IfOk result (λ shifts. AreAllMarked marks.now (length orbit.now.places) shifts) }
    ensures cause { IfErr result (IsOrbitCause orbit.now marks.now) }
{
    let mut shifts = Vec::new(alloc);
    for i in 0..orbit.atoms() {
        let shift = match marks.get(i) {
            Some(shift) => shift,
            None => return Err(MatchError::MissingAtom(*orbit.label(), orbit.place(i))),
        };
        match shifts.push(shift) {
            Ok(()) => {}
            Err(_) => return Err(MatchError::NoMemory),
        }
    }
    Ok(OrbitShifts::from_vec(shifts))
}

/// The displacements of all atoms, or the first atom without one.
pub(crate) fn shifts_of(
    alloc: Global,
    orbits: &Orbits,
    marks: &[OrbitMarks],
) -> Result<Shifts, MatchError>
    requires { AreMarksFor orbits.now marks.now }
    ensures shifts { IfOk result (AreAllShifts orbits.now marks.now) }
    ensures cause { IfErr result (IsMissingCause orbits.now marks.now) }
{
    let mut shifts = Vec::new(alloc);
    for o in 0..orbits.len() {
        let row = match orbit_shifts(alloc, orbits.get(o), &marks[o]) {
            Ok(row) => row,
            Err(error) => return Err(error),
        };
        match shifts.push(row) {
            Ok(()) => {}
            Err(_) => return Err(MatchError::NoMemory),
        }
    }
    Ok(Shifts::from_vec(shifts))
}
