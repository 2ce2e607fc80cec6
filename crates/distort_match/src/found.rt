// The atoms that are in a place, up to a tolerance.
ghost use Rattle.std.specs.Prelude.{◌≡◌, ℕ, ◌<◌, ◌≤◌, ◌*◌, pos, ◌≤ℤ◌, ◌<ℤ◌, length, List, slice_index};
ghost use Rattle.space_ops.specs.Op.{vector_of, IsWithin, IsShiftWithin};
ghost use Rattle.super_group.specs.Supercell.{multiplier};
ghost use Rattle.distort_match.specs.FoundParts.{IsNearestOf, IsAlongFound, IsDisplacementFound, IsAtomBelow, IsAtomIn, IsAtomOf, IsFound, found_of, both_of};
ghost use Rattle.distort_match.specs.WindowParts.{IsAlongRising, IsInLength, AreSorted};

use crate::windows::windows_of;
use iso_text::{Name, UNITS_PER_EDGE};
use wyckoff::{Orbit, Orbits};

/// The atoms that a place matches: none; one, by the number of its orbit and its own, with its
/// displacement; or more.
#[derive(Clone, Copy)]
pub(crate) enum Found {
    Nothing,
    One(usize, usize, [i64; 3]),
    Many,
}

// What is found in two places.
fn both(first: Found, second: Found) -> Found
    ensures { result ≡ both_of first second }
{
    match first {
        Found::Nothing => second,
        Found::One(orbit, atom, shift) => match second {
            Found::Nothing => Found::One(orbit, atom, shift),
            Found::One(_, _, _) => Found::Many,
            Found::Many => Found::Many,
        },
        Found::Many => Found::Many,
    }
}

// The number of the class of a remainder, modulo a length, that is at most the tolerance.
fn nearest(rest: i64, length: i64, tolerance: i64) -> Option<i64>
    requires positive { pos 0 ≤ℤ rest }
    requires below { rest <ℤ length }
    requires some { pos 0 ≤ℤ tolerance }
    requires small { tolerance <ℤ pos 3000000 }
    ensures { IsNearestOf length tolerance rest result }
{
    if rest <= tolerance {
        return Some(rest);
    }
    if rest - length < -tolerance {
        return None;
    }
    Some(rest - length)
}

// The difference of the coordinates modulo the length of the supercell that is at most the tolerance.
fn displacement_along(x: i64, a: i64, multiplier: u32, tolerance: i64) -> Option<i64>
    requires place { IsWithin 100000000000000 x }
    requires atom { IsWithin 144000000 a }
    requires positive { 0 < multiplier }
    requires few { multiplier ≤ 12 }
    requires some { pos 0 ≤ℤ tolerance }
    requires small { tolerance <ℤ pos 3000000 }
    ensures { IsAlongFound (12000000 * multiplier) tolerance x a result }
{
    let length = UNITS_PER_EDGE * i64::from(multiplier);
    nearest((x - a).rem_euclid(length), length, tolerance)
}

// The displacement of an atom that a place matches.
fn displacement(x: [i64; 3], a: [i64; 3], d: [u32; 3], tolerance: i64) -> Option<[i64; 3]>
    requires place { IsShiftWithin 100000000000000 x }
    requires atom { IsShiftWithin 144000000 a }
    requires positive { (i : ℕ) → i < 3 → 0 < multiplier d i }
    requires few { (i : ℕ) → i < 3 → multiplier d i ≤ 12 }
    requires some { pos 0 ≤ℤ tolerance }
    requires small { tolerance <ℤ pos 3000000 }
    ensures { IsDisplacementFound d tolerance (vector_of x) (vector_of a) result }
{
    match displacement_along(x[0], a[0], d[0], tolerance) {
        None => None,
        Some(along_x) => match displacement_along(x[1], a[1], d[1], tolerance) {
            None => None,
            Some(along_y) => match displacement_along(x[2], a[2], d[2], tolerance) {
                None => None,
                Some(along_z) => Some([along_x, along_y, along_z]),
            },
        },
    }
}

// What is found at one atom.
fn found_atom(orbit: usize, atom: usize, shift: Option<[i64; 3]>) -> Found
    ensures { result ≡ found_of orbit atom shift }
{
    match shift {
        Some(shift) => Found::One(orbit, atom, shift),
        None => Found::Nothing,
    }
}

// The atoms of orbit number o that a place matches, of those before the second of two numbers, where
// `found` tells those before the first.
fn found_between(
    found: Found,
    orbit: &Orbit,
    o: usize,
    x: [i64; 3],
    d: [u32; 3],
    tolerance: i64,
    between: [usize; 2],
) -> Found
    requires place { IsShiftWithin 100000000000000 x }
    requires positive { (i : ℕ) → i < 3 → 0 < multiplier d i }
    requires few { (i : ℕ) → i < 3 → multiplier d i ≤ 12 }
    requires some { pos 0 ≤ℤ tolerance }
    requires small { tolerance <ℤ pos 3000000 }
    requires order { slice_index between 0 ≤ slice_index between 1 }
    requires within { slice_index between 1 ≤ length orbit.now.places }
    requires before { IsFound (IsAtomBelow d tolerance (vector_of x) o orbit.now.places (slice_index between 0)) found }
    ensures { IsFound (IsAtomBelow d tolerance (vector_of x) o orbit.now.places (slice_index between 1)) result }
{
    let mut found = found;
    for i in between[0]..between[1] {
        let shift = displacement(x, orbit.place(i), d, tolerance);
        found = both(found, found_atom(o, i, shift));
    }
    found
}

// The atoms of orbit number o that a place matches. Those that can't be near along x are passed over.
fn found_in(orbit: &Orbit, o: usize, x: [i64; 3], d: [u32; 3], tolerance: i64) -> Found
    requires place { IsShiftWithin 100000000000000 x }
    requires positive { (i : ℕ) → i < 3 → 0 < multiplier d i }
    requires few { (i : ℕ) → i < 3 → multiplier d i ≤ 12 }
    requires some { pos 0 ≤ℤ tolerance }
    requires small { tolerance <ℤ pos 3000000 }
    requires rising { IsAlongRising orbit.now.places }
    requires inside { IsInLength (12000000 * multiplier d 0) orbit.now.places }
    ensures { IsFound (IsAtomBelow d tolerance (vector_of x) o orbit.now.places (length orbit.now.places)) result }
{
    let near = windows_of(orbit, x[0], d[0], tolerance);
    let low = found_between(Found::Nothing, orbit, o, x, d, tolerance, [0, near.low]);
    let middle = found_between(low, orbit, o, x, d, tolerance, [near.start, near.end]);
    found_between(
        middle,
        orbit,
        o,
        x,
        d,
        tolerance,
        [near.high, orbit.atoms()],
    )
}

// The atoms of orbit number o that a place with this label matches.
fn found_labelled(
    orbits: &Orbits,
    o: usize,
    label: &Name,
    x: [i64; 3],
    d: [u32; 3],
    tolerance: i64,
) -> Found
    requires orbit { o < length orbits.now }
    requires sorted { AreSorted d orbits.now }
    requires place { IsShiftWithin 100000000000000 x }
    requires positive { (i : ℕ) → i < 3 → 0 < multiplier d i }
    requires few { (i : ℕ) → i < 3 → multiplier d i ≤ 12 }
    requires some { pos 0 ≤ℤ tolerance }
    requires small { tolerance <ℤ pos 3000000 }
    ensures { IsFound (IsAtomIn d tolerance (vector_of x) label.now orbits.now o) result }
{
    let orbit = orbits.get(o);
    if orbit.label().as_slice() == label.as_slice() {
        found_in(orbit, o, x, d, tolerance)
    } else {
        Found::Nothing
    }
}

/// The atoms that a place with this label matches.
pub(crate) fn found_at(
    orbits: &Orbits,
    label: &Name,
    x: [i64; 3],
    d: [u32; 3],
    tolerance: i64,
) -> Found
    requires sorted { AreSorted d orbits.now }
    requires place { IsShiftWithin 100000000000000 x }
    requires positive { (i : ℕ) → i < 3 → 0 < multiplier d i }
    requires few { (i : ℕ) → i < 3 → multiplier d i ≤ 12 }
    requires some { pos 0 ≤ℤ tolerance }
    requires small { tolerance <ℤ pos 3000000 }
    ensures { IsFound (IsAtomOf d tolerance (vector_of x) label.now orbits.now (length orbits.now)) result }
{
    let mut found = Found::Nothing;
    for o in 0..orbits.len() {
        found = both(found, found_labelled(orbits, o, label, x, d, tolerance));
    }
    found
}
