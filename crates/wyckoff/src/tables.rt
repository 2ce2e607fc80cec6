// Where the listed operations and the translations take the atoms of an orbit, as tables of numbers.
ghost use Rattle.std.specs.Prelude.{◌<◌, ◌≤◌, IfOk, OnOk, Contains, length};
ghost use Rattle.space_ops.specs.Op.{shift_of};
ghost use Rattle.super_group.specs.Quotient.{IsQuotient};
ghost use Rattle.wyckoff.specs.Places.{place_at};
ghost use Rattle.wyckoff.specs.OrbitParts.{turned_at, shifted_at, IsFilled, IsRowAdded, IsRising, AreShaped, IsNumberOf, AreNear, AreClosedPlaces};

use crate::reduced::{shifted, turned};
use iso_text::NoMemory;
use std::alloc::Global;
use super_group::Quotient;

fn number_in(places: &[[i64; 3]], v: [i64; 3]) -> u16
    requires rising { IsRising places.now }
    requires shaped { AreShaped places.now }
    requires few { length places.now ≤ 384 }
    requires listed { Contains places.now v }
    ensures { IsNumberOf places.now v result }
{
    match places.binary_search(&v) {
        Ok(number) => number as u16,
        Err(_) => unreachable!(),
    }
}

/// Where the listed operations take the atoms: a row for each operation.
pub fn turns_of(
    alloc: Global,
    quotient: &Quotient,
    places: &[[i64; 3]],
) -> Result<Vec<u16>, NoMemory>
    requires quotient { IsQuotient quotient.now }
    requires few { length places.now ≤ 384 }
    requires near { AreNear places.now }
    requires closed { AreClosedPlaces quotient.now places.now }
    ensures { IfOk result (λ turns. IsFilled (length quotient.now.parent.ops) (length places.now) (λ r i. IsNumberOf places.now (shift_of (turned_at quotient.now r (place_at places.now i)))) 0 turns.items) }
{
    let mut turns = Vec::new(alloc);
    for r in 0..quotient.group().len() {
        match push_turns(&mut turns, quotient, places, r) {
            Ok(()) => {}
            Err(_) => return Err(NoMemory),
        }
    }
    Ok(turns)
}

fn push_turns(
    turns: &mut Vec<u16>,
    quotient: &Quotient,
    places: &[[i64; 3]],
    r: usize,
) -> Result<(), NoMemory>
    requires quotient { IsQuotient quotient.now }
    requires operation { r < length quotient.now.parent.ops }
    requires few { length places.now ≤ 384 }
    requires near { AreNear places.now }
    requires closed { AreClosedPlaces quotient.now places.now }
    ensures { OnOk result (IsRowAdded (length places.now) (λ i. IsNumberOf places.now (shift_of (turned_at quotient.now r (place_at places.now i)))) 0 turns.old.items turns.new.items) }
{
    let op = quotient.group().op(r);
    let d = quotient.d();
    for i in 0..places.len() {
        match turns.push(number_in(places, turned(op, places[i], d))) {
            Ok(()) => {}
            Err(_) => return Err(NoMemory),
        }
    }
    Ok(())
}

/// Where the translations take the atoms: a row for each translation.
pub fn shifts_of(
    alloc: Global,
    quotient: &Quotient,
    places: &[[i64; 3]],
) -> Result<Vec<u16>, NoMemory>
    requires quotient { IsQuotient quotient.now }
    requires few { length places.now ≤ 384 }
    requires near { AreNear places.now }
    requires closed { AreClosedPlaces quotient.now places.now }
    ensures { IfOk result (λ shifts. IsFilled (length quotient.now.translations) (length places.now) (λ t i. IsNumberOf places.now (shift_of (shifted_at quotient.now t (place_at places.now i)))) 0 shifts.items) }
{
    let mut shifts = Vec::new(alloc);
    for t in 0..quotient.translations().len() {
        match push_shifts(&mut shifts, quotient, places, t) {
            Ok(()) => {}
            Err(_) => return Err(NoMemory),
        }
    }
    Ok(shifts)
}

fn push_shifts(
    shifts: &mut Vec<u16>,
    quotient: &Quotient,
    places: &[[i64; 3]],
    t: usize,
) -> Result<(), NoMemory>
    requires quotient { IsQuotient quotient.now }
    requires translation { t < length quotient.now.translations }
    requires few { length places.now ≤ 384 }
    requires near { AreNear places.now }
    requires closed { AreClosedPlaces quotient.now places.now }
    ensures { OnOk result (IsRowAdded (length places.now) (λ i. IsNumberOf places.now (shift_of (shifted_at quotient.now t (place_at places.now i)))) 0 shifts.old.items shifts.new.items) }
{
    let shift = quotient.translations()[t];
    let d = quotient.d();
    for i in 0..places.len() {
        match shifts.push(number_in(places, shifted(shift, places[i], d))) {
            Ok(()) => {}
            Err(_) => return Err(NoMemory),
        }
    }
    Ok(())
}
