// The places of an orbit.
ghost use Rattle.std.specs.Prelude.{[], IfOk, OnOk, length};
ghost use Rattle.space_ops.specs.Op.{vector_of, IsShiftWithin};
ghost use Rattle.super_group.specs.Quotient.{IsQuotient};
ghost use Rattle.wyckoff.specs.Places.{place_at};
ghost use Rattle.wyckoff.specs.Orbit.{ArePlacesOf};
ghost use Rattle.wyckoff.specs.OrbitParts.{IsTurned, IsShifted, IsFilled, IsRowAdded, AreDistinct, AreNear};

use crate::reduced::{shifted, turned};
use iso_text::NoMemory;
use std::alloc::Global;
use super_group::Quotient;

/// The images of a place under all elements of the group, rising, each once. Condition: the
/// coordinates are of at most 100 cell edges.
pub fn places_of(alloc: Global, quotient: &Quotient, x: [i64; 3]) -> Result<Vec<[i64; 3]>, NoMemory>
    requires quotient { IsQuotient quotient.now }
    requires place { IsShiftWithin 1200000000 x }
    ensures { IfOk result (λ places. ArePlacesOf quotient.now (vector_of x) places.items) }
{
    let mut under_listed = turned_places(alloc, quotient, x)?;
    make_distinct(&mut under_listed);
    let mut places = shifted_places(alloc, quotient, &under_listed)?;
    make_distinct(&mut places);
    Ok(places)
}

fn make_distinct(places: &mut Vec<[i64; 3]>)
    ensures { AreDistinct places.old.items places.new.items }
{
    places.sort_unstable();
    places.dedup();
}

// Where the listed operations take a place, in their order.
fn turned_places(alloc: Global, quotient: &Quotient, x: [i64; 3]) -> Result<Vec<[i64; 3]>, NoMemory>
    requires quotient { IsQuotient quotient.now }
    requires place { IsShiftWithin 1200000000 x }
    ensures { IfOk result (λ places. IsRowAdded (length quotient.now.parent.ops) (IsTurned quotient.now (vector_of x)) [] [] places.items) }
{
    let group = quotient.group();
    let d = quotient.d();
    let mut places = Vec::new(alloc);
    for r in 0..group.len() {
        match places.push(turned(group.op(r), x, d)) {
            Ok(()) => {}
            Err(_) => return Err(NoMemory),
        }
    }
    Ok(places)
}

// Where the translations take places, a row for each place.
fn shifted_places(
    alloc: Global,
    quotient: &Quotient,
    from: &[[i64; 3]],
) -> Result<Vec<[i64; 3]>, NoMemory>
    requires quotient { IsQuotient quotient.now }
    requires places { AreNear from.now }
    ensures { IfOk result (λ places. IsFilled (length from.now) (length quotient.now.translations) (λ r. IsShifted quotient.now (place_at from.now r)) [] places.items) }
{
    let mut places = Vec::new(alloc);
    for r in 0..from.len() {
        match push_shifted(&mut places, quotient, from[r]) {
            Ok(()) => {}
            Err(_) => return Err(NoMemory),
        }
    }
    Ok(places)
}

// Adds where the translations take a place, in their order.
fn push_shifted(
    places: &mut Vec<[i64; 3]>,
    quotient: &Quotient,
    x: [i64; 3],
) -> Result<(), NoMemory>
    requires quotient { IsQuotient quotient.now }
    requires place { IsShiftWithin 1200000000 x }
    ensures { OnOk result (IsRowAdded (length quotient.now.translations) (IsShifted quotient.now (vector_of x)) [] places.old.items places.new.items) }
{
    let translations = quotient.translations();
    let d = quotient.d();
    for t in 0..translations.len() {
        match places.push(shifted(translations[t], x, d)) {
            Ok(()) => {}
            Err(_) => return Err(NoMemory),
        }
    }
    Ok(())
}
