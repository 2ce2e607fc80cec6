// The table of a space, and ways to the atoms of an orbit.
ghost use Rattle.std.specs.Prelude.{◌≡◌, ◌<◌, ℕ, IfOk, length};
ghost use Rattle.super_group.specs.Quotient.{order_of};
ghost use Rattle.wyckoff.specs.Orbit.{OrbitView, image_of};
ghost use Rattle.mode_project.specs.AtomSpace.{Quantity, IsOrbit, space_of};
ghost use Rattle.mode_project.specs.Turns.{IsTurnTable, IsReached, AreWays};

use crate::quantity::AtomQuantity;
use crate::turns::Turns;
use iso_text::NoMemory;
use std::alloc::Global;
use super_group::Quotient;
use wyckoff::{Orbit, law_of_images};

// The matrices of the elements.
pub(crate) fn turns_of<K: AtomQuantity>(
    alloc: Global,
    quotient: &Quotient,
    kind: &K,
) -> Result<Turns, NoMemory>
    ensures { IfOk result (λ turns. (o : OrbitView) → IsTurnTable (space_of quotient.now o (K.quantity kind.now)) turns) }
{
    let _order = quotient.order();
    let translations = quotient.translations().len();
    let mut matrices = Vec::new(alloc);
    for r in 0..quotient.group().len() {
        match matrices.push(kind.matrix(quotient.group().op(r))) {
            Ok(()) => {}
            Err(_) => return Err(NoMemory),
        }
    }
    Ok(Turns {
        each: kind.each(),
        translations,
        matrices,
    })
}

// Writes for each atom the last element that takes the first atom to it.
fn fill_elements(elements: &mut [usize], quotient: &Quotient, orbit: &Orbit)
    requires orbit { IsOrbit quotient.now orbit.now }
    requires count { length elements.old ≡ length orbit.now.places }
    ensures { (i : ℕ) → i < length orbit.now.places → IsReached (order_of quotient.now) orbit.now elements.new i }
{
    law_of_images();
    for q in 0..quotient.order() {
        let i = orbit.image(q, 0);
        elements[i] = q;
    }
}

// For each atom an element that takes the first atom to it.
fn elements_to(alloc: Global, quotient: &Quotient, orbit: &Orbit) -> Result<Vec<usize>, NoMemory>
    requires { IsOrbit quotient.now orbit.now }
    ensures count { IfOk result (λ elements. length elements.items ≡ length orbit.now.places) }
    ensures each { IfOk result (λ elements. (i : ℕ) → i < length orbit.now.places → IsReached (order_of quotient.now) orbit.now elements.items i) }
{
    let mut elements = Vec::new(alloc);
    match elements.resize(orbit.atoms(), 0) {
        Ok(()) => {}
        Err(_) => return Err(NoMemory),
    }
    fill_elements(&mut elements, quotient, orbit);
    Ok(elements)
}

// For each atom an element that takes the first atom to it, and its inverse.
pub(crate) fn ways_to(
    alloc: Global,
    quotient: &Quotient,
    orbit: &Orbit,
) -> Result<Vec<(usize, usize)>, NoMemory>
    requires { IsOrbit quotient.now orbit.now }
    ensures { IfOk result (λ ways. (k : Quantity) → AreWays (space_of quotient.now orbit.now k) ways.items (length orbit.now.places)) }
{
    let elements = match elements_to(alloc, quotient, orbit) {
        Ok(elements) => elements,
        Err(error) => return Err(error),
    };
    let mut ways = Vec::new(alloc);
    for i in 0..elements.len() {
        let q = elements[i];
        match ways.push((q, quotient.inverse(q))) {
            Ok(()) => {}
            Err(_) => return Err(NoMemory),
        }
    }
    Ok(ways)
}
