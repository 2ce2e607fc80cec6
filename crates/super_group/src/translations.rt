// The lattice translations inside a supercell.
ghost use Rattle.std.specs.Prelude.{◌≡◌, ℕ, ◌<◌, ◌≤◌, ◌+◌, ◌*◌, ◌↔◌, IfOk, OnOk, IsTrue};
ghost use Rattle.space_ops.specs.LeastShift.{IsTwelfth};
ghost use Rattle.space_ops.specs.Lattice.{centrings_of, twelfths};
ghost use Rattle.super_group.specs.Supercell.{multiplier};
ghost use Rattle.super_group.specs.Quotient.{AreTranslations};
ghost use Rattle.super_group.specs.TranslationsBefore.{AreTranslationsBefore, IsAt, HasLayer, HasColumn, HasPoint};

use iso_text::NoMemory;
use space_ops::Lattice;
use std::alloc::Global;

/// The length of the supercell along axis i, in twelfths of a cell edge.
fn edge(d: [u32; 3], i: usize) -> u32
    requires axis { i < 3 }
    requires few { multiplier d i ≤ 12 }
    ensures { result ≡ 12 * multiplier d i }
{
    12 * d[i]
}

/// The translation (x, y, z), in twelfths.
fn point(x: u32, y: u32, z: u32) -> [i32; 3]
    requires x { x < 144 }
    requires y { y < 144 }
    requires z { z < 144 }
    ensures { result ≡ twelfths x y z }
{
    [x as i32, y as i32, z as i32]
}

/// Whether c is x modulo 12.
fn is_at(c: i32, x: u32) -> bool
    ensures { IsTrue result ↔ IsAt c x }
{
    c == (x % 12) as i32
}

/// Whether a vector has this first coordinate modulo 12.
fn has_layer(centrings: &[[i32; 3]], x: u32) -> bool
    ensures { IsTrue result ↔ HasLayer centrings.now x }
{
    for c in centrings {
        if is_at(c[0], x) {
            return true;
        }
    }
    false
}

/// Whether a vector has these two first coordinates modulo 12.
fn has_column(centrings: &[[i32; 3]], x: u32, y: u32) -> bool
    ensures { IsTrue result ↔ HasColumn centrings.now x y }
{
    for c in centrings {
        if is_at(c[0], x) && is_at(c[1], y) {
            return true;
        }
    }
    false
}

/// Whether a vector has these coordinates modulo 12.
fn has_point(centrings: &[[i32; 3]], x: u32, y: u32, z: u32) -> bool
    ensures { IsTrue result ↔ HasPoint centrings.now x y z }
{
    for c in centrings {
        if is_at(c[0], x) && is_at(c[1], y) && is_at(c[2], z) {
            return true;
        }
    }
    false
}

/// Adds (x, y, z) where it is a lattice translation.
fn push_point(
    list: &mut Vec<[i32; 3]>,
    lattice: Lattice,
    d: [u32; 3],
    x: u32,
    y: u32,
    z: u32,
) -> Result<(), NoMemory>
    requires few { (i : ℕ) → i < 3 → multiplier d i ≤ 12 }
    requires x { x < 12 * multiplier d 0 }
    requires y { y < 12 * multiplier d 1 }
    requires z { z < 12 * multiplier d 2 }
    requires before { AreTranslationsBefore lattice d x y z list.old.items }
    ensures { OnOk result (AreTranslationsBefore lattice d x y (z + 1) list.new.items) }
{
    if !has_point(lattice.centrings().as_slice(), x, y, z) {
        return Ok(());
    }
    match list.push(point(x, y, z)) {
        Ok(()) => Ok(()),
        Err(_) => Err(NoMemory),
    }
}

/// Adds the lattice translations with these two first coordinates.
fn push_column(
    list: &mut Vec<[i32; 3]>,
    lattice: Lattice,
    d: [u32; 3],
    x: u32,
    y: u32,
) -> Result<(), NoMemory>
    requires few { (i : ℕ) → i < 3 → multiplier d i ≤ 12 }
    requires x { x < 12 * multiplier d 0 }
    requires y { y < 12 * multiplier d 1 }
    requires before { AreTranslationsBefore lattice d x y 0 list.old.items }
    ensures { OnOk result (AreTranslationsBefore lattice d x (y + 1) 0 list.new.items) }
{
    if !has_column(lattice.centrings().as_slice(), x, y) {
        return Ok(());
    }
    for z in 0..edge(d, 2) {
        match push_point(list, lattice, d, x, y, z) {
            Ok(()) => {}
            Err(_) => return Err(NoMemory),
        }
    }
    Ok(())
}

/// Adds the lattice translations with this first coordinate.
fn push_layer(
    list: &mut Vec<[i32; 3]>,
    lattice: Lattice,
    d: [u32; 3],
    x: u32,
) -> Result<(), NoMemory>
    requires few { (i : ℕ) → i < 3 → multiplier d i ≤ 12 }
    requires x { x < 12 * multiplier d 0 }
    requires before { AreTranslationsBefore lattice d x 0 0 list.old.items }
    ensures { OnOk result (AreTranslationsBefore lattice d (x + 1) 0 0 list.new.items) }
{
    if !has_layer(lattice.centrings().as_slice(), x) {
        return Ok(());
    }
    for y in 0..edge(d, 1) {
        match push_column(list, lattice, d, x, y) {
            Ok(()) => {}
            Err(_) => return Err(NoMemory),
        }
    }
    Ok(())
}

/// The lattice translations inside the supercell in twelfths of a cell edge, rising. Condition: the
/// multipliers are from 1 to 12.
pub fn translations(alloc: Global, lattice: Lattice, d: [u32; 3]) -> Result<Vec<[i32; 3]>, NoMemory>
    requires positive { (i : ℕ) → i < 3 → 0 < multiplier d i }
    requires few { (i : ℕ) → i < 3 → multiplier d i ≤ 12 }
    ensures { IfOk result (λ list. AreTranslations lattice d list.items) }
{
    let mut list = Vec::new(alloc);
    for x in 0..edge(d, 0) {
        match push_layer(&mut list, lattice, d, x) {
            Ok(()) => {}
            Err(_) => return Err(NoMemory),
        }
    }
    Ok(list)
}
