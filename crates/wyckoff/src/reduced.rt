// Places modulo a supercell, and the places to which operations and translations take them.
ghost use Rattle.std.specs.Prelude.{◌≡◌, ℕ, ◌<◌, ◌≤◌, ◌*◌, pos, ◌+ℤ◌, ◌*ℤ◌};
ghost use Rattle.std.specs.Int.{int_rem_euclid};
ghost use Rattle.algebra.specs.Whole.{whole};
ghost use Rattle.space_ops.specs.Matrix.{row_times, vector_sum};
ghost use Rattle.space_ops.specs.Op.{number_at, vector_of, shift_of, seitz_of, IsWithin, IsShiftWithin, IsSmallRotation};
ghost use Rattle.super_group.specs.Supercell.{multiplier};
ghost use Rattle.wyckoff.specs.Places.{in_units, moved, reduced_place};

use iso_text::UNITS_PER_EDGE;
use space_ops::Op;

/// The units of a twelfth of a cell edge.
const UNITS_PER_TWELFTH: i64 = 1_000_000;

fn length_along(multiplier: u32) -> i64
    requires { multiplier ≤ 12 }
    ensures { result ≡ pos (12000000 * multiplier) }
{
    UNITS_PER_EDGE * i64::from(multiplier)
}

fn reduced_along(x: i64, multiplier: u32) -> i64
    requires positive { 0 < multiplier }
    requires few { multiplier ≤ 12 }
    ensures value { result ≡ int_rem_euclid x (pos (12000000 * multiplier)) }
    ensures within { IsWithin 144000000 result }
{
    x.rem_euclid(length_along(multiplier))
}

/// The place modulo the supercell. Condition: the multipliers are from 1 to 12.
pub fn reduced(x: [i64; 3], d: [u32; 3]) -> [i64; 3]
    requires positive { (i : ℕ) → i < 3 → 0 < multiplier d i }
    requires few { (i : ℕ) → i < 3 → multiplier d i ≤ 12 }
    ensures value { result ≡ shift_of (reduced_place d (vector_of x)) }
    ensures near { IsShiftWithin 144000000 result }
{
    [
        reduced_along(x[0], d[0]),
        reduced_along(x[1], d[1]),
        reduced_along(x[2], d[2]),
    ]
}

fn units(shift: i32) -> i64
    requires { IsWithin 144 shift }
    ensures value { result ≡ pos 1000000 *ℤ shift }
    ensures near { IsWithin 144000000 result }
{
    UNITS_PER_TWELFTH * i64::from(shift)
}

fn term(a: i8, x: i64) -> i64
    requires left { IsWithin 3 a }
    requires right { IsWithin 1200000000 x }
    ensures value { result ≡ a *ℤ x }
    ensures near { IsWithin 3600000000 result }
{
    i64::from(a) * x
}

fn sum(a: i64, b: i64, c: i64) -> i64
    requires first { IsWithin 3600000000 a }
    requires second { IsWithin 3600000000 b }
    requires third { IsWithin 3600000000 c }
    ensures value { result ≡ (a +ℤ b) +ℤ c }
    ensures near { IsWithin 10800000000 result }
{
    a + b + c
}

fn pair_sum(a: i64, b: i64) -> i64
    requires first { IsWithin 10800000000 a }
    requires second { IsWithin 144000000 b }
    ensures { result ≡ a +ℤ b }
{
    a + b
}

fn dot(row: [i8; 3], x: [i64; 3]) -> i64
    requires row { IsShiftWithin 3 row }
    requires place { IsShiftWithin 1200000000 x }
    ensures value { result ≡ row_times whole (number_at row 0) (number_at row 1) (number_at row 2) (number_at x 0) (number_at x 1) (number_at x 2) }
    ensures near { IsWithin 10800000000 result }
{
    sum(term(row[0], x[0]), term(row[1], x[1]), term(row[2], x[2]))
}

fn moved_along(row: [i8; 3], shift: i32, x: [i64; 3]) -> i64
    requires row { IsShiftWithin 3 row }
    requires shift { IsWithin 144 shift }
    requires place { IsShiftWithin 1200000000 x }
    ensures { result ≡ row_times whole (number_at row 0) (number_at row 1) (number_at row 2) (number_at x 0) (number_at x 1) (number_at x 2) +ℤ pos 1000000 *ℤ shift }
{
    pair_sum(dot(row, x), units(shift))
}

fn moved_place(op: Op, x: [i64; 3]) -> [i64; 3]
    requires rotation { IsSmallRotation op.rot }
    requires shift { IsShiftWithin 144 op.shift }
    requires place { IsShiftWithin 1200000000 x }
    ensures { result ≡ shift_of (moved (seitz_of op) (vector_of x)) }
{
    [
        moved_along(op.rot[0], op.shift[0], x),
        moved_along(op.rot[1], op.shift[1], x),
        moved_along(op.rot[2], op.shift[2], x),
    ]
}

/// The place to which an operation takes a place, modulo the supercell. Condition: entries from -3 to
/// 3, translations of at most 144 twelfths, coordinates of at most 100 cell edges; the multipliers are
/// from 1 to 12.
pub fn turned(op: Op, x: [i64; 3], d: [u32; 3]) -> [i64; 3]
    requires rotation { IsSmallRotation op.rot }
    requires shift { IsShiftWithin 144 op.shift }
    requires place { IsShiftWithin 1200000000 x }
    requires positive { (i : ℕ) → i < 3 → 0 < multiplier d i }
    requires few { (i : ℕ) → i < 3 → multiplier d i ≤ 12 }
    ensures value { result ≡ shift_of (reduced_place d (moved (seitz_of op) (vector_of x))) }
    ensures near { IsShiftWithin 144000000 result }
{
    reduced(moved_place(op, x), d)
}

fn shifted_along(x: i64, shift: i32) -> i64
    requires place { IsWithin 1200000000 x }
    requires shift { IsWithin 144 shift }
    ensures { result ≡ x +ℤ pos 1000000 *ℤ shift }
{
    pair_sum(x, units(shift))
}

fn shifted_place(t: [i32; 3], x: [i64; 3]) -> [i64; 3]
    requires shift { IsShiftWithin 144 t }
    requires place { IsShiftWithin 1200000000 x }
    ensures { result ≡ shift_of (vector_sum whole (vector_of x) (in_units (vector_of t))) }
{
    [
        shifted_along(x[0], t[0]),
        shifted_along(x[1], t[1]),
        shifted_along(x[2], t[2]),
    ]
}

/// The place to which a translation takes a place, modulo the supercell. Condition: as of `turned`.
pub fn shifted(t: [i32; 3], x: [i64; 3], d: [u32; 3]) -> [i64; 3]
    requires shift { IsShiftWithin 144 t }
    requires place { IsShiftWithin 1200000000 x }
    requires positive { (i : ℕ) → i < 3 → 0 < multiplier d i }
    requires few { (i : ℕ) → i < 3 → multiplier d i ≤ 12 }
    ensures value { result ≡ shift_of (reduced_place d (vector_sum whole (vector_of x) (in_units (vector_of t)))) }
    ensures near { IsShiftWithin 144000000 result }
{
    reduced(shifted_place(t, x), d)
}
