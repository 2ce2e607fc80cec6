// Translations reduced into the supercell.
ghost use Rattle.std.specs.Prelude.{◌≡◌, ℕ, ◌<◌, ◌≤◌, pos, ◌+ℤ◌, neg_ℤ, ◌*◌};
ghost use Rattle.std.specs.Int.{int_rem_euclid};
ghost use Rattle.algebra.specs.Whole.{whole};
ghost use Rattle.space_ops.specs.Matrix.{vector_sum};
ghost use Rattle.space_ops.specs.Op.{vector_of, shift_of, IsWithin, IsShiftWithin};
ghost use Rattle.space_ops.specs.Words.{vector_difference};
ghost use Rattle.super_group.specs.Supercell.{multiplier, reduced as reduced_vector};

use space_ops::TWELFTHS;

fn edge_of(multiplier: u32) -> i32
    requires { multiplier ≤ 12 }
    ensures { result ≡ pos (12 * multiplier) }
{
    TWELFTHS * multiplier as i32
}

fn reduced(x: i32, multiplier: u32) -> i32
    requires positive { 0 < multiplier }
    requires few { multiplier ≤ 12 }
    ensures value { result ≡ int_rem_euclid x (pos (12 * multiplier)) }
    ensures within { IsWithin 144 result }
{
    x.rem_euclid(edge_of(multiplier))
}

fn sum_along(a: i32, b: i32, multiplier: u32) -> i32
    requires positive { 0 < multiplier }
    requires few { multiplier ≤ 12 }
    requires left { IsWithin 144 a }
    requires right { IsWithin 144 b }
    ensures { result ≡ int_rem_euclid (a +ℤ b) (pos (12 * multiplier)) }
{
    reduced(a + b, multiplier)
}

fn difference_along(a: i32, b: i32, multiplier: u32) -> i32
    requires positive { 0 < multiplier }
    requires few { multiplier ≤ 12 }
    requires left { IsWithin 144 a }
    requires right { IsWithin 144 b }
    ensures { result ≡ int_rem_euclid (a +ℤ neg_ℤ b) (pos (12 * multiplier)) }
{
    reduced(a - b, multiplier)
}

fn rest_along(a: i32, b: i32, multiplier: u32) -> i32
    requires positive { 0 < multiplier }
    requires few { multiplier ≤ 12 }
    requires right { IsWithin 144 b }
    ensures { result ≡ int_rem_euclid (a +ℤ neg_ℤ b) (pos (12 * multiplier)) }
{
    difference_along(reduced(a, multiplier), b, multiplier)
}

/// The sum of two translations, reduced into the supercell. Condition: the multipliers are from 1 to
/// 12, the translations from -144 to 144 twelfths.
pub fn sum_inside(a: [i32; 3], b: [i32; 3], d: [u32; 3]) -> [i32; 3]
    requires positive { (i : ℕ) → i < 3 → 0 < multiplier d i }
    requires few { (i : ℕ) → i < 3 → multiplier d i ≤ 12 }
    requires left { IsShiftWithin 144 a }
    requires right { IsShiftWithin 144 b }
    ensures { result ≡ shift_of (reduced_vector d (vector_sum whole (vector_of a) (vector_of b))) }
{
    [
        sum_along(a[0], b[0], d[0]),
        sum_along(a[1], b[1], d[1]),
        sum_along(a[2], b[2], d[2]),
    ]
}

/// What any translation has more than another, reduced into the supercell. Condition: the
/// multipliers are from 1 to 12, the other translation from -144 to 144 twelfths.
pub fn rest_inside(a: [i32; 3], b: [i32; 3], d: [u32; 3]) -> [i32; 3]
    requires positive { (i : ℕ) → i < 3 → 0 < multiplier d i }
    requires few { (i : ℕ) → i < 3 → multiplier d i ≤ 12 }
    requires other { IsShiftWithin 144 b }
    ensures { result ≡ shift_of (reduced_vector d (vector_difference (vector_of a) (vector_of b))) }
{
    [
        rest_along(a[0], b[0], d[0]),
        rest_along(a[1], b[1], d[1]),
        rest_along(a[2], b[2], d[2]),
    ]
}
