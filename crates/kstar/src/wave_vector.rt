// Wave vectors as rows of twelfths.
ghost use Rattle.std.specs.Prelude.{◌≡◌, ◌/◌, ◌<◌, pos, ◌*ℤ◌, true, false};
ghost use Rattle.space_ops.specs.Op.{IsWithin, shift_of, vector_of, IsShiftWithin};
ghost use Rattle.kstar.specs.Fraction.{IsTwelfths, twelfths_of, IsWaveVector, row_of, IsLowestRow};

use crate::fraction::lowest;
use iso_text::Frac;

/// A wave vector k, a row of three fractions on the dual basis of the conventional cell.
#[derive(Clone, Copy, Debug, PartialEq, Eq)]
pub struct KVector {
    pub parts: [Frac; 3],
}

fn is_twelfths(part: Frac) -> bool
    ensures yes { result ≡ true → IsTwelfths part }
    ensures no { result ≡ false → IsTwelfths part → ⊥ }
{
    part.den > 0 && 12 % part.den == 0 && -24 <= part.num && part.num <= 24
}

impl KVector {
    ghost use Rattle.std.specs.Prelude.{◌≡◌, true, false};
    ghost use Rattle.kstar.specs.Fraction.{IsWaveVector};

    /// Whether each part has a denominator that divides 12, and a numerator of at most 24 in
    /// absolute value.
    pub fn is_wave_vector(self) -> bool
        ensures yes { result ≡ true → IsWaveVector self }
        ensures no { result ≡ false → IsWaveVector self → ⊥ }
    {
        is_twelfths(self.parts[0]) && is_twelfths(self.parts[1]) && is_twelfths(self.parts[2])
    }
}

/// Twelfths in a unit fraction.
fn twelfths_in(den: u8) -> i32
    requires { 0 < den }
    ensures value { result ≡ pos (12 / den) }
    ensures within { IsWithin 12 result }
{
    i32::from(12 / den)
}

fn times(num: i32, twelfths: i32) -> i32
    requires num { IsWithin 24 num }
    requires twelfths { IsWithin 12 twelfths }
    ensures value { result ≡ num *ℤ twelfths }
    ensures within { IsWithin 288 result }
{
    num * twelfths
}

fn twelfths(part: Frac) -> i32
    requires { IsTwelfths part }
    ensures value { result ≡ twelfths_of part }
    ensures within { IsWithin 288 result }
{
    times(part.num, twelfths_in(part.den))
}

/// The row 12 k.
pub fn row(k: KVector) -> [i32; 3]
    requires { IsWaveVector k }
    ensures value { result ≡ shift_of (row_of k) }
    ensures within { IsShiftWithin 288 result }
{
    [
        twelfths(k.parts[0]),
        twelfths(k.parts[1]),
        twelfths(k.parts[2]),
    ]
}

/// The wave vector of a row of twelfths, in lowest terms.
pub fn wave_vector(row: [i32; 3]) -> KVector
    requires { IsShiftWithin 10368 row }
    ensures { IsLowestRow (vector_of row) result }
{
    KVector {
        parts: [lowest(row[0], 12), lowest(row[1], 12), lowest(row[2], 12)],
    }
}
