// Phases of translations.
ghost use Rattle.std.specs.Prelude.{◌≡◌, ℕ, ◌<◌, ◌/◌, pos, neg_ℤ, true, false, length, slice_index_or, [], MatchOption};
ghost use Rattle.std.specs.Int.{int_rem_euclid};
ghost use Rattle.space_ops.specs.Op.{IsWithin, IsShiftWithin, vector_of};
ghost use Rattle.algebra.specs.Multiples.{IsMultiple};
ghost use Rattle.kstar.specs.WaveVector.{row_value, HasPhase, HasPhases, turn_of, phase_of};
ghost use Rattle.kstar.specs.Star.{IsFirstBad, IsFirstBadPhase, row_in};

use crate::fraction::lowest;
use crate::product::{short_value, value};
use iso_text::Frac;
use space_ops::Lattice;

fn turn(x: i64) -> u8
    requires { IsWithin 154618822656000 x }
    ensures { result ≡ turn_of x }
{
    let part = (-x).rem_euclid(144);
    (part.unsigned_abs() / 6) as u8
}

/// The power of z = exp(2 pi i / 24) that is exp(-2 pi i k.t).
pub fn phase(row: [i32; 3], t: [i32; 3]) -> u8
    requires { IsShiftWithin 24000 row }
    ensures { result ≡ phase_of (vector_of row) (vector_of t) }
{
    turn(value(row, t))
}

fn six_remainder(x: i32) -> i32
    ensures { result ≡ int_rem_euclid x (pos 6) }
{
    x.rem_euclid(6)
}

fn is_phase(x: i32) -> bool
    ensures yes { result ≡ true → IsMultiple 6 x }
    ensures no { result ≡ false → IsMultiple 6 x → ⊥ }
{
    six_remainder(x) == 0
}

fn first_bad(row: [i32; 3], vectors: &[[i32; 3]]) -> Option<Frac>
    requires row { IsShiftWithin 288 row }
    requires vectors { (i : ℕ) → i < length vectors.now → IsShiftWithin 12 (slice_index_or vectors.now i []) }
    ensures { MatchOption result ((i : ℕ) → i < length vectors.now → HasPhase (vector_of row) (row_in vectors.now i)) (λ f. IsFirstBad vectors.now (vector_of row) f) }
{
    for vector in vectors {
        let x = short_value(row, *vector);
        if !is_phase(x) {
            return Some(lowest(x, 144));
        }
    }
    None
}

/// The first k.c that is no multiple of 1/24, over the centring vectors c.
pub fn bad_phase(row: [i32; 3], lattice: Lattice) -> Option<Frac>
    requires { IsShiftWithin 288 row }
    ensures { MatchOption result (HasPhases lattice (vector_of row)) (λ f. IsFirstBadPhase lattice (vector_of row) f) }
{
    first_bad(row, lattice.centrings().as_slice())
}
