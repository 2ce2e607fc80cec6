// Whether two rows are equivalent, tested on the generators of the lattice.
ghost use Rattle.std.specs.Prelude.{◌≡◌, ℕ, ◌<◌, ◌+ℤ◌, pos, neg_ℤ, true, false, length, slice_index_or, []};
ghost use Rattle.std.specs.Int.{int_rem_euclid};
ghost use Rattle.space_ops.specs.Op.{IsWithin, IsShiftWithin, vector_of};
ghost use Rattle.space_ops.specs.Words.{vector_difference};
ghost use Rattle.algebra.specs.Multiples.{IsMultiple};
ghost use Rattle.kstar.specs.WaveVector.{row_value, IsWhole, AreEquivalent};
ghost use Rattle.kstar.specs.WaveVectorLaws.{IsDozens};

use crate::product::{difference, value};
use space_ops::Lattice;

fn gross_remainder(x: i64) -> i64
    ensures { result ≡ int_rem_euclid x (pos 144) }
{
    x.rem_euclid(144)
}

fn is_whole(x: i64) -> bool
    ensures yes { result ≡ true → IsMultiple 144 x }
    ensures no { result ≡ false → IsMultiple 144 x → ⊥ }
{
    gross_remainder(x) == 0
}

fn dozen_remainder(x: i32) -> i32
    ensures { result ≡ int_rem_euclid x (pos 12) }
{
    x.rem_euclid(12)
}

fn is_dozen(x: i32) -> bool
    ensures yes { result ≡ true → IsMultiple 12 x }
    ensures no { result ≡ false → IsMultiple 12 x → ⊥ }
{
    dozen_remainder(x) == 0
}

fn are_dozens(row: [i32; 3]) -> bool
    ensures yes { result ≡ true → IsDozens (vector_of row) }
    ensures no { result ≡ false → IsDozens (vector_of row) → ⊥ }
{
    is_dozen(row[0]) && is_dozen(row[1]) && is_dozen(row[2])
}

fn are_whole(row: [i32; 3], vectors: &[[i32; 3]]) -> bool
    requires { IsShiftWithin 24000 row }
    ensures yes { result ≡ true → (i : ℕ) → i < length vectors.now → IsMultiple 144 (row_value (vector_of row) (vector_of (slice_index_or vectors.now i []))) }
    ensures no { result ≡ false → (i : ℕ) × (i < length vectors.now) × (IsMultiple 144 (row_value (vector_of row) (vector_of (slice_index_or vectors.now i []))) → ⊥) }
{
    for vector in vectors {
        if !is_whole(value(row, *vector)) {
            return false;
        }
    }
    true
}

fn is_reciprocal(row: [i32; 3], lattice: Lattice) -> bool
    requires { IsShiftWithin 24000 row }
    ensures yes { result ≡ true → IsWhole lattice (vector_of row) }
    ensures no { result ≡ false → IsWhole lattice (vector_of row) → ⊥ }
{
    are_dozens(row) && are_whole(row, lattice.centrings().as_slice())
}

/// Whether the difference of two rows has a whole product with every lattice translation.
pub fn are_equivalent(a: [i32; 3], b: [i32; 3], lattice: Lattice) -> bool
    requires left { IsShiftWithin 12000 a }
    requires right { IsShiftWithin 12000 b }
    ensures yes { result ≡ true → AreEquivalent lattice (vector_of a) (vector_of b) }
    ensures no { result ≡ false → AreEquivalent lattice (vector_of a) (vector_of b) → ⊥ }
{
    is_reciprocal(difference(a, b), lattice)
}
