// Looking rotations up in a list of operations.
ghost use Rattle.std.specs.Prelude.{◌≡◌, ℕ, ◌<◌, ◌↔◌, IsTrue, MatchOption, length};
ghost use Rattle.space_ops.specs.Op.{number_at, matrix_of, vector_of, IsWithin, IsShiftWithin, IsSmallMatrix};
ghost use Rattle.space_ops.specs.Words.{op_at};

use crate::op::Op;

fn is_same_row(a: [i8; 3], b: [i8; 3]) -> bool
    ensures { IsTrue result ↔ (vector_of a ≡ vector_of b) }
{
    a[0] == b[0] && a[1] == b[1] && a[2] == b[2]
}

/// Whether two rotations are the same.
pub fn is_same_rotation(a: [[i8; 3]; 3], b: [[i8; 3]; 3]) -> bool
    ensures { IsTrue result ↔ (matrix_of a ≡ matrix_of b) }
{
    is_same_row(a[0], b[0]) && is_same_row(a[1], b[1]) && is_same_row(a[2], b[2])
}

/// Whether two translations are the same.
pub fn is_same_shift(a: [i32; 3], b: [i32; 3]) -> bool
    ensures { IsTrue result ↔ (vector_of a ≡ vector_of b) }
{
    a[0] == b[0] && a[1] == b[1] && a[2] == b[2]
}

fn is_small_entry(x: i8) -> bool
    ensures { IsTrue result ↔ IsWithin 3 x }
{
    -3 <= x && x <= 3
}

fn is_small_row(row: [i8; 3]) -> bool
    ensures { IsTrue result ↔ IsShiftWithin 3 row }
{
    is_small_entry(row[0]) && is_small_entry(row[1]) && is_small_entry(row[2])
}

/// Whether each entry is from -3 to 3.
pub fn is_small(rot: [[i8; 3]; 3]) -> bool
    ensures { IsTrue result ↔ IsSmallMatrix (matrix_of rot) }
{
    is_small_row(rot[0]) && is_small_row(rot[1]) && is_small_row(rot[2])
}

/// The place of the operation with this rotation.
pub fn place_of(ops: &[Op], rot: [[i8; 3]; 3]) -> Option<usize>
    ensures { MatchOption result ((j : ℕ) → j < length ops.now → (op_at ops.now j).rot ≡ matrix_of rot → ⊥)
        (λ i. (i < length ops.now) × ((op_at ops.now i).rot ≡ matrix_of rot)) }
{
    for (i, op) in ops.iter().enumerate() {
        if is_same_rotation(op.rot, rot) {
            return Some(i);
        }
    }
    None
}
