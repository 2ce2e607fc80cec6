// Which operations may generate a group.
ghost use Rattle.std.specs.Prelude.{◌≡◌, ℕ, ◌<◌, ◌↔◌, IsTrue, false, length};
ghost use Rattle.space_ops.specs.Op.{number_at, seitz_of, matrix_of, vector_of, IsSmallMatrix, IsUnimodular};
ghost use Rattle.space_ops.specs.Words.{op_at};
ghost use Rattle.space_ops.specs.LeastShift.{IsTwelfth, IsInCell};
ghost use Rattle.space_ops.specs.Group.{IsGeneratorOp};

use crate::find::is_small;
use crate::op::{Op, TWELFTHS};
use crate::rotation::determinant_of;

fn is_twelfth(t: i32) -> bool
    ensures { IsTrue result ↔ IsTwelfth t }
{
    0 <= t && t < TWELFTHS
}

fn is_in_cell(shift: [i32; 3]) -> bool
    ensures { IsTrue result ↔ IsInCell (vector_of shift) }
{
    is_twelfth(shift[0]) && is_twelfth(shift[1]) && is_twelfth(shift[2])
}

fn is_unimodular(rot: [[i8; 3]; 3]) -> bool
    requires { IsSmallMatrix (matrix_of rot) }
    ensures { IsTrue result ↔ IsUnimodular (matrix_of rot) }
{
    determinant_of(rot).unsigned_abs() == 1
}

fn is_generator(op: Op) -> bool
    ensures { IsTrue result ↔ IsGeneratorOp (seitz_of op) }
{
    is_small(op.rot) && is_unimodular(op.rot) && is_in_cell(op.shift)
}

/// Whether each has entries from -3 to 3, determinant 1 or -1, and translations from 0 to 11.
pub fn are_generators(generators: &[Op]) -> bool
    ensures yes { IsTrue result → (i : ℕ) → i < length generators.now → IsGeneratorOp (op_at generators.now i) }
    ensures no { result ≡ false → (i : ℕ) × (i < length generators.now) × (IsGeneratorOp (op_at generators.now i) → ⊥) }
{
    for op in generators {
        if !is_generator(*op) {
            return false;
        }
    }
    true
}
