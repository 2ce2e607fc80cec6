// Symmetry operations in Seitz notation.
ghost use Rattle.std.specs.Prelude.{◌≡◌, ℕ, ◌+◌, ◌*◌};
ghost use Rattle.algebra.specs.Whole.{whole};
ghost use Rattle.space_ops.specs.declared.lattice.Lattice.{Lattice};
ghost use Rattle.space_ops.specs.Matrix.{determinant};
ghost use Rattle.space_ops.specs.Op.{IsSmallRotation, IsRotationWithin, IsShiftWithin, IsUnimodular, matrix_of, vector_of, shift_of, seitz_of, product_of, inverse_of, identity_op};
ghost use Rattle.space_ops.specs.Words.{IsSameUpToLattice};
ghost use Rattle.space_ops.specs.LeastShift.{IsInCell, reduced_vector};

use crate::least_shift::reduced_shift;
use crate::rotation::{determinant_of, inverse_rotation, moved, rotation_product};
use crate::shift::{negative_shift, shift_sum};
use iso_text::OpText;

/// The units of a translation: twelfths of a cell edge.
pub const TWELFTHS: i32 = 12;

/// A symmetry operation {R|t}, `x' = R x + t`: the rows of R, and t in twelfths of a cell edge.
#[derive(Clone, Copy, Debug, Default, PartialEq, Eq, PartialOrd, Ord)]
pub struct Op {
    pub rot: [[i8; 3]; 3],
    pub shift: [i32; 3],
}

impl Op {
    /// The operation that a file's words give: the same rows and twelfths.
    pub fn from_text(text: &OpText) -> Op
        ensures { result ≡ record { rot = text.now.rows; shift = text.now.shift } }
    {
        Op {
            rot: text.rows,
            shift: text.shift,
        }
    }

    /// The product {R|t}{S|s} = {RS | t + R s}, its translation not reduced. Condition: entries from
    /// -3 to 3, translations at most 1,000,000 in absolute value. A product of operations of one group
    /// has small entries again, so that products chain while the translations stay in bounds.
    pub fn compose(self, other: Op) -> Op
        requires left { IsSmallRotation self.rot }
        requires left_shift { IsShiftWithin 1000000 self.shift }
        requires right { IsSmallRotation other.rot }
        requires right_shift { IsShiftWithin 1000000 other.shift }
        ensures product { result ≡ product_of self other }
        ensures entries { IsRotationWithin 27 result.rot }
        ensures near { (m n : ℕ) → IsShiftWithin m self.shift → IsShiftWithin n other.shift → IsShiftWithin (m + 9 * n) result.shift }
    {
        Op {
            rot: rotation_product(self.rot, other.rot),
            shift: shift_sum(self.shift, moved(self.rot, other.shift)),
        }
    }

    /// The inverse {R^-1 | -R^-1 t}. Condition: entries from -3 to 3, translations at most 1,000,000
    /// in absolute value, determinant 1 or -1.
    pub fn inverse(self) -> Op
        requires small { IsSmallRotation self.rot }
        requires shift { IsShiftWithin 1000000 self.shift }
        requires unimodular { IsUnimodular (matrix_of self.rot) }
        ensures inverse { result ≡ inverse_of self }
        ensures before { product_of result self ≡ identity_op }
        ensures after { product_of self result ≡ identity_op }
        ensures entries { IsRotationWithin 18 result.rot }
        ensures unimodular { IsUnimodular (matrix_of result.rot) }
        ensures near { (e n : ℕ) → IsRotationWithin e result.rot → IsShiftWithin n self.shift → IsShiftWithin (3 * (e * n)) result.shift }
    {
        let rot = inverse_rotation(self.rot);
        Op {
            rot,
            shift: negative_shift(moved(rot, self.shift)),
        }
    }

    /// The determinant of the rotation. Condition: entries from -3 to 3.
    pub fn det(self) -> i32
        requires { IsSmallRotation self.rot }
        ensures { result ≡ determinant whole (matrix_of self.rot) }
    {
        determinant_of(self.rot)
    }

    /// The operation with its translation modulo 1, from 0 to 11 twelfths along each axis, as
    /// `Group::close` wants it.
    pub fn reduced(self) -> Op
        ensures rot { result.rot ≡ self.rot }
        ensures shift { result.shift ≡ shift_of (reduced_vector (vector_of self.shift)) }
        ensures in_cell { IsInCell (vector_of result.shift) }
        ensures same { (lattice : Lattice) → IsSameUpToLattice lattice (seitz_of result) (seitz_of self) }
    {
        let rot = self.rot;
        let shift = reduced_shift(self.shift);
        Op { rot, shift }
    }
}
