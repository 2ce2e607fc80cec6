// What an atom has, by its nature.
ghost use Rattle.std.specs.Prelude.{◌≡◌, ◌*ℤ◌, ◌∷◌, []};
ghost use Rattle.algebra.specs.Whole.{whole};
ghost use Rattle.space_ops.specs.Matrix.{determinant};
ghost use Rattle.space_ops.specs.Op.{IsWithin, IsShiftWithin, IsSmallRotation, IsUnimodular, matrix_of, number_at};
ghost use Rattle.extra_modes.specs.ExtraSpace.{axial_vector, quantity_of};
ghost use Rattle.extra_modes.specs.ExtraSpaceLaws.{quantity-lawful};

use crate::Nature;
use mode_project::AtomQuantity;
use space_ops::Op;

// The matrix of which one entry counts.
const UNIT: [[i8; 3]; 3] = [[1, 0, 0], [0, 1, 0], [0, 0, 1]];

// The determinant of the rotation, 1 or -1.
fn sign_of(op: Op) -> i8
    requires small { IsSmallRotation op.rot }
    requires unimodular { IsUnimodular (matrix_of op.rot) }
    ensures value { result ≡ determinant whole (matrix_of op.rot) }
    ensures within { IsWithin 1 result }
{
    if op.det() < 0 { -1 } else { 1 }
}

// The sign times x.
fn times(sign: i8, x: i8) -> i8
    requires sign { IsWithin 1 sign }
    requires small { IsWithin 3 x }
    ensures { result ≡ sign *ℤ x }
{
    sign * x
}

// The sign times a row.
fn row_times(sign: i8, row: [i8; 3]) -> [i8; 3]
    requires sign { IsWithin 1 sign }
    requires small { IsShiftWithin 3 row }
    ensures { result ≡ (sign *ℤ number_at row 0) ∷ (sign *ℤ number_at row 1) ∷ (sign *ℤ number_at row 2) ∷ [] }
{
    [
        times(sign, row[0]),
        times(sign, row[1]),
        times(sign, row[2]),
    ]
}

// det(R) R.
fn axial_matrix(op: Op) -> [[i8; 3]; 3]
    requires small { IsSmallRotation op.rot }
    requires unimodular { IsUnimodular (matrix_of op.rot) }
    ensures { matrix_of result ≡ axial_vector.matrix (matrix_of op.rot) }
{
    let sign = sign_of(op);
    [
        row_times(sign, op.rot[0]),
        row_times(sign, op.rot[1]),
        row_times(sign, op.rot[2]),
    ]
}

impl AtomQuantity for Nature {
    ghost quantity = { quantity_of };

    ghost lawful = { quantity-lawful };

    fn each(&self) -> usize {
        match self {
            Nature::Occupation => 1,
            Nature::Axial => 3,
        }
    }

    fn matrix(&self, op: Op) -> [[i8; 3]; 3] {
        match self {
            Nature::Occupation => UNIT,
            Nature::Axial => axial_matrix(op),
        }
    }
}
