// What each atom of an orbit has.
ghost use Rattle.std.specs.Prelude.{◌≡◌};
ghost use Rattle.space_ops.specs.Op.{IsSmallRotation, IsUnimodular, matrix_of};
ghost use Rattle.mode_project.specs.AtomSpace.{Quantity, IsQuantity, polar_vector};
ghost use Rattle.mode_project.specs.QuantityLaws.{polar-lawful};

use space_ops::Op;

/// Some numbers that each atom has, which a rotation turns by a matrix: one, which it leaves as it is,
/// or the three of a vector. Laws: at most three numbers, the unit matrix for no rotation, and the
/// product of two matrices for the product of two rotations.
pub trait AtomQuantity {
    /// How many numbers, and the matrices.
    ghost quantity: { Self → Quantity };

    /// How many numbers an atom has.
    fn each(&self) -> usize
        ensures { result ≡ (quantity self.now).each };

    /// The matrix for an operation, row by row. Of it the first rows and columns count, as many as an
    /// atom has numbers. Condition: entries from -3 to 3, determinant 1 or -1.
    fn matrix(&self, op: Op) -> [[i8; 3]; 3]
        requires small { IsSmallRotation op.rot }
        requires unimodular { IsUnimodular (matrix_of op.rot) }
        ensures { matrix_of result ≡ (quantity self.now).matrix (matrix_of op.rot) };

    /// The laws.
    ghost lawful: { (x : Self) → IsQuantity (quantity x) };
}

// A displacement along the cell edges, which a rotation turns by itself.
#[derive(Clone, Copy)]
pub(crate) struct PolarVector;

impl AtomQuantity for PolarVector {
    ghost quantity = { λ _. polar_vector };

    ghost lawful = { λ _. polar-lawful };

    fn each(&self) -> usize {
        3
    }

    fn matrix(&self, op: Op) -> [[i8; 3]; 3] {
        op.rot
    }
}
