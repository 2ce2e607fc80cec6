// Whether rotations keep a lattice.
ghost use Rattle.std.specs.Prelude.{◌≡◌, ℕ, ◌<◌, ◌↔◌, IsTrue, true, false, length, slice_index_or, []};
ghost use Rattle.algebra.specs.Whole.{whole};
ghost use Rattle.space_ops.specs.Matrix.{image_under};
ghost use Rattle.space_ops.specs.Op.{matrix_of, vector_of, IsSmallMatrix, IsShiftWithin};
ghost use Rattle.space_ops.specs.Words.{op_at, IsLatticeVector};
ghost use Rattle.space_ops.specs.Closing.{KeepsLattice, LosesLattice};

use crate::find::is_same_shift;
use crate::lattice::Lattice;
use crate::least_shift::least_shift;
use crate::op::Op;
use crate::rotation::moved;

/// Whether the image of a vector is a lattice vector.
fn is_kept(rot: [[i8; 3]; 3], vector: [i32; 3], lattice: Lattice) -> bool
    requires small { IsSmallMatrix (matrix_of rot) }
    requires near { IsShiftWithin 12 vector }
    ensures yes { IsTrue result → IsLatticeVector lattice (image_under whole (matrix_of rot) (vector_of vector)) }
    ensures no { result ≡ false → IsLatticeVector lattice (image_under whole (matrix_of rot) (vector_of vector)) → ⊥ }
{
    is_same_shift(least_shift(moved(rot, vector), lattice), [0, 0, 0])
}

fn are_kept(rot: [[i8; 3]; 3], vectors: &[[i32; 3]], lattice: Lattice) -> bool
    requires small { IsSmallMatrix (matrix_of rot) }
    requires near { (i : ℕ) → i < length vectors.now → IsShiftWithin 12 (slice_index_or vectors.now i []) }
    ensures yes { result ≡ true → (i : ℕ) → i < length vectors.now → IsLatticeVector lattice (image_under whole (matrix_of rot) (vector_of (slice_index_or vectors.now i []))) }
    ensures no { result ≡ false → (i : ℕ) × (i < length vectors.now) × (IsLatticeVector lattice (image_under whole (matrix_of rot) (vector_of (slice_index_or vectors.now i []))) → ⊥) }
{
    for vector in vectors {
        if !is_kept(rot, *vector, lattice) {
            return false;
        }
    }
    true
}

fn keeps_lattice(rot: [[i8; 3]; 3], lattice: Lattice) -> bool
    requires { IsSmallMatrix (matrix_of rot) }
    ensures yes { result ≡ true → KeepsLattice lattice (matrix_of rot) }
    ensures no { result ≡ false → LosesLattice lattice (matrix_of rot) }
{
    are_kept(rot, lattice.centrings().as_slice(), lattice)
}

/// Whether each operation takes each lattice vector to a lattice vector.
pub fn all_keep_lattice(ops: &[Op], lattice: Lattice) -> bool
    requires { (i : ℕ) → i < length ops.now → IsSmallMatrix (op_at ops.now i).rot }
    ensures yes { result ≡ true → (i : ℕ) → i < length ops.now → KeepsLattice lattice (op_at ops.now i).rot }
    ensures no { result ≡ false → (i : ℕ) × (i < length ops.now) × LosesLattice lattice (op_at ops.now i).rot }
{
    for op in ops {
        if !keeps_lattice(op.rot, lattice) {
            return false;
        }
    }
    true
}
