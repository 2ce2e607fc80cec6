// One `mat` line: the rotation that it belongs to, and its matrix carried to the listed operation.
ghost use Rattle.std.specs.Prelude.{◌≡◌, ◌<◌, ◌≤◌, ◌+◌, ◌*◌, ℕ, Err, IfOk, MatchOption, IsTrue, length, slice_index_or, []};
ghost use Rattle.std.specs.List.{All};
ghost use Rattle.algebra.specs.Whole.{whole};
ghost use Rattle.iso_text.specs.WordRanges.{IsNumber};
ghost use Rattle.cyclo24.specs.ExactZ24.{z24_laws, power, is_wide_product_z24};
ghost use Rattle.cyclo24.specs.Terms.{terms_value};
ghost use Rattle.cyclo24.specs.Z24.{exact_z24};
ghost use Rattle.lin_alg.specs.Matrix.{entry};
ghost use Rattle.lin_alg.specs.declared.errors.LinError.TheVariants as lin_error;
ghost use Rattle.space_ops.specs.Matrix.{minus_vector};
ghost use Rattle.space_ops.specs.Op.{seitz_of, IsShiftWithin};
ghost use Rattle.space_ops.specs.Group.{IsParentGroup};
ghost use Rattle.space_ops.specs.Member.{IsMemberOf, rotation_of, rest_of};
ghost use Rattle.kstar.specs.WaveVector.{phase_of};
ghost use Rattle.small_rep.specs.SmallRep.{IsLittleOp};

use crate::products::times;
use crate::shift::shift_difference;
use cyclo24::Z24;
use iso_text::NumText;
use kstar::Star;
use lin_alg::{LinError, Matrix};
use space_ops::{Group, Op};
use std::alloc::Global;

/// The number of the rotation of an operation that belongs to the little group.
pub fn little_rotation(group: &Group, star: &Star, op: Op) -> Option<usize>
    ensures rotation { MatchOption result (IsLittleOp group.now star.now (seitz_of op) → ⊥) (λ r. IsLittleOp group.now star.now (seitz_of op) × (r ≡ rotation_of group.now (seitz_of op)) × (r < length group.now.ops)) }
    ensures group { IsParentGroup group.now }
{
    match group.index_of(op.rot) {
        None => None,
        Some(rotation) => {
            if !group.contains(op) {
                return None;
            }
            if star.little().contains(&rotation) {
                Some(rotation)
            } else {
                None
            }
        }
    }
}

/// exp(2 pi i k.n), for an operation {E|n} after listed operation `rotation`.
pub fn carrying_phase(group: &Group, star: &Star, op: Op, rotation: usize) -> Z24
    requires group { IsParentGroup group.now }
    requires lattice { star.now.lattice ≡ group.now.lattice }
    requires member { IsMemberOf group.now (seitz_of op) }
    requires rotation { rotation ≡ rotation_of group.now (seitz_of op) }
    requires near { IsShiftWithin 1440 op.shift }
    ensures { exact_z24 result ≡ power (phase_of star.now.row (minus_vector whole (rest_of group.now (seitz_of op)))) }
{
    let listed = group.op(rotation);
    let t = shift_difference(listed.shift, op.shift);
    Z24::root(star.power(t))
}

/// The matrix of the numbers, row by row, each times the factor.
pub fn scaled_matrix(
    alloc: Global,
    size: usize,
    numbers: &[NumText],
    factor: Z24,
) -> Result<Matrix<Z24>, LinError>
    requires some { 1 ≤ size }
    requires few { size ≤ 6 }
    requires count { length numbers.now ≡ size * size }
    requires numbers { All IsNumber numbers.now }
    ensures rows { IfOk result (λ m. m.rows ≡ size) }
    ensures cols { IfOk result (λ m. m.cols ≡ size) }
    ensures entries { IfOk result (λ m. (x y : ℕ) → x < size → y < size → entry z24_laws exact_z24 m x y ≡ z24_laws.times (exact_z24 factor) (terms_value (slice_index_or numbers.now (x * size + y) []))) }
    ensures wide { (result ≡ Err lin_error.Wide) → (e : ℕ) × (e < length numbers.now) × IsTrue (is_wide_product_z24 (exact_z24 factor) (terms_value (slice_index_or numbers.now e []))) }
{
    let mut matrix = Matrix::new(alloc, size, size)?;
    for e in 0..numbers.len() {
        let number = Z24::from_terms(numbers[e].as_slice());
        let entry = times(factor, number)?;
        matrix.set(e / size, e % size, entry);
    }
    Ok(matrix)
}
