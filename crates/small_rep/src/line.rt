// One `mat` line, after those before it.
ghost use Rattle.std.specs.Prelude.{◌≡◌, ◌<◌, ◌≤◌, ◌+◌, ◌*◌, ℕ, IfOk, IfErr, false, length, slice_index_or, []};
ghost use Rattle.cyclo24.specs.ExactZ24.{z24_laws};
ghost use Rattle.cyclo24.specs.Terms.{terms_value};
ghost use Rattle.cyclo24.specs.Z24.{exact_z24};
ghost use Rattle.lin_alg.specs.Matrix.{entry};
ghost use Rattle.space_ops.specs.Op.{seitz_of};
ghost use Rattle.space_ops.specs.Group.{IsParentGroup};
ghost use Rattle.space_ops.specs.Member.{rotation_of};
ghost use Rattle.iso_text.specs.Ranges.{IsMat};
ghost use Rattle.small_rep.specs.SmallRep.{IsLittleOp, carried, is_listed};
ghost use Rattle.small_rep.specs.Reading.{op_of_text};
ghost use Rattle.small_rep.specs.LinesRead.{IsLineCause};

use crate::RepError;
use crate::carry::{carrying_phase, little_rotation, scaled_matrix};
use cyclo24::Z24;
use iso_text::MatText;
use kstar::Star;
use lin_alg::Matrix;
use space_ops::{Group, Op};
use std::alloc::Global;

/// The number of the rotation of a line, which is of the little group and not one of those before.
fn new_rotation(
    group: &Group,
    star: &Star,
    mat: &MatText,
    rotations: &[usize],
) -> Result<usize, RepError>
    ensures little { IfOk result (λ r. IsLittleOp group.now star.now (seitz_of (op_of_text mat.now.op))) }
    ensures rotation { IfOk result (λ r. r ≡ rotation_of group.now (seitz_of (op_of_text mat.now.op))) }
    ensures apart { IfOk result (λ r. is_listed rotations.now r ≡ false) }
    ensures cause { IfErr result (λ e. IsLineCause group.now star.now mat.now rotations.now e) }
    ensures group { IsParentGroup group.now }
{
    match little_rotation(group, star, Op::from_text(&mat.op)) {
        Some(rotation) => {
            if rotations.contains(&rotation) {
                Err(RepError::RotationTwice(mat.line))
            } else {
                Ok(rotation)
            }
        }
        None => Err(RepError::NotLittle(mat.line)),
    }
}

/// The number of the rotation of a line, and its matrix, carried to the listed operation.
pub fn read_line(
    alloc: Global,
    group: &Group,
    star: &Star,
    size: usize,
    mat: &MatText,
    rotations: &[usize],
) -> Result<(usize, Matrix<Z24>), RepError>
    requires lattice { star.now.lattice ≡ group.now.lattice }
    requires some { 1 ≤ size }
    requires few { size ≤ 6 }
    requires text { IsMat size mat.now }
    ensures little { IfOk result (λ r. IsLittleOp group.now star.now (seitz_of (op_of_text mat.now.op))) }
    ensures rotation { IfOk result (λ r. r.0 ≡ rotation_of group.now (seitz_of (op_of_text mat.now.op))) }
    ensures apart { IfOk result (λ r. is_listed rotations.now r.0 ≡ false) }
    ensures rows { IfOk result (λ r. r.1.rows ≡ size) }
    ensures cols { IfOk result (λ r. r.1.cols ≡ size) }
    ensures entries { IfOk result (λ r. (x y : ℕ) → x < size → y < size → entry z24_laws exact_z24 r.1 x y ≡ carried group.now star.now (seitz_of (op_of_text mat.now.op)) (terms_value (slice_index_or mat.now.entries (x * size + y) []))) }
    ensures cause { IfErr result (λ e. IsLineCause group.now star.now mat.now rotations.now e) }
{
    let rotation = new_rotation(group, star, mat, rotations)?;
    let factor = carrying_phase(group, star, Op::from_text(&mat.op), rotation);
    let matrix = scaled_matrix(alloc, size, mat.entries.as_slice(), factor)?;
    Ok((rotation, matrix))
}
