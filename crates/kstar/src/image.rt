// Images of a row.
ghost use Rattle.std.specs.Prelude.{◌≡◌, ℕ, ◌<◌, IfOk, length, slice_index_or, [], ◌∷◌};
ghost use Rattle.space_ops.specs.Op.{IsWithin, IsShiftWithin, IsSmallMatrix, matrix_of, vector_of, shift_of, number_at, row_at};
ghost use Rattle.algebra.specs.Whole.{whole};
ghost use Rattle.space_ops.specs.Seitz.{inverse_matrix};
ghost use Rattle.space_ops.specs.Words.{op_at};
ghost use Rattle.space_ops.specs.Group.{IsParentGroup};
ghost use Rattle.kstar.specs.WaveVector.{row_product, image_of};
ghost use Rattle.kstar.specs.Rows.{AreAllImages, AreNear};

use crate::product::short_value;
use crate::rows::add;
use iso_text::NoMemory;
use space_ops::Group;
use std::alloc::Global;

/// Column j of a rotation.
fn column(rot: [[i8; 3]; 3], j: usize) -> [i32; 3]
    requires { j < 3 }
    ensures { result ≡ number_at (row_at rot 0) j ∷ number_at (row_at rot 1) j ∷ number_at (row_at rot 2) j ∷ [] }
{
    [
        i32::from(rot[0][j]),
        i32::from(rot[1][j]),
        i32::from(rot[2][j]),
    ]
}

/// A row times a rotation.
fn times(row: [i32; 3], rot: [[i8; 3]; 3]) -> [i32; 3]
    requires row { IsShiftWithin 288 row }
    requires rotation { IsSmallMatrix (matrix_of rot) }
    ensures value { result ≡ shift_of (row_product (vector_of row) (matrix_of rot)) }
    ensures within { IsShiftWithin 10368 result }
{
    [
        short_value(row, column(rot, 0)),
        short_value(row, column(rot, 1)),
        short_value(row, column(rot, 2)),
    ]
}

/// R^-1 for operation i of the group.
fn inverse_rotation(group: &Group, i: usize) -> [[i8; 3]; 3]
    requires group { IsParentGroup group.now }
    requires place { i < length group.now.ops }
    ensures value { matrix_of result ≡ inverse_matrix whole (op_at group.now.ops i).rot }
    ensures small { IsSmallMatrix (matrix_of result) }
{
    group.op(i).inverse().rot
}

/// The image k R^-1 under operation i of the group.
fn image(group: &Group, row: [i32; 3], i: usize) -> [i32; 3]
    requires row { IsShiftWithin 288 row }
    requires group { IsParentGroup group.now }
    requires place { i < length group.now.ops }
    ensures value { vector_of result ≡ image_of (vector_of row) (op_at group.now.ops i).rot }
    ensures within { IsShiftWithin 10368 result }
{
    times(row, inverse_rotation(group, i))
}

/// The images of a row under the operations of the group.
pub fn images(alloc: Global, group: &Group, row: [i32; 3]) -> Result<Vec<[i32; 3]>, NoMemory>
    requires { IsShiftWithin 288 row }
    ensures value { IfOk result (λ images. AreAllImages group.now (vector_of row) (length group.now.ops) images.items) }
    ensures within { IfOk result (λ images. AreNear images.items) }
    ensures group { IsParentGroup group.now }
{
    let mut images: Vec<[i32; 3]> = Vec::new(alloc);
    for i in 0..group.len() {
        add(&mut images, image(group, row, i))?;
    }
    Ok(images)
}
