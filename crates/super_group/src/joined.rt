// Which axes the rotations of a group join.
ghost use Rattle.std.specs.Prelude.{◌≡◌, ℕ, ◌<◌, true, false, slice_index_or};
ghost use Rattle.space_ops.specs.Op.{matrix_of};
ghost use Rattle.super_group.specs.Supercell.{IsLinked};
ghost use Rattle.super_group.specs.FirstAxes.{AreZero, AreFirstAxes, least_joined_y, least_joined_z};

use space_ops::Group;

// Whether entry (i, j) or (j, i) is nonzero.
fn has_link(rot: [[i8; 3]; 3], i: usize, j: usize) -> bool
    requires first { i < 3 }
    requires second { j < 3 }
    ensures yes { result ≡ true → AreZero (matrix_of rot) i j → ⊥ }
    ensures no { result ≡ false → AreZero (matrix_of rot) i j }
{
    rot[i][j] != 0 || rot[j][i] != 0
}

fn are_linked(group: &Group, i: usize, j: usize) -> bool
    requires first { i < 3 }
    requires second { j < 3 }
    ensures yes { result ≡ true → IsLinked group.now.ops i j }
    ensures no { result ≡ false → IsLinked group.now.ops i j → ⊥ }
{
    for r in 0..group.len() {
        if has_link(group.op(r).rot, i, j) {
            return true;
        }
    }
    false
}

// The first axis joined with y, where x and y, y and z, x and z are linked or not.
fn first_of_y(xy: bool, yz: bool, xz: bool) -> usize
    ensures { result ≡ least_joined_y xy yz xz }
{
    if xy || (yz && xz) { 0 } else { 1 }
}

// The same of z.
fn first_of_z(xy: bool, yz: bool, xz: bool) -> usize
    ensures { result ≡ least_joined_z xy yz xz }
{
    if xz || (xy && yz) {
        0
    } else if yz {
        1
    } else {
        2
    }
}

/// For each axis the first axis that it is joined with: a chain of links among three axes shortens to
/// at most two.
pub fn first_axes(group: &Group) -> [usize; 3]
    ensures { AreFirstAxes group.now.ops result }
{
    let xy = are_linked(group, 0, 1);
    let yz = are_linked(group, 1, 2);
    let xz = are_linked(group, 0, 2);
    [0, first_of_y(xy, yz, xz), first_of_z(xy, yz, xz)]
}
