// Supercells over axes that no Hall symbol joins: by one entry, and by a chain.
use crate::groups::group_of;
use space_ops::{Group, Lattice, Op};
use super_group::{are_denominators, multipliers};

// The twofold rotation with an entry (0, 1) and none (1, 0).
const SHEARED_TWO_X: Op = Op {
    rot: [[1, 1, 0], [0, -1, 0], [0, 0, -1]],
    shift: [0, 0, 0],
};

// A mirror that links x and y, y and z, but not x and z.
const SHEARED_MIRROR: Op = Op {
    rot: [[1, 1, 0], [0, -1, 0], [0, 1, 1]],
    shift: [0, 0, 0],
};

fn is_cell(group: &Group, dens: [u8; 3], want: [u32; 3]) -> bool {
    let dens = [dens];
    are_denominators(&dens) && multipliers(group, &dens) == want
}

#[test]
fn joined_by_an_entry_on_one_side(rt: HostRuntime) {
    let group = group_of(&rt, rt.alloc(), &[SHEARED_TWO_X], Lattice::P);
    assert!(rt; is_cell(&group, [1, 2, 1], [2, 2, 1]));
}

#[test]
fn joined_by_a_chain(rt: HostRuntime) {
    let group = group_of(&rt, rt.alloc(), &[SHEARED_MIRROR], Lattice::P);
    assert!(rt; is_cell(&group, [1, 1, 2], [2, 2, 2]));
    assert!(rt; is_cell(&group, [3, 1, 2], [6, 6, 6]));
}
