// Groups of operations: the diamond group, and the members of a group with a screw axis.
use iso_text::NoMemory;
use space_ops::{Group, Lattice, Op};
use std::alloc::Global;
use std::process::Abort;
use std::test::Fail;

const TWO_X: [[i8; 3]; 3] = [[1, 0, 0], [0, -1, 0], [0, 0, -1]];

const TWO_Z: [[i8; 3]; 3] = [[-1, 0, 0], [0, -1, 0], [0, 0, 1]];

const FOUR_Z: [[i8; 3]; 3] = [[0, -1, 0], [1, 0, 0], [0, 0, 1]];

const SIX_Z: [[i8; 3]; 3] = [[1, -1, 0], [1, 0, 0], [0, 0, 1]];

// The generators of the diamond group.
const DIAMOND: [Op; 4] = [
    Op {
        rot: [[-1, 0, 0], [0, -1, 0], [0, 0, -1]],
        shift: [0, 0, 0],
    },
    Op {
        rot: FOUR_Z,
        shift: [0, 3, 3],
    },
    Op {
        rot: TWO_X,
        shift: [0, 3, 3],
    },
    Op {
        rot: [[0, 0, 1], [1, 0, 0], [0, 1, 0]],
        shift: [0, 0, 0],
    },
];

/// The group of operations that have one.
pub fn group_of(rt: &impl Abort, alloc: Global, generators: &[Op], lattice: Lattice) -> Group {
    assert!(rt; Group::can_close(generators));
    Group::close(alloc, generators, lattice).expect(rt, "a group")
}

// Whether the group lists this operation with its rotation.
fn lists(alloc: Global, group: &Group, rot: [[i8; 3]; 3], text: &str) -> Result<bool, NoMemory> {
    match group.index_of(rot) {
        Some(i) => Ok(group.op(i).print(alloc)?.as_slice() == text.as_bytes()),
        None => Ok(text.is_empty()),
    }
}

fn is_diamond(group: &Group) -> bool {
    group.len() == 48 && group.lattice() == Lattice::F && group.generators() == DIAMOND.as_slice()
}

fn last(group: &Group) -> Option<Op> {
    if group.len() == 48 {
        Some(group.op(47))
    } else {
        None
    }
}

fn end_alike(one: &Group, other: &Group) -> bool {
    last(one).is_some() && last(one) == last(other)
}

#[test]
fn the_diamond_group(rt: HostRuntime) -> Result<(), Fail> {
    let group = group_of(&rt, rt.alloc(), &DIAMOND, Lattice::F);
    assert!(rt; is_diamond(&group));
    assert!(rt; lists(rt.alloc(), &group, SIX_Z, "")?);
    assert!(rt; lists(rt.alloc(), &group, FOUR_Z, "-y,x+1/4,z+1/4")?);
    let copy = group.copy(rt.alloc())?;
    assert!(rt; end_alike(&group, &copy));
    Ok(())
}

// Operations and whether they are members of the group of a fourfold screw axis with lattice I.
const MEMBERS: [(Op, bool); 5] = [
    (
        Op {
            rot: FOUR_Z,
            shift: [6, -6, 21],
        },
        true,
    ),
    (
        Op {
            rot: TWO_Z,
            shift: [0, 24, -6],
        },
        true,
    ),
    (
        Op {
            rot: TWO_Z,
            shift: [0, 0, 0],
        },
        false,
    ),
    (
        Op {
            rot: FOUR_Z,
            shift: [i32::MAX, 0, 3],
        },
        false,
    ),
    (
        Op {
            rot: TWO_X,
            shift: [0, 0, 0],
        },
        false,
    ),
];

fn has_members(group: &Group) -> bool {
    MEMBERS
        .iter()
        .all(|(op, want)| group.contains(*op) == *want)
}

#[test]
fn members(rt: HostRuntime) {
    let screw = Op {
        rot: FOUR_Z,
        shift: [0, 0, 3],
    };
    let group = group_of(&rt, rt.alloc(), &[screw], Lattice::I);
    assert!(rt; has_members(&group));
}
