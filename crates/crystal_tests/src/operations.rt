// Products, inverses and printed texts of operations.
use iso_text::NoMemory;
use space_ops::Op;
use std::alloc::Global;
use std::test::Fail;

// Operations, some with translations outside the cell or rotations that no group has, and their texts.
const PRINTED: [(Op, &str); 7] = [
    (
        Op {
            rot: [[0, -1, 0], [1, -1, 0], [0, 0, 1]],
            shift: [0, 0, 4],
        },
        "-y,x-y,z+1/3",
    ),
    (
        Op {
            rot: [[-1, 1, 0], [-1, 0, 0], [0, 0, 1]],
            shift: [0, 0, 8],
        },
        "-x+y,-x,z+2/3",
    ),
    (
        Op {
            rot: [[-1, 0, 0], [0, -1, 0], [0, 0, 1]],
            shift: [12, 0, 0],
        },
        "-x+1,-y,z",
    ),
    (
        Op {
            rot: [[-1, 0, 0], [0, -1, 0], [0, 0, -1]],
            shift: [-3, 18, 1],
        },
        "-x-1/4,-y+3/2,-z+1/12",
    ),
    (
        Op {
            rot: [[2, 0, -3], [0, 0, 0], [0, 0, 0]],
            shift: [0, 0, 6],
        },
        "2x-3z,0,+1/2",
    ),
    (
        Op {
            rot: [[2, -1, -3], [0, -2, 3], [0, 0, -1]],
            shift: [-3, 27, -12],
        },
        "2x-y-3z-1/4,-2y+3z+9/4,-z-1",
    ),
    (
        Op {
            rot: [[0, 0, 0], [0, 0, 0], [0, 0, 0]],
            shift: [0, 6, -6],
        },
        "0,+1/2,-1/2",
    ),
];

fn has_text(alloc: Global, op: Op, want: &str) -> Result<bool, NoMemory> {
    let text = op.print(alloc)?;
    Ok(text.as_slice() == want.as_bytes())
}

#[test]
fn printed_texts(rt: HostRuntime) -> Result<(), Fail> {
    for (op, want) in PRINTED {
        assert!(rt; has_text(rt.alloc(), op, want)?, "{want}");
    }
    Ok(())
}

#[test]
fn products_and_inverses(rt: HostRuntime) {
    let screw = Op {
        rot: [[0, -1, 0], [1, 0, 0], [0, 0, 1]],
        shift: [6, 0, 3],
    };
    let square = Op {
        rot: [[-1, 0, 0], [0, -1, 0], [0, 0, 1]],
        shift: [6, 6, 6],
    };
    let back = Op {
        rot: [[0, 1, 0], [-1, 0, 0], [0, 0, 1]],
        shift: [0, 6, -3],
    };
    assert!(rt; screw.compose(screw) == square);
    assert!(rt; screw.inverse() == back);
}
