// The motions that generate a quotient.
ghost use Rattle.std.specs.Prelude.{◌≡◌, ◌≤◌, ◌+◌, ◌++◌, map, length};
ghost use Rattle.super_group.specs.QuotientParts.{translation_op, motion_ops};

use arrayvec::ArrayVec;
use space_ops::{Group, Op};

const UNIT: [[i8; 3]; 3] = [[1, 0, 0], [0, 1, 0], [0, 0, 1]];

fn push_translations(motions: &mut ArrayVec<Op, 11>, vectors: &[[i32; 3]])
    requires { length motions.old.items + length vectors.now ≤ 11 }
    ensures { motions.new.items ≡ motions.old.items ++ map translation_op vectors.now }
{
    for vector in vectors {
        motions.push(Op {
            rot: UNIT,
            shift: *vector,
        });
    }
}

/// The motions that generate a quotient: the generators of the symbol, the centrings other than zero,
/// the three unit translations.
pub fn motions_in(group: &Group) -> ArrayVec<Op, 11>
    requires { length group.now.generators ≤ 5 }
    ensures { result.items ≡ motion_ops group.now }
{
    let mut motions: ArrayVec<Op, 11> = ArrayVec::new();
    for generator in group.generators() {
        motions.push(*generator);
    }
    push_translations(&mut motions, &group.lattice().centrings().as_slice()[1..]);
    push_translations(&mut motions, &[[12, 0, 0], [0, 12, 0], [0, 0, 12]]);
    motions
}
