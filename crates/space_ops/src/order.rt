// The order of a group's operations.
ghost use Rattle.std.specs.Prelude.{◌≡◌, ◌<◌, length, OnOk, IfErr};
ghost use Rattle.space_ops.specs.Order.{IsSortedAfterFirst};

use crate::group::GroupError;
use crate::op::Op;

/// Puts the operations after the first in order of their rotations, row by row.
pub fn sort_after_first(ops: &mut Vec<Op>) -> Result<(), GroupError>
    requires { 0 < length ops.old.items }
    ensures ok { OnOk result (IsSortedAfterFirst ops.old.items ops.new.items) }
    ensures err { IfErr result (λ error. error ≡ GroupError.NoMemory) }
{
    let first = ops.remove(0);
    ops.sort_unstable();
    match ops.insert(0, first) {
        Ok(()) => Ok(()),
        Err(_) => Err(GroupError::NoMemory),
    }
}
