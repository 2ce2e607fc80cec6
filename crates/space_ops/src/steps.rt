// The steps that a group is closed under: its generators and their inverses.
ghost use Rattle.std.specs.Prelude.{◌≡◌, ℕ, ◌<◌, ◌≤◌, ◌+◌, IfOk, IfErr, OnOk, length};
ghost use Rattle.algebra.specs.Whole.{whole};
ghost use Rattle.space_ops.specs.Seitz.{seitz_inverse};
ghost use Rattle.space_ops.specs.Op.{seitz_of, IsSmallMatrix, IsUnimodular};
ghost use Rattle.space_ops.specs.Words.{HasTooManyRotations};
ghost use Rattle.space_ops.specs.LeastShift.{IsInCell};
ghost use Rattle.space_ops.specs.Group.{AreGenerators};
ghost use Rattle.space_ops.specs.Closing.{AreStepOps, AddsSteps};

use crate::find::is_small;
use crate::group::GroupError;
use crate::lattice::Lattice;
use crate::least_shift::least_op;
use crate::op::Op;
use arrayvec::ArrayVec;

fn add_steps(
    steps: &mut ArrayVec<Op, 10>,
    generator: Op,
    lattice: Lattice,
) -> Result<(), GroupError>
    requires room { length steps.old.items + 2 ≤ 10 }
    requires small { IsSmallMatrix (seitz_of generator).rot }
    requires unimodular { IsUnimodular (seitz_of generator).rot }
    requires in_cell { IsInCell (seitz_of generator).shift }
    ensures ok { OnOk result (AddsSteps lattice (seitz_of generator) steps.old.items steps.new.items) }
    ensures err { IfErr result (λ error. (error ≡ GroupError.TooManyRotations) × (IsSmallMatrix (seitz_inverse whole (seitz_of generator)).rot → ⊥)) }
{
    let inverse = generator.inverse();
    if !is_small(inverse.rot) {
        return Err(GroupError::TooManyRotations);
    }
    steps.push(least_op(generator, lattice));
    steps.push(least_op(inverse, lattice));
    Ok(())
}

/// Each generator and its inverse, with their least translations.
pub fn steps_of(generators: &[Op], lattice: Lattice) -> Result<ArrayVec<Op, 10>, GroupError>
    requires { AreGenerators generators.now }
    ensures ok { IfOk result (λ steps. AreStepOps generators.now lattice (length generators.now) steps.items) }
    ensures err { IfErr result (λ error. (error ≡ GroupError.TooManyRotations) × HasTooManyRotations generators.now lattice) }
{
    let mut steps: ArrayVec<Op, 10> = ArrayVec::new();
    for generator in generators {
        match add_steps(&mut steps, *generator, lattice) {
            Ok(()) => {}
            Err(error) => return Err(error),
        }
    }
    Ok(steps)
}
