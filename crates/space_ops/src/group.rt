// The parent group of a list of generators and a lattice.
ghost use Rattle.std.specs.Prelude.{◌≡◌, ℕ, ◌<◌, ◌≤◌, IfOk, IfErr, MatchOption, true, false, length, slice_index_or, ⊤};
ghost use Rattle.space_ops.specs.Op.{matrix_of, identity_op, vector_of};
ghost use Rattle.space_ops.specs.Words.{op_at, vector_difference, IsLatticeVector, HasTooManyRotations, HasExtraTranslation};
ghost use Rattle.space_ops.specs.LeastShift.{IsInCell};

use crate::closing::closed_ops;
use crate::find::place_of;
use crate::generators::are_generators;
use crate::lattice::Lattice;
use crate::least_shift::reduced_shift;
use crate::op::Op;
use crate::order::sort_after_first;
use crate::shift::{negative_shift, shift_sum};
use arrayvec::ArrayVec;
use iso_text::NoMemory;
use std::alloc::Global;
use std::marker::Model;
use thiserror::Error;

/// Why generators and a lattice are no group that can be listed.
#[derive(Clone, Copy, Debug, PartialEq, Eq, Error)]
pub enum GroupError {
    /// The words have more than 48 rotations, or one with an entry outside -3 to 3.
    #[error("too many rotations")]
    TooManyRotations,
    /// A word is a pure translation outside the lattice.
    #[error("extra translation")]
    ExtraTranslation,
    /// Want of memory.
    #[error("out of memory")]
    NoMemory,
}

/// The group of all words over at most five generators, their inverses and the translations of a
/// lattice, as the list of its operations: one for each rotation, the identity first, then the
/// others by rising entries, row by row; each with the least translation, from 0 to 11 twelfths,
/// that belongs to its rotation.
#[derive(Drop)]
pub struct Group {
    ops: Vec<Op>,
    lattice: Lattice,
    generators: ArrayVec<Op, 5>,
}

impl Model for Group {
    ghost use Rattle.space_ops.specs.Group.{Parent};

    ghost Value = { Parent };

    ghost use Rattle.space_ops.specs.GroupView.{view_of, IsGroup};

    ghost view = { view_of };

    ghost invariant = { IsGroup };
}

impl Group {
    ghost use Rattle.std.specs.Prelude.{◌≡◌, ℕ, ◌<◌, ◌≤◌, IfOk, IfErr, MatchOption, true, false, length, slice_index_or};
    ghost use Rattle.space_ops.specs.Op.{matrix_of, identity_op, seitz_of, IsSmallRotation, IsShiftWithin, IsUnimodular};
    ghost use Rattle.space_ops.specs.Words.{op_at, IsWord, HasTooManyRotations, HasExtraTranslation};
    ghost use Rattle.space_ops.specs.Group.{AreGenerators, IsParentGroup, IsCauseOf};

    /// The group of the generators and the lattice. Condition: at most five generators, with
    /// entries from -3 to 3, determinant 1 or -1, and translations from 0 to 11 twelfths.
    pub fn close(alloc: Global, generators: &[Op], lattice: Lattice) -> Result<Group, GroupError>
        requires { AreGenerators generators.now }
        ensures group { IfOk result (λ group. IsParentGroup group) }
        ensures lattice { IfOk result (λ group. group.lattice ≡ lattice) }
        ensures generators { IfOk result (λ group. group.generators ≡ generators.now) }
        ensures few { IfOk result (λ _. HasTooManyRotations generators.now lattice → ⊥) }
        ensures pure { IfOk result (λ _. HasExtraTranslation generators.now lattice → ⊥) }
        ensures cause { IfErr result (λ error. IsCauseOf generators.now lattice error) }
    {
        let mut ops = closed_ops(alloc, generators, lattice)?;
        sort_after_first(&mut ops)?;
        let generators = copied(generators);
        Ok(Group {
            ops,
            lattice,
            generators,
        })
    }

    /// Whether `close` may be given these generators.
    pub fn can_close(generators: &[Op]) -> bool
        ensures yes { result ≡ true → AreGenerators generators.now }
        ensures no { result ≡ false → AreGenerators generators.now → ⊥ }
    {
        if generators.len() > 5 {
            return false;
        }
        are_generators(generators)
    }

    /// The same group again.
    pub fn copy(&self, alloc: Global) -> Result<Group, NoMemory>
        ensures { IfOk result (λ copy. copy ≡ self.now) }
    {
        let ops = match Vec::from_slice(alloc, &self.ops) {
            Ok(ops) => ops,
            Err(_) => return Err(NoMemory),
        };
        let generators = copied(self.generators.as_slice());
        Ok(Group {
            ops,
            lattice: self.lattice,
            generators,
        })
    }

    /// The number of operations, one for each rotation.
    pub fn len(&self) -> usize
        ensures value { result ≡ length self.now.ops }
        ensures group { IsParentGroup self.now }
    {
        self.ops.len()
    }

    /// Operation i of the list, from 0. It may be composed and inverted.
    pub fn op(&self, i: usize) -> Op
        requires { i < length self.now.ops }
        ensures value { result ≡ slice_index_or self.now.ops i identity_op }
        ensures group { IsParentGroup self.now }
        ensures small { IsSmallRotation result.rot }
        ensures near { IsShiftWithin 11 result.shift }
        ensures unimodular { IsUnimodular (matrix_of result.rot) }
    {
        self.ops[i]
    }

    /// The place of the operation with this rotation.
    pub fn index_of(&self, rot: [[i8; 3]; 3]) -> Option<usize>
        ensures place { MatchOption result ((j : ℕ) → j < length self.now.ops → (op_at self.now.ops j).rot ≡ matrix_of rot → ⊥)
            (λ i. (i < length self.now.ops) × ((op_at self.now.ops i).rot ≡ matrix_of rot)) }
        ensures group { IsParentGroup self.now }
    {
        place_of(&self.ops, rot)
    }

    /// Whether an operation belongs to the group: its rotation is listed, and its translation differs
    /// from the listed one by a lattice translation.
    pub fn contains(&self, op: Op) -> bool
        ensures yes { result ≡ true → IsWord self.now.generators self.now.lattice (seitz_of op) }
        ensures no { result ≡ false → IsWord self.now.generators self.now.lattice (seitz_of op) → ⊥ }
    {
        let lattice = self.lattice;
        match self.index_of(op.rot) {
            Some(i) => differ_by_translation(op.shift, self.op(i).shift, lattice),
            None => false,
        }
    }

    /// The lattice that `close` was given.
    pub fn lattice(&self) -> Lattice
        ensures value { result ≡ self.now.lattice }
        ensures group { IsParentGroup self.now }
    {
        self.lattice
    }

    /// The generators that `close` was given.
    pub fn generators(&self) -> &[Op]
        ensures { result.now ≡ self.now.generators }
    {
        self.generators.as_slice()
    }
}

/// Whether the first translation is the second, from 0 to 11 twelfths, and a lattice translation.
fn differ_by_translation(s: [i32; 3], t: [i32; 3], lattice: Lattice) -> bool
    requires { IsInCell (vector_of t) }
    ensures yes { result ≡ true → IsLatticeVector lattice (vector_difference (vector_of s) (vector_of t)) }
    ensures no { result ≡ false → IsLatticeVector lattice (vector_difference (vector_of s) (vector_of t)) → ⊥ }
{
    lattice.contains(shift_sum(reduced_shift(s), negative_shift(t)))
}

fn copied(generators: &[Op]) -> ArrayVec<Op, 5>
    requires { length generators.now ≤ 5 }
    ensures { result.items ≡ generators.now }
{
    let mut copy: ArrayVec<Op, 5> = ArrayVec::new();
    for generator in generators {
        copy.push(*generator);
    }
    copy
}
