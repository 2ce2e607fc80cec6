// Closing a list of operations under right products with steps.
//
// Each product of a held operation and a step is formed once: at most 48 operations times 10 steps,
// 480 products in all.
ghost use Rattle.std.specs.Prelude.{◌≡◌, ℕ, ◌<◌, ◌≤◌, ◌⊎◌, true, false, IfOk, IfErr, [], ◌∷◌, ◌+◌, length, slice_index_or};
ghost use Rattle.algebra.specs.Whole.{whole};
ghost use Rattle.space_ops.specs.Seitz.{seitz_product};
ghost use Rattle.space_ops.specs.Op.{seitz_of, matrix_of, vector_of, identity_op, IsSmallMatrix};
ghost use Rattle.space_ops.specs.Words.{op_at, HasTooManyRotations};
ghost use Rattle.space_ops.specs.WordLaws.{AreUnimodular};
ghost use Rattle.space_ops.specs.LeastShift.{IsInCell, IsLeastOp, IsShaped};
ghost use Rattle.space_ops.specs.Group.{AreGenerators, IsCauseOf};
ghost use Rattle.space_ops.specs.Closing.{IsClosing, IsClosedList, IsHolding, IsPastLimits};

use crate::find::{is_same_shift, is_small, place_of};
use crate::group::GroupError;
use crate::keeping::all_keep_lattice;
use crate::lattice::Lattice;
use crate::least_shift::least_op;
use crate::op::Op;
use crate::steps::steps_of;
use std::alloc::Global;

/// The most rotations of a group.
const MOST_ROTATIONS: usize = 48;

fn op_in(ops: &[Op], i: usize) -> Op
    requires { i < length ops.now }
    ensures { result ≡ slice_index_or ops.now i identity_op }
{
    ops[i]
}

fn shift_in(ops: &[Op], i: usize) -> [i32; 3]
    requires { i < length ops.now }
    ensures { vector_of result ≡ (op_at ops.now i).shift }
{
    ops[i].shift
}

/// The product with its least translation.
fn least_product(op: Op, step: Op, lattice: Lattice) -> Op
    requires left { IsSmallMatrix (matrix_of op.rot) }
    requires left_cell { IsInCell (vector_of op.shift) }
    requires right { IsSmallMatrix (matrix_of step.rot) }
    requires right_cell { IsInCell (vector_of step.shift) }
    ensures least { IsLeastOp lattice (seitz_product whole (seitz_of op) (seitz_of step)) result }
    ensures shaped { IsShaped result }
{
    least_op(op.compose(step), lattice)
}

fn add(held: &mut Vec<Op>, op: Op) -> Result<bool, GroupError>
    requires { (j : ℕ) → j < length held.old.items → (op_at held.old.items j).rot ≡ (seitz_of op).rot → ⊥ }
    ensures ok { IfOk result (λ conflict. IsHolding held.old.items held.new.items op conflict) }
    ensures many { result ≡ Err GroupError.TooManyRotations → IsPastLimits held.old.items op }
    ensures extra { result ≡ Err GroupError.ExtraTranslation → ⊥ }
{
    if !is_small(op.rot) || held.len() >= MOST_ROTATIONS {
        return Err(GroupError::TooManyRotations);
    }
    match held.push(op) {
        Ok(()) => Ok(false),
        Err(_) => Err(GroupError::NoMemory),
    }
}

/// Holds the rotation of an operation too, and tells whether it was held with another translation.
fn hold(held: &mut Vec<Op>, op: Op) -> Result<bool, GroupError>
    ensures ok { IfOk result (λ conflict. IsHolding held.old.items held.new.items op conflict) }
    ensures many { result ≡ Err GroupError.TooManyRotations → IsPastLimits held.old.items op }
    ensures extra { result ≡ Err GroupError.ExtraTranslation → ⊥ }
{
    match place_of(held, op.rot) {
        Some(i) => Ok(!is_same_shift(shift_in(held, i), op.shift)),
        None => add(held, op),
    }
}

fn either(first: bool, second: bool) -> bool
    ensures no { result ≡ false → (first ≡ false) × (second ≡ false) }
    ensures yes { result ≡ true → (first ≡ true) ⊎ (second ≡ true) }
{
    first || second
}

/// Holds the products of one held operation with each step.
fn hold_products(
    held: &mut Vec<Op>,
    next: usize,
    steps: &[Op],
    lattice: Lattice,
    conflict: bool,
) -> Result<bool, GroupError>
    requires closing { IsClosing steps.now lattice held.old.items conflict next 0 }
    requires place { next < length held.old.items }
    requires unimodular { AreUnimodular steps.now }
    requires small { (j : ℕ) → j < length steps.now → IsSmallMatrix (op_at steps.now j).rot }
    requires in_cell { (j : ℕ) → j < length steps.now → IsInCell (op_at steps.now j).shift }
    ensures ok { IfOk result (λ c. IsClosing steps.now lattice held.new.items c (next + 1) 0 × (length held.old.items ≤ length held.new.items)) }
    ensures many { result ≡ Err GroupError.TooManyRotations → HasTooManyRotations steps.now lattice }
    ensures extra { result ≡ Err GroupError.ExtraTranslation → ⊥ }
{
    let mut conflicts = conflict;
    for step in steps {
        let product = least_product(op_in(held, next), *step, lattice);
        match hold(held, product) {
            Ok(differs) => conflicts = either(conflicts, differs),
            Err(error) => return Err(error),
        }
    }
    Ok(conflicts)
}

fn identity_alone(alloc: Global) -> Result<Vec<Op>, GroupError>
    ensures ok { IfOk result (λ held. held.items ≡ identity_op ∷ []) }
    ensures err { IfErr result (λ error. error ≡ GroupError.NoMemory) }
{
    let mut held = Vec::new(alloc);
    let identity = Op {
        rot: [[1, 0, 0], [0, 1, 0], [0, 0, 1]],
        shift: [0, 0, 0],
    };
    match held.push(identity) {
        Ok(()) => Ok(held),
        Err(_) => Err(GroupError::NoMemory),
    }
}

/// Closes a list, and tells whether some rotation was met with another translation.
fn hold_all(held: &mut Vec<Op>, steps: &[Op], lattice: Lattice) -> Result<bool, GroupError>
    requires closing { IsClosing steps.now lattice held.old.items false 0 0 }
    requires unimodular { AreUnimodular steps.now }
    requires small { (j : ℕ) → j < length steps.now → IsSmallMatrix (op_at steps.now j).rot }
    requires in_cell { (j : ℕ) → j < length steps.now → IsInCell (op_at steps.now j).shift }
    ensures ok { IfOk result (λ c. IsClosing steps.now lattice held.new.items c (length held.new.items) 0) }
    ensures many { result ≡ Err GroupError.TooManyRotations → HasTooManyRotations steps.now lattice }
    ensures extra { result ≡ Err GroupError.ExtraTranslation → ⊥ }
{
    let mut conflicts = false;
    let mut next = 0;
    while next < held.len() {
        match hold_products(held, next, steps, lattice, conflicts) {
            Ok(conflict) => conflicts = conflict,
            Err(error) => return Err(error),
        }
        next += 1;
    }
    Ok(conflicts)
}

/// The operations of the group, one for each rotation, the identity first.
pub fn closed_ops(alloc: Global, generators: &[Op], lattice: Lattice) -> Result<Vec<Op>, GroupError>
    requires { AreGenerators generators.now }
    ensures ok { IfOk result (λ ops. IsClosedList generators.now lattice ops.items) }
    ensures err { IfErr result (λ error. IsCauseOf generators.now lattice error) }
{
    let steps = steps_of(generators, lattice)?;
    let mut ops = identity_alone(alloc)?;
    let conflict = hold_all(&mut ops, steps.as_slice(), lattice)?;
    if conflict || !all_keep_lattice(&ops, lattice) {
        return Err(GroupError::ExtraTranslation);
    }
    Ok(ops)
}
