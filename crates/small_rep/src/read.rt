// Small representations from irrep blocks.
ghost use Rattle.std.specs.Prelude.{◌≡◌, ◌<◌, ◌≤◌, ℕ, IfOk, length, slice_index};
ghost use Rattle.space_ops.specs.Group.{IsParentGroup};
ghost use Rattle.kstar.specs.Star.{IsStarOf};
ghost use Rattle.small_rep.specs.Pairs.{AreListed};
ghost use Rattle.small_rep.specs.Rep.{AreListedOps, IsRepOf};
ghost use Rattle.small_rep.specs.LinesRead.{AreSquare};

use crate::lines::{Lines, read_lines};
use crate::missing::first_missing;
use crate::pairs::pairs_of;
use crate::{RepError, SmallRep};
use iso_text::{IrrepText, NoMemory};
use kstar::Star;
use space_ops::{Group, Op};
use std::alloc::Global;

/// The listed operations with these numbers.
fn listed_ops(alloc: Global, group: &Group, numbers: &[usize]) -> Result<Vec<Op>, NoMemory>
    requires { (i : ℕ) → i < length numbers.now → slice_index numbers.now i < length group.now.ops }
    ensures ops { IfOk result (λ ops. AreListedOps group.now numbers.now ops.items) }
    ensures count { IfOk result (λ ops. length ops.items ≡ length numbers.now) }
{
    let mut ops: Vec<Op> = Vec::new(alloc);
    for number in numbers {
        match ops.push(group.op(*number)) {
            Ok(()) => {}
            Err(_) => return Err(NoMemory),
        }
    }
    Ok(ops)
}

/// The small representation of lines with a matrix for each rotation of the little group.
fn rep_of_lines(
    alloc: Global,
    group: &Group,
    star: &Star,
    size: usize,
    lines: Lines,
) -> Result<SmallRep, NoMemory>
    requires group { IsParentGroup group.now }
    requires star { IsStarOf group.now star.now.row star.now }
    requires some { 1 ≤ size }
    requires few { size ≤ 6 }
    requires matrices { AreSquare size lines.rotations.items lines.matrices.items }
    requires whole { AreListed star.now.little lines.rotations.items }
    ensures of { IfOk result (λ rep. IsRepOf group.now star.now rep) }
    ensures size { IfOk result (λ rep. rep.size ≡ size) }
    ensures rotations { IfOk result (λ rep. rep.rotations ≡ lines.rotations.items) }
    ensures matrices { IfOk result (λ rep. rep.matrices ≡ lines.matrices.items) }
{
    let little = match Vec::from_slice(alloc, star.little()) {
        Ok(little) => little,
        Err(_) => return Err(NoMemory),
    };
    let ops = listed_ops(alloc, group, &little)?;
    let pairs = pairs_of(alloc, group, star, &little)?;
    let rotations = lines.rotations;
    let matrices = lines.matrices;
    Ok(SmallRep {
        size,
        little,
        ops,
        pairs,
        rotations,
        matrices,
    })
}

impl SmallRep {
    ghost use Rattle.std.specs.Prelude.{◌≡◌, IfOk, IfErr};
    ghost use Rattle.iso_text.specs.Ranges.{IsBlock};
    ghost use Rattle.kstar.specs.Star.{IsStarOf};
    ghost use Rattle.small_rep.specs.Reading.{AreReadFrom, IsReadCause};
    ghost use Rattle.small_rep.specs.Rep.{IsRepOf, matrices_of};

    /// Reads the `mat` lines of an irrep block: each gives a matrix for an operation of the little
    /// group, which is carried to the listed operation of its rotation by exp(2 pi i k.n), where it is
    /// {E|n} after that. Condition: the star is one of the group, and the block is as files give it.
    /// Errors: the first line whose operation isn't in the little group, or whose rotation an earlier
    /// line has; then the first listed operation without a line; a number that is too wide; want of
    /// memory.
    pub fn read(
        alloc: Global,
        group: &Group,
        star: &Star,
        text: &IrrepText,
    ) -> Result<SmallRep, RepError>
        requires star { IsStarOf group.now star.now.row star.now }
        requires text { IsBlock text.now }
        ensures of { IfOk result (λ rep. IsRepOf group.now star.now rep) }
        ensures size { IfOk result (λ rep. rep.size ≡ text.now.size) }
        ensures read { IfOk result (λ rep. AreReadFrom group.now star.now text.now.size text.now.mats (matrices_of rep)) }
        ensures cause { IfErr result (λ e. IsReadCause group.now star.now text.now.mats e) }
    {
        let size = usize::from(text.size);
        let lines = match read_lines(alloc, group, star, size, text.mats.as_slice()) {
            Ok(lines) => lines,
            Err(error) => return Err(error),
        };
        match first_missing(group, star.little(), &lines.rotations) {
            Some(op) => Err(RepError::RotationMissing(op)),
            None => {
                let _rotations = group.len();
                match rep_of_lines(alloc, group, star, size, lines) {
                    Ok(rep) => Ok(rep),
                    Err(NoMemory) => Err(RepError::NoMemory),
                }
            }
        }
    }
}
