// How the listed operations move the arms.
ghost use Rattle.std.specs.Prelude.{◌≡◌, ◌<◌, ◌≤◌, ◌*◌, ℕ, IfOk, length};
ghost use Rattle.induce.specs.Induced.{IsStarOn};
ghost use Rattle.induce.specs.Arms.{AreArmNumbers};
ghost use Rattle.induce.specs.Tables.{IsMoveOf, AreMoves};

use crate::arms::ArmNumber;
use crate::parts::part_from;
use iso_text::NoMemory;
use kstar::Star;
use std::alloc::Global;
use super_group::Quotient;

/// The block that isn't 0 in a column of blocks: its row, the place of its rotation in the little
/// group, and the power of z that is its phase.
#[derive(Clone, Copy, Debug, PartialEq, Eq)]
pub struct Move {
    pub row: usize,
    pub little: usize,
    pub power: u8,
}

/// The block that isn't 0 in column i of blocks of the matrix of listed operation r.
fn move_of(quotient: &Quotient, star: &Star, arms: &[ArmNumber], r: usize, i: usize) -> Move
    requires star { IsStarOn quotient.now star.now }
    requires arms { AreArmNumbers quotient.now star.now arms.now }
    requires operation { r < length quotient.now.parent.ops }
    requires column { i < length star.now.by }
    ensures { IsMoveOf quotient.now star.now (r * length quotient.now.translations) i result }
{
    let _order = quotient.order();
    let number = r * quotient.translations().len();
    let moved = quotient.product(number, arms[i].forth);
    for j in 0..star.arms() {
        if let Some(found) = part_from(quotient, star, arms, moved, j) {
            return found;
        }
    }
    unreachable!()
}

/// How each listed operation moves each arm.
pub fn moves(
    alloc: Global,
    quotient: &Quotient,
    star: &Star,
    arms: &[ArmNumber],
) -> Result<Vec<Move>, NoMemory>
    requires star { IsStarOn quotient.now star.now }
    requires arms { AreArmNumbers quotient.now star.now arms.now }
    ensures { IfOk result (λ moves. AreMoves quotient.now star.now moves.items (length quotient.now.parent.ops * length star.now.by)) }
{
    let count = star.arms();
    let mut moves: Vec<Move> = Vec::new(alloc);
    for d in 0..quotient.group().len() * count {
        match moves.push(move_of(quotient, star, arms, d / count, d % count)) {
            Ok(()) => {}
            Err(_) => return Err(NoMemory),
        }
    }
    Ok(moves)
}
