// The parts r_j^-1 g r_i of elements that are in the little group.
ghost use Rattle.std.specs.Prelude.{◌≡◌, ◌<◌, ℕ, MatchOption, true, false, length, slice_index};
ghost use Rattle.super_group.specs.Quotient.{order_of, element_of, number_of, quotient_group};
ghost use Rattle.small_rep.specs.SmallRep.{is_listed};
ghost use Rattle.induce.specs.Induced.{IsStarOn, representative, is_block};
ghost use Rattle.induce.specs.Arms.{AreArmNumbers};
ghost use Rattle.induce.specs.Tables.{IsMoveOf};

use crate::arms::ArmNumber;
use crate::moves::Move;
use kstar::Star;
use super_group::Quotient;

/// The place of a number in a list.
fn place_in(numbers: &[usize], number: usize) -> Option<usize>
    ensures { MatchOption result (is_listed numbers.now number ≡ false) (λ place. (place < length numbers.now) × (slice_index numbers.now place ≡ number)) }
{
    for (place, listed) in numbers.iter().enumerate() {
        if *listed == number {
            return Some(place);
        }
    }
    None
}

/// r_j^-1 g r_i where it is in the little group, for the number of g r_i.
pub fn part_from(
    quotient: &Quotient,
    star: &Star,
    arms: &[ArmNumber],
    moved: usize,
    j: usize,
) -> Option<Move>
    requires star { IsStarOn quotient.now star.now }
    requires arms { AreArmNumbers quotient.now star.now arms.now }
    requires moved { moved < order_of quotient.now }
    requires row { j < length star.now.by }
    ensures { (e i : ℕ) → e < order_of quotient.now → i < length star.now.by → moved ≡ (quotient_group quotient.now).product e (number_of quotient.now (representative quotient.now.parent star.now i)) → MatchOption result (is_block quotient.now.parent star.now (element_of quotient.now e) j i ≡ false) (λ part. (part.row ≡ j) × IsMoveOf quotient.now star.now e i part) }
{
    let count = quotient.translations().len();
    let number = quotient.product(arms[j].back, moved);
    match place_in(star.little(), number / count) {
        Some(little) => {
            let power = star.power(quotient.translations()[number % count]);
            Some(Move {
                row: j,
                little,
                power,
            })
        }
        None => None,
    }
}
