// The products of ordered pairs of listed operations.
ghost use Rattle.std.specs.Prelude.{◌≡◌, ◌<◌, ◌*◌, ◌≤◌, ℕ, IfOk, length, slice_index};
ghost use Rattle.small_rep.specs.Pairs.{IsPair, ArePairs};

use crate::shift::shift_difference;
use iso_text::NoMemory;
use kstar::Star;
use space_ops::Group;
use std::alloc::Global;

/// What the product of two listed operations is: the number of its rotation, and the power of z
/// that is the phase of what it has more than the listed operation of this rotation.
#[derive(Clone, Copy, Debug, PartialEq, Eq)]
pub struct Pair {
    pub product: usize,
    pub power: u8,
}

/// The product of operations a and b of the list.
pub fn pair_of(group: &Group, star: &Star, a: usize, b: usize) -> Pair
    requires lattice { star.now.lattice ≡ group.now.lattice }
    requires left { a < length group.now.ops }
    requires right { b < length group.now.ops }
    ensures { IsPair group.now star.now a b result }
{
    let product = group.op(a).compose(group.op(b));
    let number = match group.index_of(product.rot) {
        Some(number) => number,
        None => unreachable!(),
    };
    let listed = group.op(number);
    let power = star.power(shift_difference(product.shift, listed.shift));
    Pair {
        product: number,
        power,
    }
}

/// The pairs of the numbers of a list, row by row.
pub fn pairs_of(
    alloc: Global,
    group: &Group,
    star: &Star,
    little: &[usize],
) -> Result<Vec<Pair>, NoMemory>
    requires lattice { star.now.lattice ≡ group.now.lattice }
    requires few { length little.now ≤ 48 }
    requires listed { (i : ℕ) → i < length little.now → slice_index little.now i < length group.now.ops }
    ensures { IfOk result (λ pairs. ArePairs group.now star.now little.now pairs.items) }
{
    let mut pairs: Vec<Pair> = Vec::new(alloc);
    let count = little.len();
    for e in 0..count * count {
        let pair = pair_of(group, star, little[e / count], little[e % count]);
        match pairs.push(pair) {
            Ok(()) => {}
            Err(_) => return Err(NoMemory),
        }
    }
    Ok(pairs)
}
