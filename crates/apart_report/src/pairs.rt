// Pairs of numbers.
ghost use Rattle.std.specs.Prelude.{◌≡◌, ◌<◌, ◌+◌, ◌++◌, ℕ, IfOk, OnOk, map};
ghost use Rattle.std.specs.List.{range_with_len};
ghost use Rattle.apart_report.specs.Held.{number_pairs};

use iso_text::NoMemory;
use report_steps::add;
use std::alloc::Global;

// Adds the pairs of i with each larger number below count.
fn push_pairs(pairs: &mut Vec<(usize, usize)>, i: usize, count: usize) -> Result<(), NoMemory>
    requires { i < count }
    ensures { OnOk result ((n : ℕ) → i + 1 + n ≡ count → pairs.new.items ≡ pairs.old.items ++ map (λ j. (i, j)) (range_with_len (i + 1) n)) }
{
    for j in i + 1..count {
        add(pairs, (i, j))?;
    }
    Ok(())
}

/// All pairs of numbers below count, the smaller one first, by the first and then the second.
pub(crate) fn pairs_below(alloc: Global, count: usize) -> Result<Vec<(usize, usize)>, NoMemory>
    ensures { IfOk result (λ pairs. pairs.items ≡ number_pairs count) }
{
    let mut pairs: Vec<(usize, usize)> = Vec::new(alloc);
    for i in 0..count {
        push_pairs(&mut pairs, i, count)?;
    }
    Ok(pairs)
}
