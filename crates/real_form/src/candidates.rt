// The list of the vectors that are tried.
ghost use Rattle.std.specs.Prelude.{◌≡◌, ◌++◌, IfOk, OnOk, map};
ghost use Rattle.std.specs.List.{flat_map, range_with_len};
ghost use Rattle.real_form.specs.declared.candidate.Candidate.TheVariants as candidate;
ghost use Rattle.real_form.specs.Candidates.{candidates_of, pairs_of, powers_of, ArePowers};

use crate::candidate::Candidate;
use iso_text::NoMemory;
use itertools::{Itertools, TupleCombinations};
use std::alloc::Global;

/// The order of z.
const ROOT_ORDER: u8 = 24;

// The unit vectors of n entries, and then 1 at i and z^a at j, by rising i, j and a.
pub(crate) fn candidates(alloc: Global, n: usize) -> Result<Vec<Candidate>, NoMemory>
    ensures list { IfOk result (λ all. all.items ≡ candidates_of n) }
    ensures powers { IfOk result (λ all. ArePowers all.items) }
{
    let mut all = Vec::new(alloc);
    push_places(&mut all, n)?;
    push_pairs(alloc, &mut all, n)?;
    Ok(all)
}

fn push_places(all: &mut Vec<Candidate>, n: usize) -> Result<(), NoMemory>
    ensures { OnOk result (all.new.items ≡ all.old.items ++ map candidate.Place (range_with_len 0 n)) }
{
    for i in 0..n {
        match all.push(Candidate::Place(i)) {
            Ok(()) => {}
            Err(_) => return Err(NoMemory),
        }
    }
    Ok(())
}

fn push_pairs(alloc: Global, all: &mut Vec<Candidate>, n: usize) -> Result<(), NoMemory>
    ensures { OnOk result (all.new.items ≡ all.old.items ++ flat_map powers_of (pairs_of n)) }
{
    let pairs: TupleCombinations<usize, (usize, usize), Global> = (0..n).tuple_combinations(alloc)?;
    for pair in pairs {
        match pair {
            Ok((i, j)) => push_powers(all, i, j)?,
            Err(_) => return Err(NoMemory),
        }
    }
    Ok(())
}

fn push_powers(all: &mut Vec<Candidate>, i: usize, j: usize) -> Result<(), NoMemory>
    ensures { OnOk result (all.new.items ≡ all.old.items ++ powers_of (i, j)) }
{
    for a in 0..ROOT_ORDER {
        match all.push(Candidate::Pair(i, j, a)) {
            Ok(()) => {}
            Err(_) => return Err(NoMemory),
        }
    }
    Ok(())
}
