// The vectors whose orbits are tried.
ghost use Rattle.std.specs.Prelude.{◌≡◌, ◌<◌, ◌≤◌, nat_eq, if◌then◌else◌, IfOk, length};
ghost use Rattle.cyclo24.specs.Z24.{exact_z24};
ghost use Rattle.cyclo24.specs.ExactZ24.{z24, z24_laws, power};
ghost use Rattle.lin_alg.specs.Rows.{vector};
ghost use Rattle.real_form.specs.Candidates.{candidate_entry, candidate_vector, IsPower};

use cyclo24::{Field, Z24};
use iso_text::NoMemory;
use std::alloc::Global;

/// A vector that is tried.
#[derive(Clone, Copy, Debug, PartialEq, Eq)]
pub enum Candidate {
    /// 1 at place i.
    Place(usize),
    /// 1 at place i, and z to the power a, below 24, at place j.
    Pair(usize, usize, u8),
}

// Entry k of the vector.
pub(crate) fn candidate_value(candidate: Candidate, k: usize) -> Z24
    requires { IsPower candidate }
    ensures { exact_z24 result ≡ candidate_entry candidate k }
{
    match candidate {
        Candidate::Place(i) => place_value(i, k),
        Candidate::Pair(i, j, a) => pair_value(i, j, a, k),
    }
}

// 1 at place i.
fn place_value(i: usize, k: usize) -> Z24
    ensures { exact_z24 result ≡ (if nat_eq k i then z24_laws.unit else z24_laws.nought) }
{
    if k == i { Z24::one() } else { Z24::zero() }
}

// 1 at place i, and z to the power a at place j.
fn pair_value(i: usize, j: usize, a: u8, k: usize) -> Z24
    requires { a < 24 }
    ensures { exact_z24 result ≡ (if nat_eq k i then z24_laws.unit else (if nat_eq k j then power a else z24_laws.nought)) }
{
    if k == i {
        return Z24::one();
    }
    if k == j { Z24::root(a) } else { Z24::zero() }
}

// The vector of n entries.
pub(crate) fn candidate_row(
    alloc: Global,
    candidate: Candidate,
    n: usize,
) -> Result<Vec<Z24>, NoMemory>
    requires { IsPower candidate }
    ensures len { IfOk result (λ row. length row.items ≡ n) }
    ensures exact { IfOk result (λ row. vector z24_laws exact_z24 row.items ≡ candidate_vector n candidate) }
{
    let mut row = Vec::new(alloc);
    for k in 0..n {
        match row.push(candidate_value(candidate, k)) {
            Ok(()) => {}
            Err(_) => return Err(NoMemory),
        }
    }
    Ok(row)
}
