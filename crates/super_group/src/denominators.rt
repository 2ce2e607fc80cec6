// The multipliers of a group, from the denominators of wave vectors.
ghost use Rattle.std.specs.Prelude.{◌≡◌, ℕ, ◌<◌, ◌≤◌, ◌%◌, true, false, length, slice_index_or};
ghost use Rattle.super_group.specs.Supercell.{IsSupercell};
ghost use Rattle.super_group.specs.Multipliers.{AreDenominators, AreMultipliers};
ghost use Rattle.super_group.specs.FirstAxes.{axis_at, IsMultipleOf, IsLeastMultipleOf};

use crate::joined::first_axes;
use space_ops::Group;

// Whether the denominators of the coordinates with this first axis divide m.
fn divide(den: [u8; 3], firsts: [usize; 3], first: usize, m: u8) -> bool
    requires { (j : ℕ) → j < 3 → 0 < slice_index_or den j 1 }
    ensures yes { result ≡ true → (j : ℕ) → j < 3 → axis_at firsts j ≡ first → m % slice_index_or den j 1 ≡ 0 }
    ensures no { result ≡ false → ((j : ℕ) → j < 3 → axis_at firsts j ≡ first → m % slice_index_or den j 1 ≡ 0) → ⊥ }
{
    for j in 0..3 {
        if firsts[j] == first && m % den[j] != 0 {
            return false;
        }
    }
    true
}

// The same of all triples.
fn is_multiple(dens: &[[u8; 3]], firsts: [usize; 3], first: usize, m: u8) -> bool
    requires { AreDenominators dens.now }
    ensures yes { result ≡ true → IsMultipleOf firsts first dens.now m }
    ensures no { result ≡ false → IsMultipleOf firsts first dens.now m → ⊥ }
{
    for den in dens {
        if !divide(*den, firsts, first, m) {
            return false;
        }
    }
    true
}

// The least multiple of the denominators of the coordinates with this first axis: 12 is one.
fn least_multiple(dens: &[[u8; 3]], firsts: [usize; 3], first: usize) -> u32
    requires { AreDenominators dens.now }
    ensures { IsLeastMultipleOf firsts first dens.now result }
{
    for m in 1..12 {
        if is_multiple(dens, firsts, first, m) {
            return u32::from(m);
        }
    }
    12
}

fn divides_twelve(den: [u8; 3]) -> bool
    ensures yes { result ≡ true → (j : ℕ) → j < 3 → (0 < slice_index_or den j 1) × (12 % slice_index_or den j 1 ≡ 0) }
    ensures no { result ≡ false → ((j : ℕ) → j < 3 → (0 < slice_index_or den j 1) × (12 % slice_index_or den j 1 ≡ 0)) → ⊥ }
{
    for j in 0..3 {
        if den[j] == 0 || 12 % den[j] != 0 {
            return false;
        }
    }
    true
}

/// Whether `multipliers` may be given these denominators.
pub fn are_denominators(dens: &[[u8; 3]]) -> bool
    ensures yes { result ≡ true → AreDenominators dens.now }
    ensures no { result ≡ false → AreDenominators dens.now → ⊥ }
{
    for den in dens {
        if !divides_twelve(*den) {
            return false;
        }
    }
    true
}

/// The multipliers of the least supercell in which wave vectors with these denominators are whole,
/// one triple for each wave vector: multiplier i is the least common multiple of the denominators of
/// all coordinates that are joined with axis i. Condition: each denominator divides 12.
pub fn multipliers(group: &Group, dens: &[[u8; 3]]) -> [u32; 3]
    requires { AreDenominators dens.now }
    ensures multipliers { AreMultipliers group.now.ops dens.now result }
    ensures supercell { IsSupercell group.now.ops result }
{
    let firsts = first_axes(group);
    [
        least_multiple(dens, firsts, firsts[0]),
        least_multiple(dens, firsts, firsts[1]),
        least_multiple(dens, firsts, firsts[2]),
    ]
}
