// The little group and the arms of a star, as lists of rotation numbers.
ghost use Rattle.std.specs.Prelude.{◌≡◌, ℕ, ◌<◌, IfOk, true, false, length, slice_index, slice_index_or, [], ◌∷◌, ◌++◌};
ghost use Rattle.space_ops.specs.Op.{IsShiftWithin, vector_of};
ghost use Rattle.kstar.specs.WaveVector.{AreEquivalent};
ghost use Rattle.algebra.specs.RisingLists.{IsRisingListOf};
ghost use Rattle.kstar.specs.Star.{row_in};
ghost use Rattle.kstar.specs.Rows.{AreNear};

use crate::equivalence::are_equivalent;
use crate::rows::row_at;
use iso_text::NoMemory;
use space_ops::Lattice;
use std::alloc::Global;

fn add(numbers: &mut Vec<usize>, r: usize, is_listed: bool) -> Result<(), NoMemory>
    ensures yes { is_listed ≡ true → IfOk result (λ _. numbers.new.items ≡ numbers.old.items ++ r ∷ []) }
    ensures no { is_listed ≡ false → IfOk result (λ _. numbers.new.items ≡ numbers.old.items) }
{
    if !is_listed {
        return Ok(());
    }
    match numbers.push(r) {
        Ok(()) => Ok(()),
        Err(_) => Err(NoMemory),
    }
}

/// The numbers of the images that are equivalent to the row.
pub fn little_of(
    alloc: Global,
    images: &[[i32; 3]],
    row: [i32; 3],
    lattice: Lattice,
) -> Result<Vec<usize>, NoMemory>
    requires images { AreNear images.now }
    requires row { IsShiftWithin 288 row }
    ensures { IfOk result (λ little. IsRisingListOf (length images.now) (λ r. AreEquivalent lattice (row_in images.now r) (vector_of row)) little.items) }
{
    let mut little: Vec<usize> = Vec::new(alloc);
    for r in 0..images.len() {
        let is_little = are_equivalent(row_at(images, r), row, lattice);
        add(&mut little, r, is_little)?;
    }
    Ok(little)
}

/// Whether no image before image r is equivalent to it.
fn is_first(images: &[[i32; 3]], r: usize, lattice: Lattice) -> bool
    requires images { AreNear images.now }
    requires place { r < length images.now }
    ensures yes { result ≡ true → (s : ℕ) → s < r → AreEquivalent lattice (row_in images.now s) (row_in images.now r) → ⊥ }
    ensures no { result ≡ false → (s : ℕ) × (s < r) × AreEquivalent lattice (row_in images.now s) (row_in images.now r) }
{
    for s in 0..r {
        if are_equivalent(row_at(images, s), row_at(images, r), lattice) {
            return false;
        }
    }
    true
}

/// The numbers of the images that are equivalent to none before.
pub fn firsts_of(
    alloc: Global,
    images: &[[i32; 3]],
    lattice: Lattice,
) -> Result<Vec<usize>, NoMemory>
    requires { AreNear images.now }
    ensures { IfOk result (λ firsts. IsRisingListOf (length images.now) (λ r. (s : ℕ) → s < r → AreEquivalent lattice (row_in images.now s) (row_in images.now r) → ⊥) firsts.items) }
{
    let mut firsts: Vec<usize> = Vec::new(alloc);
    for r in 0..images.len() {
        let is_listed = is_first(images, r, lattice);
        add(&mut firsts, r, is_listed)?;
    }
    Ok(firsts)
}
