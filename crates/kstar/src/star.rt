// The star of a wave vector.
ghost use Rattle.std.specs.Prelude.{◌≡◌, ℕ, ◌<◌, ◌≤◌, ◌*◌, IfOk, length};
ghost use Rattle.space_ops.specs.Op.{IsShiftWithin, vector_of};
ghost use Rattle.space_ops.specs.Group.{IsParentGroup};
ghost use Rattle.kstar.specs.WaveVector.{HasPhases};
ghost use Rattle.kstar.specs.Star.{IsStarOf};
ghost use Rattle.kstar.specs.Rows.{AreNear, IsStarOfRows};

use crate::image::images;
use crate::numbers::{firsts_of, little_of};
use crate::phase::{bad_phase, phase};
use crate::rows::rows_at;
use crate::wave_vector::{KVector, row, wave_vector};
use iso_text::{Frac, NoMemory};
use space_ops::{Group, Lattice};
use std::alloc::Global;
use std::marker::Model;
use thiserror::Error;

/// Why a wave vector has no star.
#[derive(Clone, Copy, Debug, PartialEq, Eq, Error)]
pub enum StarError {
    /// The first k.c that is no multiple of 1/24, for a centring vector c; in lowest terms.
    #[error("a phase of the wave vector is no multiple of 1/24")]
    BadPhase(Frac),
    /// Want of memory.
    #[error("out of memory")]
    NoMemory,
}

impl From<NoMemory> for StarError {
    fn from(_: NoMemory) -> Self
        ensures { result ≡ StarError.NoMemory }
    {
        StarError::NoMemory
    }
}

/// The star of a wave vector under a group, with its little group: the rotations that leave it
/// equivalent to itself. Arm 0 is the wave vector itself, by the identity.
#[derive(Drop)]
pub struct Star {
    lattice: Lattice,
    row: [i32; 3],
    little: Vec<usize>,
    by: Vec<usize>,
    arms: Vec<[i32; 3]>,
}

impl Model for Star {
    ghost use Rattle.kstar.specs.Star.{WaveStar};

    ghost Value = { WaveStar };

    ghost use Rattle.kstar.specs.StarView.{view_of, IsStar};

    ghost view = { view_of };

    ghost invariant = { IsStar };
}

/// The star of a row, from all its images.
fn star_of_rows(
    alloc: Global,
    images: &[[i32; 3]],
    row: [i32; 3],
    lattice: Lattice,
) -> Result<Star, NoMemory>
    requires images { AreNear images.now }
    requires row { IsShiftWithin 288 row }
    requires few { length images.now ≤ 48 }
    requires phases { HasPhases lattice (vector_of row) }
    ensures { IfOk result (λ star. IsStarOfRows images.now lattice (vector_of row) star) }
{
    let little = match little_of(alloc, images, row, lattice) {
        Ok(little) => little,
        Err(_) => return Err(NoMemory),
    };
    let by = match firsts_of(alloc, images, lattice) {
        Ok(by) => by,
        Err(_) => return Err(NoMemory),
    };
    let arms = match rows_at(alloc, images, &by) {
        Ok(arms) => arms,
        Err(_) => return Err(NoMemory),
    };
    Ok(Star {
        lattice,
        row,
        little,
        by,
        arms,
    })
}

/// The star of a row.
fn star_of(alloc: Global, group: &Group, row: [i32; 3]) -> Result<Star, NoMemory>
    requires row { IsShiftWithin 288 row }
    requires phases { HasPhases group.now.lattice (vector_of row) }
    ensures star { IfOk result (λ star. IsStarOf group.now (vector_of row) star) }
    ensures group { IsParentGroup group.now }
{
    let images = match images(alloc, group, row) {
        Ok(images) => images,
        Err(_) => return Err(NoMemory),
    };
    star_of_rows(alloc, &images, row, group.lattice())
}

impl Star {
    ghost use Rattle.std.specs.Prelude.{◌≡◌, ℕ, ◌<◌, ◌≤◌, ◌+◌, ◌*◌, ◌%◌, ℤ, pos, ◌+ℤ◌, IfOk, length, slice_index, Err};
    ghost use Rattle.algebra.specs.Whole.{whole};
    ghost use Rattle.space_ops.specs.Matrix.{Vector, vector_sum};
    ghost use Rattle.space_ops.specs.GroupLaws.{rotation_group};
    ghost use Rattle.space_ops.specs.Op.{vector_of};
    ghost use Rattle.space_ops.specs.Words.{IsLatticeVector};
    ghost use Rattle.kstar.specs.Fraction.{IsWaveVector, row_of, IsLowestRow};
    ghost use Rattle.algebra.specs.Multiples.{IsMultiple};
    ghost use Rattle.kstar.specs.WaveVector.{row_value, HasPhases, phase_of};
    ghost use Rattle.kstar.specs.Star.{IsStarOf, IsFirstBadPhase, HasFirstArm, AreInequivalent, CoverImages, row_in};
    ghost use Rattle.algebra.specs.Subgroup.{IsSubgroup};

    /// The star of k under the group. Condition: `k.is_wave_vector()`. Errors: the first k.c that is
    /// no multiple of 1/24, over the centring vectors c; want of memory.
    pub fn new(alloc: Global, group: &Group, k: KVector) -> Result<Star, StarError>
        requires { IsWaveVector k }
        ensures star { IfOk result (λ star. IsStarOf group.now (row_of k) star) }
        ensures phases { IfOk result (λ star. HasPhases group.now.lattice (row_of k)) }
        ensures bad { (f : Frac) → result ≡ Err (StarError.BadPhase f) → IsFirstBadPhase group.now.lattice (row_of k) f }
        ensures memory { result ≡ Err StarError.NoMemory → HasPhases group.now.lattice (row_of k) }
        ensures first { IfOk result (λ star. HasFirstArm (row_of k) star) }
        ensures apart { IfOk result (λ star. AreInequivalent group.now.lattice star) }
        ensures cover { IfOk result (λ star. CoverImages group.now (row_of k) star) }
        ensures orders { IfOk result (λ star. length star.by * length star.little ≡ length group.now.ops) }
        ensures subgroup { IfOk result (λ star. IsSubgroup (rotation_group group.now.ops) star.little) }
    {
        let row = row(k);
        if let Some(phase) = bad_phase(row, group.lattice()) {
            return Err(StarError::BadPhase(phase));
        }
        match star_of(alloc, group, row) {
            Ok(star) => Ok(star),
            Err(_) => Err(StarError::NoMemory),
        }
    }

    /// The numbers of the rotations of the little group, rising, at most 48.
    pub fn little(&self) -> &[usize]
        ensures value { result.now ≡ self.now.little }
        ensures few { length result.now ≤ 48 }
        ensures phases { HasPhases self.now.lattice self.now.row }
    {
        &self.little
    }

    /// The number of arms, at most 48.
    pub fn arms(&self) -> usize
        ensures value { result ≡ length self.now.by }
        ensures few { result ≤ 48 }
        ensures phases { HasPhases self.now.lattice self.now.row }
    {
        self.by.len()
    }

    /// Arm i, from 0: k R^-1 for the rotation R of its representative, in lowest terms, not reduced
    /// into a cell.
    pub fn arm(&self, i: usize) -> KVector
        requires { i < length self.now.by }
        ensures { IsLowestRow (row_in self.now.arms i) result }
    {
        wave_vector(self.arms[i])
    }

    /// The number of the representative of arm i: the first operation that gives an equivalent image.
    pub fn by(&self, i: usize) -> usize
        requires { i < length self.now.by }
        ensures { result ≡ slice_index self.now.by i }
    {
        self.by[i]
    }

    /// The power of z = exp(2 pi i / 24) that is exp(-2 pi i k.t), for t in twelfths. Condition: t is a
    /// translation of the group's lattice, as `Lattice::contains` tells.
    pub fn power(&self, t: [i32; 3]) -> u8
        requires { IsLatticeVector self.now.lattice (vector_of t) }
        ensures value { result ≡ phase_of self.now.row (vector_of t) }
        ensures below { result < 24 }
        ensures turn { IsMultiple 144 (pos (6 * result) +ℤ row_value self.now.row (vector_of t)) }
        ensures sum { (s : Vector ℤ) → IsLatticeVector self.now.lattice s → phase_of self.now.row (vector_sum whole (vector_of t) s) ≡ (result + phase_of self.now.row s) % 24 }
    {
        phase(self.row, t)
    }
}
