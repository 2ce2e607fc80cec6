// Accepted small representations, and the check.
ghost use Rattle.std.specs.Prelude.{◌≡◌, ◌<◌, ◌≤◌, ℕ, IfOk, IfErr};
ghost use Rattle.cyclo24.specs.K24.{exact24};
ghost use Rattle.small_rep.specs.SmallRep.{IsUnit, character_sum};
ghost use Rattle.small_rep.specs.Rep.{matrices_of};
ghost use Rattle.small_rep.specs.RepCheck.{AllPairsMultiply, IsAccepted, IsRefused};

use crate::characters::sum_of_norms;
use crate::errors::FAMILY;
use crate::pair_check::first_failing;
use crate::{RepError, SmallRep};
use cyclo24::{K24, Z24};
use lin_alg::are_equal;
use std::alloc::Global;
use std::marker::Model;

/// A small representation that was accepted: the matrix of the identity is the unit matrix, the
/// matrices multiply with the phases of their ordered pairs, and the sum of |character|^2 is the
/// number of rotations of the little group.
#[derive(Drop)]
pub struct CheckedRep {
    rep: SmallRep,
    sum: K24,
}

impl Model for CheckedRep {
    ghost use Rattle.small_rep.specs.RepCheck.{CheckedView};

    ghost Value = { CheckedView };

    ghost use Rattle.small_rep.specs.CheckedView.{view_of, IsHeld};

    ghost view = { view_of };

    ghost invariant = { IsHeld };
}

/// The law of all ordered pairs.
fn check_pairs(rep: &SmallRep) -> Result<(), RepError>
    requires { IsUnit rep.now.size (matrices_of rep.now) }
    ensures ok { IfOk result (λ _. AllPairsMultiply rep.now) }
    ensures cause { IfErr result (λ e. IsRefused rep.now e) }
{
    let count = rep.count();
    match first_failing(rep) {
        Ok(None) => Ok(()),
        Ok(Some(e)) => Err(RepError::NotMultiplying(rep.op(e / count), rep.op(e % count))),
        Err(_) => Err(RepError::Wide(FAMILY)),
    }
}

/// The character sum, which is the number of rotations.
fn check_sum(rep: &SmallRep) -> Result<K24, RepError>
    requires unit { IsUnit rep.now.size (matrices_of rep.now) }
    requires pairs { AllPairsMultiply rep.now }
    ensures sum { IfOk result (λ sum. exact24 sum ≡ character_sum rep.now.little rep.now.size (matrices_of rep.now)) }
    ensures accepted { IfOk result (λ _. IsAccepted rep.now) }
    ensures cause { IfErr result (λ e. IsRefused rep.now e) }
{
    let count = rep.count();
    match sum_of_norms(rep) {
        Ok(sum) => {
            if are_equal(sum, K24::whole(count as i128)) {
                Ok(sum)
            } else {
                Err(RepError::NotIrreducible(sum, count as u32))
            }
        }
        Err(_) => Err(RepError::Wide(FAMILY)),
    }
}

/// The character sum of a representation that is accepted.
fn accepted_sum(rep: &SmallRep) -> Result<K24, RepError>
    ensures sum { IfOk result (λ sum. exact24 sum ≡ character_sum rep.now.little rep.now.size (matrices_of rep.now)) }
    ensures accepted { IfOk result (λ _. IsAccepted rep.now) }
    ensures cause { IfErr result (λ e. IsRefused rep.now e) }
{
    if !rep.identity().is_unit() {
        return Err(RepError::NotUnit);
    }
    match check_pairs(rep) {
        Ok(()) => check_sum(rep),
        Err(error) => Err(error),
    }
}

impl SmallRep {
    ghost use Rattle.std.specs.Prelude.{◌≡◌, IfOk, IfErr};
    ghost use Rattle.space_ops.specs.Group.{Parent};
    ghost use Rattle.kstar.specs.Star.{WaveStar};
    ghost use Rattle.small_rep.specs.SmallRep.{IsSmallRep};
    ghost use Rattle.small_rep.specs.Check.{IsCheckCause};
    ghost use Rattle.small_rep.specs.Rep.{IsRepOf, matrices_of};

    /// Checks the matrix of the identity, the law of ordered pairs and the character sum, in this
    /// order. It takes no memory. Errors: the first of them that fails, with its values; a number that
    /// is too wide.
    pub fn check(self, _alloc: Global) -> Result<CheckedRep, RepError>
        ensures same { IfOk result (λ checked. checked.rep ≡ self) }
        ensures small { (p : Parent) (s : WaveStar) → IsRepOf p s self → IfOk result (λ _. IsSmallRep p s self.size (matrices_of self)) }
        ensures cause { (p : Parent) (s : WaveStar) → IsRepOf p s self → IfErr result (λ e. IsCheckCause p s self.size (matrices_of self) e) }
    {
        match accepted_sum(&self) {
            Ok(sum) => Ok(CheckedRep { rep: self, sum }),
            Err(error) => Err(error),
        }
    }
}

impl CheckedRep {
    ghost use Rattle.std.specs.Prelude.{◌≡◌, ◌<◌, ◌≤◌, true};
    ghost use Rattle.cyclo24.specs.K24.{exact24};
    ghost use Rattle.cyclo24.specs.Z24.{exact_z24};
    ghost use Rattle.space_ops.specs.Group.{Parent};
    ghost use Rattle.kstar.specs.Star.{WaveStar};
    ghost use Rattle.small_rep.specs.SmallRep.{is_listed, character_sum, IsSmallRep};
    ghost use Rattle.small_rep.specs.Rep.{IsRepOf, matrices_of};
    ghost use Rattle.small_rep.specs.RepCheck.{IsAccepted};

    /// The representation, whose conditions hold.
    fn rep(&self) -> &SmallRep
        ensures value { result.now ≡ self.now.rep }
        ensures accepted { IsAccepted self.now.rep }
    {
        &self.rep
    }

    /// The dimension of the matrices, from 1 to 6.
    pub fn size(&self) -> usize
        ensures value { result ≡ self.now.rep.size }
        ensures some { 1 ≤ result }
        ensures few { result ≤ 6 }
        ensures small { (p : Parent) (s : WaveStar) → IsRepOf p s self.now.rep → IsSmallRep p s self.now.rep.size (matrices_of self.now.rep) }
    {
        self.rep().dimension()
    }

    /// The sum of |character|^2 over the little group, which is the number of its rotations.
    pub fn sum(&self) -> K24
        ensures { exact24 result ≡ character_sum self.now.rep.little self.now.rep.size (matrices_of self.now.rep) }
    {
        self.sum
    }

    /// Entry (i, j) of the matrix of a rotation, by its number. Condition: a rotation of the little
    /// group.
    pub fn get(&self, rotation: usize, i: usize, j: usize) -> Z24
        requires rotation { is_listed self.now.rep.little rotation ≡ true }
        requires row { i < self.now.rep.size }
        requires column { j < self.now.rep.size }
        ensures { exact_z24 result ≡ matrices_of self.now.rep rotation i j }
    {
        self.rep.matrix(rotation).get(i, j)
    }
}
