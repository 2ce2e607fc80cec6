// The matrices z^a G(R) that stand in induced matrices.
ghost use Rattle.std.specs.Prelude.{◌≡◌, ◌<◌, ◌*◌, ◌/◌, ◌%◌, ℕ, IfOk, Err, true, false, length, slice_index};
ghost use Rattle.cyclo24.specs.ExactZ24.{z24, power as power_of};
ghost use Rattle.lin_alg.specs.declared.errors.LinError.TheVariants as lin_error;
ghost use Rattle.lin_alg.specs.Matrix.{IsWideMultiple};
ghost use Rattle.small_rep.specs.SmallRep.{is_listed};
ghost use Rattle.small_rep.specs.Rep.{matrices_of};
ghost use Rattle.induce.specs.Induced.{IsStarOn};
ghost use Rattle.induce.specs.Tables.{ArePhases, HasPower, IsPhased, AreProducts};
ghost use Rattle.induce.specs.Wide.{IsWideEntry};

use crate::errors::ROOT_ORDER;
use cyclo24::{Field, Z24};
use kstar::Star;
use lin_alg::{LinError, Matrix};
use small_rep::CheckedRep;
use std::alloc::Global;
use super_group::Quotient;

/// z^a G(R), for the rotation R with this number.
fn phased_matrix(
    alloc: Global,
    rep: &CheckedRep,
    power: u8,
    rotation: usize,
) -> Result<Matrix<Z24>, LinError>
    requires listed { is_listed rep.now.rep.little rotation ≡ true }
    requires power { power < 24 }
    ensures phased { IfOk result (λ x. IsPhased rep.now.rep.size (matrices_of rep.now.rep) power rotation x) }
    ensures wide { result ≡ Err lin_error.Wide → IsWideMultiple z24 rep.now.rep.size (power_of power) (matrices_of rep.now.rep rotation) }
{
    let size = rep.size();
    let factor = Z24::root(power);
    let mut matrix = Matrix::new(alloc, size, size)?;
    for e in 0..size * size {
        match factor.mul(rep.get(rotation, e / size, e % size)) {
            Ok(entry) => matrix.set(e / size, e % size, entry),
            Err(_) => return Err(LinError::Wide),
        }
    }
    Ok(matrix)
}

/// Whether some translation has the phase z^a on the first arm.
fn has_power(quotient: &Quotient, star: &Star, phases: &[u8], power: u8) -> bool
    requires star { IsStarOn quotient.now star.now }
    requires phases { ArePhases quotient.now star.now phases.now (length star.now.by * length quotient.now.translations) }
    ensures yes { result ≡ true → HasPower quotient.now star.now power }
    ensures no { result ≡ false → HasPower quotient.now star.now power → ⊥ }
{
    for t in 0..quotient.translations().len() {
        if phases[t] == power {
            return true;
        }
    }
    false
}

/// Matrix d of the table: z^a G(R) for a = d / L and rotation d % L of the little group, L their
/// number; no matrix where no translation has the phase z^a.
fn product_at(
    alloc: Global,
    quotient: &Quotient,
    star: &Star,
    rep: &CheckedRep,
    phases: &[u8],
    d: usize,
) -> Result<Matrix<Z24>, LinError>
    requires star { IsStarOn quotient.now star.now }
    requires phases { ArePhases quotient.now star.now phases.now (length star.now.by * length quotient.now.translations) }
    requires little { rep.now.rep.little ≡ star.now.little }
    requires place { d < 24 * length star.now.little }
    ensures phased { IfOk result (λ x. HasPower quotient.now star.now (d / length star.now.little) → IsPhased rep.now.rep.size (matrices_of rep.now.rep) (d / length star.now.little) (slice_index star.now.little (d % length star.now.little)) x) }
    ensures wide { result ≡ Err lin_error.Wide → IsWideEntry quotient.now star.now rep.now.rep.size (matrices_of rep.now.rep) }
{
    let little = star.little();
    let power = (d / little.len()) as u8;
    if has_power(quotient, star, phases, power) {
        return phased_matrix(alloc, rep, power, little[d % little.len()]);
    }
    match Matrix::new(alloc, 0, 0) {
        Ok(none) => Ok(none),
        Err(_) => Err(LinError::NoMemory),
    }
}

/// The matrices z^a G(R), by a and then by the little group.
pub fn products(
    alloc: Global,
    quotient: &Quotient,
    star: &Star,
    rep: &CheckedRep,
    phases: &[u8],
) -> Result<Vec<Matrix<Z24>>, LinError>
    requires star { IsStarOn quotient.now star.now }
    requires phases { ArePhases quotient.now star.now phases.now (length star.now.by * length quotient.now.translations) }
    requires little { rep.now.rep.little ≡ star.now.little }
    ensures products { IfOk result (λ xs. AreProducts quotient.now star.now rep.now.rep.size (matrices_of rep.now.rep) xs.items (24 * length star.now.little)) }
    ensures wide { result ≡ Err lin_error.Wide → IsWideEntry quotient.now star.now rep.now.rep.size (matrices_of rep.now.rep) }
{
    let mut matrices: Vec<Matrix<Z24>> = Vec::new(alloc);
    for d in 0..usize::from(ROOT_ORDER) * star.little().len() {
        match product_at(alloc, quotient, star, rep, phases, d) {
            Ok(matrix) => match matrices.push(matrix) {
                Ok(()) => {}
                Err(_) => return Err(LinError::NoMemory),
            },
            Err(error) => return Err(error),
        }
    }
    Ok(matrices)
}
