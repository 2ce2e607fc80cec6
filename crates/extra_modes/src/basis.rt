// The modes of an orbit, a basis of its occupations or axial vectors.
ghost use Rattle.std.specs.Prelude.{◌≡◌, ◌≤◌, ℕ, Err, IfOk, length, map, take};
ghost use Rattle.std.specs.List.{All};
ghost use Rattle.cyclo24.specs.ExactK24.{k24, k24_laws};
ghost use Rattle.lin_alg.specs.Spans.{row_vectors, IsInSpan, AreSame};
ghost use Rattle.lin_alg.specs.Reduced.{IsWithin};
ghost use Rattle.lin_alg.specs.Solving.{AreIndependent, plain_rows};
ghost use Rattle.induce.specs.InducedView.{IsInducedOf};
ghost use Rattle.mode_project.specs.AtomSpace.{IsOrbit, size_of};
ghost use Rattle.mode_project.specs.Projection.{IsInSum};
ghost use Rattle.mode_project.specs.Modes.{AreModes, before_irrep};
ghost use Rattle.mode_project.specs.ModesView.{irrep_modes_in, count_in, mode_in};
ghost use Rattle.mode_project.specs.Weights.{exact_weights, weights_in};
ghost use Rattle.mode_project.specs.Wide.{IsWideModes};
ghost use Rattle.extra_modes.specs.ExtraSpace.{extra_space};
ghost use Rattle.extra_modes.specs.declared.errors.ExtraError.TheVariants as extra_error;

use crate::{ExtraError, Nature};
use induce::Induced;
use lin_alg::LinError;
use mode_project::{Modes, Weights, modes_in};
use std::alloc::Global;
use super_group::Quotient;
use wyckoff::Orbit;

// The number of the family of numbers of modes.
const FAMILY: u8 = 8;

/// The modes of an orbit: first those of irreps, in the order of the irreps, then unit vectors. A mode
/// has one number for each atom, or three along the cell edges; number a of atom i stands in column
/// c i + a, for c numbers an atom.
pub type ExtraModes = Modes;

/// A basis of the occupations or axial vectors of the atoms of an orbit. Condition: all are of this
/// quotient. Errors: a number of family 8 that is too wide; want of memory.
pub fn modes(
    alloc: Global,
    quotient: &Quotient,
    orbit: &Orbit,
    induced: &[Induced],
    nature: Nature,
) -> Result<ExtraModes, ExtraError>
    requires orbit { IsOrbit quotient.now orbit.now }
    requires induced { All (IsInducedOf quotient.now) induced.now }
    ensures modes { IfOk result (λ m. AreModes k24_laws (extra_space nature quotient.now orbit.now) (exact_weights (map weights_in induced.now)) (irrep_modes_in m) m.sites) }
    ensures size { IfOk result (λ m. m.size ≡ size_of (extra_space nature quotient.now orbit.now)) }
    ensures count { IfOk result (λ m. count_in m ≡ size_of (extra_space nature quotient.now orbit.now)) }
    ensures independent { IfOk result (λ m. AreIndependent k24_laws (count_in m) (mode_in m)) }
    ensures spanning { IfOk result (λ m. AreSame (IsInSpan k24_laws (plain_rows (mode_in m) (count_in m))) (IsWithin k24_laws (size_of (extra_space nature quotient.now orbit.now)))) }
    ensures sums { IfOk result (λ m. (j : ℕ) → j ≤ length induced.now → AreSame (IsInSpan k24_laws (row_vectors (before_irrep j (irrep_modes_in m)))) (IsInSum k24_laws (extra_space nature quotient.now orbit.now) (take j (exact_weights (map weights_in induced.now))))) }
    ensures wide { (f : ℕ) → (result ≡ Err (extra_error.Wide f)) → (f ≡ 8) × IsWideModes k24 (extra_space nature quotient.now orbit.now) (exact_weights (map weights_in induced.now)) }
    ensures unmatched { (line : ℕ) → (result ≡ Err (extra_error.Unmatched line)) → ⊥ }
    ensures ambiguous { (line : ℕ) → (result ≡ Err (extra_error.Ambiguous line)) → ⊥ }
{
    let weights = match Weights::new(alloc, induced) {
        Ok(weights) => weights,
        Err(_) => return Err(ExtraError::NoMemory),
    };
    match modes_in(alloc, quotient, orbit, &weights, &nature) {
        Ok(found) => Ok(found),
        Err(LinError::Wide) => Err(ExtraError::Wide(FAMILY)),
        Err(LinError::NoMemory) => Err(ExtraError::NoMemory),
    }
}
