// The amplitudes of the modes of an orbit.
ghost use Rattle.std.specs.Prelude.{◌≡◌, ◌<◌, ℕ, Err, IfOk, length};
ghost use Rattle.cyclo24.specs.ExactK24.{Exact24, k24, k24_laws};
ghost use Rattle.cyclo24.specs.K24.{exact24};
ghost use Rattle.lin_alg.specs.Rows.{vector};
ghost use Rattle.mode_project.specs.Amplitudes.{AreAmplitudes, IsWideAmplitudes};
ghost use Rattle.mode_project.specs.ModesView.{irrep_modes_in, count_in, mode_in};
ghost use Rattle.mode_project.specs.OrbitAmplitudes.{AreModesOfSome};
ghost use Rattle.extra_modes.specs.Amounts.{amount_at};
ghost use Rattle.extra_modes.specs.ExtraAmplitudes.{columns_in, amounts_of};
ghost use Rattle.extra_modes.specs.declared.errors.ExtraError.TheVariants as extra_error;

use crate::{Amounts, ExtraError, ExtraModes};
use cyclo24::K24;
use lin_alg::{LinError, Row};
use mode_project::{AtomNumbers, amplitudes_in};
use std::alloc::Global;

// The number of the family of numbers of amplitudes.
const FAMILY: u8 = 9;

impl AtomNumbers for Amounts {
    ghost columns = { columns_in };

    ghost number = { amount_at };

    fn number(&self, orbit: usize, column: usize) -> i64 {
        self.of(orbit, column)
    }
}

/// The amplitudes of the modes of an orbit, by number: the factors of the modes in the one sum that is
/// the amounts of its atoms, in whole ones. They aren't normalised. Condition: the modes are those of
/// this orbit, and both are of one nature and of the same orbits. Errors: a number of family 9 that is
/// too wide; want of memory.
pub fn amplitudes(
    alloc: Global,
    modes: &ExtraModes,
    amounts: &Amounts,
    orbit: usize,
) -> Result<Row<K24>, ExtraError>
    requires orbit { orbit < length amounts.now.atoms }
    requires columns { columns_in amounts.now orbit ≡ modes.now.size }
    requires modes { AreModesOfSome modes.now }
    ensures count { IfOk result (λ a. length a ≡ count_in modes.now) }
    ensures amplitudes { IfOk result (λ a. AreAmplitudes k24_laws (count_in modes.now) (mode_in modes.now) modes.now.size (amounts_of amounts.now orbit) (vector k24_laws exact24 a)) }
    ensures only { IfOk result (λ a. (b : ℕ → Exact24) → AreAmplitudes k24_laws (count_in modes.now) (mode_in modes.now) modes.now.size (amounts_of amounts.now orbit) b → (m : ℕ) → m < count_in modes.now → b m ≡ vector k24_laws exact24 a m) }
    ensures wide { (f : ℕ) → (result ≡ Err (extra_error.Wide f)) → (f ≡ 9) × IsWideAmplitudes k24 modes.now.size (irrep_modes_in modes.now) modes.now.sites (amounts_of amounts.now orbit) }
    ensures unmatched { (line : ℕ) → (result ≡ Err (extra_error.Unmatched line)) → ⊥ }
    ensures ambiguous { (line : ℕ) → (result ≡ Err (extra_error.Ambiguous line)) → ⊥ }
{
    match amplitudes_in(alloc, modes, amounts, orbit) {
        Ok(row) => Ok(row),
        Err(LinError::Wide) => Err(ExtraError::Wide(FAMILY)),
        Err(LinError::NoMemory) => Err(ExtraError::NoMemory),
    }
}
