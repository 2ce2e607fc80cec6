// The amplitudes of the modes of an orbit.
ghost use Rattle.std.specs.Prelude.{◌≡◌, ◌<◌, ◌*◌, ◌^◌, ℕ, ℤ, pos, [], ◌<ℤ◌, Err, IfOk, length, slice_index_or};
ghost use Rattle.cyclo24.specs.ExactK24.{Exact24, k24, k24_laws};
ghost use Rattle.cyclo24.specs.K24.{exact24};
ghost use Rattle.lin_alg.specs.Rows.{vector};
ghost use Rattle.lin_alg.specs.declared.errors.LinError.TheVariants as lin_error;
ghost use Rattle.mode_project.specs.Amplitudes.{AreAmplitudes, IsWideAmplitudes};
ghost use Rattle.mode_project.specs.ModesView.{irrep_modes_in, count_in, mode_in};
ghost use Rattle.mode_project.specs.OrbitAmplitudes.{quotient_of, in_wholes, displacement_of, AreModesOfSome};
ghost use Rattle.mode_project.specs.declared.errors.AmpError.TheVariants as amp_error;

use crate::errors::AMPLITUDE_FAMILY;
use crate::short_solved::solved_rows;
use crate::unit_numbers::AtomNumbers;
use crate::{AmpError, Modes};
use cyclo24::K24;
use distort_match::Shifts;
use iso_text::{NoMemory, UNITS_PER_EDGE};
use lin_alg::{LinError, Row};
use std::alloc::Global;

// n / d.
fn quotient(n: i64, d: i64) -> K24
    requires { pos 0 <ℤ d }
    ensures { exact24 result ≡ quotient_of k24_laws n d }
{
    K24::ratio(n, d)
}

// The numbers in the columns of an orbit, in wholes.
fn wholes<N: AtomNumbers>(
    alloc: Global,
    numbers: &N,
    orbit: usize,
    size: usize,
) -> Result<Vec<K24>, NoMemory>
    requires { N.columns numbers.now orbit ≡ size }
    ensures len { IfOk result (λ v. length v.items ≡ size) }
    ensures numbers { IfOk result (λ v. (c : ℕ) → c < size → vector k24_laws exact24 v.items c ≡ in_wholes (N.number numbers.now orbit) c) }
{
    let mut all = Vec::with_capacity(alloc, size)?;
    for column in 0..size {
        match all.push(quotient(numbers.number(orbit, column), UNITS_PER_EDGE)) {
            Ok(()) => {}
            Err(_) => return Err(NoMemory),
        }
    }
    Ok(all)
}

/// The amplitudes of modes, by number: their factors in the one sum that is the numbers of the atoms of
/// an orbit, in wholes. They aren't normalised. Condition: the modes are those of this orbit. Errors: a
/// number that is too wide; want of memory.
pub fn amplitudes_in<N: AtomNumbers>(
    alloc: Global,
    modes: &Modes,
    numbers: &N,
    orbit: usize,
) -> Result<Row<K24>, LinError>
    requires columns { N.columns numbers.now orbit ≡ modes.now.size }
    requires modes { AreModesOfSome modes.now }
    ensures count { IfOk result (λ a. length a ≡ count_in modes.now) }
    ensures amplitudes { IfOk result (λ a. AreAmplitudes k24_laws (count_in modes.now) (mode_in modes.now) modes.now.size (in_wholes (N.number numbers.now orbit)) (vector k24_laws exact24 a)) }
    ensures only { IfOk result (λ a. (b : ℕ → Exact24) → AreAmplitudes k24_laws (count_in modes.now) (mode_in modes.now) modes.now.size (in_wholes (N.number numbers.now orbit)) b → (m : ℕ) → m < count_in modes.now → b m ≡ vector k24_laws exact24 a m) }
    ensures wide { (result ≡ Err lin_error.Wide) → IsWideAmplitudes k24 modes.now.size (irrep_modes_in modes.now) modes.now.sites (in_wholes (N.number numbers.now orbit)) }
{
    let target = match wholes(alloc, numbers, orbit, modes.size()) {
        Ok(target) => target,
        Err(_) => return Err(LinError::NoMemory),
    };
    match solved_rows(alloc, modes.rows(), modes.sites(), &target) {
        Ok(all) => Ok(Row::from_vec(all)),
        Err(error) => Err(error),
    }
}

/// The amplitudes of the modes of an orbit, by number: the factors of the modes in the one sum that is
/// the displacement of its atoms, in cell edges. They aren't normalised. Condition: the modes are those
/// of this orbit. Errors: a number that is too wide; want of memory.
pub fn amplitudes(
    alloc: Global,
    modes: &Modes,
    shifts: &Shifts,
    orbit: usize,
) -> Result<Row<K24>, AmpError>
    requires orbit { orbit < length shifts.now }
    requires atoms { 3 * length (slice_index_or shifts.now orbit []) ≡ modes.now.size }
    requires modes { AreModesOfSome modes.now }
    ensures count { IfOk result (λ a. length a ≡ count_in modes.now) }
    ensures amplitudes { IfOk result (λ a. AreAmplitudes k24_laws (count_in modes.now) (mode_in modes.now) modes.now.size (displacement_of shifts.now orbit) (vector k24_laws exact24 a)) }
    ensures only { IfOk result (λ a. (b : ℕ → Exact24) → AreAmplitudes k24_laws (count_in modes.now) (mode_in modes.now) modes.now.size (displacement_of shifts.now orbit) b → (m : ℕ) → m < count_in modes.now → b m ≡ vector k24_laws exact24 a m) }
    ensures wide { (f : ℕ) → (result ≡ Err (amp_error.Wide f)) → (f ≡ 6) × IsWideAmplitudes k24 modes.now.size (irrep_modes_in modes.now) modes.now.sites (displacement_of shifts.now orbit) }
{
    match amplitudes_in(alloc, modes, shifts, orbit) {
        Ok(row) => Ok(row),
        Err(LinError::Wide) => Err(AmpError::Wide(AMPLITUDE_FAMILY)),
        Err(LinError::NoMemory) => Err(AmpError::NoMemory),
    }
}
