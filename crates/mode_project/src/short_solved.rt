// Amplitudes in short values first.
ghost use Rattle.std.specs.Prelude.{◌≡◌, ◌<◌, ◌^◌, ℕ, Err, IfOk, IfSome, length};
ghost use Rattle.cyclo24.specs.ExactK24.{Exact24, k24, k24_laws};
ghost use Rattle.cyclo24.specs.K24.{exact24};
ghost use Rattle.lin_alg.specs.Rows.{vector};
ghost use Rattle.lin_alg.specs.declared.errors.LinError.TheVariants as lin_error;
ghost use Rattle.mode_project.specs.Amplitudes.{AreAmplitudes, IsModeBasis, IsWideAmplitudes};
ghost use Rattle.mode_project.specs.Joined.{lines_in, joined_rows_in, AreLong};
ghost use Rattle.mode_project.specs.Modes.{all_modes, vector_at};

use crate::short::short_list;
use crate::solved::solved;
use cyclo24::{K24, Short, ShortK24};
use lin_alg::LinError;
use short_rows::lengthened;
use std::alloc::Global;

// The rows of the same exact values in short values, with their numbers. None where one isn't held, or
// memory is wanting.
fn short_lines<S: Short>(alloc: Global, rows: &[(usize, Vec<K24>)]) -> Option<Vec<(usize, Vec<S>)>>
    ensures rows { IfSome result (λ v. joined_rows_in k24_laws S.exact v.items ≡ joined_rows_in k24_laws exact24 rows.now) }
    ensures long { IfSome result (λ v. (n : ℕ) → AreLong n (lines_in rows.now) → AreLong n (lines_in v.items)) }
{
    let mut shorts = Vec::new(alloc);
    for row in rows {
        let short = match short_list(alloc, &row.1) {
            Some(short) => short,
            None => return None,
        };
        match shorts.push((row.0, short)) {
            Ok(()) => {}
            Err(_) => return None,
        }
    }
    Some(shorts)
}

// The factors of the rows and the unit vectors in the target, found in a short type. None where that is
// wide, or memory is wanting.
fn short_solved<S: Short>(
    alloc: Global,
    rows: &[(usize, Vec<K24>)],
    sites: &[usize],
    target: &[K24],
) -> Option<Vec<K24>>
    requires small { length target.now < 2 ^ 16 }
    requires long { AreLong (length target.now) (lines_in rows.now) }
    requires basis { IsModeBasis k24_laws (length target.now) (joined_rows_in k24_laws exact24 rows.now) sites.now }
    ensures count { IfSome result (λ v. length v.items ≡ length target.now) }
    ensures amplitudes { IfSome result (λ v. AreAmplitudes k24_laws (length target.now) (vector_at k24_laws (all_modes k24_laws (joined_rows_in k24_laws exact24 rows.now) sites.now)) (length target.now) (vector k24_laws exact24 target.now) (vector k24_laws exact24 v.items)) }
    ensures only { IfSome result (λ v. (b : ℕ → Exact24) → AreAmplitudes k24_laws (length target.now) (vector_at k24_laws (all_modes k24_laws (joined_rows_in k24_laws exact24 rows.now) sites.now)) (length target.now) (vector k24_laws exact24 target.now) b → (m : ℕ) → m < length target.now → b m ≡ vector k24_laws exact24 v.items m) }
{
    let lines = match short_lines::<S>(alloc, rows) {
        Some(lines) => lines,
        None => return None,
    };
    let aim = match short_list::<S>(alloc, target) {
        Some(aim) => aim,
        None => return None,
    };
    let factors = match solved(alloc, &lines, sites, &aim) {
        Ok(factors) => factors,
        Err(_) => return None,
    };
    match lengthened(alloc, &factors) {
        Ok(all) => Some(all),
        Err(_) => None,
    }
}

/// The factors of the rows, and behind them of the unit vectors at the sites, in the sum that is the
/// target, found in short values where these suffice. Condition: the rows and unit vectors are a basis,
/// and the sites rise.
pub(crate) fn solved_rows(
    alloc: Global,
    rows: &[(usize, Vec<K24>)],
    sites: &[usize],
    target: &[K24],
) -> Result<Vec<K24>, LinError>
    requires small { length target.now < 2 ^ 16 }
    requires long { AreLong (length target.now) (lines_in rows.now) }
    requires basis { IsModeBasis k24_laws (length target.now) (joined_rows_in k24_laws exact24 rows.now) sites.now }
    ensures count { IfOk result (λ v. length v.items ≡ length target.now) }
    ensures amplitudes { IfOk result (λ v. AreAmplitudes k24_laws (length target.now) (vector_at k24_laws (all_modes k24_laws (joined_rows_in k24_laws exact24 rows.now) sites.now)) (length target.now) (vector k24_laws exact24 target.now) (vector k24_laws exact24 v.items)) }
    ensures only { IfOk result (λ v. (b : ℕ → Exact24) → AreAmplitudes k24_laws (length target.now) (vector_at k24_laws (all_modes k24_laws (joined_rows_in k24_laws exact24 rows.now) sites.now)) (length target.now) (vector k24_laws exact24 target.now) b → (m : ℕ) → m < length target.now → b m ≡ vector k24_laws exact24 v.items m) }
    ensures wide { (result ≡ Err lin_error.Wide) → IsWideAmplitudes k24 (length target.now) (joined_rows_in k24_laws exact24 rows.now) sites.now (vector k24_laws exact24 target.now) }
{
    match short_solved::<ShortK24>(alloc, rows, sites, target) {
        Some(all) => Ok(all),
        None => solved(alloc, rows, sites, target),
    }
}
