// The modes of an irrep for a direction.
ghost use Rattle.std.specs.Prelude.{◌≡◌, ◌<◌, ◌*◌, ℕ, List, Err, IfOk, IfSome, true, length, slice_index};
ghost use Rattle.algebra.specs.Subgroup.{IsSubgroup};
ghost use Rattle.cyclo24.specs.ExactField.{Value};
ghost use Rattle.cyclo24.specs.ExactK24.{Exact24, k24, k24_laws};
ghost use Rattle.cyclo24.specs.K24.{exact24};
ghost use Rattle.lin_alg.specs.Matrices.{IsClassFunction};
ghost use Rattle.lin_alg.specs.Matrix.{entry};
ghost use Rattle.lin_alg.specs.Rows.{vector, exact_rows};
ghost use Rattle.lin_alg.specs.Spans.{row_vectors};
ghost use Rattle.lin_alg.specs.declared.errors.LinError.TheVariants as lin_error;
ghost use Rattle.super_group.specs.Quotient.{order_of, quotient_group};
ghost use Rattle.mode_project.specs.AtomSpace.{IsAtomSpace, IsOrbit, size_of, displacements};
ghost use Rattle.mode_project.specs.DirectionModes.{AreModesOf};
ghost use Rattle.mode_project.specs.DirectionParts.{IsModeTable};
ghost use Rattle.mode_project.specs.Modes.{vector_at};
ghost use Rattle.mode_project.specs.Parts.{rows_in, AreVectors};
ghost use Rattle.mode_project.specs.Projection.{projection, IsInRange, IsReducedFormOf};
ghost use Rattle.mode_project.specs.Turns.{IsTurnTable, IsOrbitIn, AreWays};
ghost use Rattle.mode_project.specs.Weights.{exact_weights, AreWeights};
ghost use Rattle.mode_project.specs.Wide.{IsWideDirection, IsWideModesOf};
ghost use Rattle.mode_project.specs.declared.errors.ModeError.TheVariants as mode_error;

use crate::combined::combined_form;
use crate::errors::FAMILY;
use crate::laws::law_of_displacements;
use crate::left::left_form;
use crate::quantity::PolarVector;
use crate::range::range_form;
use crate::rotations::{turns_of, ways_to};
use crate::short::{lengthened_table, short_list};
use crate::space::OfSpace;
use crate::table::{rows_of, table_of};
use crate::turns::Turns;
use crate::{ModeError, Weights};
use cyclo24::{Field, K24, Short, ShortK24};
use lin_alg::{Echelon, LinError, Matrix};
use std::alloc::Global;
use std::marker::Brand;
use super_group::Quotient;
use wyckoff::Orbit;

// The reduced form of the vectors of a range, which has these rows, that each element of the stabiliser
// leaves as they are.
fn left_of_rows<S: OfSpace, F: Field>(
    alloc: Global,
    orbit: &Orbit,
    turns: &Turns,
    range: &Echelon<F>,
    rows: &[Vec<F>],
    stab: &[usize],
) -> Result<Echelon<F>, LinError>
    requires laws { IsAtomSpace S.space }
    requires orbit { IsOrbitIn S.space orbit.now }
    requires table { IsTurnTable S.space turns.now }
    requires below { (k : ℕ) → k < length stab.now → slice_index stab.now k < S.space.group.order }
    requires width { range.now.width ≡ size_of S.space }
    requires whole { range.now.whole ≡ true }
    requires rows { AreVectors F.field.laws F.value range.now.width (vector_at F.field.laws (row_vectors (exact_rows F.field.laws F.value range.now.rows))) (rows_in rows.now) (length range.now.rows) }
    ensures width { IfOk result (λ form. form.width ≡ size_of S.space) }
    ensures left { IfOk result (λ form. (w : ℕ → Value F.field) → IsReducedFormOf F.field.laws (size_of S.space) (IsInRange F.field.laws (size_of S.space) (projection F.field.laws S.space w)) (exact_rows F.field.laws F.value range.now.rows) → AreModesOf F.field.laws S.space w stab.now (exact_rows F.field.laws F.value form.rows)) }
    ensures wide { (result ≡ Err lin_error.Wide) → IsWideDirection F.field S.space stab.now (exact_rows F.field.laws F.value range.now.rows) }
{
    let _whole = range.is_whole();
    let _atoms = orbit.atoms();
    let lefts = match left_form::<S, F>(alloc, orbit, turns, rows, stab) {
        Ok(lefts) => lefts,
        Err(error) => return Err(error),
    };
    let basis = lefts.free_basis(alloc)?;
    match combined_form(alloc, range.width(), &basis, rows) {
        Ok(form) => Ok(form),
        Err(error) => Err(error),
    }
}

// The reduced form of the vectors of a range that each element of the stabiliser leaves as they are.
fn left_in<S: OfSpace, F: Field>(
    alloc: Global,
    orbit: &Orbit,
    turns: &Turns,
    range: &Echelon<F>,
    stab: &[usize],
) -> Result<Echelon<F>, LinError>
    requires laws { IsAtomSpace S.space }
    requires orbit { IsOrbitIn S.space orbit.now }
    requires table { IsTurnTable S.space turns.now }
    requires below { (k : ℕ) → k < length stab.now → slice_index stab.now k < S.space.group.order }
    requires width { range.now.width ≡ size_of S.space }
    requires whole { range.now.whole ≡ true }
    ensures width { IfOk result (λ form. form.width ≡ size_of S.space) }
    ensures left { IfOk result (λ form. (w : ℕ → Value F.field) → IsReducedFormOf F.field.laws (size_of S.space) (IsInRange F.field.laws (size_of S.space) (projection F.field.laws S.space w)) (exact_rows F.field.laws F.value range.now.rows) → AreModesOf F.field.laws S.space w stab.now (exact_rows F.field.laws F.value form.rows)) }
    ensures wide { (result ≡ Err lin_error.Wide) → IsWideDirection F.field S.space stab.now (exact_rows F.field.laws F.value range.now.rows) }
{
    let rows = match rows_of(alloc, range) {
        Ok(rows) => rows,
        Err(error) => return Err(error),
    };
    match left_of_rows::<S, F>(alloc, orbit, turns, range, &rows, stab) {
        Ok(form) => Ok(form),
        Err(error) => Err(error),
    }
}

// The reduced form of the modes.
fn direction_form<S: OfSpace, F: Field>(
    alloc: Global,
    orbit: &Orbit,
    turns: &Turns,
    ways: &[(usize, usize)],
    weights: &[F],
    stab: &[usize],
) -> Result<Echelon<F>, LinError>
    requires laws { IsAtomSpace S.space }
    requires orbit { IsOrbitIn S.space orbit.now }
    requires table { IsTurnTable S.space turns.now }
    requires ways { AreWays S.space ways.now S.space.atoms }
    requires weights { length weights.now ≡ S.space.group.order }
    requires class { IsClassFunction S.space.group (vector F.field.laws F.value weights.now) }
    requires below { (k : ℕ) → k < length stab.now → slice_index stab.now k < S.space.group.order }
    ensures width { IfOk result (λ form. form.width ≡ size_of S.space) }
    ensures modes { IfOk result (λ form. AreModesOf F.field.laws S.space (vector F.field.laws F.value weights.now) stab.now (exact_rows F.field.laws F.value form.rows)) }
    ensures wide { (result ≡ Err lin_error.Wide) → IsWideModesOf F.field S.space (vector F.field.laws F.value weights.now) stab.now }
{
    let range = match range_form::<S, F>(alloc, orbit, turns, ways, weights) {
        Ok(range) => range,
        Err(error) => return Err(error),
    };
    match left_in::<S, F>(alloc, orbit, turns, &range, stab) {
        Ok(form) => Ok(form),
        Err(error) => Err(error),
    }
}

// The reduced form of the modes that are displacements.
fn displaced_form<S: OfSpace, F: Field>(
    alloc: Global,
    quotient: &Quotient,
    orbit: &Orbit,
    weights: &[F],
    stab: &[usize],
) -> Result<Echelon<F>, LinError>
    requires space { S.space ≡ displacements quotient.now orbit.now }
    requires orbit { IsOrbit quotient.now orbit.now }
    requires weights { length weights.now ≡ order_of quotient.now }
    requires class { IsClassFunction (quotient_group quotient.now) (vector F.field.laws F.value weights.now) }
    requires below { (k : ℕ) → k < length stab.now → slice_index stab.now k < order_of quotient.now }
    ensures width { IfOk result (λ form. form.width ≡ length orbit.now.places * 3) }
    ensures modes { IfOk result (λ form. AreModesOf F.field.laws (displacements quotient.now orbit.now) (vector F.field.laws F.value weights.now) stab.now (exact_rows F.field.laws F.value form.rows)) }
    ensures wide { (result ≡ Err lin_error.Wide) → IsWideModesOf F.field (displacements quotient.now orbit.now) (vector F.field.laws F.value weights.now) stab.now }
{
    let _order = quotient.order();
    law_of_displacements();
    let turns = match turns_of(alloc, quotient, &PolarVector) {
        Ok(turns) => turns,
        Err(_) => return Err(LinError::NoMemory),
    };
    let ways = match ways_to(alloc, quotient, orbit) {
        Ok(ways) => ways,
        Err(_) => return Err(LinError::NoMemory),
    };
    match direction_form::<S, F>(alloc, orbit, &turns, &ways, weights, stab) {
        Ok(form) => Ok(form),
        Err(error) => Err(error),
    }
}

// The modes that are displacements, as rows, found in a short type. None where that is wide, or memory is
// wanting.
fn short_table<S: Short>(
    alloc: Global,
    quotient: &Quotient,
    orbit: &Orbit,
    weights: &[K24],
    stab: &[usize],
) -> Option<Matrix<K24>>
    requires orbit { IsOrbit quotient.now orbit.now }
    requires weights { length weights.now ≡ order_of quotient.now }
    requires class { IsClassFunction (quotient_group quotient.now) (vector k24_laws exact24 weights.now) }
    requires below { (k : ℕ) → k < length stab.now → slice_index stab.now k < order_of quotient.now }
    ensures cols { IfSome result (λ m. m.cols ≡ length orbit.now.places * 3) }
    ensures modes { IfSome result (λ m. IsModeTable k24_laws exact24 (displacements quotient.now orbit.now) (vector k24_laws exact24 weights.now) stab.now m) }
{
    let _atoms = orbit.atoms();
    let short = match short_list::<S>(alloc, weights) {
        Some(short) => short,
        None => return None,
    };
    let form = match displaced_form::<Brand, S>(alloc, quotient, orbit, &short, stab) {
        Ok(form) => form,
        Err(_) => return None,
    };
    match lengthened_table(alloc, &form) {
        Ok(table) => Some(table),
        Err(_) => None,
    }
}

// The modes that are displacements, as rows, found in `K24`.
fn long_table(
    alloc: Global,
    quotient: &Quotient,
    orbit: &Orbit,
    weights: &[K24],
    stab: &[usize],
) -> Result<Matrix<K24>, LinError>
    requires orbit { IsOrbit quotient.now orbit.now }
    requires weights { length weights.now ≡ order_of quotient.now }
    requires class { IsClassFunction (quotient_group quotient.now) (vector k24_laws exact24 weights.now) }
    requires below { (k : ℕ) → k < length stab.now → slice_index stab.now k < order_of quotient.now }
    ensures cols { IfOk result (λ m. m.cols ≡ length orbit.now.places * 3) }
    ensures modes { IfOk result (λ m. IsModeTable k24_laws exact24 (displacements quotient.now orbit.now) (vector k24_laws exact24 weights.now) stab.now m) }
    ensures wide { (result ≡ Err lin_error.Wide) → IsWideModesOf k24 (displacements quotient.now orbit.now) (vector k24_laws exact24 weights.now) stab.now }
{
    let _atoms = orbit.atoms();
    let form = match displaced_form::<Brand, K24>(alloc, quotient, orbit, weights, stab) {
        Ok(form) => form,
        Err(error) => return Err(error),
    };
    match table_of(alloc, &form) {
        Ok(table) => Ok(table),
        Err(_) => Err(LinError::NoMemory),
    }
}

// The modes that are displacements, as rows, found in short values where these suffice.
fn displaced_table(
    alloc: Global,
    quotient: &Quotient,
    orbit: &Orbit,
    weights: &[K24],
    stab: &[usize],
) -> Result<Matrix<K24>, LinError>
    requires orbit { IsOrbit quotient.now orbit.now }
    requires weights { length weights.now ≡ order_of quotient.now }
    requires class { IsClassFunction (quotient_group quotient.now) (vector k24_laws exact24 weights.now) }
    requires below { (k : ℕ) → k < length stab.now → slice_index stab.now k < order_of quotient.now }
    ensures cols { IfOk result (λ m. m.cols ≡ length orbit.now.places * 3) }
    ensures modes { IfOk result (λ m. IsModeTable k24_laws exact24 (displacements quotient.now orbit.now) (vector k24_laws exact24 weights.now) stab.now m) }
    ensures wide { (result ≡ Err lin_error.Wide) → IsWideModesOf k24 (displacements quotient.now orbit.now) (vector k24_laws exact24 weights.now) stab.now }
{
    match short_table::<ShortK24>(alloc, quotient, orbit, weights, stab) {
        Some(table) => Ok(table),
        None => long_table(alloc, quotient, orbit, weights, stab),
    }
}

/// The modes of irrep `which` that each element of the stabiliser leaves as they are, as rows.
/// Condition: the orbit and the weights are of this quotient, there is an irrep `which`, and `stab` is a
/// subgroup of the quotient. Errors: a number that is too wide; want of memory.
pub fn modes_of(
    alloc: Global,
    quotient: &Quotient,
    orbit: &Orbit,
    weights: &Weights,
    which: usize,
    stab: &[usize],
) -> Result<Matrix<K24>, ModeError>
    requires orbit { IsOrbit quotient.now orbit.now }
    requires weights { AreWeights quotient.now weights.now }
    requires irrep { which < length weights.now }
    requires stabiliser { IsSubgroup (quotient_group quotient.now) stab.now }
    ensures cols { IfOk result (λ m. m.cols ≡ length orbit.now.places * 3) }
    ensures modes { IfOk result (λ m. (rs : List (ℕ × (ℕ → Exact24))) × AreModesOf k24_laws (displacements quotient.now orbit.now) (vector_at k24_laws (exact_weights weights.now) which) stab.now rs × (length rs ≡ m.rows) × ((i : ℕ) → i < m.rows → entry k24_laws exact24 m i ≡ vector_at k24_laws (row_vectors rs) i)) }
    ensures wide { (f : ℕ) → (result ≡ Err (mode_error.Wide f)) → (f ≡ 5) × IsWideModesOf k24 (displacements quotient.now orbit.now) (vector_at k24_laws (exact_weights weights.now) which) stab.now }
{
    let lists = weights.lists();
    match displaced_table(alloc, quotient, orbit, &lists[which], stab) {
        Ok(table) => Ok(table),
        Err(LinError::Wide) => Err(ModeError::Wide(FAMILY)),
        Err(LinError::NoMemory) => Err(ModeError::NoMemory),
    }
}
