// The reduced form of the range of P, from its columns for the first atom.
ghost use Rattle.std.specs.Prelude.{◌≡◌, ◌<◌, ◌+◌, ◌*◌, ◌⊎◌, ℕ, [], true, Err, IfOk, OnOk, length, slice_index_or};
ghost use Rattle.lin_alg.specs.Matrices.{IsClassFunction};
ghost use Rattle.lin_alg.specs.Rows.{vector, exact_rows};
ghost use Rattle.lin_alg.specs.Solving.{IsWideIndependent};
ghost use Rattle.lin_alg.specs.Echelon.{IsEchelon};
ghost use Rattle.lin_alg.specs.declared.errors.LinError.TheVariants as lin_error;
ghost use Rattle.mode_project.specs.AtomSpace.{IsAtomSpace, size_of};
ghost use Rattle.mode_project.specs.Projection.{projection, IsInRange, column_of, IsReducedFormOf};
ghost use Rattle.mode_project.specs.Turns.{IsTurnTable, IsOrbitIn, AreWays};
ghost use Rattle.mode_project.specs.Parts.{rows_in, row_in, AreVectors, image_row, spread, HoldsSpan};
ghost use Rattle.mode_project.specs.Wide.{IsWideColumn, IsWideTurned, IsWideRange};
ghost use Rattle.mode_project.specs.WideParts.{IsWideSpread};

use crate::column::projected_column;
use crate::image::{fill_turned, moved_rows};
use crate::insertion::insert;
use crate::quick::quick_form;
use crate::space::OfSpace;
use crate::turns::Turns;
use cyclo24::Field;
use lin_alg::{Echelon, LinError, zeros};
use std::alloc::Global;
use wyckoff::Orbit;

// The columns of P for the first atom.
fn first_columns<S: OfSpace, F: Field>(
    alloc: Global,
    orbit: &Orbit,
    turns: &Turns,
    weights: &[F],
) -> Result<Vec<Vec<F>>, LinError>
    requires laws { IsAtomSpace S.space }
    requires orbit { IsOrbitIn S.space orbit.now }
    requires table { IsTurnTable S.space turns.now }
    requires weights { length weights.now ≡ S.space.group.order }
    ensures columns { IfOk result (λ vs. AreVectors F.field.laws F.value (size_of S.space) (column_of F.field.laws (size_of S.space) (projection F.field.laws S.space (vector F.field.laws F.value weights.now))) (rows_in vs.items) S.space.each) }
    ensures wide { (result ≡ Err lin_error.Wide) → IsWideColumn F.field S.space (vector F.field.laws F.value weights.now) }
{
    let mut columns = Vec::new(alloc);
    for b in 0..turns.each {
        let column = match projected_column::<S, F>(alloc, orbit, turns, weights, b) {
            Ok(column) => column,
            Err(error) => return Err(error),
        };
        match columns.push(column) {
            Ok(()) => {}
            Err(_) => return Err(LinError::NoMemory),
        }
    }
    Ok(columns)
}

// Inserts column a of atom i, from the images of the columns of the first atom. The scratch row holds any
// values before and afterwards.
fn insert_turned<S: OfSpace, F: Field>(
    form: &mut Echelon<F>,
    scratch: &mut [F],
    turns: &Turns,
    ways: &[(usize, usize)],
    columns: &[Vec<F>],
    images: &[Vec<F>],
    i: usize,
    a: usize,
) -> Result<(), LinError>
    requires laws { IsAtomSpace S.space }
    requires table { IsTurnTable S.space turns.now }
    requires ways { AreWays S.space ways.now S.space.atoms }
    requires atom { i < S.space.atoms }
    requires column { a < S.space.each }
    requires scratch { length scratch.old ≡ size_of S.space }
    requires images { AreVectors F.field.laws F.value (size_of S.space) (λ b. image_row F.field.laws S.space (slice_index_or ways.now i (0, 0)).0 (row_in F.field.laws F.value (rows_in columns.now) b)) (rows_in images.now) S.space.each }
    requires held { HoldsSpan F.field.laws F.value (size_of S.space) (spread F.field.laws S.space ways.now (row_in F.field.laws F.value (rows_in columns.now))) (i * S.space.each + a) form.old }
    ensures held { OnOk result (HoldsSpan F.field.laws F.value (size_of S.space) (spread F.field.laws S.space ways.now (row_in F.field.laws F.value (rows_in columns.now))) (i * S.space.each + (a + 1)) form.new) }
    ensures wide { (result ≡ Err lin_error.Wide) → IsWideTurned F.field S.space (row_in F.field.laws F.value (rows_in columns.now)) ⊎ IsWideIndependent F.field (size_of S.space) (spread F.field.laws S.space ways.now (row_in F.field.laws F.value (rows_in columns.now))) }
{
    match fill_turned::<S, F>(scratch, turns, ways[i].1, a, images) {
        Ok(()) => {}
        Err(_) => return Err(LinError::Wide),
    }
    match insert(form, scratch) {
        Ok(_) => Ok(()),
        Err(error) => Err(error),
    }
}

// Inserts the columns of atom i.
fn insert_atom<S: OfSpace, F: Field>(
    alloc: Global,
    form: &mut Echelon<F>,
    scratch: &mut [F],
    orbit: &Orbit,
    turns: &Turns,
    ways: &[(usize, usize)],
    columns: &[Vec<F>],
    i: usize,
) -> Result<(), LinError>
    requires laws { IsAtomSpace S.space }
    requires orbit { IsOrbitIn S.space orbit.now }
    requires table { IsTurnTable S.space turns.now }
    requires ways { AreWays S.space ways.now S.space.atoms }
    requires atom { i < S.space.atoms }
    requires count { length columns.now ≡ S.space.each }
    requires long { (b : ℕ) → b < length columns.now → length (slice_index_or (rows_in columns.now) b []) ≡ size_of S.space }
    requires scratch { length scratch.old ≡ size_of S.space }
    requires held { HoldsSpan F.field.laws F.value (size_of S.space) (spread F.field.laws S.space ways.now (row_in F.field.laws F.value (rows_in columns.now))) (i * S.space.each) form.old }
    ensures held { OnOk result (HoldsSpan F.field.laws F.value (size_of S.space) (spread F.field.laws S.space ways.now (row_in F.field.laws F.value (rows_in columns.now))) ((i + 1) * S.space.each) form.new) }
    ensures wide { (result ≡ Err lin_error.Wide) → IsWideSpread F.field S.space ways.now (row_in F.field.laws F.value (rows_in columns.now)) }
{
    let images = match moved_rows::<S, F>(alloc, orbit, turns, ways[i].0, columns) {
        Ok(images) => images,
        Err(error) => return Err(error),
    };
    for a in 0..turns.each {
        match insert_turned::<S, F>(form, scratch, turns, ways, columns, &images, i, a) {
            Ok(()) => {}
            Err(error) => return Err(error),
        }
    }
    Ok(())
}

// Inserts the columns of all atoms.
fn insert_atoms<S: OfSpace, F: Field>(
    alloc: Global,
    form: &mut Echelon<F>,
    scratch: &mut [F],
    orbit: &Orbit,
    turns: &Turns,
    ways: &[(usize, usize)],
    columns: &[Vec<F>],
) -> Result<(), LinError>
    requires laws { IsAtomSpace S.space }
    requires orbit { IsOrbitIn S.space orbit.now }
    requires table { IsTurnTable S.space turns.now }
    requires ways { AreWays S.space ways.now S.space.atoms }
    requires count { length columns.now ≡ S.space.each }
    requires long { (b : ℕ) → b < length columns.now → length (slice_index_or (rows_in columns.now) b []) ≡ size_of S.space }
    requires scratch { length scratch.old ≡ size_of S.space }
    requires held { HoldsSpan F.field.laws F.value (size_of S.space) (spread F.field.laws S.space ways.now (row_in F.field.laws F.value (rows_in columns.now))) 0 form.old }
    ensures held { OnOk result (HoldsSpan F.field.laws F.value (size_of S.space) (spread F.field.laws S.space ways.now (row_in F.field.laws F.value (rows_in columns.now))) (size_of S.space) form.new) }
    ensures wide { (result ≡ Err lin_error.Wide) → IsWideSpread F.field S.space ways.now (row_in F.field.laws F.value (rows_in columns.now)) }
{
    for i in 0..ways.len() {
        match insert_atom::<S, F>(alloc, form, scratch, orbit, turns, ways, columns, i) {
            Ok(()) => {}
            Err(error) => return Err(error),
        }
    }
    Ok(())
}

// The form of the columns of all atoms.
fn spread_form<S: OfSpace, F: Field>(
    alloc: Global,
    orbit: &Orbit,
    turns: &Turns,
    ways: &[(usize, usize)],
    columns: &[Vec<F>],
) -> Result<Echelon<F>, LinError>
    requires laws { IsAtomSpace S.space }
    requires orbit { IsOrbitIn S.space orbit.now }
    requires table { IsTurnTable S.space turns.now }
    requires ways { AreWays S.space ways.now S.space.atoms }
    requires count { length columns.now ≡ S.space.each }
    requires long { (b : ℕ) → b < length columns.now → length (slice_index_or (rows_in columns.now) b []) ≡ size_of S.space }
    ensures held { IfOk result (λ form. HoldsSpan F.field.laws F.value (size_of S.space) (spread F.field.laws S.space ways.now (row_in F.field.laws F.value (rows_in columns.now))) (size_of S.space) form) }
    ensures wide { (result ≡ Err lin_error.Wide) → IsWideSpread F.field S.space ways.now (row_in F.field.laws F.value (rows_in columns.now)) }
{
    let mut scratch = zeros(alloc, orbit.atoms() * turns.each)?;
    let mut form = Echelon::new(alloc, orbit.atoms() * turns.each);
    match insert_atoms::<S, F>(alloc, &mut form, &mut scratch, orbit, turns, ways, columns) {
        Ok(()) => Ok(form),
        Err(error) => Err(error),
    }
}

// The reduced form of the range of P.
pub(crate) fn range_form<S: OfSpace, F: Field>(
    alloc: Global,
    orbit: &Orbit,
    turns: &Turns,
    ways: &[(usize, usize)],
    weights: &[F],
) -> Result<Echelon<F>, LinError>
    requires laws { IsAtomSpace S.space }
    requires orbit { IsOrbitIn S.space orbit.now }
    requires table { IsTurnTable S.space turns.now }
    requires ways { AreWays S.space ways.now S.space.atoms }
    requires weights { length weights.now ≡ S.space.group.order }
    requires class { IsClassFunction S.space.group (vector F.field.laws F.value weights.now) }
    ensures width { IfOk result (λ form. form.width ≡ size_of S.space) }
    ensures whole { IfOk result (λ form. form.whole ≡ true) }
    ensures form { IfOk result (λ form. IsEchelon F.field.laws F.value form) }
    ensures range { IfOk result (λ form. IsReducedFormOf F.field.laws (size_of S.space) (IsInRange F.field.laws (size_of S.space) (projection F.field.laws S.space (vector F.field.laws F.value weights.now))) (exact_rows F.field.laws F.value form.rows)) }
    ensures wide { (result ≡ Err lin_error.Wide) → IsWideRange F.field S.space (vector F.field.laws F.value weights.now) }
{
    let columns = match first_columns::<S, F>(alloc, orbit, turns, weights) {
        Ok(columns) => columns,
        Err(error) => return Err(error),
    };
    match quick_form::<S, F>(alloc, orbit, turns, ways, weights, &columns) {
        Some(form) => return Ok(form),
        None => {}
    }
    match spread_form::<S, F>(alloc, orbit, turns, ways, &columns) {
        Ok(form) => Ok(form),
        Err(error) => Err(error),
    }
}
