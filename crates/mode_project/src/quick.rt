// The range of P by its rank: images of the columns for the first atom are inserted until it is reached.
ghost use Rattle.std.specs.Prelude.{◌≡◌, ◌<◌, ℕ, [], true, IfSome, OnOk, length, slice_index_or};
ghost use Rattle.lin_alg.specs.Matrices.{IsClassFunction};
ghost use Rattle.lin_alg.specs.Rows.{vector, exact_rows};
ghost use Rattle.lin_alg.specs.Echelon.{IsEchelon};
ghost use Rattle.mode_project.specs.AtomSpace.{IsAtomSpace, size_of};
ghost use Rattle.mode_project.specs.Projection.{projection, IsInRange, column_of, IsReducedFormOf};
ghost use Rattle.mode_project.specs.Turns.{IsTurnTable, IsOrbitIn, AreWays};
ghost use Rattle.mode_project.specs.Parts.{rows_in, row_in, AreVectors};
ghost use Rattle.mode_project.specs.Scaled.{IsInImages, IsInside};

use crate::image::fill_image;
use crate::insertion::insert;
use crate::rank::rank_of;
use crate::rows::clear;
use crate::space::OfSpace;
use crate::turns::Turns;
use cyclo24::Field;
use lin_alg::{Echelon, LinError, zeros};
use std::alloc::Global;
use wyckoff::Orbit;

// From one atom to the next that is taken. Neighbours in the order of places have images that are much
// alike, so far fewer insertions bring nothing new than in that order.
const STEP: usize = 29;

// Inserts M(q) times column b. The scratch row holds any values before and afterwards.
fn insert_image<S: OfSpace, F: Field>(
    form: &mut Echelon<F>,
    scratch: &mut [F],
    orbit: &Orbit,
    turns: &Turns,
    columns: &[Vec<F>],
    q: usize,
    b: usize,
) -> Result<(), LinError>
    requires laws { IsAtomSpace S.space }
    requires orbit { IsOrbitIn S.space orbit.now }
    requires table { IsTurnTable S.space turns.now }
    requires count { length columns.now ≡ S.space.each }
    requires long { (b : ℕ) → b < length columns.now → length (slice_index_or (rows_in columns.now) b []) ≡ size_of S.space }
    requires scratch { length scratch.old ≡ size_of S.space }
    requires element { q < S.space.group.order }
    requires column { b < S.space.each }
    requires inside { IsInside F.field.laws F.value (size_of S.space) (IsInImages F.field.laws S.space (row_in F.field.laws F.value (rows_in columns.now))) form.old }
    ensures inside { OnOk result (IsInside F.field.laws F.value (size_of S.space) (IsInImages F.field.laws S.space (row_in F.field.laws F.value (rows_in columns.now))) form.new) }
{
    clear(scratch);
    match fill_image::<S, F>(scratch, orbit, turns, q, &columns[b]) {
        Ok(()) => {}
        Err(_) => return Err(LinError::Wide),
    }
    match insert(form, scratch) {
        Ok(_) => Ok(()),
        Err(error) => Err(error),
    }
}

// Inserts M(q) times each column.
fn insert_images<S: OfSpace, F: Field>(
    form: &mut Echelon<F>,
    scratch: &mut [F],
    orbit: &Orbit,
    turns: &Turns,
    columns: &[Vec<F>],
    q: usize,
) -> Result<(), LinError>
    requires laws { IsAtomSpace S.space }
    requires orbit { IsOrbitIn S.space orbit.now }
    requires table { IsTurnTable S.space turns.now }
    requires count { length columns.now ≡ S.space.each }
    requires long { (b : ℕ) → b < length columns.now → length (slice_index_or (rows_in columns.now) b []) ≡ size_of S.space }
    requires scratch { length scratch.old ≡ size_of S.space }
    requires element { q < S.space.group.order }
    requires inside { IsInside F.field.laws F.value (size_of S.space) (IsInImages F.field.laws S.space (row_in F.field.laws F.value (rows_in columns.now))) form.old }
    ensures inside { OnOk result (IsInside F.field.laws F.value (size_of S.space) (IsInImages F.field.laws S.space (row_in F.field.laws F.value (rows_in columns.now))) form.new) }
{
    for b in 0..columns.len() {
        match insert_image::<S, F>(form, scratch, orbit, turns, columns, q, b) {
            Ok(()) => {}
            Err(error) => return Err(error),
        }
    }
    Ok(())
}

// Inserts images, atom by atom, until the form has as many rows as the rank, and tells whether it came to
// that.
fn insert_to_rank<S: OfSpace, F: Field>(
    form: &mut Echelon<F>,
    scratch: &mut [F],
    orbit: &Orbit,
    turns: &Turns,
    ways: &[(usize, usize)],
    columns: &[Vec<F>],
    rank: usize,
) -> bool
    requires laws { IsAtomSpace S.space }
    requires orbit { IsOrbitIn S.space orbit.now }
    requires table { IsTurnTable S.space turns.now }
    requires ways { AreWays S.space ways.now S.space.atoms }
    requires count { length columns.now ≡ S.space.each }
    requires long { (b : ℕ) → b < length columns.now → length (slice_index_or (rows_in columns.now) b []) ≡ size_of S.space }
    requires scratch { length scratch.old ≡ size_of S.space }
    requires inside { IsInside F.field.laws F.value (size_of S.space) (IsInImages F.field.laws S.space (row_in F.field.laws F.value (rows_in columns.now))) form.old }
    ensures inside { (result ≡ true) → IsInside F.field.laws F.value (size_of S.space) (IsInImages F.field.laws S.space (row_in F.field.laws F.value (rows_in columns.now))) form.new }
    ensures rank { (result ≡ true) → length form.new.rows ≡ rank }
{
    let mut i = 0;
    for _ in 0..ways.len() {
        match insert_images::<S, F>(form, scratch, orbit, turns, columns, ways[i].0) {
            Ok(()) => {}
            Err(_) => return false,
        }
        if form.len() == rank {
            return true;
        }
        i = (i + STEP) % ways.len();
    }
    false
}

// The reduced form of the range of P, from its columns for the first atom. None where an element other than
// the identity leaves an atom in its place (such an orbit has few atoms), where the rank isn't seen, a number
// is too wide, or want of memory.
pub(crate) fn quick_form<S: OfSpace, F: Field>(
    alloc: Global,
    orbit: &Orbit,
    turns: &Turns,
    ways: &[(usize, usize)],
    weights: &[F],
    columns: &[Vec<F>],
) -> Option<Echelon<F>>
    requires laws { IsAtomSpace S.space }
    requires orbit { IsOrbitIn S.space orbit.now }
    requires table { IsTurnTable S.space turns.now }
    requires ways { AreWays S.space ways.now S.space.atoms }
    requires weights { length weights.now ≡ S.space.group.order }
    requires class { IsClassFunction S.space.group (vector F.field.laws F.value weights.now) }
    requires columns { AreVectors F.field.laws F.value (size_of S.space) (column_of F.field.laws (size_of S.space) (projection F.field.laws S.space (vector F.field.laws F.value weights.now))) (rows_in columns.now) S.space.each }
    ensures width { IfSome result (λ form. form.width ≡ size_of S.space) }
    ensures whole { IfSome result (λ form. form.whole ≡ true) }
    ensures form { IfSome result (λ form. IsEchelon F.field.laws F.value form) }
    ensures range { IfSome result (λ form. IsReducedFormOf F.field.laws (size_of S.space) (IsInRange F.field.laws (size_of S.space) (projection F.field.laws S.space (vector F.field.laws F.value weights.now))) (exact_rows F.field.laws F.value form.rows)) }
{
    if orbit.atoms() != orbit.order() {
        return None;
    }
    let size = orbit.atoms() * turns.each;
    let rank = match rank_of::<S, F>(alloc, orbit, ways, weights, columns, size) {
        Some(rank) => rank,
        None => return None,
    };
    let mut scratch = match zeros(alloc, size) {
        Ok(scratch) => scratch,
        Err(_) => return None,
    };
    let mut form = Echelon::new(alloc, size);
    if insert_to_rank::<S, F>(&mut form, &mut scratch, orbit, turns, ways, columns, rank) {
        return Some(form);
    }
    None
}
