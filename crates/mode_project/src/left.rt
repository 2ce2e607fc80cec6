// The equations of the combinations of vectors that elements leave as they are.
ghost use Rattle.std.specs.Prelude.{◌≡◌, ◌<◌, ◌+◌, ◌*◌, ℕ, [], IsTrue, Err, IfOk, OnOk, OnErr, length, slice_index, slice_index_or};
ghost use Rattle.lin_alg.specs.Rows.{vector};
ghost use Rattle.lin_alg.specs.declared.errors.LinError.TheVariants as lin_error;
ghost use Rattle.mode_project.specs.AtomSpace.{IsAtomSpace, size_of};
ghost use Rattle.mode_project.specs.DirectionParts.{IsWideLeft};
ghost use Rattle.mode_project.specs.Parts.{rows_in, row_in, AreVectors, image_row, HoldsSpan};
ghost use Rattle.mode_project.specs.Turns.{IsTurnTable, IsOrbitIn};
ghost use Rattle.mode_project.specs.Wide.{left_row};

use crate::image::moved_rows;
use crate::insertion::insert;
use crate::space::OfSpace;
use crate::turns::Turns;
use cyclo24::{Field, Wide};
use lin_alg::{Echelon, LinError, zeros};
use std::alloc::Global;
use wyckoff::Orbit;

// Entry i of a less entry i of b.
fn difference<F: Field>(a: &[F], b: &[F], i: usize) -> Result<F, Wide>
    requires first { i < length a.now }
    requires second { i < length b.now }
    ensures exact { IfOk result (λ x. F.value x ≡ F.field.laws.plus (vector F.field.laws F.value a.now i) (F.field.laws.neg (vector F.field.laws F.value b.now i))) }
    ensures wide { OnErr result (IsTrue (F.field.is_wide_difference (vector F.field.laws F.value a.now i) (vector F.field.laws F.value b.now i))) }
{
    a[i].sub(b[i])
}

// Writes the differences of column i of the images and of the rows.
fn fill_left<F: Field>(
    row: &mut [F],
    images: &[Vec<F>],
    rows: &[Vec<F>],
    i: usize,
) -> Result<(), Wide>
    requires room { length row.old ≡ length rows.now }
    requires count { length images.now ≡ length rows.now }
    requires moved { (k : ℕ) → k < length rows.now → i < length (slice_index_or (rows_in images.now) k []) }
    requires long { (k : ℕ) → k < length rows.now → i < length (slice_index_or (rows_in rows.now) k []) }
    ensures exact { OnOk result ((k : ℕ) → k < length rows.now → vector F.field.laws F.value row.new k ≡ F.field.laws.plus (row_in F.field.laws F.value (rows_in images.now) k i) (F.field.laws.neg (row_in F.field.laws F.value (rows_in rows.now) k i))) }
    ensures wide { OnErr result ((k : ℕ) × (k < length rows.now) × IsTrue (F.field.is_wide_difference (row_in F.field.laws F.value (rows_in images.now) k i) (row_in F.field.laws F.value (rows_in rows.now) k i))) }
{
    for k in 0..row.len() {
        row[k] = difference(&images[k], &rows[k], i)?;
    }
    Ok(())
}

// Inserts entry i of the differences that element number n of the stabiliser makes.
fn insert_left<S: OfSpace, F: Field>(
    form: &mut Echelon<F>,
    row: &mut [F],
    images: &[Vec<F>],
    rows: &[Vec<F>],
    stab: &[usize],
    n: usize,
    i: usize,
) -> Result<(), LinError>
    requires element { n < length stab.now }
    requires column { i < size_of S.space }
    requires room { length row.old ≡ length rows.now }
    requires long { (k : ℕ) → k < length rows.now → length (slice_index_or (rows_in rows.now) k []) ≡ size_of S.space }
    requires images { AreVectors F.field.laws F.value (size_of S.space) (λ k. image_row F.field.laws S.space (slice_index stab.now n) (row_in F.field.laws F.value (rows_in rows.now) k)) (rows_in images.now) (length rows.now) }
    requires held { HoldsSpan F.field.laws F.value (length rows.now) (left_row F.field.laws S.space stab.now (row_in F.field.laws F.value (rows_in rows.now))) (n * size_of S.space + i) form.old }
    ensures held { OnOk result (HoldsSpan F.field.laws F.value (length rows.now) (left_row F.field.laws S.space stab.now (row_in F.field.laws F.value (rows_in rows.now))) (n * size_of S.space + (i + 1)) form.new) }
    ensures wide { (result ≡ Err lin_error.Wide) → IsWideLeft F.field S.space stab.now (length rows.now) (row_in F.field.laws F.value (rows_in rows.now)) }
{
    match fill_left(row, images, rows, i) {
        Ok(()) => {}
        Err(_) => return Err(LinError::Wide),
    }
    match insert(form, row) {
        Ok(_) => Ok(()),
        Err(error) => Err(error),
    }
}

// Inserts the differences that element number n of the stabiliser makes. The lent row is only room.
fn insert_element<S: OfSpace, F: Field>(
    alloc: Global,
    form: &mut Echelon<F>,
    row: &mut [F],
    orbit: &Orbit,
    turns: &Turns,
    rows: &[Vec<F>],
    stab: &[usize],
    n: usize,
) -> Result<(), LinError>
    requires laws { IsAtomSpace S.space }
    requires orbit { IsOrbitIn S.space orbit.now }
    requires table { IsTurnTable S.space turns.now }
    requires below { (k : ℕ) → k < length stab.now → slice_index stab.now k < S.space.group.order }
    requires element { n < length stab.now }
    requires room { length row.old ≡ length rows.now }
    requires long { (k : ℕ) → k < length rows.now → length (slice_index_or (rows_in rows.now) k []) ≡ size_of S.space }
    requires held { HoldsSpan F.field.laws F.value (length rows.now) (left_row F.field.laws S.space stab.now (row_in F.field.laws F.value (rows_in rows.now))) (n * size_of S.space) form.old }
    ensures held { OnOk result (HoldsSpan F.field.laws F.value (length rows.now) (left_row F.field.laws S.space stab.now (row_in F.field.laws F.value (rows_in rows.now))) ((n + 1) * size_of S.space) form.new) }
    ensures wide { (result ≡ Err lin_error.Wide) → IsWideLeft F.field S.space stab.now (length rows.now) (row_in F.field.laws F.value (rows_in rows.now)) }
{
    let images = match moved_rows::<S, F>(alloc, orbit, turns, stab[n], rows) {
        Ok(images) => images,
        Err(error) => return Err(error),
    };
    for i in 0..orbit.atoms() * turns.each {
        match insert_left::<S, F>(form, row, &images, rows, stab, n, i) {
            Ok(()) => {}
            Err(error) => return Err(error),
        }
    }
    Ok(())
}

// The form of the differences that the elements of the stabiliser make.
pub(crate) fn left_form<S: OfSpace, F: Field>(
    alloc: Global,
    orbit: &Orbit,
    turns: &Turns,
    rows: &[Vec<F>],
    stab: &[usize],
) -> Result<Echelon<F>, LinError>
    requires laws { IsAtomSpace S.space }
    requires orbit { IsOrbitIn S.space orbit.now }
    requires table { IsTurnTable S.space turns.now }
    requires below { (k : ℕ) → k < length stab.now → slice_index stab.now k < S.space.group.order }
    requires long { (k : ℕ) → k < length rows.now → length (slice_index_or (rows_in rows.now) k []) ≡ size_of S.space }
    ensures held { IfOk result (λ form. HoldsSpan F.field.laws F.value (length rows.now) (left_row F.field.laws S.space stab.now (row_in F.field.laws F.value (rows_in rows.now))) (length stab.now * size_of S.space) form) }
    ensures wide { (result ≡ Err lin_error.Wide) → IsWideLeft F.field S.space stab.now (length rows.now) (row_in F.field.laws F.value (rows_in rows.now)) }
{
    let mut form = Echelon::new(alloc, rows.len());
    let mut row = zeros(alloc, rows.len())?;
    for n in 0..stab.len() {
        match insert_element::<S, F>(alloc, &mut form, &mut row, orbit, turns, rows, stab, n) {
            Ok(()) => {}
            Err(error) => return Err(error),
        }
    }
    Ok(form)
}
