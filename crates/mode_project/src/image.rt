// Images of vectors under elements, and sums of images.
ghost use Rattle.std.specs.Prelude.{true, ◌≡◌, ◌<◌, ◌≤◌, ◌+◌, ◌*◌, ℕ, [], Err, IfOk, OnOk, OnErr, length, slice_index_or};
ghost use Rattle.cyclo24.specs.Numerals.{of_whole};
ghost use Rattle.cyclo24.specs.Sums.{total};
ghost use Rattle.lin_alg.specs.Rows.{vector};
ghost use Rattle.lin_alg.specs.Matrix.{IsWideDot};
ghost use Rattle.lin_alg.specs.declared.errors.LinError.TheVariants as lin_error;
ghost use Rattle.mode_project.specs.AtomSpace.{IsAtomSpace, size_of};
ghost use Rattle.mode_project.specs.Turns.{IsTurnTable, IsOrbitIn};
ghost use Rattle.mode_project.specs.Parts.{IsPut, rows_in, row_in, AreVectors, image_row, turned_row};
ghost use Rattle.mode_project.specs.Wide.{IsWideImage};

use crate::rows::{add_turned_row, clear};
use crate::space::{OfSpace, add_turned_entry};
use crate::turns::Turns;
use cyclo24::{Field, Wide};
use lin_alg::{LinError, zeros};
use std::alloc::Global;
use wyckoff::Orbit;

// Row a of the matrix of q times the numbers of an atom, which begin at a place of the row.
#[inline(always)]
fn turned_number<S: OfSpace, F: Field>(
    turns: &Turns,
    q: usize,
    a: usize,
    row: &[F],
    first: usize,
) -> Result<F, Wide>
    requires table { IsTurnTable S.space turns.now }
    requires element { q < S.space.group.order }
    requires row { a < S.space.each }
    requires room { first + S.space.each ≤ length row.now }
    ensures exact { IfOk result (λ x. F.value x ≡ total F.field.laws S.space.each (λ b. F.field.laws.times (of_whole F.field.laws (S.space.turn q a b)) (vector F.field.laws F.value row.now (first + b)))) }
    ensures wide { OnErr result (IsWideDot F.field S.space.each (λ b. of_whole F.field.laws (S.space.turn q a b)) (λ b. vector F.field.laws F.value row.now (first + b))) }
{
    let mut sum = F::zero();
    for b in 0..turns.each {
        sum = add_turned_entry::<S, F>(sum, turns, q, a, b, row, first + b)?;
    }
    Ok(sum)
}

// Whether the numbers of an atom, which begin at a place of the row, are all 0.
#[inline(always)]
fn is_zero_block<F: Field>(row: &[F], first: usize, each: usize) -> bool
    requires room { first + each ≤ length row.now }
    ensures { (result ≡ true) → (b : ℕ) → b < each → vector F.field.laws F.value row.now (first + b) ≡ F.field.laws.nought }
{
    for b in 0..each {
        if !row[first + b].is_zero() {
            return false;
        }
    }
    true
}

// Writes the numbers of atom i, turned by q, at its image, where there are zeros.
fn write_atom<S: OfSpace, F: Field>(
    image: &mut [F],
    orbit: &Orbit,
    turns: &Turns,
    q: usize,
    i: usize,
    row: &[F],
) -> Result<(), Wide>
    requires laws { IsAtomSpace S.space }
    requires orbit { IsOrbitIn S.space orbit.now }
    requires table { IsTurnTable S.space turns.now }
    requires element { q < S.space.group.order }
    requires atom { i < S.space.atoms }
    requires room { length image.old ≡ size_of S.space }
    requires row { length row.now ≡ size_of S.space }
    requires zero { (a : ℕ) → a < S.space.each → vector F.field.laws F.value image.old (S.space.image q i * S.space.each + a) ≡ F.field.laws.nought }
    ensures exact { OnOk result (IsPut (vector F.field.laws F.value image.old) (S.space.image q i * S.space.each) S.space.each (λ a. total F.field.laws S.space.each (λ b. F.field.laws.times (of_whole F.field.laws (S.space.turn q a b)) (vector F.field.laws F.value row.now (i * S.space.each + b)))) (vector F.field.laws F.value image.new)) }
    ensures wide { OnErr result (IsWideImage F.field S.space q (vector F.field.laws F.value row.now)) }
{
    let from = i * turns.each;
    if is_zero_block(row, from, turns.each) {
        return Ok(());
    }
    let to = orbit.image(q, i) * turns.each;
    for a in 0..turns.each {
        image[to + a] = turned_number::<S, F>(turns, q, a, row, from)?;
    }
    Ok(())
}

// Writes M(q) row, atom by atom, in the place of zeros.
pub(crate) fn fill_image<S: OfSpace, F: Field>(
    image: &mut [F],
    orbit: &Orbit,
    turns: &Turns,
    q: usize,
    row: &[F],
) -> Result<(), Wide>
    requires laws { IsAtomSpace S.space }
    requires orbit { IsOrbitIn S.space orbit.now }
    requires table { IsTurnTable S.space turns.now }
    requires element { q < S.space.group.order }
    requires room { length image.old ≡ size_of S.space }
    requires row { length row.now ≡ size_of S.space }
    requires zero { (r : ℕ) → vector F.field.laws F.value image.old r ≡ F.field.laws.nought }
    ensures exact { OnOk result (vector F.field.laws F.value image.new ≡ image_row F.field.laws S.space q (vector F.field.laws F.value row.now)) }
    ensures wide { OnErr result (IsWideImage F.field S.space q (vector F.field.laws F.value row.now)) }
{
    for i in 0..orbit.atoms() {
        write_atom::<S, F>(image, orbit, turns, q, i, row)?;
    }
    Ok(())
}

// M(q) row.
fn moved_row<S: OfSpace, F: Field>(
    alloc: Global,
    orbit: &Orbit,
    turns: &Turns,
    q: usize,
    row: &[F],
) -> Result<Vec<F>, LinError>
    requires laws { IsAtomSpace S.space }
    requires orbit { IsOrbitIn S.space orbit.now }
    requires table { IsTurnTable S.space turns.now }
    requires element { q < S.space.group.order }
    requires row { length row.now ≡ size_of S.space }
    ensures len { IfOk result (λ v. length v.items ≡ size_of S.space) }
    ensures exact { IfOk result (λ v. vector F.field.laws F.value v.items ≡ image_row F.field.laws S.space q (vector F.field.laws F.value row.now)) }
    ensures wide { (result ≡ Err lin_error.Wide) → IsWideImage F.field S.space q (vector F.field.laws F.value row.now) }
{
    let mut image = zeros(alloc, row.len())?;
    match fill_image::<S, F>(&mut image, orbit, turns, q, row) {
        Ok(()) => Ok(image),
        Err(_) => Err(LinError::Wide),
    }
}

// M(q) row for each of the rows.
pub(crate) fn moved_rows<S: OfSpace, F: Field>(
    alloc: Global,
    orbit: &Orbit,
    turns: &Turns,
    q: usize,
    rows: &[Vec<F>],
) -> Result<Vec<Vec<F>>, LinError>
    requires laws { IsAtomSpace S.space }
    requires orbit { IsOrbitIn S.space orbit.now }
    requires table { IsTurnTable S.space turns.now }
    requires element { q < S.space.group.order }
    requires long { (b : ℕ) → b < length rows.now → length (slice_index_or (rows_in rows.now) b []) ≡ size_of S.space }
    ensures rows { IfOk result (λ vs. AreVectors F.field.laws F.value (size_of S.space) (λ b. image_row F.field.laws S.space q (row_in F.field.laws F.value (rows_in rows.now) b)) (rows_in vs.items) (length rows.now)) }
    ensures wide { (result ≡ Err lin_error.Wide) → (b : ℕ) × (b < length rows.now) × IsWideImage F.field S.space q (row_in F.field.laws F.value (rows_in rows.now) b) }
{
    let mut images = Vec::new(alloc);
    for row in rows {
        let image = match moved_row::<S, F>(alloc, orbit, turns, q, row) {
            Ok(image) => image,
            Err(error) => return Err(error),
        };
        match images.push(image) {
            Ok(()) => {}
            Err(_) => return Err(LinError::NoMemory),
        }
    }
    Ok(images)
}

// Writes the sum of the rows with the entries of column a of the matrix of p as factors, row by row.
pub(crate) fn fill_turned<S: OfSpace, F: Field>(
    into: &mut [F],
    turns: &Turns,
    p: usize,
    a: usize,
    rows: &[Vec<F>],
) -> Result<(), Wide>
    requires table { IsTurnTable S.space turns.now }
    requires element { p < S.space.group.order }
    requires column { a < S.space.each }
    requires count { length rows.now ≡ S.space.each }
    requires long { (b : ℕ) → b < S.space.each → length (slice_index_or (rows_in rows.now) b []) ≡ size_of S.space }
    requires room { length into.old ≡ size_of S.space }
    ensures exact { OnOk result (vector F.field.laws F.value into.new ≡ turned_row F.field.laws S.space p a (row_in F.field.laws F.value (rows_in rows.now))) }
    ensures wide { OnErr result ((r : ℕ) × (r < size_of S.space) × IsWideDot F.field S.space.each (λ b. of_whole F.field.laws (S.space.turn p b a)) (λ b. row_in F.field.laws F.value (rows_in rows.now) b r)) }
{
    clear(into);
    for b in 0..turns.each {
        add_turned_row::<S, F>(into, turns, p, b, a, &rows[b])?;
    }
    Ok(())
}
