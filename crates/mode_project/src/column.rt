// The columns of P for the first atom.
ghost use Rattle.std.specs.Prelude.{◌≡◌, ◌<◌, ◌≤◌, ◌+◌, ◌*◌, ℕ, Err, IfOk, OnOk, OnErr, length};
ghost use Rattle.lin_alg.specs.Rows.{vector};
ghost use Rattle.lin_alg.specs.Matrix.{IsWideTerm};
ghost use Rattle.lin_alg.specs.declared.errors.LinError.TheVariants as lin_error;
ghost use Rattle.wyckoff.specs.Orbit.{OrbitView};
ghost use Rattle.mode_project.specs.AtomSpace.{AtomSpace, IsAtomSpace, size_of, matrix_of};
ghost use Rattle.mode_project.specs.Projection.{projection, column_of};
ghost use Rattle.mode_project.specs.Turns.{IsTurnTable, IsOrbitIn};
ghost use Rattle.mode_project.specs.Wide.{IsWideColumn};

use crate::space::{OfSpace, add_turn};
use crate::turns::Turns;
use cyclo24::{Field, Wide};
use lin_alg::{LinError, zeros};
use std::alloc::Global;
use wyckoff::Orbit;

// Adds w times column b of M(q), which is 0 but for the rows of the image of the first atom.
fn add_turned<S: OfSpace, F: Field>(
    column: &mut [F],
    orbit: &Orbit,
    turns: &Turns,
    q: usize,
    b: usize,
    w: F,
) -> Result<(), Wide>
    requires laws { IsAtomSpace S.space }
    requires orbit { IsOrbitIn S.space orbit.now }
    requires table { IsTurnTable S.space turns.now }
    requires element { q < S.space.group.order }
    requires column { b < S.space.each }
    requires room { length column.old ≡ size_of S.space }
    ensures exact { OnOk result ((r : ℕ) → vector F.field.laws F.value column.new r ≡ F.field.laws.plus (vector F.field.laws F.value column.old r) (F.field.laws.times (F.value w) (matrix_of F.field.laws S.space q r b))) }
    ensures wide { OnErr result ((r : ℕ) × (r < size_of S.space) × IsWideTerm F.field (vector F.field.laws F.value column.old r) (matrix_of F.field.laws S.space q r b) (F.value w)) }
{
    if w.is_zero() {
        return Ok(());
    }
    let first = orbit.image(q, 0) * turns.each;
    for a in 0..turns.each {
        column[first + a] = add_turn::<S, F>(column[first + a], turns, q, a, b, w)?;
    }
    Ok(())
}

// Adds up column b of P.
fn fill_column<S: OfSpace, F: Field>(
    column: &mut [F],
    orbit: &Orbit,
    turns: &Turns,
    weights: &[F],
    b: usize,
) -> Result<(), Wide>
    requires laws { IsAtomSpace S.space }
    requires orbit { IsOrbitIn S.space orbit.now }
    requires table { IsTurnTable S.space turns.now }
    requires weights { length weights.now ≡ S.space.group.order }
    requires column { b < S.space.each }
    requires room { length column.old ≡ size_of S.space }
    requires zero { (r : ℕ) → vector F.field.laws F.value column.old r ≡ F.field.laws.nought }
    ensures exact { OnOk result (vector F.field.laws F.value column.new ≡ column_of F.field.laws (size_of S.space) (projection F.field.laws S.space (vector F.field.laws F.value weights.now)) b) }
    ensures wide { OnErr result (IsWideColumn F.field S.space (vector F.field.laws F.value weights.now)) }
{
    for q in 0..weights.len() {
        add_turned::<S, F>(column, orbit, turns, q, b, weights[q])?;
    }
    Ok(())
}

// Column b of P.
pub(crate) fn projected_column<S: OfSpace, F: Field>(
    alloc: Global,
    orbit: &Orbit,
    turns: &Turns,
    weights: &[F],
    b: usize,
) -> Result<Vec<F>, LinError>
    requires laws { IsAtomSpace S.space }
    requires orbit { IsOrbitIn S.space orbit.now }
    requires table { IsTurnTable S.space turns.now }
    requires weights { length weights.now ≡ S.space.group.order }
    requires column { b < S.space.each }
    ensures len { IfOk result (λ v. length v.items ≡ size_of S.space) }
    ensures exact { IfOk result (λ v. vector F.field.laws F.value v.items ≡ column_of F.field.laws (size_of S.space) (projection F.field.laws S.space (vector F.field.laws F.value weights.now)) b) }
    ensures wide { (result ≡ Err lin_error.Wide) → IsWideColumn F.field S.space (vector F.field.laws F.value weights.now) }
{
    let mut column = zeros(alloc, orbit.atoms() * turns.each)?;
    match fill_column::<S, F>(&mut column, orbit, turns, weights, b) {
        Ok(()) => Ok(column),
        Err(_) => Err(LinError::Wide),
    }
}
