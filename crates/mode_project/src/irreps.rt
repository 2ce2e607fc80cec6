// The modes of all irreps.
ghost use Rattle.std.specs.Prelude.{◌≡◌, ◌<◌, ◌⊎◌, ℕ, List, [], Err, IfOk, length, map, slice_index_or};
ghost use Rattle.cyclo24.specs.ExactField.{Value};
ghost use Rattle.lin_alg.specs.Matrices.{IsClassFunction};
ghost use Rattle.lin_alg.specs.Rows.{vector};
ghost use Rattle.lin_alg.specs.declared.errors.LinError.TheVariants as lin_error;
ghost use Rattle.mode_project.specs.AtomSpace.{IsAtomSpace, size_of};
ghost use Rattle.mode_project.specs.Projection.{projection, IsInRange, IsReducedFormOf};
ghost use Rattle.mode_project.specs.Modes.{marked, AreKept, AreIrrepModes};
ghost use Rattle.mode_project.specs.Turns.{IsTurnTable, IsOrbitIn, AreWays};
ghost use Rattle.mode_project.specs.Parts.{rows_in};
ghost use Rattle.mode_project.specs.Joined.{IsJoined, joined_rows_in};
ghost use Rattle.mode_project.specs.WideParts.{IsWideRows};
ghost use Rattle.mode_project.specs.Wide.{IsWideRange, IsWideModes};

use crate::joint::{Joint, with_range};
use crate::range::range_form;
use crate::space::OfSpace;
use crate::turns::Turns;
use cyclo24::Field;
use lin_alg::{Echelon, LinError};
use std::alloc::Global;
use wyckoff::Orbit;

// The modes with those of irrep j, which has these weights.
fn with_irrep<S: OfSpace, F: Field>(
    alloc: Global,
    joint: Joint<F>,
    orbit: &Orbit,
    turns: &Turns,
    ways: &[(usize, usize)],
    weights: &[F],
    j: usize,
) -> Result<Joint<F>, LinError>
    requires laws { IsAtomSpace S.space }
    requires orbit { IsOrbitIn S.space orbit.now }
    requires table { IsTurnTable S.space turns.now }
    requires ways { AreWays S.space ways.now S.space.atoms }
    requires weights { length weights.now ≡ S.space.group.order }
    requires class { IsClassFunction S.space.group (vector F.field.laws F.value weights.now) }
    requires joined { IsJoined F.field.laws F.value joint.form joint.rows.items }
    requires width { joint.form.width ≡ size_of S.space }
    ensures joined { IfOk result (λ more. IsJoined F.field.laws F.value more.form more.rows.items) }
    ensures width { IfOk result (λ more. more.form.width ≡ size_of S.space) }
    ensures kept { IfOk result (λ more. (rs : List (ℕ × (ℕ → Value F.field))) × IsReducedFormOf F.field.laws (size_of S.space) (IsInRange F.field.laws (size_of S.space) (projection F.field.laws S.space (vector F.field.laws F.value weights.now))) rs × AreKept F.field.laws (joined_rows_in F.field.laws F.value joint.rows.items) (marked j rs) (joined_rows_in F.field.laws F.value more.rows.items)) }
    ensures wide { (result ≡ Err lin_error.Wide) → IsWideRange F.field S.space (vector F.field.laws F.value weights.now) ⊎ ((rs : List (ℕ × (ℕ → Value F.field))) × IsReducedFormOf F.field.laws (size_of S.space) (IsInRange F.field.laws (size_of S.space) (projection F.field.laws S.space (vector F.field.laws F.value weights.now))) rs × IsWideRows F.field (joined_rows_in F.field.laws F.value joint.rows.items) (marked j rs)) }
{
    let range = match range_form::<S, F>(alloc, orbit, turns, ways, weights) {
        Ok(range) => range,
        Err(error) => return Err(error),
    };
    match with_range(alloc, joint, j, &range) {
        Ok(more) => Ok(more),
        Err(error) => Err(error),
    }
}

// The modes of all irreps, and the reduced form of their span.
pub(crate) fn irrep_modes<S: OfSpace, F: Field>(
    alloc: Global,
    orbit: &Orbit,
    turns: &Turns,
    ways: &[(usize, usize)],
    lists: &[Vec<F>],
) -> Result<Joint<F>, LinError>
    requires laws { IsAtomSpace S.space }
    requires orbit { IsOrbitIn S.space orbit.now }
    requires table { IsTurnTable S.space turns.now }
    requires ways { AreWays S.space ways.now S.space.atoms }
    requires weights { (j : ℕ) → j < length lists.now → length (slice_index_or (rows_in lists.now) j []) ≡ S.space.group.order }
    requires class { (j : ℕ) → j < length lists.now → IsClassFunction S.space.group (vector F.field.laws F.value (slice_index_or (rows_in lists.now) j [])) }
    ensures joined { IfOk result (λ joint. IsJoined F.field.laws F.value joint.form joint.rows.items) }
    ensures width { IfOk result (λ joint. joint.form.width ≡ size_of S.space) }
    ensures modes { IfOk result (λ joint. AreIrrepModes F.field.laws S.space (map (vector F.field.laws F.value) (rows_in lists.now)) (joined_rows_in F.field.laws F.value joint.rows.items)) }
    ensures wide { (result ≡ Err lin_error.Wide) → IsWideModes F.field S.space (map (vector F.field.laws F.value) (rows_in lists.now)) }
{
    let mut joint = Joint {
        form: Echelon::new(alloc, orbit.atoms() * turns.each),
        rows: Vec::new(alloc),
    };
    for j in 0..lists.len() {
        match with_irrep::<S, F>(alloc, joint, orbit, turns, ways, &lists[j], j) {
            Ok(more) => joint = more,
            Err(error) => return Err(error),
        }
    }
    Ok(joint)
}
