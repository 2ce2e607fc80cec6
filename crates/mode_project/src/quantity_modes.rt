// The modes of irreps, of what each atom has.
ghost use Rattle.std.specs.Prelude.{◌≡◌, ◌<◌, ◌*◌, ℕ, [], Err, IfOk, length, map, slice_index_or};
ghost use Rattle.lin_alg.specs.Matrices.{IsClassFunction};
ghost use Rattle.lin_alg.specs.Rows.{vector};
ghost use Rattle.lin_alg.specs.declared.errors.LinError.TheVariants as lin_error;
ghost use Rattle.super_group.specs.Quotient.{order_of, quotient_group};
ghost use Rattle.mode_project.specs.AtomSpace.{IsOrbit, size_of, space_of};
ghost use Rattle.mode_project.specs.Modes.{AreIrrepModes};
ghost use Rattle.mode_project.specs.Parts.{rows_in};
ghost use Rattle.mode_project.specs.Joined.{IsJoined, joined_rows_in};
ghost use Rattle.mode_project.specs.Wide.{IsWideModes};

use crate::irreps::irrep_modes;
use crate::joint::Joint;
use crate::laws::law_of_spaces;
use crate::quantity::AtomQuantity;
use crate::rotations::{turns_of, ways_to};
use crate::space::OfSpace;
use cyclo24::Field;
use lin_alg::LinError;
use std::alloc::Global;
use super_group::Quotient;
use wyckoff::Orbit;

// The modes of all irreps, and the reduced form of their span.
pub(crate) fn quantity_modes<K: AtomQuantity, S: OfSpace, F: Field>(
    alloc: Global,
    quotient: &Quotient,
    orbit: &Orbit,
    kind: &K,
    lists: &[Vec<F>],
) -> Result<Joint<F>, LinError>
    requires space { S.space ≡ space_of quotient.now orbit.now (K.quantity kind.now) }
    requires orbit { IsOrbit quotient.now orbit.now }
    requires weights { (j : ℕ) → j < length lists.now → length (slice_index_or (rows_in lists.now) j []) ≡ order_of quotient.now }
    requires class { (j : ℕ) → j < length lists.now → IsClassFunction (quotient_group quotient.now) (vector F.field.laws F.value (slice_index_or (rows_in lists.now) j [])) }
    ensures joined { IfOk result (λ joint. IsJoined F.field.laws F.value joint.form joint.rows.items) }
    ensures width { IfOk result (λ joint. joint.form.width ≡ size_of (space_of quotient.now orbit.now (K.quantity kind.now))) }
    ensures modes { IfOk result (λ joint. AreIrrepModes F.field.laws (space_of quotient.now orbit.now (K.quantity kind.now)) (map (vector F.field.laws F.value) (rows_in lists.now)) (joined_rows_in F.field.laws F.value joint.rows.items)) }
    ensures wide { (result ≡ Err lin_error.Wide) → IsWideModes F.field (space_of quotient.now orbit.now (K.quantity kind.now)) (map (vector F.field.laws F.value) (rows_in lists.now)) }
{
    let _order = quotient.order();
    law_of_spaces();
    let turns = match turns_of(alloc, quotient, kind) {
        Ok(turns) => turns,
        Err(_) => return Err(LinError::NoMemory),
    };
    let ways = match ways_to(alloc, quotient, orbit) {
        Ok(ways) => ways,
        Err(_) => return Err(LinError::NoMemory),
    };
    match irrep_modes::<S, F>(alloc, orbit, &turns, &ways, lists) {
        Ok(joint) => Ok(joint),
        Err(error) => Err(error),
    }
}
