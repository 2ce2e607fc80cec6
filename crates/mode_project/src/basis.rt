// The modes of an orbit, a basis of what its atoms have.
ghost use Rattle.std.specs.Prelude.{◌≡◌, ◌<◌, ◌≤◌, ◌*◌, ℕ, Err, IfOk, length, take};
ghost use Rattle.cyclo24.specs.ExactK24.{Exact24, k24, k24_laws};
ghost use Rattle.lin_alg.specs.Spans.{row_vectors, IsInSpan, AreSame};
ghost use Rattle.lin_alg.specs.Reduced.{IsWithin};
ghost use Rattle.lin_alg.specs.Matrices.{apply};
ghost use Rattle.lin_alg.specs.Solving.{AreIndependent, plain_rows};
ghost use Rattle.lin_alg.specs.declared.errors.LinError.TheVariants as lin_error;
ghost use Rattle.super_group.specs.Quotient.{order_of, quotient_group};
ghost use Rattle.induce.specs.Apart.{AreApart};
ghost use Rattle.mode_project.specs.AtomSpace.{IsOrbit, size_of, matrix_of, space_of, displacements};
ghost use Rattle.mode_project.specs.Projection.{projection, IsInRange, IsInSum};
ghost use Rattle.mode_project.specs.Modes.{AreModes, vector_at, before_irrep};
ghost use Rattle.mode_project.specs.Wide.{IsWideModes};
ghost use Rattle.mode_project.specs.Weights.{exact_weights, AreWeights};
ghost use Rattle.mode_project.specs.ModesView.{irrep_modes_in, count_in, mode_in};
ghost use Rattle.mode_project.specs.ApartModes.{of_irrep, MeetInZero, AreAllApart};
ghost use Rattle.mode_project.specs.declared.errors.ModeError.TheVariants as mode_error;

use crate::errors::FAMILY;
use crate::laws::law_of_displacements;
use crate::quantity::{AtomQuantity, PolarVector};
use crate::quantity_modes::quantity_modes;
use crate::short::short_modes;
use crate::sites::free_columns;
use crate::{ModeError, Modes, Weights};
use cyclo24::{K24, ShortK24, law_of_squares};
use lin_alg::LinError;
use std::alloc::Global;
use std::marker::Brand;
use super_group::Quotient;
use wyckoff::Orbit;

// The defined modes, found in `K24`.
fn long_modes<K: AtomQuantity>(
    alloc: Global,
    quotient: &Quotient,
    orbit: &Orbit,
    weights: &Weights,
    kind: &K,
) -> Result<Modes, LinError>
    requires orbit { IsOrbit quotient.now orbit.now }
    requires weights { AreWeights quotient.now weights.now }
    ensures modes { IfOk result (λ m. AreModes k24_laws (space_of quotient.now orbit.now (K.quantity kind.now)) (exact_weights weights.now) (irrep_modes_in m) m.sites) }
    ensures size { IfOk result (λ m. m.size ≡ size_of (space_of quotient.now orbit.now (K.quantity kind.now))) }
    ensures wide { (result ≡ Err lin_error.Wide) → IsWideModes k24 (space_of quotient.now orbit.now (K.quantity kind.now)) (exact_weights weights.now) }
{
    let _atoms = orbit.atoms();
    let joint = match quantity_modes::<K, Brand, K24>(
        alloc,
        quotient,
        orbit,
        kind,
        weights.lists(),
    ) {
        Ok(joint) => joint,
        Err(error) => return Err(error),
    };
    match free_columns(alloc, &joint.form) {
        Ok(sites) => Ok(Modes::of_rows(joint.form.width(), joint.rows, sites)),
        Err(_) => Err(LinError::NoMemory),
    }
}

// The defined modes, found in short values where these suffice.
fn find_modes<K: AtomQuantity>(
    alloc: Global,
    quotient: &Quotient,
    orbit: &Orbit,
    weights: &Weights,
    kind: &K,
) -> Result<Modes, LinError>
    requires orbit { IsOrbit quotient.now orbit.now }
    requires weights { AreWeights quotient.now weights.now }
    ensures modes { IfOk result (λ m. AreModes k24_laws (space_of quotient.now orbit.now (K.quantity kind.now)) (exact_weights weights.now) (irrep_modes_in m) m.sites) }
    ensures size { IfOk result (λ m. m.size ≡ size_of (space_of quotient.now orbit.now (K.quantity kind.now))) }
    ensures wide { (result ≡ Err lin_error.Wide) → IsWideModes k24 (space_of quotient.now orbit.now (K.quantity kind.now)) (exact_weights weights.now) }
{
    match short_modes::<K, ShortK24>(alloc, quotient, orbit, weights, kind) {
        Some(modes) => Ok(modes),
        None => long_modes(alloc, quotient, orbit, weights, kind),
    }
}

/// A basis of what the atoms of an orbit have: modes of the irreps in order, then unit vectors. Number a
/// of atom i stands in column c i + a, for c numbers an atom. Condition: the orbit and the weights are of
/// this quotient. Errors: a number that is too wide; want of memory.
pub fn modes_in<K: AtomQuantity>(
    alloc: Global,
    quotient: &Quotient,
    orbit: &Orbit,
    weights: &Weights,
    kind: &K,
) -> Result<Modes, LinError>
    requires orbit { IsOrbit quotient.now orbit.now }
    requires weights { AreWeights quotient.now weights.now }
    ensures modes { IfOk result (λ m. AreModes k24_laws (space_of quotient.now orbit.now (K.quantity kind.now)) (exact_weights weights.now) (irrep_modes_in m) m.sites) }
    ensures size { IfOk result (λ m. m.size ≡ size_of (space_of quotient.now orbit.now (K.quantity kind.now))) }
    ensures count { IfOk result (λ m. count_in m ≡ size_of (space_of quotient.now orbit.now (K.quantity kind.now))) }
    ensures independent { IfOk result (λ m. AreIndependent k24_laws (count_in m) (mode_in m)) }
    ensures spanning { IfOk result (λ m. AreSame (IsInSpan k24_laws (plain_rows (mode_in m) (count_in m))) (IsWithin k24_laws (size_of (space_of quotient.now orbit.now (K.quantity kind.now))))) }
    ensures sums { IfOk result (λ m. (j : ℕ) → j ≤ length weights.now → AreSame (IsInSpan k24_laws (row_vectors (before_irrep j (irrep_modes_in m)))) (IsInSum k24_laws (space_of quotient.now orbit.now (K.quantity kind.now)) (take j (exact_weights weights.now)))) }
    ensures wide { (result ≡ Err lin_error.Wide) → IsWideModes k24 (space_of quotient.now orbit.now (K.quantity kind.now)) (exact_weights weights.now) }
{
    match find_modes(alloc, quotient, orbit, weights, kind) {
        Ok(found) => Ok(found),
        Err(error) => Err(error),
    }
}

// Why there are no displacement modes.
fn cause(error: LinError) -> ModeError
    ensures { (f : ℕ) → (result ≡ mode_error.Wide f) → (f ≡ 5) × (error ≡ lin_error.Wide) }
{
    match error {
        LinError::Wide => ModeError::Wide(FAMILY),
        LinError::NoMemory => ModeError::NoMemory,
    }
}

/// A basis of the displacements of the atoms of an orbit: modes of the irreps in order, then unit
/// vectors. A mode has three numbers for each atom, along the cell edges. Condition: the orbit and the
/// weights are of this quotient. Errors: a number that is too wide; want of memory.
pub fn modes(
    alloc: Global,
    quotient: &Quotient,
    orbit: &Orbit,
    weights: &Weights,
) -> Result<Modes, ModeError>
    requires orbit { IsOrbit quotient.now orbit.now }
    requires weights { AreWeights quotient.now weights.now }
    ensures modes { IfOk result (λ m. AreModes k24_laws (displacements quotient.now orbit.now) (exact_weights weights.now) (irrep_modes_in m) m.sites) }
    ensures size { IfOk result (λ m. m.size ≡ length orbit.now.places * 3) }
    ensures count { IfOk result (λ m. count_in m ≡ length orbit.now.places * 3) }
    ensures independent { IfOk result (λ m. AreIndependent k24_laws (count_in m) (mode_in m)) }
    ensures spanning { IfOk result (λ m. AreSame (IsInSpan k24_laws (plain_rows (mode_in m) (count_in m))) (IsWithin k24_laws (length orbit.now.places * 3))) }
    ensures sums { IfOk result (λ m. (j : ℕ) → j ≤ length weights.now → AreSame (IsInSpan k24_laws (row_vectors (before_irrep j (irrep_modes_in m)))) (IsInSum k24_laws (displacements quotient.now orbit.now) (take j (exact_weights weights.now)))) }
    ensures commutes { (j q : ℕ) → j < length weights.now → q < order_of quotient.now → (v : ℕ → Exact24) (i : ℕ) → i < length orbit.now.places * 3 → apply k24_laws (length orbit.now.places * 3) (projection k24_laws (displacements quotient.now orbit.now) (vector_at k24_laws (exact_weights weights.now) j)) (apply k24_laws (length orbit.now.places * 3) (matrix_of k24_laws (displacements quotient.now orbit.now) q) v) i ≡ apply k24_laws (length orbit.now.places * 3) (matrix_of k24_laws (displacements quotient.now orbit.now) q) (apply k24_laws (length orbit.now.places * 3) (projection k24_laws (displacements quotient.now orbit.now) (vector_at k24_laws (exact_weights weights.now) j)) v) i }
    ensures meet { (j l : ℕ) → j < length weights.now → l < length weights.now → AreApart k24_laws (quotient_group quotient.now) (vector_at k24_laws (exact_weights weights.now) j) (vector_at k24_laws (exact_weights weights.now) l) → MeetInZero k24_laws (length orbit.now.places * 3) (projection k24_laws (displacements quotient.now orbit.now) (vector_at k24_laws (exact_weights weights.now) j)) (projection k24_laws (displacements quotient.now orbit.now) (vector_at k24_laws (exact_weights weights.now) l)) }
    ensures own { IfOk result (λ m. AreAllApart k24_laws (quotient_group quotient.now) (exact_weights weights.now) → (j : ℕ) → j < length weights.now → AreSame (IsInSpan k24_laws (row_vectors (of_irrep j (irrep_modes_in m)))) (IsInRange k24_laws (length orbit.now.places * 3) (projection k24_laws (displacements quotient.now orbit.now) (vector_at k24_laws (exact_weights weights.now) j)))) }
    ensures wide { (f : ℕ) → (result ≡ Err (mode_error.Wide f)) → (f ≡ 5) × IsWideModes k24 (displacements quotient.now orbit.now) (exact_weights weights.now) }
{
    let _order = quotient.order();
    law_of_displacements();
    law_of_squares();
    match modes_in(alloc, quotient, orbit, weights, &PolarVector) {
        Ok(found) => Ok(found),
        Err(error) => Err(cause(error)),
    }
}
