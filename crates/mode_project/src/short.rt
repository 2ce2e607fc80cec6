// Modes in short values first.
ghost use Rattle.std.specs.Prelude.{◌≡◌, ◌<◌, ◌*◌, ◌^◌, ℕ, [], IfSome, IfOk, length, map, slice_index_or};
ghost use Rattle.cyclo24.specs.ExactK24.{k24_laws};
ghost use Rattle.cyclo24.specs.K24.{exact24};
ghost use Rattle.lin_alg.specs.Matrices.{IsClassFunction};
ghost use Rattle.lin_alg.specs.Matrix.{entry as entry_of};
ghost use Rattle.lin_alg.specs.Rows.{vector, exact_rows};
ghost use Rattle.lin_alg.specs.Spans.{row_vectors};
ghost use Rattle.super_group.specs.Quotient.{order_of, quotient_group};
ghost use Rattle.mode_project.specs.AtomSpace.{IsOrbit, size_of, space_of};
ghost use Rattle.mode_project.specs.Joined.{lines_in, joined_rows_in, AreLong};
ghost use Rattle.mode_project.specs.Modes.{AreModes, vector_at};
ghost use Rattle.mode_project.specs.ModesView.{irrep_modes_in};
ghost use Rattle.mode_project.specs.Parts.{rows_in};
ghost use Rattle.mode_project.specs.Weights.{exact_weights, AreWeights};

use crate::quantity::AtomQuantity;
use crate::quantity_modes::quantity_modes;
use crate::sites::free_columns;
use crate::table::put_row;
use crate::{Modes, Weights};
use cyclo24::{K24, Short};
use iso_text::NoMemory;
use lin_alg::{Echelon, Matrix, zeros};
use short_rows::{lengthened, shortened};
use std::alloc::Global;
use std::marker::Brand;
use super_group::Quotient;
use wyckoff::Orbit;

// The list of the same exact values in short values. None where one isn't held, or memory is wanting.
pub(crate) fn short_list<S: Short>(alloc: Global, list: &[K24]) -> Option<Vec<S>>
    ensures long { IfSome result (λ v. length v.items ≡ length list.now) }
    ensures exact { IfSome result (λ v. vector k24_laws S.exact v.items ≡ vector k24_laws exact24 list.now) }
{
    let mut short = match zeros(alloc, list.len()) {
        Ok(short) => short,
        Err(_) => return None,
    };
    match shortened(list, &mut short) {
        Ok(()) => Some(short),
        Err(_) => None,
    }
}

// The lists of the same exact values in short values. None where one isn't held, or memory is wanting.
fn short_lists<S: Short>(alloc: Global, lists: &[Vec<K24>]) -> Option<Vec<Vec<S>>>
    ensures long { IfSome result (λ v. map length (rows_in v.items) ≡ map length (rows_in lists.now)) }
    ensures exact { IfSome result (λ v. map (vector k24_laws S.exact) (rows_in v.items) ≡ map (vector k24_laws exact24) (rows_in lists.now)) }
{
    let mut shorts = Vec::new(alloc);
    for list in lists {
        let short = match short_list(alloc, list) {
            Some(short) => short,
            None => return None,
        };
        match shorts.push(short) {
            Ok(()) => {}
            Err(_) => return None,
        }
    }
    Some(shorts)
}

// The rows of the same exact values in 128 bits, with their numbers.
fn lengthened_rows<S: Short>(
    alloc: Global,
    rows: &[(usize, Vec<S>)],
) -> Result<Vec<(usize, Vec<K24>)>, NoMemory>
    ensures rows { IfOk result (λ v. joined_rows_in k24_laws exact24 v.items ≡ joined_rows_in k24_laws S.exact rows.now) }
    ensures long { IfOk result (λ v. (n : ℕ) → AreLong n (lines_in rows.now) → AreLong n (lines_in v.items)) }
{
    let mut copy = Vec::new(alloc);
    for row in rows {
        let long = lengthened(alloc, &row.1)?;
        match copy.push((row.0, long)) {
            Ok(()) => {}
            Err(_) => return Err(NoMemory),
        }
    }
    Ok(copy)
}

// The rows of a form as a matrix of the same exact values in 128 bits.
pub(crate) fn lengthened_table<S: Short>(
    alloc: Global,
    form: &Echelon<S>,
) -> Result<Matrix<K24>, NoMemory>
    requires small { length form.now.rows * form.now.width < 2 ^ 32 }
    ensures rows { IfOk result (λ m. m.rows ≡ length form.now.rows) }
    ensures cols { IfOk result (λ m. m.cols ≡ form.now.width) }
    ensures entries { IfOk result (λ m. (i : ℕ) → i < m.rows → entry_of k24_laws exact24 m i ≡ vector_at k24_laws (row_vectors (exact_rows k24_laws S.exact form.now.rows)) i) }
{
    let _whole = form.is_whole();
    let mut table = Matrix::new(alloc, form.len(), form.width())?;
    for i in 0..form.len() {
        let row = lengthened(alloc, form.row(i))?;
        put_row(&mut table, i, &row);
    }
    Ok(table)
}

// The modes by weights in short values. None where a number is too wide, or memory is wanting.
fn modes_by_short<K: AtomQuantity, S: Short>(
    alloc: Global,
    quotient: &Quotient,
    orbit: &Orbit,
    lists: &[Vec<S>],
    kind: &K,
) -> Option<Modes>
    requires orbit { IsOrbit quotient.now orbit.now }
    requires weights { (j : ℕ) → j < length lists.now → length (slice_index_or (rows_in lists.now) j []) ≡ order_of quotient.now }
    requires class { (j : ℕ) → j < length lists.now → IsClassFunction (quotient_group quotient.now) (vector k24_laws S.exact (slice_index_or (rows_in lists.now) j [])) }
    ensures modes { IfSome result (λ m. AreModes k24_laws (space_of quotient.now orbit.now (K.quantity kind.now)) (map (vector k24_laws S.exact) (rows_in lists.now)) (irrep_modes_in m) m.sites) }
    ensures size { IfSome result (λ m. m.size ≡ size_of (space_of quotient.now orbit.now (K.quantity kind.now))) }
{
    let _atoms = orbit.atoms();
    let joint = match quantity_modes::<K, Brand, S>(alloc, quotient, orbit, kind, lists) {
        Ok(joint) => joint,
        Err(_) => return None,
    };
    let rows = match lengthened_rows(alloc, &joint.rows) {
        Ok(rows) => rows,
        Err(_) => return None,
    };
    match free_columns(alloc, &joint.form) {
        Ok(sites) => Some(Modes::of_rows(joint.form.width(), rows, sites)),
        Err(_) => None,
    }
}

// The defined modes, found in a short type. None where that is wide, or memory is wanting.
pub(crate) fn short_modes<K: AtomQuantity, S: Short>(
    alloc: Global,
    quotient: &Quotient,
    orbit: &Orbit,
    weights: &Weights,
    kind: &K,
) -> Option<Modes>
    requires orbit { IsOrbit quotient.now orbit.now }
    requires weights { AreWeights quotient.now weights.now }
    ensures modes { IfSome result (λ m. AreModes k24_laws (space_of quotient.now orbit.now (K.quantity kind.now)) (exact_weights weights.now) (irrep_modes_in m) m.sites) }
    ensures size { IfSome result (λ m. m.size ≡ size_of (space_of quotient.now orbit.now (K.quantity kind.now))) }
{
    match short_lists::<S>(alloc, weights.lists()) {
        Some(lists) => modes_by_short::<K, S>(alloc, quotient, orbit, &lists, kind),
        None => None,
    }
}
