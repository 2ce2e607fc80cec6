// The frame of a file's listed places, by its cell.
ghost use Rattle.std.specs.Prelude.{◌≡◌, ◌<◌, ◌≤◌, ◌*◌, ◌*ℤ◌, ◌↔◌, ℕ, pos, ⊤, None, Some, IsTrue, IfOk, IfErr, MatchOption, option_copied, length};
ghost use Rattle.std.specs.List.{All};
ghost use Rattle.std.specs.Option.{ForSome};
ghost use Rattle.iso_text.specs.Ranges.{IsCell};
ghost use Rattle.space_ops.specs.Op.{vector_of, shift_of, IsWithin, IsShiftWithin, IsRotationWithin};
ghost use Rattle.super_group.specs.Supercell.{multiplier};
ghost use Rattle.wyckoff.specs.Places.{in_units};
ghost use Rattle.distort_match.specs.ListedCells.{supercell_edge};
ghost use Rattle.distort_match.specs.declared.errors.MatchError.TheVariants as match_error;
ghost use Rattle.distort_match.specs.CellPieces.{column_of, HasForeignColumnIn, HasForeignEdgeIn, IsBadParts, IsShiftUnder, AreShiftsUnder, IsFrameCause};
ghost use Rattle.distort_match.specs.FrameParts.{IsFrameOf};

use crate::cells::{CellParts, is_combination, parts_of};
use crate::errors::MatchError;
use crate::frame::Frame;
use iso_text::CellText;
use std::alloc::Global;
use super_group::Quotient;

/// The frame of a file's listed places, or that its cell is bad.
pub(crate) fn frame_of(
    alloc: Global,
    quotient: &Quotient,
    cell: Option<&CellText>,
) -> Result<Frame, MatchError>
    requires { ForSome cell (λ c. IsCell c.now) }
    ensures frame { IfOk result (IsFrameOf quotient.now (option_copied cell.entry)) }
    ensures cause { IfErr result (IsFrameCause quotient.now (option_copied cell.entry)) }
{
    match cell {
        Some(cell) => cell_frame(alloc, quotient, cell),
        None => written_frame(alloc, quotient),
    }
}

// Without a cell each line has the written place alone.
fn written_frame(alloc: Global, quotient: &Quotient) -> Result<Frame, MatchError>
    ensures frame { IfOk result (IsFrameOf quotient.now None) }
    ensures cause { IfErr result (IsFrameCause quotient.now None) }
{
    let mut shifts = Vec::new(alloc);
    match shifts.push(Some([0, 0, 0])) {
        Ok(()) => {}
        Err(_) => return Err(MatchError::NoMemory),
    }
    Ok(Frame {
        rows: [[12, 0, 0], [0, 12, 0], [0, 0, 12]],
        origin: [0, 0, 0],
        shifts,
    })
}

fn cell_frame(alloc: Global, quotient: &Quotient, cell: &CellText) -> Result<Frame, MatchError>
    requires { IsCell cell.now }
    ensures frame { IfOk result (IsFrameOf quotient.now (Some cell.now)) }
    ensures cause { IfErr result (IsFrameCause quotient.now (Some cell.now)) }
{
    let parts = parts_of(cell);
    if is_bad(quotient, parts) {
        return Err(MatchError::BadCell(cell.line));
    }
    let rows = parts.rows;
    let origin = cell.origin;
    match cell_shifts(alloc, quotient, parts) {
        Ok(shifts) => Ok(Frame {
            rows,
            origin,
            shifts,
        }),
        Err(_) => Err(MatchError::NoMemory),
    }
}

fn is_bad(quotient: &Quotient, parts: CellParts) -> bool
    requires { IsRotationWithin 165888 parts.adjugate }
    ensures { IsTrue result ↔ IsBadParts quotient.now parts }
{
    if parts.size == 0 {
        return true;
    }
    if has_foreign_column(quotient, parts.rows) {
        return true;
    }
    has_foreign_edge(quotient, parts)
}

fn column(rows: [[i32; 3]; 3], j: usize) -> [i32; 3]
    requires { j < 3 }
    ensures { result ≡ column_of rows j }
{
    [rows[0][j], rows[1][j], rows[2][j]]
}

fn has_foreign_column(quotient: &Quotient, rows: [[i32; 3]; 3]) -> bool
    ensures { IsTrue result ↔ HasForeignColumnIn quotient.now.parent.lattice rows }
{
    for j in 0..3 {
        if !quotient.group().lattice().contains(column(rows, j)) {
            return true;
        }
    }
    false
}

fn length_along(multiplier: u32) -> i32
    requires { multiplier ≤ 12 }
    ensures value { result ≡ pos (12 * multiplier) }
    ensures near { IsWithin 144 result }
{
    12 * multiplier as i32
}

// The edge of the supercell along an axis, in twelfths.
fn edge(d: [u32; 3], axis: usize) -> [i32; 3]
    requires axis { axis < 3 }
    requires few { (i : ℕ) → i < 3 → multiplier d i ≤ 12 }
    ensures value { result ≡ shift_of (supercell_edge d axis) }
    ensures near { IsShiftWithin 144 result }
{
    match axis {
        0 => [length_along(d[0]), 0, 0],
        1 => [0, length_along(d[1]), 0],
        _ => [0, 0, length_along(d[2])],
    }
}

fn has_foreign_edge(quotient: &Quotient, parts: CellParts) -> bool
    requires size { 0 < parts.size }
    requires adjugate { IsRotationWithin 165888 parts.adjugate }
    ensures { IsTrue result ↔ HasForeignEdgeIn quotient.now.d parts.size parts.adjugate }
{
    let _ = quotient.order();
    for axis in 0..3 {
        if !is_combination(parts, edge(quotient.d(), axis)) {
            return true;
        }
    }
    false
}

fn units_along(t: i32) -> i64
    requires { IsWithin 144 t }
    ensures value { result ≡ pos 1000000 *ℤ t }
    ensures near { IsWithin 144000000 result }
{
    1_000_000 * i64::from(t)
}

fn units(t: [i32; 3]) -> [i64; 3]
    requires { IsShiftWithin 144 t }
    ensures value { result ≡ shift_of (in_units (vector_of t)) }
    ensures near { IsShiftWithin 144000000 result }
{
    [units_along(t[0]), units_along(t[1]), units_along(t[2])]
}

// A translation in units, where it is a whole combination of the columns.
fn cell_shift(parts: CellParts, t: [i32; 3]) -> Option<[i64; 3]>
    requires size { 0 < parts.size }
    requires adjugate { IsRotationWithin 165888 parts.adjugate }
    requires translation { IsShiftWithin 144 t }
    ensures value { IsShiftUnder parts.size parts.adjugate (vector_of t) result }
    ensures near { MatchOption result ⊤ (IsShiftWithin 144000000) }
{
    if is_combination(parts, t) {
        Some(units(t))
    } else {
        None
    }
}

// These for all translations of the supercell, in their order.
fn cell_shifts(
    alloc: Global,
    quotient: &Quotient,
    parts: CellParts,
) -> Result<Vec<Option<[i64; 3]>>, MatchError>
    requires size { 0 < parts.size }
    requires adjugate { IsRotationWithin 165888 parts.adjugate }
    ensures value { IfOk result (λ shifts. AreShiftsUnder parts.size parts.adjugate quotient.now.translations (length quotient.now.translations) shifts.items) }
    ensures near { IfOk result (λ shifts. All (λ shift. MatchOption shift ⊤ (IsShiftWithin 144000000)) shifts.items) }
    ensures error { IfErr result (λ error. error ≡ match_error.NoMemory) }
{
    let _ = quotient.order();
    let translations = quotient.translations();
    let mut shifts = Vec::new(alloc);
    for t in 0..translations.len() {
        match shifts.push(cell_shift(parts, translations[t])) {
            Ok(()) => {}
            Err(_) => return Err(MatchError::NoMemory),
        }
    }
    Ok(shifts)
}
