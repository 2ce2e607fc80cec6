// The listed atoms matched with those of a supercell.
ghost use Rattle.std.specs.Prelude.{◌≡◌, pos, ◌≤ℤ◌, ◌<ℤ◌, IfOk, IfErr, List, option_copied};
ghost use Rattle.std.specs.List.{All};
ghost use Rattle.std.specs.Option.{ForSome};
ghost use Rattle.iso_text.specs.Ranges.{IsSite, IsCell};
ghost use Rattle.iso_text.specs.declared.sections.AtomText.{AtomText};
ghost use Rattle.wyckoff.specs.AtomLines.{AreOrbitsOf};
ghost use Rattle.distort_match.specs.Outcomes.{AreShiftsOf, IsMatchCause};

use crate::cell_frame::frame_of;
use crate::errors::MatchError;
use crate::lines::add_lines;
use crate::marks::{no_marks, shifts_of};
use crate::shifts::Shifts;
use iso_text::{AtomText, CellText};
use std::alloc::Global;
use super_group::Quotient;
use wyckoff::{Orbits, law_of_images};

/// The displacement of each atom of a supercell by the listed atom that matches it. The tolerance is in
/// units of 1/12,000,000 of a cell edge. With a cell a listed place y stands for the places
/// C y + o + t, for each lattice translation t of the supercell that is a whole combination of the
/// columns of the matrix C, in their order, and the origin o. Errors, in this order: the cell is bad;
/// then line by line, and place by place, a line is off the grid, a place matches no atom, or it is
/// ambiguous; then the first atom that no place matches. Condition: the orbits are those of atom lines
/// under the quotient; lines and cell are in the ranges of the file grammar, and so is the tolerance,
/// at least 0 and below a quarter of a cell edge.
pub fn match_atoms(
    alloc: Global,
    quotient: &Quotient,
    orbits: &Orbits,
    listed: &[AtomText],
    tolerance: i64,
    cell: Option<&CellText>,
) -> Result<Shifts, MatchError>
    requires orbits { (atoms : List AtomText) × AreOrbitsOf quotient.now atoms orbits.now }
    requires listed { All (λ (a : AtomText). IsSite a.label a.place) listed.now }
    requires positive { pos 0 ≤ℤ tolerance }
    requires small { tolerance <ℤ pos 3000000 }
    requires cell { ForSome cell (λ c. IsCell c.now) }
    ensures shifts { IfOk result (λ shifts. AreShiftsOf (record { group = quotient.now; orbits = orbits.now; listed = listed.now; tolerance = tolerance; cell = option_copied cell.entry }) shifts) }
    ensures cause { IfErr result (λ error. IsMatchCause (record { group = quotient.now; orbits = orbits.now; listed = listed.now; tolerance = tolerance; cell = option_copied cell.entry }) error) }
{
    let _ = quotient.order();
    law_of_images();
    let d = quotient.d();
    let frame = match frame_of(alloc, quotient, cell) {
        Ok(frame) => frame,
        Err(error) => return Err(error),
    };
    let mut marks = match no_marks(alloc, orbits) {
        Ok(marks) => marks,
        Err(error) => return Err(error),
    };
    match add_lines(&mut marks, d, orbits, tolerance, &frame, listed) {
        Ok(()) => {}
        Err(error) => return Err(error),
    }
    shifts_of(alloc, orbits, &marks)
}
