// The places of the listed lines, taken in order.
ghost use Rattle.std.specs.Prelude.{◌≡◌, ⊤, ℕ, ◌<◌, ◌≤◌, ◌+◌, ◌+ℤ◌, pos, ◌≤ℤ◌, ◌<ℤ◌, MatchOption, OnOk, IfErr, length};
ghost use Rattle.std.specs.List.{All};
ghost use Rattle.iso_text.specs.Ranges.{IsSite};
ghost use Rattle.iso_text.specs.declared.sections.AtomText.{AtomText};
ghost use Rattle.algebra.specs.Whole.{whole};
ghost use Rattle.space_ops.specs.Matrix.{vector_sum};
ghost use Rattle.space_ops.specs.Op.{vector_of, shift_of, IsWithin, IsShiftWithin};
ghost use Rattle.super_group.specs.Supercell.{multiplier};
ghost use Rattle.distort_match.specs.Matches.{Matching};
ghost use Rattle.distort_match.specs.Outcomes.{IsMatchCause};
ghost use Rattle.distort_match.specs.FoundParts.{IsAtomOf};
ghost use Rattle.distort_match.specs.FrameParts.{IsMatchingIn, IsFrameHeld, IsNumberTaken, IsNumberCause};
ghost use Rattle.distort_match.specs.WindowParts.{AreSorted};
ghost use Rattle.distort_match.specs.MarkParts.{IsPlaced, IsPlaceCause, AreMarksFor, AreMarked};

use crate::errors::MatchError;
use crate::found::found_at;
use crate::frame::{Frame, carried};
use crate::marks::{OrbitMarks, take_found};
use iso_text::{AtomText, Name};
use wyckoff::Orbits;

fn shifted_along(x: i64, u: i64) -> i64
    requires place { IsWithin 60000000000000 x }
    requires shift { IsWithin 144000000 u }
    ensures value { result ≡ x +ℤ u }
    ensures near { IsWithin 100000000000000 result }
{
    x + u
}

fn shifted(x: [i64; 3], u: [i64; 3]) -> [i64; 3]
    requires place { IsShiftWithin 60000000000000 x }
    requires shift { IsShiftWithin 144000000 u }
    ensures value { result ≡ shift_of (vector_sum whole (vector_of x) (vector_of u)) }
    ensures near { IsShiftWithin 100000000000000 result }
{
    [
        shifted_along(x[0], u[0]),
        shifted_along(x[1], u[1]),
        shifted_along(x[2], u[2]),
    ]
}

// Notes what a place matches.
fn add_place(
    marks: &mut Vec<OrbitMarks>,
    d: [u32; 3],
    orbits: &Orbits,
    tolerance: i64,
    label: &Name,
    line: u32,
    x: [i64; 3],
) -> Result<(), MatchError>
    requires sorted { AreSorted d orbits.now }
    requires positive { (i : ℕ) → i < 3 → 0 < multiplier d i }
    requires few { (i : ℕ) → i < 3 → multiplier d i ≤ 12 }
    requires some { pos 0 ≤ℤ tolerance }
    requires small { tolerance <ℤ pos 3000000 }
    requires marks { AreMarksFor orbits.now marks.old.items }
    requires place { IsShiftWithin 100000000000000 x }
    ensures marks { OnOk result (AreMarksFor orbits.now marks.new.items) }
    ensures placed { OnOk result (IsPlaced (IsAtomOf d tolerance (vector_of x) label.now orbits.now (length orbits.now)) marks.old.items marks.new.items) }
    ensures cause { IfErr result (IsPlaceCause (IsAtomOf d tolerance (vector_of x) label.now orbits.now (length orbits.now)) marks.old.items line) }
{
    take_found(marks, found_at(orbits, label, x, d, tolerance), line)
}

// Notes what place number t of line n matches, where there is one.
fn add_number(
    marks: &mut Vec<OrbitMarks>,
    d: [u32; 3],
    orbits: &Orbits,
    tolerance: i64,
    line: &AtomText,
    x: [i64; 3],
    shift: Option<[i64; 3]>,
) -> Result<(), MatchError>
    requires sorted { AreSorted d orbits.now }
    requires positive { (i : ℕ) → i < 3 → 0 < multiplier d i }
    requires few { (i : ℕ) → i < 3 → multiplier d i ≤ 12 }
    requires some { pos 0 ≤ℤ tolerance }
    requires small { tolerance <ℤ pos 3000000 }
    requires marks { AreMarksFor orbits.now marks.old.items }
    requires place { IsShiftWithin 60000000000000 x }
    requires shift { MatchOption shift ⊤ (IsShiftWithin 144000000) }
    ensures marks { OnOk result (AreMarksFor orbits.now marks.new.items) }
    ensures taken { OnOk result (IsNumberTaken d tolerance orbits.now line.now.label x shift marks.old.items marks.new.items) }
    ensures cause { IfErr result (IsNumberCause d tolerance orbits.now line.now.label x shift marks.old.items line.now.line) }
{
    match shift {
        None => Ok(()),
        Some(u) => add_place(
            marks,
            d,
            orbits,
            tolerance,
            &line.label,
            line.line,
            shifted(x, u),
        ),
    }
}

// Notes what the places of line n match.
fn add_line(
    marks: &mut Vec<OrbitMarks>,
    d: [u32; 3],
    orbits: &Orbits,
    tolerance: i64,
    frame: &Frame,
    listed: &[AtomText],
    n: usize,
) -> Result<(), MatchError>
    requires sorted { AreSorted d orbits.now }
    requires positive { (i : ℕ) → i < 3 → 0 < multiplier d i }
    requires few { (i : ℕ) → i < 3 → multiplier d i ≤ 12 }
    requires some { pos 0 ≤ℤ tolerance }
    requires small { tolerance <ℤ pos 3000000 }
    requires frame { IsFrameHeld frame.now }
    requires listed { All (λ (a : AtomText). IsSite a.label a.place) listed.now }
    requires marks { AreMarksFor orbits.now marks.old.items }
    requires line { n < length listed.now }
    ensures marks { OnOk result (AreMarksFor orbits.now marks.new.items) }
    ensures marked { OnOk result ((m : Matching) → IsMatchingIn d orbits.now listed.now tolerance frame.now m → AreMarked m n 0 marks.old.items → AreMarked m (n + 1) 0 marks.new.items) }
    ensures cause { IfErr result (λ error. (m : Matching) → IsMatchingIn d orbits.now listed.now tolerance frame.now m → AreMarked m n 0 marks.old.items → IsMatchCause m error) }
{
    let line = &listed[n];
    let x = match carried(frame, line.place) {
        Some(x) => x,
        None => return Err(MatchError::OffGrid(line.line)),
    };
    for t in 0..frame.shifts.len() {
        match add_number(marks, d, orbits, tolerance, line, x, frame.shifts[t]) {
            Ok(()) => {}
            Err(error) => return Err(error),
        }
    }
    Ok(())
}

/// Notes what the places of all lines match.
pub(crate) fn add_lines(
    marks: &mut Vec<OrbitMarks>,
    d: [u32; 3],
    orbits: &Orbits,
    tolerance: i64,
    frame: &Frame,
    listed: &[AtomText],
) -> Result<(), MatchError>
    requires sorted { AreSorted d orbits.now }
    requires positive { (i : ℕ) → i < 3 → 0 < multiplier d i }
    requires few { (i : ℕ) → i < 3 → multiplier d i ≤ 12 }
    requires some { pos 0 ≤ℤ tolerance }
    requires small { tolerance <ℤ pos 3000000 }
    requires frame { IsFrameHeld frame.now }
    requires listed { All (λ (a : AtomText). IsSite a.label a.place) listed.now }
    requires marks { AreMarksFor orbits.now marks.old.items }
    ensures marks { OnOk result (AreMarksFor orbits.now marks.new.items) }
    ensures marked { OnOk result ((m : Matching) → IsMatchingIn d orbits.now listed.now tolerance frame.now m → AreMarked m 0 0 marks.old.items → AreMarked m (length listed.now) 0 marks.new.items) }
    ensures cause { IfErr result (λ error. (m : Matching) → IsMatchingIn d orbits.now listed.now tolerance frame.now m → AreMarked m 0 0 marks.old.items → IsMatchCause m error) }
{
    for n in 0..listed.len() {
        match add_line(marks, d, orbits, tolerance, frame, listed, n) {
            Ok(()) => {}
            Err(error) => return Err(error),
        }
    }
    Ok(())
}
