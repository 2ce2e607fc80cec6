// The atoms of an orbit whose first coordinates may be near that of a place, modulo the supercell. The
// places of an orbit rise by their first coordinates, so that these atoms stand in three ranges.
ghost use Rattle.std.specs.Prelude.{◌≡◌, ◌<◌, ◌≤◌, ◌-◌, ◌*◌, pos, neg_ℤ, ◌+ℤ◌, ◌≤ℤ◌, ◌<ℤ◌};
ghost use Rattle.space_ops.specs.Op.{IsWithin};
ghost use Rattle.distort_match.specs.WindowParts.{IsAlongRising, IsInLength, IsBetween, IsFirstFrom, AreWindows};

use iso_text::UNITS_PER_EDGE;
use wyckoff::Orbit;

/// The numbers of the atoms of an orbit that may be near a place: those below `low`, from `start` up to
/// but without `end`, and from `high` on.
#[derive(Clone, Copy)]
pub(crate) struct Windows {
    pub low: usize,
    pub start: usize,
    pub end: usize,
    pub high: usize,
}

// Numbers of atoms between which the first lies that isn't below a bound.
#[derive(Clone, Copy)]
struct Range {
    low: usize,
    high: usize,
}

fn halved(orbit: &Orbit, v: i64, range: Range) -> Range
    requires rising { IsAlongRising orbit.now.places }
    requires some { range.low < range.high }
    requires between { IsBetween orbit.now.places v range.low range.high }
    ensures between { IsBetween orbit.now.places v result.low result.high }
    ensures smaller { result.high - result.low < range.high - range.low }
{
    let middle = range.low + (range.high - range.low) / 2;
    if orbit.place(middle)[0] < v {
        return Range {
            low: middle + 1,
            high: range.high,
        };
    }
    Range {
        low: range.low,
        high: middle,
    }
}

// The number of the first atom whose first coordinate is at least v.
fn first_from(orbit: &Orbit, v: i64) -> usize
    requires { IsAlongRising orbit.now.places }
    ensures { IsFirstFrom orbit.now.places v result }
{
    let mut range = Range {
        low: 0,
        high: orbit.atoms(),
    };
    'halves: while range.low < range.high {
        range = halved(orbit, v, range);
    }
    range.low
}

fn low_end(rest: i64, length: i64, tolerance: i64) -> i64
    requires rest { IsWithin 144000000 rest }
    requires length { IsWithin 144000000 length }
    requires tolerance { IsWithin 3000000 tolerance }
    ensures { result ≡ ((rest +ℤ tolerance) +ℤ neg_ℤ length) +ℤ pos 1 }
{
    rest + tolerance - length + 1
}

fn middle_start(rest: i64, tolerance: i64) -> i64
    requires rest { IsWithin 144000000 rest }
    requires tolerance { IsWithin 3000000 tolerance }
    ensures { result ≡ rest +ℤ neg_ℤ tolerance }
{
    rest - tolerance
}

fn middle_end(rest: i64, tolerance: i64) -> i64
    requires rest { IsWithin 144000000 rest }
    requires tolerance { IsWithin 3000000 tolerance }
    ensures { result ≡ (rest +ℤ tolerance) +ℤ pos 1 }
{
    rest + tolerance + 1
}

fn high_start(rest: i64, length: i64, tolerance: i64) -> i64
    requires rest { IsWithin 144000000 rest }
    requires length { IsWithin 144000000 length }
    requires tolerance { IsWithin 3000000 tolerance }
    ensures { result ≡ (rest +ℤ neg_ℤ tolerance) +ℤ length }
{
    rest - tolerance + length
}

// The windows of a remainder modulo the length of the supercell.
fn windows_at(orbit: &Orbit, rest: i64, length: i64, tolerance: i64) -> Windows
    requires rising { IsAlongRising orbit.now.places }
    requires rest { IsWithin 144000000 rest }
    requires length { IsWithin 144000000 length }
    requires tolerance { IsWithin 3000000 tolerance }
    ensures low { IsFirstFrom orbit.now.places (((rest +ℤ tolerance) +ℤ neg_ℤ length) +ℤ pos 1) result.low }
    ensures start { IsFirstFrom orbit.now.places (rest +ℤ neg_ℤ tolerance) result.start }
    ensures end { IsFirstFrom orbit.now.places ((rest +ℤ tolerance) +ℤ pos 1) result.end }
    ensures high { IsFirstFrom orbit.now.places ((rest +ℤ neg_ℤ tolerance) +ℤ length) result.high }
{
    Windows {
        low: first_from(orbit, low_end(rest, length, tolerance)),
        start: first_from(orbit, middle_start(rest, tolerance)),
        end: first_from(orbit, middle_end(rest, tolerance)),
        high: first_from(orbit, high_start(rest, length, tolerance)),
    }
}

/// The atoms that may be near a place with this first coordinate, in a supercell of so many cells.
pub(crate) fn windows_of(orbit: &Orbit, x: i64, multiplier: u32, tolerance: i64) -> Windows
    requires place { IsWithin 100000000000000 x }
    requires positive { 0 < multiplier }
    requires few { multiplier ≤ 12 }
    requires some { pos 0 ≤ℤ tolerance }
    requires small { tolerance <ℤ pos 3000000 }
    requires rising { IsAlongRising orbit.now.places }
    requires inside { IsInLength (12000000 * multiplier) orbit.now.places }
    ensures { AreWindows (12000000 * multiplier) tolerance x orbit.now.places result }
{
    let length = UNITS_PER_EDGE * i64::from(multiplier);
    windows_at(orbit, x.rem_euclid(length), length, tolerance)
}
