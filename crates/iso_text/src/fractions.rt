// Fractions, coordinates and tolerances in words.
ghost use Rattle.std.specs.Prelude.{◌≡◌, ◌^◌, ◌<◌, ◌≤◌, IfSome, length, MatchOption, ℤ};
ghost use Rattle.iso_text.specs.Fractions.{signed, common_divisor, lowest, k_ratio_of, k_fraction_of, ratio_units, point_units, decimal_units, units_by, units_of, place_of, is_tolerance, tolerance_of};
ghost use Rattle.iso_text.specs.Spellings.{SpellsKFraction, SpellsPlace, SpellsTolerance};
ghost use Rattle.iso_text.specs.declared.numbers.Frac.{Frac};

use crate::cuts::{Mark, split_at_mark};
use crate::digits::{digits, ratio, whole};
use crate::numbers::Frac;

/// The units of a coordinate in one cell edge.
pub const UNITS_PER_EDGE: i64 = 12_000_000;

/// The number, with its sign changed where it is negative.
pub fn signed(negative: bool, number: u64) -> i64
    requires { number < 2 ^ 62 }
    ensures { result ≡ signed negative number }
{
    if negative {
        -(number as i64)
    } else {
        number as i64
    }
}

/// The number, with its sign changed where it is negative.
pub fn signed_small(negative: bool, number: u32) -> i32
    requires { number < 2 ^ 30 }
    ensures { result ≡ signed negative number }
{
    if negative {
        -(number as i32)
    } else {
        number as i32
    }
}

// The greatest common divisor with a denominator of 1, 2, 3, 4 or 6.
fn common_divisor(number: u32, denominator: u32) -> u32
    requires { 0 < denominator }
    ensures value { result ≡ common_divisor number denominator }
    ensures some { 0 < result }
{
    if number % denominator == 0 {
        denominator
    } else if denominator % 2 == 0 && number % 2 == 0 {
        2
    } else if denominator == 6 && number % 3 == 0 {
        3
    } else {
        1
    }
}

fn lowest(negative: bool, number: u32, denominator: u8) -> Frac
    requires small { number < 2 ^ 30 }
    requires some { 0 < denominator }
    ensures { result ≡ lowest negative number denominator }
{
    let common = common_divisor(number, u32::from(denominator));
    let num = signed_small(negative, number / common);
    let den = (u32::from(denominator) / common) as u8;
    Frac { num, den }
}

fn k_ratio(negative: bool, ratio: (u32, u8)) -> Option<Frac>
    requires { 0 < ratio.1 }
    ensures { result ≡ k_ratio_of negative ratio }
{
    if ratio.0 <= 24 && ratio.1 <= 6 {
        Some(lowest(negative, ratio.0, ratio.1))
    } else {
        None
    }
}

fn parse_k_fraction(text: &[u8]) -> Option<Frac>
    ensures { result ≡ k_fraction_of text.now }
{
    match text {
        [] => None,
        [b'-', digits @ ..] => k_ratio(true, ratio(digits, 2)?),
        _ => k_ratio(false, ratio(text, 2)?),
    }
}

/// The fraction of a wave vector that a text is: an optional `-`, one or two digits of at most 24,
/// and optionally `/` and one of 1, 2, 3, 4, 6. It is in lowest terms.
pub fn k_fraction(text: &[u8]) -> Option<Frac>
    ensures value { result ≡ k_fraction_of text.now }
    ensures spelled { MatchOption result ((v : Frac) → SpellsKFraction text.now v → ⊥) (λ v. SpellsKFraction text.now v) }
{
    parse_k_fraction(text)
}

fn units_of_ratio(ratio: (u32, u8)) -> Option<u64>
    requires { 0 < ratio.1 }
    ensures value { result ≡ ratio_units ratio }
    ensures small { IfSome result (λ n. n < 2 ^ 62) }
{
    if ratio.0 <= 99 * u32::from(ratio.1) {
        Some(u64::from(ratio.0) * (12_000_000 / u64::from(ratio.1)))
    } else {
        None
    }
}

// The units of whole edges and of the digits behind the point.
fn units_with_point(edges: u32, digits: u32, count: usize) -> u64
    requires edges { edges < 10 ^ 6 }
    requires digits { digits < 10 ^ 6 }
    requires count { count ≤ 6 }
    ensures value { result ≡ point_units edges digits count }
    ensures small { result < 2 ^ 62 }
{
    let scale = 10u64.pow(6 - count as u32);
    12_000_000 * u64::from(edges) + 12 * (u64::from(digits) * scale)
}

// What stands before the point, and the rest from the point on.
fn units_of_decimal(edges: &[u8], rest: &[u8]) -> Option<u64>
    ensures value { result ≡ decimal_units edges.now rest.now }
    ensures small { IfSome result (λ n. n < 2 ^ 62) }
{
    match (edges, rest) {
        (_, []) => Some(12_000_000 * u64::from(whole(edges, 2)?)),
        ([], [_, behind @ ..]) => Some(units_with_point(0, whole(behind, 6)?, behind.len())),
        (_, [_, behind @ ..]) => {
            let number = whole(edges, 2)?;
            let fraction = digits(behind, 6)?;
            Some(units_with_point(number, fraction, behind.len()))
        }
    }
}

// A decimal where nothing is left from a `/` on, else a fraction.
fn units_by(over: &[u8], text: &[u8]) -> Option<u64>
    ensures value { result ≡ units_by over.now text.now }
    ensures small { IfSome result (λ n. n < 2 ^ 62) }
{
    match over {
        [] => {
            let (edges, rest) = split_at_mark(text, Mark::Byte(b'.'));
            units_of_decimal(edges, rest)
        }
        _ => units_of_ratio(ratio(text, 4)?),
    }
}

fn units(text: &[u8]) -> Option<u64>
    ensures value { result ≡ units_of text.now }
    ensures small { IfSome result (λ n. n < 2 ^ 62) }
{
    let (_, over) = split_at_mark(text, Mark::Byte(b'/'));
    units_by(over, text)
}

fn parse_place(text: &[u8]) -> Option<i64>
    ensures { result ≡ place_of text.now }
{
    match text {
        [] => None,
        [b'-', number @ ..] => Some(signed(true, units(number)?)),
        [b'+', number @ ..] => Some(signed(false, units(number)?)),
        _ => Some(signed(false, units(text)?)),
    }
}

/// The coordinate that a text is, in units of 1/12,000,000 of a cell edge: an optional sign and a
/// fraction of at most 99, or a decimal of at most two digits before the point and six behind it.
pub fn place(text: &[u8]) -> Option<i64>
    ensures value { result ≡ place_of text.now }
    ensures spelled { MatchOption result ((units : ℤ) → SpellsPlace text.now units → ⊥) (λ units. SpellsPlace text.now units) }
{
    parse_place(text)
}

fn is_tolerance(place: i64) -> bool
    ensures { result ≡ is_tolerance place }
{
    place >= 0 && place < 3_000_000
}

fn parse_tolerance(text: &[u8]) -> Option<i64>
    ensures { result ≡ tolerance_of text.now }
{
    let place = place(text)?;
    if is_tolerance(place) {
        Some(place)
    } else {
        None
    }
}

/// The tolerance that a text is: a coordinate from 0 to below 1/4.
pub fn tolerance(text: &[u8]) -> Option<i64>
    ensures value { result ≡ tolerance_of text.now }
    ensures spelled { MatchOption result ((units : ℤ) → SpellsTolerance text.now units → ⊥) (λ units. SpellsTolerance text.now units) }
{
    parse_tolerance(text)
}
