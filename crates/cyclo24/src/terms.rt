// Sums of terms, with the coefficients of 1, z, .., z^7 over the denominator 24.
ghost use Rattle.std.specs.Prelude.{◌≡◌, ◌<◌, ◌≤◌, ◌+◌, ◌*◌, ◌^◌, ℕ, pos, length, get_or, ◌+ℤ◌, ◌*ℤ◌};
ghost use Rattle.std.specs.List.{All};
ghost use Rattle.std.specs.Int.RustNames.{unsigned_abs};
ghost use Rattle.algebra.specs.Whole.{whole};
ghost use Rattle.cyclo24.specs.Eight.{add8, num8};
ghost use Rattle.cyclo24.specs.EightNorm.{list8};
ghost use Rattle.cyclo24.specs.Written8.{eight_of};
ghost use Rattle.iso_text.specs.WordRanges.{IsUnit, IsTerm};
ghost use Rattle.cyclo24.specs.Terms.{unit8, scale8, factor_of, terms8, row8, AreAtMost};

use crate::fraction8::Fraction8;
use crate::powers::power_row;
use crate::whole::Whole;
use iso_text::{Term, Unit};

// Number i of a row.
fn number_at(row: &[i8; 8], i: usize) -> Whole
    requires { i < 8 }
    ensures value { result ≡ record { n = get_or row.now i (pos 0) } }
    ensures most { unsigned_abs result.n ≤ 128 }
{
    Whole { n: row[i] as i128 }
}

// sum + f c.
fn with_multiple(sum: Whole, factor: Whole, coefficient: Whole) -> Whole
    requires sum { unsigned_abs sum.n ≤ 2 ^ 40 }
    requires factor { unsigned_abs factor.n ≤ 2 ^ 20 }
    requires coefficient { unsigned_abs coefficient.n ≤ 128 }
    ensures value { result ≡ record { n = sum.n +ℤ factor.n *ℤ coefficient.n } }
    ensures most { unsigned_abs result.n ≤ unsigned_abs sum.n + 128 * unsigned_abs factor.n }
{
    Whole {
        n: sum.n + factor.n * coefficient.n,
    }
}

// The coefficients of a unit.
fn unit_row(unit: Unit) -> [i8; 8]
    requires { IsUnit unit }
    ensures { result ≡ list8 (unit8 unit) }
{
    match unit {
        Unit::One => power_row(0),
        Unit::Z(power) => power_row(power),
        Unit::I => power_row(6),
        Unit::R2 => [0, 1, 0, 1, 0, -1, 0, 0],
        Unit::R3 => [0, 0, 2, 0, 0, 0, -1, 0],
        Unit::R6 => [0, 1, 0, 1, 0, 1, 0, -2],
    }
}

// 24 times the fraction of a term.
fn factor_of(term: Term) -> Whole
    requires { IsTerm term }
    ensures value { result ≡ record { n = factor_of term } }
    ensures most { unsigned_abs result.n ≤ 240000 }
{
    Whole {
        n: term.num as i128 * (24 / term.den) as i128,
    }
}

/// The sum with f times a row, over the same denominator.
pub(crate) fn with_row(sum: Fraction8, factor: Whole, row: &[i8; 8]) -> Fraction8
    requires sum { AreAtMost (2 ^ 40) sum }
    requires factor { unsigned_abs factor.n ≤ 2 ^ 20 }
    ensures value { eight_of result ≡ add8 whole (eight_of sum) (scale8 factor.n (row8 row.now)) }
    ensures low { result.d ≡ sum.d }
    ensures most { (n : ℕ) → AreAtMost n sum → AreAtMost (n + 128 * unsigned_abs factor.n) result }
{
    Fraction8 {
        d: sum.d,
        c0: with_multiple(sum.c0, factor, number_at(row, 0)),
        c1: with_multiple(sum.c1, factor, number_at(row, 1)),
        c2: with_multiple(sum.c2, factor, number_at(row, 2)),
        c3: with_multiple(sum.c3, factor, number_at(row, 3)),
        c4: with_multiple(sum.c4, factor, number_at(row, 4)),
        c5: with_multiple(sum.c5, factor, number_at(row, 5)),
        c6: with_multiple(sum.c6, factor, number_at(row, 6)),
        c7: with_multiple(sum.c7, factor, number_at(row, 7)),
    }
}

/// 0 over a denominator.
#[rattlefmt::skip]
pub(crate) fn zero_over(d: Whole) -> Fraction8
    ensures value { eight_of result ≡ num8 whole (pos 0) }
    ensures low { result.d ≡ d }
    ensures most { AreAtMost 0 result }
{
    let zero = Whole { n: 0 };
    Fraction8 { d, c0: zero, c1: zero, c2: zero, c3: zero, c4: zero, c5: zero, c6: zero, c7: zero }
}

/// The sum of the terms over 24, before lowest terms.
pub(crate) fn sum_of_terms(terms: &[Term]) -> Fraction8
    requires few { length terms.now ≤ 16 }
    requires terms { All IsTerm terms.now }
    ensures value { eight_of result ≡ terms8 terms.now }
    ensures low { result.d ≡ record { n = pos 24 } }
    ensures most { AreAtMost (2 ^ 40) result }
{
    let mut sum = zero_over(Whole { n: 24 });
    for term in terms {
        let factor = factor_of(*term);
        let row = unit_row(term.unit);
        sum = with_row(sum, factor, &row);
    }
    sum
}
