// The 24th cyclotomic field with values in 128 bits.
ghost use Rattle.std.specs.Prelude.{◌≡◌, ◌↔◌, true, false, IfOk, IsErr, IsTrue};
ghost use Rattle.cyclo24.specs.Written8.{numbers8, IsNarrow8};
ghost use Rattle.cyclo24.specs.Listed.{is_exact};

use crate::fraction8::Fraction8;
use crate::lowest8::{are_rational, rational_product, rational_sum};
use crate::powers::{ROOT_ORDER, power_row};
use crate::print::push_multiple;
use crate::terms::{sum_of_terms, with_row, zero_over};
use crate::whole::Whole;
use crate::{Field, K24, Wide};
use iso_text::{NoMemory, Term, Text};
use std::alloc::Global;

/// A number (c0 + c1 z + .. + c7 z^7) / d in lowest terms over a denominator above 0, where z is
/// exp(2 pi i / 24). All nine numbers are below 2^126 in absolute value.
///
/// Values compare by their denominators, then by their numerators.
#[derive(Clone, Copy, Debug, PartialEq, Eq, PartialOrd, Ord, Hash)]
pub struct Z24 {
    fraction: Fraction8,
    pub ghost narrow: { IsNarrow8 fraction },
    pub ghost lowest: { is_exact 8 (numbers8 fraction) ≡ true },
}

impl Field for Z24 {
    ghost use Rattle.cyclo24.specs.ExactZ24.{z24};
    ghost use Rattle.cyclo24.specs.Z24.{exact_z24};
    ghost use Rattle.cyclo24.specs.Z24OrderLaws.{exact_z24_cmp};

    ghost field = { z24 };

    ghost value = { exact_z24 };

    fn zero() -> Z24 {
        Z24 {
            fraction: Fraction8 {
                d: Whole { n: 1 },
                c0: Whole { n: 0 },
                c1: Whole { n: 0 },
                c2: Whole { n: 0 },
                c3: Whole { n: 0 },
                c4: Whole { n: 0 },
                c5: Whole { n: 0 },
                c6: Whole { n: 0 },
                c7: Whole { n: 0 },
            },
        }
    }

    fn one() -> Z24 {
        Z24 {
            fraction: Fraction8 {
                d: Whole { n: 1 },
                c0: Whole { n: 1 },
                c1: Whole { n: 0 },
                c2: Whole { n: 0 },
                c3: Whole { n: 0 },
                c4: Whole { n: 0 },
                c5: Whole { n: 0 },
                c6: Whole { n: 0 },
                c7: Whole { n: 0 },
            },
        }
    }

    fn small(n: i8) -> Z24 {
        Z24 {
            fraction: Fraction8 {
                d: Whole { n: 1 },
                c0: Whole::byte(n),
                c1: Whole { n: 0 },
                c2: Whole { n: 0 },
                c3: Whole { n: 0 },
                c4: Whole { n: 0 },
                c5: Whole { n: 0 },
                c6: Whole { n: 0 },
                c7: Whole { n: 0 },
            },
        }
    }

    fn is_zero(self) -> bool {
        self.fraction.is_zero()
    }

    fn neg(self) -> Z24 {
        Z24 {
            fraction: self.fraction.negated(),
        }
    }

    fn add(self, other: Z24) -> Result<Z24, Wide> {
        if are_rational(&self.fraction, &other.fraction) {
            let rational = rational_sum(&self.fraction, &other.fraction);
            return Ok(Z24 { fraction: rational });
        }
        let fraction = self.fraction.sum(&other.fraction)?;
        Ok(Z24 { fraction })
    }

    fn sub(self, other: Z24) -> Result<Z24, Wide> {
        let negative = other.neg();
        self.add(negative)
    }

    fn mul(self, other: Z24) -> Result<Z24, Wide> {
        if are_rational(&self.fraction, &other.fraction) {
            let rational = rational_product(&self.fraction, &other.fraction);
            return Ok(Z24 { fraction: rational });
        }
        let fraction = self.fraction.product(&other.fraction)?;
        Ok(Z24 { fraction })
    }

    /// The conjugate times the inverse of the squared absolute value.
    fn inv(self) -> Result<Z24, Wide> {
        let conjugate = self.conj()?;
        let norm = self.mul(conjugate)?;
        let square = norm.real_part()?;
        let inverse = square.inv()?;
        let factor = Z24::from_real(inverse)?;
        conjugate.mul(factor)
    }

    ghost value_cmp = { exact_z24_cmp };
}

impl Z24 {
    ghost use Rattle.std.specs.Prelude.{◌<◌, ◌≤◌, length};
    ghost use Rattle.std.specs.List.{All};
    ghost use Rattle.iso_text.specs.WordRanges.{IsTerm};
    ghost use Rattle.cyclo24.specs.Terms.{terms_value};
    ghost use Rattle.cyclo24.specs.ExactZ24.{power, conj, real_part, imag_part, from_real, is_wide_conj, is_wide_real_part, is_wide_imag_part, is_wide_from_real};
    ghost use Rattle.cyclo24.specs.K24.{exact24};
    ghost use Rattle.cyclo24.specs.TextZ24.{text_z24};
    ghost use Rattle.cyclo24.specs.Z24.{exact_z24};

    /// z to the power a.
    pub fn root(a: u8) -> Z24
        requires { a < ROOT_ORDER }
        ensures { exact_z24 result ≡ power a }
    {
        let row = power_row(a);
        let zero = zero_over(Whole { n: 1 });
        let fraction = with_row(zero, Whole { n: 1 }, &row);
        Z24 {
            fraction: fraction.reduced(),
        }
    }

    /// The sum of at most 16 terms, each a fraction times a unit. The numerators are at most 10,000
    /// in absolute value, the denominators divide 24, and the powers of z are below 24.
    pub fn from_terms(terms: &[Term]) -> Z24
        requires few { length terms.now ≤ 16 }
        requires terms { All IsTerm terms.now }
        ensures { exact_z24 result ≡ terms_value terms.now }
    {
        let sum = sum_of_terms(terms);
        Z24 {
            fraction: sum.reduced(),
        }
    }

    /// The complex conjugate.
    pub fn conj(self) -> Result<Z24, Wide>
        ensures exact { IfOk result (λ r. exact_z24 r ≡ conj (exact_z24 self)) }
        ensures wide { IsErr result ↔ IsTrue (is_wide_conj (exact_z24 self)) }
    {
        let conjugate = self.fraction.conjugate()?;
        Ok(Z24 {
            fraction: conjugate.reduced(),
        })
    }

    /// The real part.
    pub fn real_part(self) -> Result<K24, Wide>
        ensures exact { IfOk result (λ r. exact24 r ≡ real_part (exact_z24 self)) }
        ensures wide { IsErr result ↔ IsTrue (is_wide_real_part (exact_z24 self)) }
    {
        let part = self.fraction.real()?;
        Ok(K24 {
            fraction: part.reduced(),
        })
    }

    /// The imaginary part.
    pub fn imag_part(self) -> Result<K24, Wide>
        ensures exact { IfOk result (λ r. exact24 r ≡ imag_part (exact_z24 self)) }
        ensures wide { IsErr result ↔ IsTrue (is_wide_imag_part (exact_z24 self)) }
    {
        let part = self.fraction.imaginary()?;
        Ok(K24 {
            fraction: part.reduced(),
        })
    }

    /// The real number k.
    pub fn from_real(k: K24) -> Result<Z24, Wide>
        ensures exact { IfOk result (λ r. exact_z24 r ≡ from_real (exact24 k)) }
        ensures wide { IsErr result ↔ IsTrue (is_wide_from_real (exact24 k)) }
    {
        let powers = Fraction8::from_four(k.fraction)?;
        Ok(Z24 {
            fraction: powers.reduced(),
        })
    }

    /// The text: for each coefficient of 1, z, .., z^7 that isn't 0 its fraction in lowest terms, as
    /// `1/2-3/4*z1+z6`; `0` where all are 0.
    pub fn print(self, alloc: Global) -> Result<Text, NoMemory>
        ensures { IfOk result (λ text. text ≡ text_z24 (exact_z24 self)) }
    {
        let f = self.fraction;
        if f.is_zero() {
            let zero = String::from_str(alloc, "0")?;
            return Ok(Text::from_string(zero));
        }
        let s0 = push_multiple(alloc, String::new(alloc), true, f.c0, f.d, "")?;
        let first1 = f.c0.is_zero();
        let s1 = push_multiple(alloc, s0, first1, f.c1, f.d, "z1")?;
        let first2 = first1 && f.c1.is_zero();
        let s2 = push_multiple(alloc, s1, first2, f.c2, f.d, "z2")?;
        let first3 = first2 && f.c2.is_zero();
        let s3 = push_multiple(alloc, s2, first3, f.c3, f.d, "z3")?;
        let first4 = first3 && f.c3.is_zero();
        let s4 = push_multiple(alloc, s3, first4, f.c4, f.d, "z4")?;
        let first5 = first4 && f.c4.is_zero();
        let s5 = push_multiple(alloc, s4, first5, f.c5, f.d, "z5")?;
        let first6 = first5 && f.c5.is_zero();
        let s6 = push_multiple(alloc, s5, first6, f.c6, f.d, "z6")?;
        let first7 = first6 && f.c6.is_zero();
        let s7 = push_multiple(alloc, s6, first7, f.c7, f.d, "z7")?;
        Ok(Text::from_string(s7))
    }
}
