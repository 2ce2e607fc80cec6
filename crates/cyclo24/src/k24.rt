// The real field Q(sqrt 2, sqrt 3) with values in 128 bits.
ghost use Rattle.std.specs.Prelude.{◌≡◌, true, false};
ghost use Rattle.cyclo24.specs.Written4.{numbers4, IsNarrow4};
ghost use Rattle.cyclo24.specs.Listed.{is_exact};

use crate::fraction4::Fraction4;
use crate::lowest4::{are_rational, rational_product, rational_sum};
use crate::print::push_multiple;
use crate::small::Small;
use crate::whole::Whole;
use crate::{Field, Wide};
use iso_text::{NoMemory, Text};
use std::alloc::Global;

/// A number (a0 + a1 r2 + a2 r3 + a3 r6) / d in lowest terms over a denominator above 0, where rN
/// is the positive square root of N. All five numbers are below 2^126 in absolute value.
///
/// Values compare by their denominators, then by their numerators.
#[derive(Clone, Copy, Debug, PartialEq, Eq, PartialOrd, Ord, Hash)]
pub struct K24 {
    pub(crate) fraction: Fraction4,
    pub ghost narrow: { IsNarrow4 fraction },
    pub ghost lowest: { is_exact 4 (numbers4 fraction) ≡ true },
}

impl K24 {
    ghost use Rattle.std.specs.Prelude.{IfOk, ◌<◌, ◌^◌, ◌∷◌, [], pos, ◌<ℤ◌};
    ghost use Rattle.std.specs.Int.RustNames.{unsigned_abs};
    ghost use Rattle.cyclo24.specs.Gcd.{lowest_terms};
    ghost use Rattle.cyclo24.specs.Numerals.{of_whole};
    ghost use Rattle.cyclo24.specs.ExactK24.{k24_laws};
    ghost use Rattle.cyclo24.specs.K24.{exact24};
    ghost use Rattle.cyclo24.specs.TextK24.{text24};

    /// The whole number n.
    pub fn whole(n: i128) -> K24
        requires { unsigned_abs n < 2 ^ 126 }
        ensures numbers { (exact24 result).0 ≡ n ∷ pos 0 ∷ pos 0 ∷ pos 0 ∷ pos 1 ∷ [] }
        ensures value { exact24 result ≡ of_whole k24_laws n }
    {
        K24 {
            fraction: Fraction4 {
                d: Whole { n: 1 },
                a0: Whole::of(n),
                a1: Whole { n: 0 },
                a2: Whole { n: 0 },
                a3: Whole { n: 0 },
            },
        }
    }

    /// The text: for each coefficient of 1, r2, r3, r6 that isn't 0 its fraction in lowest terms, as
    /// `1/2-3/4*r2+r6`; `0` where all are 0.
    pub fn print(self, alloc: Global) -> Result<Text, NoMemory>
        ensures { IfOk result (λ text. text ≡ text24 (exact24 self)) }
    {
        let f = self.fraction;
        if f.is_zero() {
            let zero = String::from_str(alloc, "0")?;
            return Ok(Text::from_string(zero));
        }
        let one = push_multiple(alloc, String::new(alloc), true, f.a0, f.d, "")?;
        let first1 = f.a0.is_zero();
        let two = push_multiple(alloc, one, first1, f.a1, f.d, "r2")?;
        let first2 = first1 && f.a1.is_zero();
        let three = push_multiple(alloc, two, first2, f.a2, f.d, "r3")?;
        let first3 = first2 && f.a2.is_zero();
        let six = push_multiple(alloc, three, first3, f.a3, f.d, "r6")?;
        Ok(Text::from_string(six))
    }

    /// The fraction n / d over a denominator above 0.
    pub fn ratio(n: i64, d: i64) -> K24
        requires { pos 0 <ℤ d }
        ensures numbers { (exact24 result).0 ≡ lowest_terms (n ∷ pos 0 ∷ pos 0 ∷ pos 0 ∷ []) (unsigned_abs d) }
        ensures value { k24_laws.times (exact24 result) (of_whole k24_laws d) ≡ of_whole k24_laws n }
    {
        K24::of_parts(d, n, 0, 0, 0)
    }

    // The number (a0 + a1 r2 + a2 r3 + a3 r6) / d.
    fn of_parts(d: i64, a0: i64, a1: i64, a2: i64, a3: i64) -> K24
        requires { pos 0 <ℤ d }
        ensures { (exact24 result).0 ≡ lowest_terms (a0 ∷ a1 ∷ a2 ∷ a3 ∷ []) (unsigned_abs d) }
    {
        let fraction = Fraction4 {
            d: Whole::small(d),
            a0: Whole::small(a0),
            a1: Whole::small(a1),
            a2: Whole::small(a2),
            a3: Whole::small(a3),
        };
        K24 {
            fraction: fraction.reduced(),
        }
    }
}

impl Field for K24 {
    ghost use Rattle.cyclo24.specs.ExactK24.{k24};
    ghost use Rattle.cyclo24.specs.K24.{exact24};
    ghost use Rattle.cyclo24.specs.K24OrderLaws.{exact24_cmp};

    ghost field = { k24 };

    ghost value = { exact24 };

    fn zero() -> K24 {
        K24 {
            fraction: Fraction4 {
                d: Whole { n: 1 },
                a0: Whole { n: 0 },
                a1: Whole { n: 0 },
                a2: Whole { n: 0 },
                a3: Whole { n: 0 },
            },
        }
    }

    fn one() -> K24 {
        K24 {
            fraction: Fraction4 {
                d: Whole { n: 1 },
                a0: Whole { n: 1 },
                a1: Whole { n: 0 },
                a2: Whole { n: 0 },
                a3: Whole { n: 0 },
            },
        }
    }

    fn small(n: i8) -> K24 {
        K24 {
            fraction: Fraction4 {
                d: Whole { n: 1 },
                a0: Whole::byte(n),
                a1: Whole { n: 0 },
                a2: Whole { n: 0 },
                a3: Whole { n: 0 },
            },
        }
    }

    fn is_zero(self) -> bool {
        self.fraction.is_zero()
    }

    fn neg(self) -> K24 {
        K24 {
            fraction: self.fraction.negated(),
        }
    }

    fn add(self, other: K24) -> Result<K24, Wide> {
        if are_rational(&self.fraction, &other.fraction) {
            let rational = rational_sum(Small { n: 1 }, &self.fraction, &other.fraction);
            return Ok(K24 { fraction: rational });
        }
        let fraction = self.fraction.sum(Small { n: 1 }, &other.fraction)?;
        Ok(K24 { fraction })
    }

    fn sub(self, other: K24) -> Result<K24, Wide> {
        if are_rational(&self.fraction, &other.fraction) {
            let rational = rational_sum(Small { n: -1 }, &self.fraction, &other.fraction);
            return Ok(K24 { fraction: rational });
        }
        let fraction = self.fraction.sum(Small { n: -1 }, &other.fraction)?;
        Ok(K24 { fraction })
    }

    fn mul(self, other: K24) -> Result<K24, Wide> {
        if are_rational(&self.fraction, &other.fraction) {
            let rational = rational_product(&self.fraction, &other.fraction);
            return Ok(K24 { fraction: rational });
        }
        let fraction = self.fraction.product(&other.fraction)?;
        Ok(K24 { fraction })
    }

    fn inv(self) -> Result<K24, Wide> {
        let fraction = self.fraction.inverse()?;
        Ok(K24 { fraction })
    }

    ghost value_cmp = { exact24_cmp };
}
