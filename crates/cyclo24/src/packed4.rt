// Four numerators over a denominator, packed in 32 bits.
ghost use Rattle.std.specs.Prelude.{◌≡◌, ◌≤◌, ◌^◌, ◌∷◌, [], pos, true};
ghost use Rattle.std.specs.List.{list_all};
ghost use Rattle.cyclo24.specs.Gcd.{all_zero};
ghost use Rattle.cyclo24.specs.Listed.{is_positive};
ghost use Rattle.cyclo24.specs.Long.{is_short};
ghost use Rattle.cyclo24.specs.Written4.{numerators4, numbers4, negated, product, sum};
ghost use Rattle.cyclo24.specs.Short4.{wide_of, IsWithin4};
ghost use Rattle.cyclo24.specs.Packed4.{widened, unpacked, IsPacked4, IsLowestOf, one};

use crate::fraction4::Fraction4;
use crate::packed::Packed;
use crate::ratio::PackedRatio;
use crate::short4::Short4;
use crate::small::Small;

/// The number (a0 + a1 r2 + a2 r3 + a3 r6) / d. It compares by d, then by the numerators.
#[derive(Clone, Copy, Debug, PartialEq, Eq, PartialOrd, Ord, Hash)]
pub(crate) struct Packed4 {
    pub(crate) d: Packed,
    pub(crate) a0: Packed,
    pub(crate) a1: Packed,
    pub(crate) a2: Packed,
    pub(crate) a3: Packed,
}

impl Packed4 {
    /// The rational number n / d.
    #[inline(always)]
    pub(crate) fn rational(n: Packed, d: Packed) -> Packed4
        ensures { result ≡ record { d = d; a0 = n; a1 = record { n = pos 0 }; a2 = record { n = pos 0 }; a3 = record { n = pos 0 } } }
    {
        Packed4 {
            d,
            a0: n,
            a1: Packed { n: 0 },
            a2: Packed { n: 0 },
            a3: Packed { n: 0 },
        }
    }

    /// Whether it is 0.
    #[inline(always)]
    pub(crate) fn is_zero(self) -> bool
        ensures { result ≡ all_zero (numerators4 (widened self)) }
    {
        self.a0.is_zero() && (self.a1.is_zero() && (self.a2.is_zero() && self.a3.is_zero()))
    }

    /// Whether it is rational.
    #[inline(always)]
    pub(crate) fn is_rational(self) -> bool
        ensures { result ≡ all_zero (self.a1.n ∷ self.a2.n ∷ self.a3.n ∷ []) }
    {
        self.a1.is_zero() && (self.a2.is_zero() && self.a3.is_zero())
    }

    /// Its first numerator over its denominator.
    #[inline(always)]
    pub(crate) fn ratio(self) -> PackedRatio
        ensures { result ≡ record { d = self.d; n = self.a0 } }
    {
        PackedRatio {
            d: self.d,
            n: self.a0,
        }
    }

    /// -x.
    #[inline(always)]
    pub(crate) fn negated(self) -> Packed4
        requires { IsPacked4 self }
        ensures value { widened result ≡ negated (widened self) }
        ensures packed { IsPacked4 result }
    {
        Packed4 {
            d: self.d,
            a0: self.a0.negated(),
            a1: self.a1.negated(),
            a2: self.a2.negated(),
            a3: self.a3.negated(),
        }
    }

    /// The number in 64 bits.
    #[inline(always)]
    pub(crate) fn unpacked(self) -> Short4
        requires { IsPacked4 self }
        ensures value { result ≡ unpacked self }
        ensures most { IsWithin4 (2 ^ 28) result }
    {
        Short4 {
            d: self.d.unpacked(),
            a0: self.a0.unpacked(),
            a1: self.a1.unpacked(),
            a2: self.a2.unpacked(),
            a3: self.a3.unpacked(),
        }
    }

    /// The number in 128 bits.
    pub(crate) fn widened(self) -> Fraction4
        requires { IsPacked4 self }
        ensures { result ≡ widened self }
    {
        Fraction4 {
            d: self.d.widened(),
            a0: self.a0.widened(),
            a1: self.a1.widened(),
            a2: self.a2.widened(),
            a3: self.a3.widened(),
        }
    }

    // The product of any numbers.
    fn full_product(self, other: Packed4) -> Short4
        requires left { IsPacked4 self }
        requires right { IsPacked4 other }
        requires positive { is_positive self.d.n ≡ true }
        requires positive_other { is_positive other.d.n ≡ true }
        ensures { IsLowestOf (wide_of result) (product (widened self) (widened other)).value }
    {
        self.unpacked().product(other.unpacked()).lowered()
    }

    /// The product in lowest terms.
    #[inline(always)]
    pub(crate) fn product(self, other: Packed4) -> Short4
        requires left { IsPacked4 self }
        requires right { IsPacked4 other }
        requires positive { is_positive self.d.n ≡ true }
        requires positive_other { is_positive other.d.n ≡ true }
        ensures { IsLowestOf (wide_of result) (product (widened self) (widened other)).value }
    {
        if self.is_rational() && other.is_rational() {
            self.ratio().product(other.ratio()).four()
        } else {
            self.full_product(other)
        }
    }

    // The sum of whole numbers of the field.
    #[inline(always)]
    fn sum_over_one(self, other: Packed4) -> Short4
        requires left { IsPacked4 self }
        requires right { IsPacked4 other }
        requires one { self.d.n ≡ pos 1 }
        requires one_other { other.d.n ≡ pos 1 }
        ensures { IsLowestOf (wide_of result) (sum one (widened self) (widened other)).value }
    {
        Short4 {
            d: Small { n: 1 },
            a0: self.a0.unpacked().plus(other.a0.unpacked()),
            a1: self.a1.unpacked().plus(other.a1.unpacked()),
            a2: self.a2.unpacked().plus(other.a2.unpacked()),
            a3: self.a3.unpacked().plus(other.a3.unpacked()),
        }
    }

    // The sum of any numbers.
    fn full_sum(self, other: Packed4) -> Short4
        requires left { IsPacked4 self }
        requires right { IsPacked4 other }
        requires positive { is_positive self.d.n ≡ true }
        requires positive_other { is_positive other.d.n ≡ true }
        ensures { IsLowestOf (wide_of result) (sum one (widened self) (widened other)).value }
    {
        self.unpacked()
            .sum(Small { n: 1 }, other.unpacked())
            .lowered()
    }

    /// The sum in lowest terms.
    #[inline(always)]
    pub(crate) fn sum(self, other: Packed4) -> Short4
        requires left { IsPacked4 self }
        requires right { IsPacked4 other }
        requires positive { is_positive self.d.n ≡ true }
        requires positive_other { is_positive other.d.n ≡ true }
        ensures { IsLowestOf (wide_of result) (sum one (widened self) (widened other)).value }
    {
        if self.d.is_one() && other.d.is_one() {
            self.sum_over_one(other)
        } else if self.is_rational() && other.is_rational() {
            self.ratio().sum(other.ratio()).four()
        } else {
            self.full_sum(other)
        }
    }
}

impl Short4 {
    /// Whether all its numbers are short.
    #[inline(always)]
    pub(crate) fn is_short(self) -> bool
        ensures { result ≡ list_all is_short (numbers4 (wide_of self)) }
    {
        self.a0.is_short()
            && (self.a1.is_short()
                && (self.a2.is_short() && (self.a3.is_short() && self.d.is_short())))
    }

    /// A short number in 32 bits.
    #[inline(always)]
    pub(crate) fn packed(self) -> Packed4
        requires { list_all is_short (numbers4 (wide_of self)) ≡ true }
        ensures value { widened result ≡ wide_of self }
        ensures packed { IsPacked4 result }
    {
        Packed4 {
            d: self.d.packed(),
            a0: self.a0.packed(),
            a1: self.a1.packed(),
            a2: self.a2.packed(),
            a3: self.a3.packed(),
        }
    }
}
