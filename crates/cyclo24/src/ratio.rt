// Rational numbers in 64 bits and packed in 32.
ghost use Rattle.std.specs.Prelude.{◌≡◌, ◌≤◌, ◌^◌, ◌<◌, true, pos};
ghost use Rattle.std.specs.Int.RustNames.{unsigned_abs};
ghost use Rattle.std.specs.List.{list_all};
ghost use Rattle.cyclo24.specs.Listed.{is_positive};
ghost use Rattle.cyclo24.specs.Long.{is_short};
ghost use Rattle.cyclo24.specs.Written4.{numbers4, negated, product, sum};
ghost use Rattle.cyclo24.specs.Written4Inverse.{upright};
ghost use Rattle.cyclo24.specs.Short4.{wide_of};
ghost use Rattle.cyclo24.specs.Packed4.{widened, IsPacked4, IsLowestOf, one};
ghost use Rattle.cyclo24.specs.Ratio.{ratio4, packed_ratio4, swapped};

use crate::packed::Packed;
use crate::packed4::Packed4;
use crate::short4::{Short4, joined};
use crate::small::Small;

/// The number n / d in 64 bits.
#[derive(Clone, Copy, Debug)]
pub(crate) struct Ratio {
    pub(crate) d: Small,
    pub(crate) n: Small,
}

/// The number n / d in 32 bits. It compares by d, then by n.
#[derive(Clone, Copy, Debug, PartialEq, Eq, PartialOrd, Ord, Hash)]
pub(crate) struct PackedRatio {
    pub(crate) d: Packed,
    pub(crate) n: Packed,
}

impl Ratio {
    /// The number in lowest terms.
    #[inline(always)]
    pub(crate) fn lowered(self) -> Ratio
        requires n { unsigned_abs self.n.n ≤ 2 ^ 62 }
        requires d { unsigned_abs self.d.n ≤ 2 ^ 62 }
        requires positive { is_positive self.d.n ≡ true }
        ensures { IsLowestOf (ratio4 result) (ratio4 self) }
    {
        if self.d.is_one() {
            return self;
        }
        let common = self.n.common(self.d);
        Ratio {
            d: self.d.divided(common),
            n: self.n.divided(common),
        }
    }

    /// The number with four numerators.
    #[inline(always)]
    pub(crate) fn four(self) -> Short4
        ensures { wide_of result ≡ ratio4 self }
    {
        Short4 {
            d: self.d,
            a0: self.n,
            a1: Small { n: 0 },
            a2: Small { n: 0 },
            a3: Small { n: 0 },
        }
    }

    /// Whether both numbers are short.
    #[inline(always)]
    pub(crate) fn is_short(self) -> bool
        ensures { result ≡ list_all is_short (numbers4 (ratio4 self)) }
    {
        self.n.is_short() && self.d.is_short()
    }

    /// A short number in 32 bits.
    #[inline(always)]
    pub(crate) fn packed(self) -> PackedRatio
        requires { list_all is_short (numbers4 (ratio4 self)) ≡ true }
        ensures value { widened (packed_ratio4 result) ≡ ratio4 self }
        ensures packed { IsPacked4 (packed_ratio4 result) }
    {
        PackedRatio {
            d: self.d.packed(),
            n: self.n.packed(),
        }
    }
}

impl PackedRatio {
    /// The number with four numerators.
    #[inline(always)]
    pub(crate) fn four(self) -> Packed4
        ensures { result ≡ packed_ratio4 self }
    {
        Packed4::rational(self.n, self.d)
    }

    /// -x.
    #[inline(always)]
    pub(crate) fn negated(self) -> PackedRatio
        requires { IsPacked4 (packed_ratio4 self) }
        ensures value { widened (packed_ratio4 result) ≡ negated (widened (packed_ratio4 self)) }
        ensures packed { IsPacked4 (packed_ratio4 result) }
    {
        PackedRatio {
            d: self.d,
            n: self.n.negated(),
        }
    }

    /// The product in lowest terms.
    #[inline(always)]
    pub(crate) fn product(self, other: PackedRatio) -> Ratio
        requires left { IsPacked4 (packed_ratio4 self) }
        requires right { IsPacked4 (packed_ratio4 other) }
        requires positive { is_positive self.d.n ≡ true }
        requires positive_other { is_positive other.d.n ≡ true }
        ensures { IsLowestOf (ratio4 result) (product (widened (packed_ratio4 self)) (widened (packed_ratio4 other))).value }
    {
        let n = self.n.unpacked().times(other.n.unpacked());
        let d = self.d.unpacked().times(other.d.unpacked());
        let product = Ratio { d, n };
        product.lowered()
    }

    // The sum of whole numbers.
    #[inline(always)]
    fn sum_over_one(self, other: PackedRatio) -> Ratio
        requires left { IsPacked4 (packed_ratio4 self) }
        requires right { IsPacked4 (packed_ratio4 other) }
        requires one { self.d.n ≡ pos 1 }
        requires one_other { other.d.n ≡ pos 1 }
        ensures { IsLowestOf (ratio4 result) (sum one (widened (packed_ratio4 self)) (widened (packed_ratio4 other))).value }
    {
        Ratio {
            d: Small { n: 1 },
            n: self.n.unpacked().plus(other.n.unpacked()),
        }
    }

    // The sum of fractions.
    #[inline(always)]
    fn full_sum(self, other: PackedRatio) -> Ratio
        requires left { IsPacked4 (packed_ratio4 self) }
        requires right { IsPacked4 (packed_ratio4 other) }
        requires positive { is_positive self.d.n ≡ true }
        requires positive_other { is_positive other.d.n ≡ true }
        ensures { IsLowestOf (ratio4 result) (sum one (widened (packed_ratio4 self)) (widened (packed_ratio4 other))).value }
    {
        let d = self.d.unpacked();
        let e = other.d.unpacked();
        let common = d.common(e);
        let p = d.divided(common);
        let q = e.divided(common);
        let n = joined(q, self.n.unpacked(), Small { n: 1 }, p, other.n.unpacked());
        let sum = Ratio { d: d.times(q), n };
        sum.lowered()
    }

    /// The sum in lowest terms.
    #[inline(always)]
    pub(crate) fn sum(self, other: PackedRatio) -> Ratio
        requires left { IsPacked4 (packed_ratio4 self) }
        requires right { IsPacked4 (packed_ratio4 other) }
        requires positive { is_positive self.d.n ≡ true }
        requires positive_other { is_positive other.d.n ≡ true }
        ensures { IsLowestOf (ratio4 result) (sum one (widened (packed_ratio4 self)) (widened (packed_ratio4 other))).value }
    {
        if self.d.is_one() && other.d.is_one() {
            self.sum_over_one(other)
        } else {
            self.full_sum(other)
        }
    }

    /// The inverse of a number that isn't 0, in lowest terms where the number is.
    #[inline(always)]
    pub(crate) fn inverse(self) -> Ratio
        requires { IsPacked4 (packed_ratio4 self) }
        ensures { ratio4 result ≡ upright (swapped (widened (packed_ratio4 self))) }
    {
        let n = self.n.unpacked();
        let d = self.d.unpacked();
        if n.is_negative() {
            Ratio {
                d: n.negated(),
                n: d.negated(),
            }
        } else {
            Ratio { d: n, n: d }
        }
    }
}
