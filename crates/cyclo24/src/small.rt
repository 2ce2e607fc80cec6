// Numbers of 64 bits whose products and sums stay within them.
ghost use Rattle.std.specs.Prelude.{◌≡◌, ◌<◌, ◌≤◌, ◌+◌, ◌^◌, ◌*◌, pos, neg_ℤ, int_lt, ◌+ℤ◌, ◌*ℤ◌, false};
ghost use Rattle.std.specs.Int.RustNames.{unsigned_abs};
ghost use Rattle.std.specs.Ordering.{int_eq};
ghost use Rattle.cyclo24.specs.Gcd.{gcd, quotient};
ghost use Rattle.cyclo24.specs.Checked.{is_wide};

use crate::whole::{Whole, short_common};

/// A whole number of 64 bits.
#[derive(Clone, Copy, Debug)]
pub(crate) struct Small {
    pub(crate) n: i64,
}

impl Small {
    /// x y.
    pub(crate) fn times(self, other: Small) -> Small
        requires left { unsigned_abs self.n ≤ 2 ^ 28 }
        requires right { unsigned_abs other.n ≤ 2 ^ 28 }
        ensures value { result ≡ record { n = self.n *ℤ other.n } }
        ensures most { unsigned_abs result.n ≤ 2 ^ 56 }
    {
        Small {
            n: self.n * other.n,
        }
    }

    /// f x for a small factor f.
    pub(crate) fn multiple(self, factor: Small) -> Small
        requires factor { unsigned_abs factor.n ≤ 8 }
        requires most { unsigned_abs self.n ≤ 2 ^ 56 }
        ensures value { result ≡ record { n = factor.n *ℤ self.n } }
        ensures most { unsigned_abs result.n ≤ 8 * unsigned_abs self.n }
    {
        Small {
            n: factor.n * self.n,
        }
    }

    /// f x for a factor f of at most 2,048.
    pub(crate) fn scaled(self, factor: Small) -> Small
        requires factor { unsigned_abs factor.n ≤ 2 ^ 11 }
        requires most { unsigned_abs self.n ≤ 2 ^ 50 }
        ensures value { result ≡ record { n = factor.n *ℤ self.n } }
        ensures most { unsigned_abs result.n ≤ 2 ^ 11 * unsigned_abs self.n }
    {
        Small {
            n: factor.n * self.n,
        }
    }

    /// -x.
    pub(crate) fn negated(self) -> Small
        requires { unsigned_abs self.n ≤ 2 ^ 62 }
        ensures value { result ≡ record { n = neg_ℤ self.n } }
        ensures most { unsigned_abs result.n ≡ unsigned_abs self.n }
    {
        Small { n: -self.n }
    }

    /// Whether it is below 0.
    pub(crate) fn is_negative(self) -> bool
        ensures { result ≡ int_lt self.n (pos 0) }
    {
        self.n < 0
    }

    /// x + y.
    pub(crate) fn plus(self, other: Small) -> Small
        requires left { unsigned_abs self.n ≤ 2 ^ 61 }
        requires right { unsigned_abs other.n ≤ 2 ^ 61 }
        ensures value { result ≡ record { n = self.n +ℤ other.n } }
        ensures most { unsigned_abs result.n ≤ unsigned_abs self.n + unsigned_abs other.n }
    {
        Small {
            n: self.n + other.n,
        }
    }

    /// x + y z.
    pub(crate) fn plus_product(self, y: Small, z: Small) -> Small
        requires left { unsigned_abs self.n ≤ 2 ^ 60 }
        requires y { unsigned_abs y.n ≤ 2 ^ 28 }
        requires z { unsigned_abs z.n ≤ 2 ^ 28 }
        ensures value { result ≡ record { n = self.n +ℤ y.n *ℤ z.n } }
        ensures most { unsigned_abs result.n ≤ unsigned_abs self.n + 2 ^ 56 }
    {
        self.plus(y.times(z))
    }

    /// The greatest common divisor.
    pub(crate) fn common(self, other: Small) -> Small
        requires left { unsigned_abs self.n ≤ 2 ^ 62 }
        requires right { unsigned_abs other.n ≤ 2 ^ 62 }
        ensures value { result ≡ record { n = pos (gcd (unsigned_abs self.n) (unsigned_abs other.n)) } }
        ensures positive { 0 < unsigned_abs other.n → 0 < unsigned_abs result.n }
        ensures most { unsigned_abs result.n ≤ 2 ^ 62 }
    {
        if other.is_one() {
            return other;
        }
        Small {
            n: short_common(self.n.unsigned_abs(), other.n.unsigned_abs()) as i64,
        }
    }

    /// The quotient by a divisor above 0, cut towards 0.
    pub(crate) fn divided(self, divisor: Small) -> Small
        requires positive { 0 < unsigned_abs divisor.n }
        requires upright { divisor.n ≡ pos (unsigned_abs divisor.n) }
        ensures value { result ≡ record { n = quotient self.n (unsigned_abs divisor.n) } }
        ensures most { unsigned_abs result.n ≤ unsigned_abs self.n }
    {
        if divisor.is_one() {
            return self;
        }
        Small {
            n: self.n / divisor.n,
        }
    }

    /// Whether it is 1.
    pub(crate) fn is_one(self) -> bool
        ensures { result ≡ int_eq self.n (pos 1) }
    {
        self.n == 1
    }

    /// The number in 128 bits.
    pub(crate) fn widened(self) -> Whole
        requires { unsigned_abs self.n ≤ 2 ^ 62 }
        ensures value { result ≡ record { n = self.n } }
        ensures narrow { is_wide result.n ≡ false }
    {
        Whole { n: self.n as i128 }
    }
}
