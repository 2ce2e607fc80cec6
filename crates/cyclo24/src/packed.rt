// Whole numbers below 2^28 in absolute value, packed in 32 bits.
ghost use Rattle.std.specs.Prelude.{◌≡◌, ◌≤◌, ◌<◌, ◌^◌, pos, neg_ℤ, true};
ghost use Rattle.std.specs.Int.RustNames.{unsigned_abs};
ghost use Rattle.std.specs.Ordering.{int_eq};
ghost use Rattle.cyclo24.specs.Long.{is_short};

use crate::small::Small;
use crate::whole::Whole;

/// The least absolute value that isn't short.
const LEAST_NOT_SHORT: i64 = 1 << 28;

/// A whole number of 32 bits.
#[derive(Clone, Copy, Debug, PartialEq, Eq, PartialOrd, Ord, Hash)]
pub(crate) struct Packed {
    pub(crate) n: i32,
}

impl Packed {
    /// A number of 8 bits.
    pub(crate) fn byte(n: i8) -> Packed
        ensures value { result ≡ record { n = n } }
        ensures short { unsigned_abs result.n < 2 ^ 28 }
    {
        Packed { n: n as i32 }
    }

    /// Whether it is 0.
    #[inline(always)]
    pub(crate) fn is_zero(self) -> bool
        ensures { result ≡ int_eq self.n (pos 0) }
    {
        self.n == 0
    }

    /// Whether it is 1.
    #[inline(always)]
    pub(crate) fn is_one(self) -> bool
        ensures { result ≡ int_eq self.n (pos 1) }
    {
        self.n == 1
    }

    /// -x.
    #[inline(always)]
    pub(crate) fn negated(self) -> Packed
        requires { unsigned_abs self.n < 2 ^ 28 }
        ensures { result ≡ record { n = neg_ℤ self.n } }
    {
        Packed { n: -self.n }
    }

    /// The number in 64 bits.
    #[inline(always)]
    pub(crate) fn unpacked(self) -> Small
        requires { unsigned_abs self.n < 2 ^ 28 }
        ensures { result ≡ record { n = self.n } }
    {
        Small { n: self.n as i64 }
    }

    /// The number in 128 bits.
    #[inline(always)]
    pub(crate) fn widened(self) -> Whole
        requires { unsigned_abs self.n < 2 ^ 28 }
        ensures { result ≡ record { n = self.n } }
    {
        Whole { n: self.n as i128 }
    }
}

impl Small {
    /// Whether its absolute value is below 2^28.
    #[inline(always)]
    #[tactic(auto, unfolding(crate::specs::Long::is_short), using(crate::specs::LongLaws::between_short))]
    pub(crate) fn is_short(self) -> bool
        ensures { result ≡ is_short self.n }
    {
        -LEAST_NOT_SHORT < self.n && self.n < LEAST_NOT_SHORT
    }

    /// A short number in 32 bits.
    #[inline(always)]
    pub(crate) fn packed(self) -> Packed
        requires { is_short self.n ≡ true }
        ensures value { result ≡ record { n = self.n } }
        ensures short { unsigned_abs result.n < 2 ^ 28 }
    {
        Packed { n: self.n as i32 }
    }
}
