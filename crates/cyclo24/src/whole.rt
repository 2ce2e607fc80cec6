// Whole numbers in 128 bits, and sums of products that are refused where a written number is wide.
ghost use Rattle.std.specs.Prelude.{◌≡◌, ◌<◌, ◌≤◌, ◌^◌, pos, int_lt, true, false, neg_ℤ};
ghost use Rattle.std.specs.Int.RustNames.{unsigned_abs};
ghost use Rattle.std.specs.Ordering.{int_eq};
ghost use Rattle.cyclo24.specs.Gcd.{gcd, quotient};
ghost use Rattle.cyclo24.specs.Long.{is_short};
ghost use Rattle.cyclo24.specs.Checked.{answer, written, times, plus, term, sum_of, is_wide};

use crate::Wide;
use crate::small::Small;

/// The least absolute value that isn't written.
const LEAST_WIDE: u128 = 1 << 126;

/// The least number that 32 bits don't hold.
const LEAST_ABOVE_32: u64 = 1 << 32;

/// The least number that 64 bits don't hold.
const LEAST_LONG: u128 = 1 << 64;

/// The least absolute value that isn't short.
const LEAST_NOT_SHORT: i128 = 1 << 28;

/// The least absolute value that isn't tiny.
const LEAST_NOT_TINY: i128 = 1 << 11;

/// A whole number of 128 bits.
#[derive(Clone, Copy, Debug, PartialEq, Eq, PartialOrd, Ord, Hash)]
pub(crate) struct Whole {
    pub(crate) n: i128,
}

// The number, unless it is wide.
fn narrow(x: i128) -> Result<Whole, Wide>
    ensures { result ≡ answer (written x) }
{
    if x.unsigned_abs() < LEAST_WIDE {
        Ok(Whole { n: x })
    } else {
        Err(Wide)
    }
}

// The greatest common divisor of numbers of 32 bits, by Euclid's algorithm.
#[tactic(auto, using(crate::specs::GcdLaws::gcd_step, crate::specs::GcdLaws::gcd_zero))]
fn tiny_euclid(a: u32, b: u32) -> u32
    ensures { result ≡ gcd a b }
{
    let mut x = a;
    let mut y = b;
    while y != 0 {
        let rest = x % y;
        x = y;
        y = rest;
    }
    x
}

/// The greatest common divisor, in 32 bits where both numbers are so short.
pub(crate) fn short_common(a: u64, b: u64) -> u64
    ensures { result ≡ gcd a b }
{
    if a < LEAST_ABOVE_32 && b < LEAST_ABOVE_32 {
        tiny_euclid(a as u32, b as u32) as u64
    } else {
        short_euclid(a, b)
    }
}

// The greatest common divisor of numbers of 64 bits, by Euclid's algorithm.
#[tactic(auto, using(crate::specs::GcdLaws::gcd_step, crate::specs::GcdLaws::gcd_zero))]
fn short_euclid(a: u64, b: u64) -> u64
    ensures { result ≡ gcd a b }
{
    let mut x = a;
    let mut y = b;
    while y != 0 {
        let rest = x % y;
        x = y;
        y = rest;
    }
    x
}

// The greatest common divisor, in 64 bits where both numbers are so short.
fn greatest_common(a: u128, b: u128) -> u128
    ensures { result ≡ gcd a b }
{
    if a < LEAST_LONG && b < LEAST_LONG {
        short_common(a as u64, b as u64) as u128
    } else {
        euclid(a, b)
    }
}

// The greatest common divisor, by Euclid's algorithm.
#[tactic(auto, using(crate::specs::GcdLaws::gcd_step, crate::specs::GcdLaws::gcd_zero))]
fn euclid(a: u128, b: u128) -> u128
    ensures { result ≡ gcd a b }
{
    let mut x = a;
    let mut y = b;
    while y != 0 {
        let rest = x % y;
        x = y;
        y = rest;
    }
    x
}

impl Whole {
    /// A number of 8 bits.
    pub(crate) fn byte(n: i8) -> Whole
        ensures value { result ≡ record { n = n } }
        ensures narrow { is_wide result.n ≡ false }
    {
        Whole { n: n as i128 }
    }

    /// A number of 64 bits.
    pub(crate) fn small(n: i64) -> Whole
        ensures value { result ≡ record { n = n } }
        ensures narrow { is_wide result.n ≡ false }
    {
        Whole { n: n as i128 }
    }

    /// A number below 2^126 in absolute value.
    pub(crate) fn of(n: i128) -> Whole
        requires { unsigned_abs n < 2 ^ 126 }
        ensures value { result ≡ record { n = n } }
        ensures narrow { is_wide result.n ≡ false }
    {
        Whole { n }
    }

    /// Whether it is 0.
    pub(crate) fn is_zero(self) -> bool
        ensures { result ≡ int_eq self.n (pos 0) }
    {
        self.n == 0
    }

    /// Whether it is 1.
    pub(crate) fn is_one(self) -> bool
        ensures { result ≡ int_eq self.n (pos 1) }
    {
        self.n == 1
    }

    /// A number that is 0 only where both are.
    #[inline]
    #[tactic(auto, using(crate::specs::SmallLaws::either_left, crate::specs::SmallLaws::either_right))]
    pub(crate) fn either(self, other: Whole) -> Whole
        ensures left { result.n ≡ pos 0 → self.n ≡ pos 0 }
        ensures right { result.n ≡ pos 0 → other.n ≡ pos 0 }
    {
        Whole {
            n: self.n | other.n,
        }
    }

    /// Whether its absolute value is below 2^28.
    #[tactic(auto, unfolding(crate::specs::Long::is_short), using(crate::specs::SmallLaws::short_between, crate::specs::LongLaws::between_short))]
    pub(crate) fn is_short(self) -> bool
        ensures most { result ≡ true → unsigned_abs self.n ≤ 2 ^ 28 }
        ensures exact { result ≡ is_short self.n }
    {
        -LEAST_NOT_SHORT < self.n && self.n < LEAST_NOT_SHORT
    }

    /// Whether its absolute value is below 2^11.
    #[tactic(auto, using(crate::specs::SmallLaws::tiny_between))]
    pub(crate) fn is_tiny(self) -> bool
        ensures { result ≡ true → unsigned_abs self.n ≤ 2 ^ 11 }
    {
        -LEAST_NOT_TINY < self.n && self.n < LEAST_NOT_TINY
    }

    /// The number in 64 bits.
    pub(crate) fn shortened(self) -> Small
        requires { unsigned_abs self.n ≤ 2 ^ 28 }
        ensures { result ≡ record { n = self.n } }
    {
        Small { n: self.n as i64 }
    }

    /// Whether it is below 0.
    pub(crate) fn is_negative(self) -> bool
        ensures { result ≡ int_lt self.n (pos 0) }
    {
        self.n < 0
    }

    /// The absolute value.
    pub(crate) fn magnitude(self) -> u128
        requires { is_wide self.n ≡ false }
        ensures { result ≡ unsigned_abs self.n }
    {
        self.n.unsigned_abs()
    }

    /// -x.
    pub(crate) fn negated(self) -> Whole
        requires { is_wide self.n ≡ false }
        ensures { result ≡ record { n = neg_ℤ self.n } }
    {
        Whole { n: -self.n }
    }

    /// The quotient by a divisor above 0, cut towards 0.
    pub(crate) fn divided(self, divisor: Whole) -> Whole
        requires narrow { is_wide self.n ≡ false }
        requires positive { 0 < unsigned_abs divisor.n }
        requires upright { divisor.n ≡ pos (unsigned_abs divisor.n) }
        ensures { result ≡ record { n = quotient self.n (unsigned_abs divisor.n) } }
    {
        if divisor.n == 1 {
            self
        } else {
            Whole {
                n: self.n / divisor.n,
            }
        }
    }

    /// The greatest common divisor.
    pub(crate) fn common(self, other: Whole) -> Whole
        requires narrow { is_wide self.n ≡ false }
        requires narrow_other { is_wide other.n ≡ false }
        ensures value { result ≡ record { n = pos (gcd (unsigned_abs self.n) (unsigned_abs other.n)) } }
        ensures positive { 0 < unsigned_abs other.n → 0 < unsigned_abs result.n }
        ensures narrow { is_wide result.n ≡ false }
    {
        Whole {
            n: greatest_common(self.n.unsigned_abs(), other.n.unsigned_abs()) as i128,
        }
    }

    /// x y, unless it is wide.
    #[tactic(auto, using(crate::specs::CheckedLaws::wide_answer))]
    pub(crate) fn times(self, other: Whole) -> Result<Whole, Wide>
        ensures { result ≡ answer (times self other) }
    {
        match self.n.checked_mul(other.n) {
            Some(product) => narrow(product),
            None => Err(Wide),
        }
    }

    /// x + y, unless it is wide.
    #[tactic(auto, using(crate::specs::CheckedLaws::wide_answer))]
    pub(crate) fn plus(self, other: Whole) -> Result<Whole, Wide>
        ensures { result ≡ answer (plus self other) }
    {
        match self.n.checked_add(other.n) {
            Some(sum) => narrow(sum),
            None => Err(Wide),
        }
    }
}

/// The product of two numbers, times a small factor.
#[derive(Clone, Copy, Debug)]
pub(crate) struct Product {
    pub(crate) factor: Whole,
    pub(crate) x: Whole,
    pub(crate) y: Whole,
}

impl Product {
    /// Its value, unless it or the product without the factor is wide.
    fn value(self) -> Result<Whole, Wide>
        ensures { result ≡ answer (term self) }
    {
        let product = self.x.times(self.y)?;
        self.factor.times(product)
    }
}

/// The sum of products from left to right, unless a written number is wide.
pub(crate) fn sum_of(terms: &[Product]) -> Result<Whole, Wide>
    ensures { result ≡ answer (sum_of terms.now) }
{
    let mut sum = Whole { n: 0 };
    for term in terms {
        let value = term.value()?;
        sum = sum.plus(value)?;
    }
    Ok(sum)
}
