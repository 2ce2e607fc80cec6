// Products, sums and inverses of four numerators over a denominator, in lowest terms. Each goes the
// shortest way that its numbers allow: rational numbers, numbers in 64 bits, or any numbers.
ghost use Rattle.std.specs.Prelude.{◌≡◌, ◌≤◌, ◌<◌, ◌^◌, pos, true, IfOk, IfErr};
ghost use Rattle.std.specs.Int.RustNames.{unsigned_abs};
ghost use Rattle.std.specs.List.{list_all};
ghost use Rattle.cyclo24.specs.Four.{norm4};
ghost use Rattle.algebra.specs.Whole.{whole};
ghost use Rattle.cyclo24.specs.Checked.{any_wide};
ghost use Rattle.cyclo24.specs.Listed.{is_positive};
ghost use Rattle.cyclo24.specs.Long.{is_short};
ghost use Rattle.cyclo24.specs.Written4.{numerators4, numbers4, IsNarrow4, product, sum};
ghost use Rattle.cyclo24.specs.Written4Inverse.{inverse, upright};
ghost use Rattle.cyclo24.specs.Short4.{short_of, four_of, IsWithin4, IsRational4};
ghost use Rattle.cyclo24.specs.Lowest4.{IsAnswered4};

use crate::Wide;
use crate::fraction4::Fraction4;
use crate::short4::{Short4, joined, lowest_rational};
use crate::small::Small;
use crate::whole::Whole;

/// The product of rational numbers.
pub(crate) fn rational_product(a: &Fraction4, b: &Fraction4) -> Fraction4
    requires rational { IsRational4 a.now }
    requires rational_other { IsRational4 b.now }
    requires positive { is_positive a.now.d.n ≡ true }
    requires positive_other { is_positive b.now.d.n ≡ true }
    ensures { IsAnswered4 (product a.now b.now).written (numerators4 (product a.now b.now).value) (unsigned_abs (product a.now b.now).value.d.n) result }
{
    let n = a.a0.shortened().times(b.a0.shortened());
    let d = a.d.shortened().times(b.d.shortened());
    lowest_rational(n, d)
}

// The product of short numbers.
fn short_product(a: &Fraction4, b: &Fraction4) -> Fraction4
    requires short { IsWithin4 (2 ^ 28) (short_of a.now) }
    requires short_other { IsWithin4 (2 ^ 28) (short_of b.now) }
    requires positive { is_positive a.now.d.n ≡ true }
    requires positive_other { is_positive b.now.d.n ≡ true }
    ensures { IsAnswered4 (product a.now b.now).written (numerators4 (product a.now b.now).value) (unsigned_abs (product a.now b.now).value.d.n) result }
{
    a.short().product(b.short()).lowest()
}

// The product of any numbers.
#[cold]
#[inline(never)]
fn long_product(a: &Fraction4, b: &Fraction4) -> Result<Fraction4, Wide>
    requires positive { is_positive a.now.d.n ≡ true }
    requires positive_other { is_positive b.now.d.n ≡ true }
    ensures ok { IfOk result (λ s. IsAnswered4 (product a.now b.now).written (numerators4 (product a.now b.now).value) (unsigned_abs (product a.now b.now).value.d.n) s) }
    ensures wide { IfErr result (λ _. any_wide (product a.now b.now).written ≡ true) }
{
    let product = a.written_product(*b)?;
    Ok(product.reduced())
}

/// The sum of rational numbers, with a small factor at the second.
pub(crate) fn rational_sum(factor: Small, a: &Fraction4, b: &Fraction4) -> Fraction4
    requires factor { unsigned_abs factor.n ≤ 8 }
    requires rational { IsRational4 a.now }
    requires rational_other { IsRational4 b.now }
    requires positive { is_positive a.now.d.n ≡ true }
    requires positive_other { is_positive b.now.d.n ≡ true }
    ensures { IsAnswered4 (sum (record { n = factor.n }) a.now b.now).written (numerators4 (sum (record { n = factor.n }) a.now b.now).value) (unsigned_abs (sum (record { n = factor.n }) a.now b.now).value.d.n) result }
{
    let d = a.d.shortened();
    let e = b.d.shortened();
    let common = d.common(e);
    let p = d.divided(common);
    let q = e.divided(common);
    let n = joined(q, a.a0.shortened(), factor, p, b.a0.shortened());
    lowest_rational(n, d.times(q))
}

// The sum of short numbers, with a small factor at the second.
fn short_sum(factor: Small, a: &Fraction4, b: &Fraction4) -> Fraction4
    requires factor { unsigned_abs factor.n ≤ 8 }
    requires short { IsWithin4 (2 ^ 28) (short_of a.now) }
    requires short_other { IsWithin4 (2 ^ 28) (short_of b.now) }
    requires positive { is_positive a.now.d.n ≡ true }
    requires positive_other { is_positive b.now.d.n ≡ true }
    ensures { IsAnswered4 (sum (record { n = factor.n }) a.now b.now).written (numerators4 (sum (record { n = factor.n }) a.now b.now).value) (unsigned_abs (sum (record { n = factor.n }) a.now b.now).value.d.n) result }
{
    a.short().sum(factor, b.short()).lowest()
}

// The sum of any numbers, with a small factor at the second.
#[cold]
#[inline(never)]
fn long_sum(factor: Small, a: &Fraction4, b: &Fraction4) -> Result<Fraction4, Wide>
    requires factor { unsigned_abs factor.n ≤ 8 }
    requires narrow { IsNarrow4 a.now }
    requires narrow_other { IsNarrow4 b.now }
    requires positive { is_positive a.now.d.n ≡ true }
    requires positive_other { is_positive b.now.d.n ≡ true }
    ensures ok { IfOk result (λ s. IsAnswered4 (sum (record { n = factor.n }) a.now b.now).written (numerators4 (sum (record { n = factor.n }) a.now b.now).value) (unsigned_abs (sum (record { n = factor.n }) a.now b.now).value.d.n) s) }
    ensures wide { IfErr result (λ _. any_wide (sum (record { n = factor.n }) a.now b.now).written ≡ true) }
{
    let sum = a.written_sum(factor.widened(), *b)?;
    Ok(sum.reduced())
}

// The inverse of a tiny number.
fn short_inverse(a: &Fraction4) -> Fraction4
    requires tiny { IsWithin4 (2 ^ 11) (short_of a.now) }
    requires positive { is_positive a.now.d.n ≡ true }
    requires nonzero { 0 < unsigned_abs (norm4 whole (four_of (short_of a.now))) }
    ensures { IsAnswered4 (inverse a.now).written (numerators4 (upright (inverse a.now).value)) (unsigned_abs (upright (inverse a.now).value).d.n) result }
{
    a.short().inverse().upright().lowest()
}

// The inverse of any number.
#[cold]
#[inline(never)]
fn long_inverse(a: &Fraction4) -> Result<Fraction4, Wide>
    requires positive { is_positive a.now.d.n ≡ true }
    requires nonzero { 0 < unsigned_abs (norm4 whole (four_of (short_of a.now))) }
    ensures ok { IfOk result (λ s. IsAnswered4 (inverse a.now).written (numerators4 (upright (inverse a.now).value)) (unsigned_abs (upright (inverse a.now).value).d.n) s) }
    ensures wide { IfErr result (λ _. any_wide (inverse a.now).written ≡ true) }
{
    let inverse = a.written_inverse()?;
    Ok(inverse.upright().reduced())
}

/// Whether both are rational numbers of short parts.
#[inline]
pub(crate) fn are_rational(a: &Fraction4, b: &Fraction4) -> bool
    ensures left { result ≡ true → IsRational4 a.now }
    ensures right { result ≡ true → IsRational4 b.now }
{
    a.above_rational().either(b.above_rational()).is_zero()
        && (a.a0.is_short() && (b.a0.is_short() && (a.d.is_short() && b.d.is_short())))
}

impl Fraction4 {
    /// Whether all its numbers are short.
    pub(crate) fn is_short(&self) -> bool
        ensures within { result ≡ true → IsWithin4 (2 ^ 28) (short_of self.now) }
        ensures exact { result ≡ list_all is_short (numbers4 self.now) }
    {
        self.a0.is_short()
            && (self.a1.is_short()
                && (self.a2.is_short() && (self.a3.is_short() && self.d.is_short())))
    }

    // Whether all its numbers are tiny.
    fn is_tiny(&self) -> bool
        ensures { result ≡ true → IsWithin4 (2 ^ 11) (short_of self.now) }
    {
        self.d.is_tiny()
            && (self.a0.is_tiny()
                && (self.a1.is_tiny() && (self.a2.is_tiny() && self.a3.is_tiny())))
    }

    // A number that is 0 only where the coefficients of r2, r3 and r6 are.
    #[inline]
    fn above_rational(&self) -> Whole
        ensures a1 { result.n ≡ pos 0 → self.now.a1.n ≡ pos 0 }
        ensures a2 { result.n ≡ pos 0 → self.now.a2.n ≡ pos 0 }
        ensures a3 { result.n ≡ pos 0 → self.now.a3.n ≡ pos 0 }
    {
        self.a1.either(self.a2).either(self.a3)
    }

    /// The number in 64 bits.
    pub(crate) fn short(&self) -> Short4
        requires { IsWithin4 (2 ^ 28) (short_of self.now) }
        ensures { result ≡ short_of self.now }
    {
        Short4 {
            d: self.d.shortened(),
            a0: self.a0.shortened(),
            a1: self.a1.shortened(),
            a2: self.a2.shortened(),
            a3: self.a3.shortened(),
        }
    }

    /// The product in lowest terms.
    pub(crate) fn product(&self, other: &Fraction4) -> Result<Fraction4, Wide>
        requires positive { is_positive self.now.d.n ≡ true }
        requires positive_other { is_positive other.now.d.n ≡ true }
        ensures ok { IfOk result (λ s. IsAnswered4 (product self.now other.now).written (numerators4 (product self.now other.now).value) (unsigned_abs (product self.now other.now).value.d.n) s) }
        ensures wide { IfErr result (λ _. any_wide (product self.now other.now).written ≡ true) }
    {
        if self.is_short() && other.is_short() {
            Ok(short_product(self, other))
        } else {
            long_product(self, other)
        }
    }

    /// The sum with a multiple of the other number by a small factor, in lowest terms.
    pub(crate) fn sum(&self, factor: Small, other: &Fraction4) -> Result<Fraction4, Wide>
        requires factor { unsigned_abs factor.n ≤ 8 }
        requires narrow { IsNarrow4 self.now }
        requires narrow_other { IsNarrow4 other.now }
        requires positive { is_positive self.now.d.n ≡ true }
        requires positive_other { is_positive other.now.d.n ≡ true }
        ensures ok { IfOk result (λ s. IsAnswered4 (sum (record { n = factor.n }) self.now other.now).written (numerators4 (sum (record { n = factor.n }) self.now other.now).value) (unsigned_abs (sum (record { n = factor.n }) self.now other.now).value.d.n) s) }
        ensures wide { IfErr result (λ _. any_wide (sum (record { n = factor.n }) self.now other.now).written ≡ true) }
    {
        if self.is_short() && other.is_short() {
            Ok(short_sum(factor, self, other))
        } else {
            long_sum(factor, self, other)
        }
    }

    /// The inverse of a number that isn't 0, in lowest terms.
    pub(crate) fn inverse(&self) -> Result<Fraction4, Wide>
        requires positive { is_positive self.now.d.n ≡ true }
        requires nonzero { 0 < unsigned_abs (norm4 whole (four_of (short_of self.now))) }
        ensures ok { IfOk result (λ s. IsAnswered4 (inverse self.now).written (numerators4 (upright (inverse self.now).value)) (unsigned_abs (upright (inverse self.now).value).d.n) s) }
        ensures wide { IfErr result (λ _. any_wide (inverse self.now).written ≡ true) }
    {
        if self.is_tiny() {
            Ok(short_inverse(self))
        } else {
            long_inverse(self)
        }
    }
}
