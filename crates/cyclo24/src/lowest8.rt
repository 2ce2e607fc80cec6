// Products and sums of eight numerators over a denominator, in lowest terms. Each goes the shortest
// way that its numbers allow: rational numbers, numbers in 64 bits, or any numbers.
ghost use Rattle.std.specs.Prelude.{◌≡◌, ◌≤◌, ◌^◌, pos, true, IfOk, IfErr};
ghost use Rattle.std.specs.Int.RustNames.{unsigned_abs};
ghost use Rattle.cyclo24.specs.Checked.{any_wide};
ghost use Rattle.cyclo24.specs.Listed.{is_positive};
ghost use Rattle.cyclo24.specs.Written8.{numerators8, IsNarrow8, sum};
ghost use Rattle.cyclo24.specs.Written8Products.{product};
ghost use Rattle.cyclo24.specs.Short8.{short_of, IsWithin8, IsRational8};
ghost use Rattle.cyclo24.specs.Lowest8.{IsAnswered8};

use crate::Wide;
use crate::fraction8::Fraction8;
use crate::short8::{Short8, joined, lowest_rational};
use crate::whole::Whole;

/// The product of rational numbers.
pub(crate) fn rational_product(a: &Fraction8, b: &Fraction8) -> Fraction8
    requires rational { IsRational8 a.now }
    requires rational_other { IsRational8 b.now }
    requires positive { is_positive a.now.d.n ≡ true }
    requires positive_other { is_positive b.now.d.n ≡ true }
    ensures { IsAnswered8 (product a.now b.now).written (numerators8 (product a.now b.now).value) (unsigned_abs (product a.now b.now).value.d.n) result }
{
    let n = a.c0.shortened().times(b.c0.shortened());
    let d = a.d.shortened().times(b.d.shortened());
    lowest_rational(n, d)
}

// The product of short numbers.
fn short_product(a: &Fraction8, b: &Fraction8) -> Fraction8
    requires short { IsWithin8 (2 ^ 28) (short_of a.now) }
    requires short_other { IsWithin8 (2 ^ 28) (short_of b.now) }
    requires positive { is_positive a.now.d.n ≡ true }
    requires positive_other { is_positive b.now.d.n ≡ true }
    ensures { IsAnswered8 (product a.now b.now).written (numerators8 (product a.now b.now).value) (unsigned_abs (product a.now b.now).value.d.n) result }
{
    a.short().product(b.short()).lowest()
}

// The product of any numbers.
#[cold]
#[inline(never)]
fn long_product(a: &Fraction8, b: &Fraction8) -> Result<Fraction8, Wide>
    requires positive { is_positive a.now.d.n ≡ true }
    requires positive_other { is_positive b.now.d.n ≡ true }
    ensures ok { IfOk result (λ s. IsAnswered8 (product a.now b.now).written (numerators8 (product a.now b.now).value) (unsigned_abs (product a.now b.now).value.d.n) s) }
    ensures wide { IfErr result (λ _. any_wide (product a.now b.now).written ≡ true) }
{
    let product = a.written_product(*b)?;
    Ok(product.reduced())
}

/// The sum of rational numbers.
pub(crate) fn rational_sum(a: &Fraction8, b: &Fraction8) -> Fraction8
    requires rational { IsRational8 a.now }
    requires rational_other { IsRational8 b.now }
    requires positive { is_positive a.now.d.n ≡ true }
    requires positive_other { is_positive b.now.d.n ≡ true }
    ensures { IsAnswered8 (sum a.now b.now).written (numerators8 (sum a.now b.now).value) (unsigned_abs (sum a.now b.now).value.d.n) result }
{
    let d = a.d.shortened();
    let e = b.d.shortened();
    let common = d.common(e);
    let p = d.divided(common);
    let q = e.divided(common);
    let n = joined(q, a.c0.shortened(), p, b.c0.shortened());
    lowest_rational(n, d.times(q))
}

// The sum of short numbers.
fn short_sum(a: &Fraction8, b: &Fraction8) -> Fraction8
    requires short { IsWithin8 (2 ^ 28) (short_of a.now) }
    requires short_other { IsWithin8 (2 ^ 28) (short_of b.now) }
    requires positive { is_positive a.now.d.n ≡ true }
    requires positive_other { is_positive b.now.d.n ≡ true }
    ensures { IsAnswered8 (sum a.now b.now).written (numerators8 (sum a.now b.now).value) (unsigned_abs (sum a.now b.now).value.d.n) result }
{
    a.short().sum(b.short()).lowest()
}

// The sum of any numbers.
#[cold]
#[inline(never)]
fn long_sum(a: &Fraction8, b: &Fraction8) -> Result<Fraction8, Wide>
    requires narrow { IsNarrow8 a.now }
    requires narrow_other { IsNarrow8 b.now }
    requires positive { is_positive a.now.d.n ≡ true }
    requires positive_other { is_positive b.now.d.n ≡ true }
    ensures ok { IfOk result (λ s. IsAnswered8 (sum a.now b.now).written (numerators8 (sum a.now b.now).value) (unsigned_abs (sum a.now b.now).value.d.n) s) }
    ensures wide { IfErr result (λ _. any_wide (sum a.now b.now).written ≡ true) }
{
    let sum = a.written_sum(*b)?;
    Ok(sum.reduced())
}

/// Whether both are rational numbers of short parts.
#[inline]
pub(crate) fn are_rational(a: &Fraction8, b: &Fraction8) -> bool
    ensures left { result ≡ true → IsRational8 a.now }
    ensures right { result ≡ true → IsRational8 b.now }
{
    a.above_rational().either(b.above_rational()).is_zero()
        && (a.c0.is_short() && (b.c0.is_short() && (a.d.is_short() && b.d.is_short())))
}

impl Fraction8 {
    // Whether all its numbers are short.
    #[rattlefmt::skip]
    fn is_short(&self) -> bool
        ensures { result ≡ true → IsWithin8 (2 ^ 28) (short_of self.now) }
    {
        self.d.is_short() && (self.c0.is_short() && (self.c1.is_short() && (self.c2.is_short()
            && (self.c3.is_short() && (self.c4.is_short() && (self.c5.is_short()
            && (self.c6.is_short() && self.c7.is_short())))))))
    }

    // A number that is 0 only where the coefficients of z, .., z^7 are.
    #[rattlefmt::skip]
    #[inline]
    fn above_rational(&self) -> Whole
        ensures c1 { result.n ≡ pos 0 → self.now.c1.n ≡ pos 0 }
        ensures c2 { result.n ≡ pos 0 → self.now.c2.n ≡ pos 0 }
        ensures c3 { result.n ≡ pos 0 → self.now.c3.n ≡ pos 0 }
        ensures c4 { result.n ≡ pos 0 → self.now.c4.n ≡ pos 0 }
        ensures c5 { result.n ≡ pos 0 → self.now.c5.n ≡ pos 0 }
        ensures c6 { result.n ≡ pos 0 → self.now.c6.n ≡ pos 0 }
        ensures c7 { result.n ≡ pos 0 → self.now.c7.n ≡ pos 0 }
    {
        self.c1.either(self.c2).either(self.c3).either(self.c4).either(self.c5).either(self.c6).either(self.c7)
    }

    // The number in 64 bits.
    fn short(&self) -> Short8
        requires { IsWithin8 (2 ^ 28) (short_of self.now) }
        ensures { result ≡ short_of self.now }
    {
        Short8 {
            d: self.d.shortened(),
            c0: self.c0.shortened(),
            c1: self.c1.shortened(),
            c2: self.c2.shortened(),
            c3: self.c3.shortened(),
            c4: self.c4.shortened(),
            c5: self.c5.shortened(),
            c6: self.c6.shortened(),
            c7: self.c7.shortened(),
        }
    }

    /// The product in lowest terms.
    #[inline(never)]
    pub(crate) fn product(&self, other: &Fraction8) -> Result<Fraction8, Wide>
        requires positive { is_positive self.now.d.n ≡ true }
        requires positive_other { is_positive other.now.d.n ≡ true }
        ensures ok { IfOk result (λ s. IsAnswered8 (product self.now other.now).written (numerators8 (product self.now other.now).value) (unsigned_abs (product self.now other.now).value.d.n) s) }
        ensures wide { IfErr result (λ _. any_wide (product self.now other.now).written ≡ true) }
    {
        if self.is_short() && other.is_short() {
            Ok(short_product(self, other))
        } else {
            long_product(self, other)
        }
    }

    /// The sum in lowest terms.
    #[inline(never)]
    pub(crate) fn sum(&self, other: &Fraction8) -> Result<Fraction8, Wide>
        requires narrow { IsNarrow8 self.now }
        requires narrow_other { IsNarrow8 other.now }
        requires positive { is_positive self.now.d.n ≡ true }
        requires positive_other { is_positive other.now.d.n ≡ true }
        ensures ok { IfOk result (λ s. IsAnswered8 (sum self.now other.now).written (numerators8 (sum self.now other.now).value) (unsigned_abs (sum self.now other.now).value.d.n) s) }
        ensures wide { IfErr result (λ _. any_wide (sum self.now other.now).written ≡ true) }
    {
        if self.is_short() && other.is_short() {
            Ok(short_sum(self, other))
        } else {
            long_sum(self, other)
        }
    }
}
