// Four numerators over a denominator, and the formulas of the field on them.
ghost use Rattle.std.specs.Prelude.{◌≡◌, ◌<◌, ◌≤◌, pos, true, false};
ghost use Rattle.std.specs.Int.RustNames.{unsigned_abs};
ghost use Rattle.cyclo24.specs.Checked.{answer, is_wide};
ghost use Rattle.cyclo24.specs.Gcd.{common, lowest_terms, all_zero};
ghost use Rattle.cyclo24.specs.Listed.{is_positive};
ghost use Rattle.cyclo24.specs.Written4.{numerators4, numbers4, IsNarrow4, product0, product1, product2, product3, product, joined, sum_over, sum, negated};
ghost use Rattle.cyclo24.specs.Written4Inverse.{norm_u, norm_v, norm, multiple, inverse_over, inverse, upright};

use crate::Wide;
use crate::whole::{Product, Whole, sum_of};

/// The number (a0 + a1 r2 + a2 r3 + a3 r6) / d. It compares by d, then by the numerators.
#[derive(Clone, Copy, Debug, PartialEq, Eq, PartialOrd, Ord, Hash)]
pub(crate) struct Fraction4 {
    pub(crate) d: Whole,
    pub(crate) a0: Whole,
    pub(crate) a1: Whole,
    pub(crate) a2: Whole,
    pub(crate) a3: Whole,
}

// The coefficient of 1 in a product.
#[tactic(auto, unfolding(crate::specs::Written4::product0))]
#[rattlefmt::skip]
fn product0(a: Fraction4, b: Fraction4) -> Result<Whole, Wide>
    ensures { result ≡ answer (product0 a b) }
{
    sum_of(&[
        Product { factor: Whole { n: 1 }, x: a.a0, y: b.a0 },
        Product { factor: Whole { n: 2 }, x: a.a1, y: b.a1 },
        Product { factor: Whole { n: 3 }, x: a.a2, y: b.a2 },
        Product { factor: Whole { n: 6 }, x: a.a3, y: b.a3 },
    ])
}

// The coefficient of r2 in a product.
#[tactic(auto, unfolding(crate::specs::Written4::product1))]
#[rattlefmt::skip]
fn product1(a: Fraction4, b: Fraction4) -> Result<Whole, Wide>
    ensures { result ≡ answer (product1 a b) }
{
    sum_of(&[
        Product { factor: Whole { n: 1 }, x: a.a0, y: b.a1 },
        Product { factor: Whole { n: 1 }, x: a.a1, y: b.a0 },
        Product { factor: Whole { n: 3 }, x: a.a2, y: b.a3 },
        Product { factor: Whole { n: 3 }, x: a.a3, y: b.a2 },
    ])
}

// The coefficient of r3 in a product.
#[tactic(auto, unfolding(crate::specs::Written4::product2))]
#[rattlefmt::skip]
fn product2(a: Fraction4, b: Fraction4) -> Result<Whole, Wide>
    ensures { result ≡ answer (product2 a b) }
{
    sum_of(&[
        Product { factor: Whole { n: 1 }, x: a.a0, y: b.a2 },
        Product { factor: Whole { n: 1 }, x: a.a2, y: b.a0 },
        Product { factor: Whole { n: 2 }, x: a.a1, y: b.a3 },
        Product { factor: Whole { n: 2 }, x: a.a3, y: b.a1 },
    ])
}

// The coefficient of r6 in a product.
#[tactic(auto, unfolding(crate::specs::Written4::product3))]
#[rattlefmt::skip]
fn product3(a: Fraction4, b: Fraction4) -> Result<Whole, Wide>
    ensures { result ≡ answer (product3 a b) }
{
    sum_of(&[
        Product { factor: Whole { n: 1 }, x: a.a0, y: b.a3 },
        Product { factor: Whole { n: 1 }, x: a.a3, y: b.a0 },
        Product { factor: Whole { n: 1 }, x: a.a1, y: b.a2 },
        Product { factor: Whole { n: 1 }, x: a.a2, y: b.a1 },
    ])
}

// a0² + 2 a1² - 3 a2² - 6 a3².
#[tactic(auto, unfolding(crate::specs::Written4Inverse::norm_u))]
#[rattlefmt::skip]
fn norm_u(a: Fraction4) -> Result<Whole, Wide>
    ensures { result ≡ answer (norm_u a) }
{
    sum_of(&[
        Product { factor: Whole { n: 1 }, x: a.a0, y: a.a0 },
        Product { factor: Whole { n: 2 }, x: a.a1, y: a.a1 },
        Product { factor: Whole { n: -3 }, x: a.a2, y: a.a2 },
        Product { factor: Whole { n: -6 }, x: a.a3, y: a.a3 },
    ])
}

// 2 a0 a1 - 6 a2 a3.
#[tactic(auto, unfolding(crate::specs::Written4Inverse::norm_v))]
#[rattlefmt::skip]
fn norm_v(a: Fraction4) -> Result<Whole, Wide>
    ensures { result ≡ answer (norm_v a) }
{
    sum_of(&[
        Product { factor: Whole { n: 2 }, x: a.a0, y: a.a1 },
        Product { factor: Whole { n: -6 }, x: a.a2, y: a.a3 },
    ])
}

// u² - 2 v².
#[tactic(auto, unfolding(crate::specs::Written4Inverse::norm))]
#[rattlefmt::skip]
fn norm(u: Whole, v: Whole) -> Result<Whole, Wide>
    ensures { result ≡ answer (norm u v) }
{
    sum_of(&[
        Product { factor: Whole { n: 1 }, x: u, y: u },
        Product { factor: Whole { n: -2 }, x: v, y: v },
    ])
}

// x p + f y q.
#[tactic(auto, unfolding(crate::specs::Written4::joined))]
#[rattlefmt::skip]
fn joined(x: Whole, p: Whole, factor: Whole, y: Whole, q: Whole) -> Result<Whole, Wide>
    ensures { result ≡ answer (joined x p factor y q) }
{
    sum_of(&[
        Product { factor: Whole { n: 1 }, x, y: p },
        Product { factor, x: y, y: q },
    ])
}

// d (f x u + g y v).
fn multiple(d: Whole, first: Product, second: Product) -> Result<Whole, Wide>
    ensures { result ≡ answer (multiple d first second) }
{
    let sum = sum_of(&[first, second])?;
    d.times(sum)
}

// a q + f b p, over d q.
fn sum_over(
    factor: Whole,
    a: Fraction4,
    q: Whole,
    b: Fraction4,
    p: Whole,
) -> Result<Fraction4, Wide>
    ensures { result ≡ answer (sum_over factor a q b p) }
{
    let a0 = joined(a.a0, q, factor, b.a0, p)?;
    let a1 = joined(a.a1, q, factor, b.a1, p)?;
    let a2 = joined(a.a2, q, factor, b.a2, p)?;
    let a3 = joined(a.a3, q, factor, b.a3, p)?;
    let d = a.d.times(q)?;
    Ok(Fraction4 { d, a0, a1, a2, a3 })
}

// The numerators of the inverse by u and v, over the norm n.
#[rattlefmt::skip]
fn inverse_over(a: Fraction4, u: Whole, v: Whole, n: Whole) -> Result<Fraction4, Wide>
    ensures { result ≡ answer (inverse_over a u v n) }
{
    let a0 = multiple(
        a.d,
        Product { factor: Whole { n: 1 }, x: a.a0, y: u },
        Product { factor: Whole { n: -2 }, x: a.a1, y: v },
    )?;
    let a1 = multiple(
        a.d,
        Product { factor: Whole { n: 1 }, x: a.a1, y: u },
        Product { factor: Whole { n: -1 }, x: a.a0, y: v },
    )?;
    let a2 = multiple(
        a.d,
        Product { factor: Whole { n: -1 }, x: a.a2, y: u },
        Product { factor: Whole { n: 2 }, x: a.a3, y: v },
    )?;
    let a3 = multiple(
        a.d,
        Product { factor: Whole { n: -1 }, x: a.a3, y: u },
        Product { factor: Whole { n: 1 }, x: a.a2, y: v },
    )?;
    Ok(Fraction4 { d: n, a0, a1, a2, a3 })
}

impl Fraction4 {
    /// The product, before lowest terms.
    pub(crate) fn written_product(self, other: Fraction4) -> Result<Fraction4, Wide>
        ensures { result ≡ answer (product self other) }
    {
        let a0 = product0(self, other)?;
        let a1 = product1(self, other)?;
        let a2 = product2(self, other)?;
        let a3 = product3(self, other)?;
        let d = self.d.times(other.d)?;
        Ok(Fraction4 { d, a0, a1, a2, a3 })
    }

    /// The sum with a multiple of the other number by 1 or -1, before lowest terms.
    pub(crate) fn written_sum(self, factor: Whole, other: Fraction4) -> Result<Fraction4, Wide>
        requires narrow { is_wide self.d.n ≡ false }
        requires narrow_other { is_wide other.d.n ≡ false }
        requires positive { is_positive other.d.n ≡ true }
        requires sign { unsigned_abs factor.n ≤ 8 }
        ensures { result ≡ answer (sum factor self other) }
    {
        let common = self.d.common(other.d);
        let p = self.d.divided(common);
        let q = other.d.divided(common);
        sum_over(factor, self, q, other, p)
    }

    /// The inverse over the norm, whose sign it has, before lowest terms.
    pub(crate) fn written_inverse(self) -> Result<Fraction4, Wide>
        ensures { result ≡ answer (inverse self) }
    {
        let u = norm_u(self)?;
        let v = norm_v(self)?;
        let n = norm(u, v)?;
        inverse_over(self, u, v, n)
    }

    /// The same number over a denominator above 0, where it isn't 0.
    pub(crate) fn upright(self) -> Fraction4
        requires { IsNarrow4 self }
        ensures { result ≡ upright self }
    {
        if self.d.is_negative() {
            Fraction4 {
                d: self.d.negated(),
                a0: self.a0.negated(),
                a1: self.a1.negated(),
                a2: self.a2.negated(),
                a3: self.a3.negated(),
            }
        } else {
            self
        }
    }

    // What divides each number.
    fn content(self) -> Whole
        requires narrow { IsNarrow4 self }
        requires positive { is_positive self.d.n ≡ true }
        ensures value { result ≡ record { n = pos (common (numerators4 self) (unsigned_abs self.d.n)) } }
        ensures positive { 0 < unsigned_abs result.n }
    {
        let three = self.a3.common(self.d);
        let two = self.a2.common(three);
        let one = self.a1.common(two);
        self.a0.common(one)
    }

    /// The number in lowest terms.
    pub(crate) fn reduced(self) -> Fraction4
        requires narrow { IsNarrow4 self }
        requires positive { is_positive self.d.n ≡ true }
        ensures lowest { numbers4 result ≡ lowest_terms (numerators4 self) (unsigned_abs self.d.n) }
        ensures narrow { IsNarrow4 result }
    {
        if self.d.is_one() {
            return self;
        }
        let all = self.content();
        if all.is_one() {
            return self;
        }
        Fraction4 {
            d: self.d.divided(all),
            a0: self.a0.divided(all),
            a1: self.a1.divided(all),
            a2: self.a2.divided(all),
            a3: self.a3.divided(all),
        }
    }

    /// Whether it is 0.
    pub(crate) fn is_zero(self) -> bool
        ensures { result ≡ all_zero (numerators4 self) }
    {
        self.a0.is_zero() && (self.a1.is_zero() && (self.a2.is_zero() && self.a3.is_zero()))
    }

    /// -x.
    pub(crate) fn negated(self) -> Fraction4
        requires { IsNarrow4 self }
        ensures { result ≡ negated self }
    {
        Fraction4 {
            d: self.d,
            a0: self.a0.negated(),
            a1: self.a1.negated(),
            a2: self.a2.negated(),
            a3: self.a3.negated(),
        }
    }
}
