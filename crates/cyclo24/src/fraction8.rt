// Eight numerators over a denominator, and the formulas of the 24th cyclotomic field on them.
ghost use Rattle.std.specs.Prelude.{◌≡◌, ◌<◌, pos, true, false, length};
ghost use Rattle.std.specs.Int.RustNames.{unsigned_abs};
ghost use Rattle.cyclo24.specs.Checked.{answer, is_wide};
ghost use Rattle.cyclo24.specs.Listed.{is_positive};
ghost use Rattle.cyclo24.specs.Gcd.{common, lowest_terms, all_zero};
ghost use Rattle.cyclo24.specs.Written8.{numerators8, numbers8, IsNarrow8, dot, joined, sum_over, sum, negated};
ghost use Rattle.cyclo24.specs.Written8Products.{high_sums, less_two, and_one, low, product};
ghost use Rattle.cyclo24.specs.Written8Parts.{conjugate, real, imaginary, from_four};

use crate::Wide;
use crate::fraction4::Fraction4;
use crate::whole::Whole;

/// The number (c0 + c1 z + .. + c7 z^7) / d. It compares by d, then by the numerators.
#[derive(Clone, Copy, Debug, PartialEq, Eq, PartialOrd, Ord, Hash)]
pub(crate) struct Fraction8 {
    pub(crate) d: Whole,
    pub(crate) c0: Whole,
    pub(crate) c1: Whole,
    pub(crate) c2: Whole,
    pub(crate) c3: Whole,
    pub(crate) c4: Whole,
    pub(crate) c5: Whole,
    pub(crate) c6: Whole,
    pub(crate) c7: Whole,
}

// The coefficients of degree 8 to 14 of a product.
#[derive(Clone, Copy, Debug)]
struct High {
    s8: Whole,
    s9: Whole,
    s10: Whole,
    s11: Whole,
    s12: Whole,
    s13: Whole,
    s14: Whole,
}

// The sum of the products of two lists, place by place, from left to right.
fn dot(xs: &[Whole], ys: &[Whole]) -> Result<Whole, Wide>
    requires { length xs.now ≡ length ys.now }
    ensures { result ≡ answer (dot xs.now ys.now) }
{
    let mut sum = Whole { n: 0 };
    for i in 0..xs.len() {
        let product = xs[i].times(ys[i])?;
        sum = sum.plus(product)?;
    }
    Ok(sum)
}

// The sums of the products a_i b_j with i + j = m for m from 8 to 14, i rising.
#[rattlefmt::skip]
fn high_sums(a: Fraction8, b: Fraction8) -> Result<High, Wide>
    ensures { result ≡ answer (high_sums a b) }
{
    let s8 = dot(&[a.c1, a.c2, a.c3, a.c4, a.c5, a.c6, a.c7], &[b.c7, b.c6, b.c5, b.c4, b.c3, b.c2, b.c1])?;
    let s9 = dot(&[a.c2, a.c3, a.c4, a.c5, a.c6, a.c7], &[b.c7, b.c6, b.c5, b.c4, b.c3, b.c2])?;
    let s10 = dot(&[a.c3, a.c4, a.c5, a.c6, a.c7], &[b.c7, b.c6, b.c5, b.c4, b.c3])?;
    let s11 = dot(&[a.c4, a.c5, a.c6, a.c7], &[b.c7, b.c6, b.c5, b.c4])?;
    let s12 = dot(&[a.c5, a.c6, a.c7], &[b.c7, b.c6, b.c5])?;
    let s13 = dot(&[a.c6, a.c7], &[b.c7, b.c6])?;
    let s14 = dot(&[a.c7], &[b.c7])?;
    Ok(High { s8, s9, s10, s11, s12, s13, s14 })
}

// The sum of products, less x and y.
fn less_two(xs: &[Whole], ys: &[Whole], x: Whole, y: Whole) -> Result<Whole, Wide>
    requires { length xs.now ≡ length ys.now }
    ensures { result ≡ answer (less_two xs.now ys.now x y) }
{
    let sum = dot(xs, ys)?;
    dot(
        &[Whole { n: 1 }, Whole { n: -1 }, Whole { n: -1 }],
        &[sum, x, y],
    )
}

// The sum of products, and x with a sign.
fn and_one(xs: &[Whole], ys: &[Whole], sign: Whole, x: Whole) -> Result<Whole, Wide>
    requires { length xs.now ≡ length ys.now }
    ensures { result ≡ answer (and_one xs.now ys.now sign x) }
{
    let sum = dot(xs, ys)?;
    dot(&[Whole { n: 1 }, sign], &[sum, x])
}

// The coefficients of the product by those of degree 8 to 14, and the product of the denominators.
#[rattlefmt::skip]
fn low(a: Fraction8, b: Fraction8, high: High) -> Result<Fraction8, Wide>
    ensures { result ≡ answer (low a b high) }
{
    let plus = Whole { n: 1 };
    let minus = Whole { n: -1 };
    let c0 = less_two(&[a.c0], &[b.c0], high.s8, high.s12)?;
    let c1 = less_two(&[a.c0, a.c1], &[b.c1, b.c0], high.s9, high.s13)?;
    let c2 = less_two(&[a.c0, a.c1, a.c2], &[b.c2, b.c1, b.c0], high.s10, high.s14)?;
    let c3 = and_one(&[a.c0, a.c1, a.c2, a.c3], &[b.c3, b.c2, b.c1, b.c0], minus, high.s11)?;
    let c4 = and_one(&[a.c0, a.c1, a.c2, a.c3, a.c4], &[b.c4, b.c3, b.c2, b.c1, b.c0], plus, high.s8)?;
    let c5 = and_one(&[a.c0, a.c1, a.c2, a.c3, a.c4, a.c5], &[b.c5, b.c4, b.c3, b.c2, b.c1, b.c0], plus, high.s9)?;
    let c6 = and_one(&[a.c0, a.c1, a.c2, a.c3, a.c4, a.c5, a.c6], &[b.c6, b.c5, b.c4, b.c3, b.c2, b.c1, b.c0], plus, high.s10)?;
    let c7 = and_one(&[a.c0, a.c1, a.c2, a.c3, a.c4, a.c5, a.c6, a.c7], &[b.c7, b.c6, b.c5, b.c4, b.c3, b.c2, b.c1, b.c0], plus, high.s11)?;
    let d = a.d.times(b.d)?;
    Ok(Fraction8 { d, c0, c1, c2, c3, c4, c5, c6, c7 })
}

// x p + y q.
fn joined(x: Whole, p: Whole, y: Whole, q: Whole) -> Result<Whole, Wide>
    ensures { result ≡ answer (joined x p y q) }
{
    dot(&[x, y], &[p, q])
}

// a q + b p, over d q.
#[rattlefmt::skip]
fn sum_over(a: Fraction8, q: Whole, b: Fraction8, p: Whole) -> Result<Fraction8, Wide>
    ensures { result ≡ answer (sum_over a q b p) }
{
    let c0 = joined(a.c0, q, b.c0, p)?;
    let c1 = joined(a.c1, q, b.c1, p)?;
    let c2 = joined(a.c2, q, b.c2, p)?;
    let c3 = joined(a.c3, q, b.c3, p)?;
    let c4 = joined(a.c4, q, b.c4, p)?;
    let c5 = joined(a.c5, q, b.c5, p)?;
    let c6 = joined(a.c6, q, b.c6, p)?;
    let c7 = joined(a.c7, q, b.c7, p)?;
    let d = a.d.times(q)?;
    Ok(Fraction8 { d, c0, c1, c2, c3, c4, c5, c6, c7 })
}

impl Fraction8 {
    /// The product, before lowest terms.
    pub(crate) fn written_product(self, other: Fraction8) -> Result<Fraction8, Wide>
        ensures { result ≡ answer (product self other) }
    {
        let high = high_sums(self, other)?;
        low(self, other, high)
    }

    /// The sum, before lowest terms.
    pub(crate) fn written_sum(self, other: Fraction8) -> Result<Fraction8, Wide>
        requires narrow { is_wide self.d.n ≡ false }
        requires narrow_other { is_wide other.d.n ≡ false }
        requires positive { is_positive other.d.n ≡ true }
        ensures { result ≡ answer (sum self other) }
    {
        let common = self.d.common(other.d);
        let p = self.d.divided(common);
        let q = other.d.divided(common);
        sum_over(self, q, other, p)
    }

    /// The conjugate, before lowest terms.
    #[rattlefmt::skip]
    pub(crate) fn conjugate(self) -> Result<Fraction8, Wide>
        ensures { result ≡ answer (conjugate self) }
    {
        let c0 = self.c0.plus(self.c4)?;
        let c4 = Whole { n: -1 }.times(self.c4)?;
        let c5 = dot(&[Whole { n: -1 }, Whole { n: -1 }], &[self.c3, self.c7])?;
        let c6 = dot(&[Whole { n: -1 }, Whole { n: -1 }], &[self.c2, self.c6])?;
        let c7 = dot(&[Whole { n: -1 }, Whole { n: -1 }], &[self.c1, self.c5])?;
        Ok(Fraction8 { d: self.d, c0, c1: self.c3, c2: self.c2, c3: self.c1, c4, c5, c6, c7 })
    }

    /// The real part, before lowest terms.
    #[rattlefmt::skip]
    pub(crate) fn real(self) -> Result<Fraction4, Wide>
        ensures { result ≡ answer (real self) }
    {
        let a0 = dot(&[Whole { n: 4 }, Whole { n: 2 }], &[self.c0, self.c4])?;
        let a1 = dot(&[Whole { n: 1 }, Whole { n: 2 }, Whole { n: -1 }, Whole { n: 1 }], &[self.c1, self.c3, self.c5, self.c7])?;
        let a2 = Whole { n: 2 }.times(self.c2)?;
        let a3 = dot(&[Whole { n: 1 }, Whole { n: 1 }, Whole { n: -1 }], &[self.c1, self.c5, self.c7])?;
        let d = Whole { n: 4 }.times(self.d)?;
        Ok(Fraction4 { d, a0, a1, a2, a3 })
    }

    /// The imaginary part, before lowest terms.
    #[rattlefmt::skip]
    pub(crate) fn imaginary(self) -> Result<Fraction4, Wide>
        ensures { result ≡ answer (imaginary self) }
    {
        let a0 = dot(&[Whole { n: 2 }, Whole { n: 4 }], &[self.c2, self.c6])?;
        let a1 = dot(&[Whole { n: -1 }, Whole { n: 2 }, Whole { n: 1 }, Whole { n: 1 }], &[self.c1, self.c3, self.c5, self.c7])?;
        let a2 = Whole { n: 2 }.times(self.c4)?;
        let a3 = dot(&[Whole { n: 1 }, Whole { n: 1 }, Whole { n: 1 }], &[self.c1, self.c5, self.c7])?;
        let d = Whole { n: 4 }.times(self.d)?;
        Ok(Fraction4 { d, a0, a1, a2, a3 })
    }

    /// A real number, before lowest terms.
    #[rattlefmt::skip]
    pub(crate) fn from_four(a: Fraction4) -> Result<Fraction8, Wide>
        ensures { result ≡ answer (from_four a) }
    {
        let c1 = a.a1.plus(a.a3)?;
        let c2 = Whole { n: 2 }.times(a.a2)?;
        let c5 = dot(&[Whole { n: -1 }, Whole { n: 1 }], &[a.a1, a.a3])?;
        let c6 = Whole { n: -1 }.times(a.a2)?;
        let c7 = Whole { n: -2 }.times(a.a3)?;
        Ok(Fraction8 { d: a.d, c0: a.a0, c1, c2, c3: c1, c4: Whole { n: 0 }, c5, c6, c7 })
    }

    // What divides each number.
    fn content(self) -> Whole
        requires narrow { IsNarrow8 self }
        requires positive { is_positive self.d.n ≡ true }
        ensures value { result ≡ record { n = pos (common (numerators8 self) (unsigned_abs self.d.n)) } }
        ensures positive { 0 < unsigned_abs result.n }
    {
        let seven = self.c7.common(self.d);
        let six = self.c6.common(seven);
        let five = self.c5.common(six);
        let four = self.c4.common(five);
        let three = self.c3.common(four);
        let two = self.c2.common(three);
        let one = self.c1.common(two);
        self.c0.common(one)
    }

    /// The number in lowest terms.
    pub(crate) fn reduced(self) -> Fraction8
        requires narrow { IsNarrow8 self }
        requires positive { is_positive self.d.n ≡ true }
        ensures lowest { numbers8 result ≡ lowest_terms (numerators8 self) (unsigned_abs self.d.n) }
        ensures narrow { IsNarrow8 result }
    {
        let all = self.content();
        Fraction8 {
            d: self.d.divided(all),
            c0: self.c0.divided(all),
            c1: self.c1.divided(all),
            c2: self.c2.divided(all),
            c3: self.c3.divided(all),
            c4: self.c4.divided(all),
            c5: self.c5.divided(all),
            c6: self.c6.divided(all),
            c7: self.c7.divided(all),
        }
    }

    /// Whether it is 0.
    #[rattlefmt::skip]
    pub(crate) fn is_zero(self) -> bool
        ensures { result ≡ all_zero (numerators8 self) }
    {
        self.c0.is_zero() && (self.c1.is_zero() && (self.c2.is_zero() && (self.c3.is_zero()
            && (self.c4.is_zero() && (self.c5.is_zero() && (self.c6.is_zero() && self.c7.is_zero()))))))
    }

    /// -x.
    pub(crate) fn negated(self) -> Fraction8
        requires { IsNarrow8 self }
        ensures { result ≡ negated self }
    {
        Fraction8 {
            d: self.d,
            c0: self.c0.negated(),
            c1: self.c1.negated(),
            c2: self.c2.negated(),
            c3: self.c3.negated(),
            c4: self.c4.negated(),
            c5: self.c5.negated(),
            c6: self.c6.negated(),
            c7: self.c7.negated(),
        }
    }
}
