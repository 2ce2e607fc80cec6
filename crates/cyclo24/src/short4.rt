// Four numerators over a denominator in 64 bits, and the formulas of the field on them.
ghost use Rattle.std.specs.Prelude.{◌≡◌, ◌≤◌, ◌<◌, ◌^◌, ◌+ℤ◌, ◌*ℤ◌, neg_ℤ, pos, true, ◌∷◌, []};
ghost use Rattle.std.specs.Int.RustNames.{unsigned_abs};
ghost use Rattle.cyclo24.specs.Four.{mul4, norm_u, norm_v, norm4};
ghost use Rattle.cyclo24.specs.Gcd.{gcd, common, quotient, lowest_terms};
ghost use Rattle.cyclo24.specs.Listed.{is_positive};
ghost use Rattle.algebra.specs.Whole.{whole};
ghost use Rattle.cyclo24.specs.Written4.{numbers4, IsNarrow4};
ghost use Rattle.cyclo24.specs.Written4Inverse.{upright};
ghost use Rattle.cyclo24.specs.Short4.{short_of, wide_of, four_of, numerators, rational, IsWithin4, AreWithin4};

use crate::formulas4::{less, norm, norm_u, norm_v, plus, product0, product1, product2, product3};
use crate::fraction4::Fraction4;
use crate::small::Small;
use crate::whole::Whole;

/// The number (a0 + a1 r2 + a2 r3 + a3 r6) / d.
#[derive(Clone, Copy, Debug)]
pub(crate) struct Short4 {
    pub(crate) d: Small,
    pub(crate) a0: Small,
    pub(crate) a1: Small,
    pub(crate) a2: Small,
    pub(crate) a3: Small,
}

/// q x + f p y.
pub(crate) fn joined(q: Small, x: Small, factor: Small, p: Small, y: Small) -> Small
    requires q { unsigned_abs q.n ≤ 2 ^ 28 }
    requires x { unsigned_abs x.n ≤ 2 ^ 28 }
    requires factor { unsigned_abs factor.n ≤ 8 }
    requires p { unsigned_abs p.n ≤ 2 ^ 28 }
    requires y { unsigned_abs y.n ≤ 2 ^ 28 }
    ensures value { result ≡ record { n = q.n *ℤ x.n +ℤ factor.n *ℤ (p.n *ℤ y.n) } }
    ensures most { unsigned_abs result.n ≤ 2 ^ 60 }
{
    q.times(x).plus(p.times(y).multiple(factor))
}

/// The rational number n / d in lowest terms.
pub(crate) fn lowest_rational(n: Small, d: Small) -> Fraction4
    requires n { unsigned_abs n.n ≤ 2 ^ 62 }
    requires d { unsigned_abs d.n ≤ 2 ^ 62 }
    requires positive { is_positive d.n ≡ true }
    ensures lowest { numbers4 result ≡ lowest_terms (rational n.n) (unsigned_abs d.n) }
    ensures narrow { IsNarrow4 result }
{
    let common = n.common(d);
    Fraction4 {
        d: d.divided(common).widened(),
        a0: n.divided(common).widened(),
        a1: Whole { n: 0 },
        a2: Whole { n: 0 },
        a3: Whole { n: 0 },
    }
}

impl Short4 {
    /// The product, before lowest terms.
    pub(crate) fn product(self, other: Short4) -> Short4
        requires { AreWithin4 (2 ^ 28) self other }
        ensures value { four_of result ≡ mul4 whole (four_of self) (four_of other) }
        ensures low { result.d ≡ record { n = self.d.n *ℤ other.d.n } }
        ensures most { IsWithin4 (2 ^ 62) result }
    {
        Short4 {
            d: self.d.times(other.d),
            a0: product0(self, other),
            a1: product1(self, other),
            a2: product2(self, other),
            a3: product3(self, other),
        }
    }

    /// The sum with a multiple of the other number by a small factor, before lowest terms.
    pub(crate) fn sum(self, factor: Small, other: Short4) -> Short4
        requires most { AreWithin4 (2 ^ 28) self other }
        requires factor { unsigned_abs factor.n ≤ 8 }
        requires positive { 0 < unsigned_abs other.d.n }
        ensures a0 { let g = gcd (unsigned_abs self.d.n) (unsigned_abs other.d.n) in result.a0 ≡ record { n = quotient other.d.n g *ℤ self.a0.n +ℤ factor.n *ℤ (quotient self.d.n g *ℤ other.a0.n) } }
        ensures a1 { let g = gcd (unsigned_abs self.d.n) (unsigned_abs other.d.n) in result.a1 ≡ record { n = quotient other.d.n g *ℤ self.a1.n +ℤ factor.n *ℤ (quotient self.d.n g *ℤ other.a1.n) } }
        ensures a2 { let g = gcd (unsigned_abs self.d.n) (unsigned_abs other.d.n) in result.a2 ≡ record { n = quotient other.d.n g *ℤ self.a2.n +ℤ factor.n *ℤ (quotient self.d.n g *ℤ other.a2.n) } }
        ensures a3 { let g = gcd (unsigned_abs self.d.n) (unsigned_abs other.d.n) in result.a3 ≡ record { n = quotient other.d.n g *ℤ self.a3.n +ℤ factor.n *ℤ (quotient self.d.n g *ℤ other.a3.n) } }
        ensures low { let g = gcd (unsigned_abs self.d.n) (unsigned_abs other.d.n) in result.d ≡ record { n = self.d.n *ℤ quotient other.d.n g } }
        ensures most { IsWithin4 (2 ^ 62) result }
    {
        let common = self.d.common(other.d);
        let p = self.d.divided(common);
        let q = other.d.divided(common);
        Short4 {
            d: self.d.times(q),
            a0: joined(q, self.a0, factor, p, other.a0),
            a1: joined(q, self.a1, factor, p, other.a1),
            a2: joined(q, self.a2, factor, p, other.a2),
            a3: joined(q, self.a3, factor, p, other.a3),
        }
    }

    /// The inverse over the norm, whose sign it has, before lowest terms.
    pub(crate) fn inverse(self) -> Short4
        requires { IsWithin4 (2 ^ 11) self }
        ensures a0 { result.a0 ≡ record { n = self.d.n *ℤ (self.a0.n *ℤ norm_u whole (four_of self) +ℤ neg_ℤ (pos 2 *ℤ (self.a1.n *ℤ norm_v whole (four_of self)))) } }
        ensures a1 { result.a1 ≡ record { n = self.d.n *ℤ (self.a1.n *ℤ norm_u whole (four_of self) +ℤ neg_ℤ (pos 1 *ℤ (self.a0.n *ℤ norm_v whole (four_of self)))) } }
        ensures a2 { result.a2 ≡ record { n = self.d.n *ℤ (neg_ℤ (self.a2.n *ℤ norm_u whole (four_of self)) +ℤ pos 2 *ℤ (self.a3.n *ℤ norm_v whole (four_of self))) } }
        ensures a3 { result.a3 ≡ record { n = self.d.n *ℤ (neg_ℤ (self.a3.n *ℤ norm_u whole (four_of self)) +ℤ pos 1 *ℤ (self.a2.n *ℤ norm_v whole (four_of self))) } }
        ensures low { result.d ≡ record { n = norm4 whole (four_of self) } }
        ensures most { IsWithin4 (2 ^ 62) result }
        ensures u { unsigned_abs (norm_u whole (four_of self)) ≤ 2 ^ 28 }
        ensures v { unsigned_abs (norm_v whole (four_of self)) ≤ 2 ^ 28 }
    {
        let u = norm_u(self);
        let v = norm_v(self);
        let two = Small { n: 2 };
        let one = Small { n: 1 };
        Short4 {
            d: norm(u, v),
            a0: less(self.d, self.a0, u, two, self.a1, v),
            a1: less(self.d, self.a1, u, one, self.a0, v),
            a2: plus(self.d, self.a2, u, two, self.a3, v),
            a3: plus(self.d, self.a3, u, one, self.a2, v),
        }
    }

    /// The same number over a denominator above 0, where it isn't 0.
    pub(crate) fn upright(self) -> Short4
        requires { IsWithin4 (2 ^ 62) self }
        ensures value { result ≡ short_of (upright (wide_of self)) }
        ensures most { IsWithin4 (2 ^ 62) result }
    {
        if self.d.is_negative() {
            Short4 {
                d: self.d.negated(),
                a0: self.a0.negated(),
                a1: self.a1.negated(),
                a2: self.a2.negated(),
                a3: self.a3.negated(),
            }
        } else {
            self
        }
    }

    // What divides each number.
    fn content(self) -> Small
        requires most { IsWithin4 (2 ^ 62) self }
        requires positive { 0 < unsigned_abs self.d.n }
        ensures value { result ≡ record { n = pos (common (numerators self) (unsigned_abs self.d.n)) } }
        ensures positive { 0 < unsigned_abs result.n }
    {
        let three = self.a3.common(self.d);
        let two = self.a2.common(three);
        let one = self.a1.common(two);
        self.a0.common(one)
    }

    // The number in 128 bits.
    fn widened(self) -> Fraction4
        requires { IsWithin4 (2 ^ 62) self }
        ensures value { numbers4 result ≡ self.a0.n ∷ self.a1.n ∷ self.a2.n ∷ self.a3.n ∷ self.d.n ∷ [] }
        ensures narrow { IsNarrow4 result }
    {
        Fraction4 {
            d: self.d.widened(),
            a0: self.a0.widened(),
            a1: self.a1.widened(),
            a2: self.a2.widened(),
            a3: self.a3.widened(),
        }
    }

    // The numbers over a divisor of each.
    fn divided(self, divisor: Small) -> Short4
        requires most { IsWithin4 (2 ^ 62) self }
        requires positive { 0 < unsigned_abs divisor.n }
        requires upright { divisor.n ≡ pos (unsigned_abs divisor.n) }
        ensures d { result.d ≡ record { n = quotient self.d.n (unsigned_abs divisor.n) } }
        ensures a0 { result.a0 ≡ record { n = quotient self.a0.n (unsigned_abs divisor.n) } }
        ensures a1 { result.a1 ≡ record { n = quotient self.a1.n (unsigned_abs divisor.n) } }
        ensures a2 { result.a2 ≡ record { n = quotient self.a2.n (unsigned_abs divisor.n) } }
        ensures a3 { result.a3 ≡ record { n = quotient self.a3.n (unsigned_abs divisor.n) } }
        ensures most { IsWithin4 (2 ^ 62) result }
    {
        Short4 {
            d: self.d.divided(divisor),
            a0: self.a0.divided(divisor),
            a1: self.a1.divided(divisor),
            a2: self.a2.divided(divisor),
            a3: self.a3.divided(divisor),
        }
    }

    // The number in lowest terms, over a denominator that may be other than 1.
    #[inline(never)]
    fn reduced(self) -> Short4
        requires most { IsWithin4 (2 ^ 62) self }
        requires positive { is_positive self.d.n ≡ true }
        ensures lowest { numbers4 (wide_of result) ≡ lowest_terms (numerators self) (unsigned_abs self.d.n) }
        ensures most { IsWithin4 (2 ^ 62) result }
    {
        let all = self.content();
        if all.is_one() {
            return self;
        }
        self.divided(all)
    }

    /// The number in lowest terms, in 64 bits.
    #[inline]
    pub(crate) fn lowered(self) -> Short4
        requires most { IsWithin4 (2 ^ 62) self }
        requires positive { is_positive self.d.n ≡ true }
        ensures lowest { numbers4 (wide_of result) ≡ lowest_terms (numerators self) (unsigned_abs self.d.n) }
        ensures most { IsWithin4 (2 ^ 62) result }
    {
        if self.d.is_one() {
            return self;
        }
        self.reduced()
    }

    /// The number in lowest terms.
    #[inline]
    pub(crate) fn lowest(self) -> Fraction4
        requires most { IsWithin4 (2 ^ 62) self }
        requires positive { is_positive self.d.n ≡ true }
        ensures lowest { numbers4 result ≡ lowest_terms (numerators self) (unsigned_abs self.d.n) }
        ensures narrow { IsNarrow4 result }
    {
        self.lowered().widened()
    }
}
