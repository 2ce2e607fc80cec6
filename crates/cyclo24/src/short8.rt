// Eight numerators over a denominator in 64 bits, and the formulas of the field on them.
ghost use Rattle.std.specs.Prelude.{◌≡◌, ◌≤◌, ◌<◌, ◌^◌, ◌+ℤ◌, ◌*ℤ◌, pos, true, ◌∷◌, []};
ghost use Rattle.std.specs.Int.RustNames.{unsigned_abs};
ghost use Rattle.cyclo24.specs.Eight.{mul8};
ghost use Rattle.cyclo24.specs.Gcd.{gcd, common, quotient, lowest_terms};
ghost use Rattle.cyclo24.specs.Listed.{is_positive};
ghost use Rattle.algebra.specs.Whole.{whole};
ghost use Rattle.cyclo24.specs.Written8.{numbers8, IsNarrow8};
ghost use Rattle.cyclo24.specs.Short8.{eight_of, numerators, rational, IsWithin8};

use crate::formulas8::{
    less, sum0, sum1, sum2, sum3, sum4, sum5, sum6, sum7, sum8, sum9, sum10, sum11, sum12, sum13,
    sum14,
};
use crate::fraction8::Fraction8;
use crate::small::Small;
use crate::whole::Whole;

/// The number (c0 + c1 z + .. + c7 z^7) / d.
#[derive(Clone, Copy, Debug)]
pub(crate) struct Short8 {
    pub(crate) d: Small,
    pub(crate) c0: Small,
    pub(crate) c1: Small,
    pub(crate) c2: Small,
    pub(crate) c3: Small,
    pub(crate) c4: Small,
    pub(crate) c5: Small,
    pub(crate) c6: Small,
    pub(crate) c7: Small,
}

/// q x + p y.
pub(crate) fn joined(q: Small, x: Small, p: Small, y: Small) -> Small
    requires q { unsigned_abs q.n ≤ 2 ^ 28 }
    requires x { unsigned_abs x.n ≤ 2 ^ 28 }
    requires p { unsigned_abs p.n ≤ 2 ^ 28 }
    requires y { unsigned_abs y.n ≤ 2 ^ 28 }
    ensures value { result ≡ record { n = q.n *ℤ x.n +ℤ p.n *ℤ y.n } }
    ensures most { unsigned_abs result.n ≤ 2 ^ 60 }
{
    q.times(x).plus_product(p, y)
}

/// The rational number n / d in lowest terms.
#[rattlefmt::skip]
pub(crate) fn lowest_rational(n: Small, d: Small) -> Fraction8
    requires n { unsigned_abs n.n ≤ 2 ^ 62 }
    requires d { unsigned_abs d.n ≤ 2 ^ 62 }
    requires positive { is_positive d.n ≡ true }
    ensures lowest { numbers8 result ≡ lowest_terms (rational n.n) (unsigned_abs d.n) }
    ensures narrow { IsNarrow8 result }
{
    let common = n.common(d);
    let zero = Whole { n: 0 };
    let d = d.divided(common).widened();
    let c0 = n.divided(common).widened();
    Fraction8 { d, c0, c1: zero, c2: zero, c3: zero, c4: zero, c5: zero, c6: zero, c7: zero }
}

impl Short8 {
    /// The product, before lowest terms.
    #[tactic(auto, unfolding(crate::specs::Eight::mul8))]
    pub(crate) fn product(self, other: Short8) -> Short8
        requires left { IsWithin8 (2 ^ 28) self }
        requires right { IsWithin8 (2 ^ 28) other }
        ensures value { eight_of result ≡ mul8 whole (eight_of self) (eight_of other) }
        ensures low { result.d ≡ record { n = self.d.n *ℤ other.d.n } }
        ensures most { IsWithin8 (2 ^ 62) result }
    {
        let s8 = sum8(self, other);
        let s9 = sum9(self, other);
        let s10 = sum10(self, other);
        let s11 = sum11(self, other);
        Short8 {
            d: self.d.times(other.d),
            c0: less(less(sum0(self, other), s8), sum12(self, other)),
            c1: less(less(sum1(self, other), s9), sum13(self, other)),
            c2: less(less(sum2(self, other), s10), sum14(self, other)),
            c3: less(sum3(self, other), s11),
            c4: sum4(self, other).plus(s8),
            c5: sum5(self, other).plus(s9),
            c6: sum6(self, other).plus(s10),
            c7: sum7(self, other).plus(s11),
        }
    }

    /// The sum, before lowest terms.
    pub(crate) fn sum(self, other: Short8) -> Short8
        requires left { IsWithin8 (2 ^ 28) self }
        requires right { IsWithin8 (2 ^ 28) other }
        requires positive { 0 < unsigned_abs other.d.n }
        ensures c0 { let g = gcd (unsigned_abs self.d.n) (unsigned_abs other.d.n) in result.c0 ≡ record { n = quotient other.d.n g *ℤ self.c0.n +ℤ quotient self.d.n g *ℤ other.c0.n } }
        ensures c1 { let g = gcd (unsigned_abs self.d.n) (unsigned_abs other.d.n) in result.c1 ≡ record { n = quotient other.d.n g *ℤ self.c1.n +ℤ quotient self.d.n g *ℤ other.c1.n } }
        ensures c2 { let g = gcd (unsigned_abs self.d.n) (unsigned_abs other.d.n) in result.c2 ≡ record { n = quotient other.d.n g *ℤ self.c2.n +ℤ quotient self.d.n g *ℤ other.c2.n } }
        ensures c3 { let g = gcd (unsigned_abs self.d.n) (unsigned_abs other.d.n) in result.c3 ≡ record { n = quotient other.d.n g *ℤ self.c3.n +ℤ quotient self.d.n g *ℤ other.c3.n } }
        ensures c4 { let g = gcd (unsigned_abs self.d.n) (unsigned_abs other.d.n) in result.c4 ≡ record { n = quotient other.d.n g *ℤ self.c4.n +ℤ quotient self.d.n g *ℤ other.c4.n } }
        ensures c5 { let g = gcd (unsigned_abs self.d.n) (unsigned_abs other.d.n) in result.c5 ≡ record { n = quotient other.d.n g *ℤ self.c5.n +ℤ quotient self.d.n g *ℤ other.c5.n } }
        ensures c6 { let g = gcd (unsigned_abs self.d.n) (unsigned_abs other.d.n) in result.c6 ≡ record { n = quotient other.d.n g *ℤ self.c6.n +ℤ quotient self.d.n g *ℤ other.c6.n } }
        ensures c7 { let g = gcd (unsigned_abs self.d.n) (unsigned_abs other.d.n) in result.c7 ≡ record { n = quotient other.d.n g *ℤ self.c7.n +ℤ quotient self.d.n g *ℤ other.c7.n } }
        ensures low { let g = gcd (unsigned_abs self.d.n) (unsigned_abs other.d.n) in result.d ≡ record { n = self.d.n *ℤ quotient other.d.n g } }
        ensures most { IsWithin8 (2 ^ 62) result }
    {
        let common = self.d.common(other.d);
        let p = self.d.divided(common);
        let q = other.d.divided(common);
        Short8 {
            d: self.d.times(q),
            c0: joined(q, self.c0, p, other.c0),
            c1: joined(q, self.c1, p, other.c1),
            c2: joined(q, self.c2, p, other.c2),
            c3: joined(q, self.c3, p, other.c3),
            c4: joined(q, self.c4, p, other.c4),
            c5: joined(q, self.c5, p, other.c5),
            c6: joined(q, self.c6, p, other.c6),
            c7: joined(q, self.c7, p, other.c7),
        }
    }

    // What divides each number.
    fn content(self) -> Small
        requires most { IsWithin8 (2 ^ 62) self }
        requires positive { 0 < unsigned_abs self.d.n }
        ensures value { result ≡ record { n = pos (common (numerators self) (unsigned_abs self.d.n)) } }
        ensures positive { 0 < unsigned_abs result.n }
    {
        let seven = self.c7.common(self.d);
        let six = self.c6.common(seven);
        let five = self.c5.common(six);
        let four = self.c4.common(five);
        let three = self.c3.common(four);
        let two = self.c2.common(three);
        let one = self.c1.common(two);
        self.c0.common(one)
    }

    // The number in 128 bits.
    fn widened(self) -> Fraction8
        requires { IsWithin8 (2 ^ 62) self }
        ensures value { numbers8 result ≡ self.c0.n ∷ self.c1.n ∷ self.c2.n ∷ self.c3.n ∷ self.c4.n ∷ self.c5.n ∷ self.c6.n ∷ self.c7.n ∷ self.d.n ∷ [] }
        ensures narrow { IsNarrow8 result }
    {
        Fraction8 {
            d: self.d.widened(),
            c0: self.c0.widened(),
            c1: self.c1.widened(),
            c2: self.c2.widened(),
            c3: self.c3.widened(),
            c4: self.c4.widened(),
            c5: self.c5.widened(),
            c6: self.c6.widened(),
            c7: self.c7.widened(),
        }
    }

    // The numbers over a divisor of each.
    fn divided(self, divisor: Small) -> Short8
        requires most { IsWithin8 (2 ^ 62) self }
        requires positive { 0 < unsigned_abs divisor.n }
        requires upright { divisor.n ≡ pos (unsigned_abs divisor.n) }
        ensures d { result.d ≡ record { n = quotient self.d.n (unsigned_abs divisor.n) } }
        ensures c0 { result.c0 ≡ record { n = quotient self.c0.n (unsigned_abs divisor.n) } }
        ensures c1 { result.c1 ≡ record { n = quotient self.c1.n (unsigned_abs divisor.n) } }
        ensures c2 { result.c2 ≡ record { n = quotient self.c2.n (unsigned_abs divisor.n) } }
        ensures c3 { result.c3 ≡ record { n = quotient self.c3.n (unsigned_abs divisor.n) } }
        ensures c4 { result.c4 ≡ record { n = quotient self.c4.n (unsigned_abs divisor.n) } }
        ensures c5 { result.c5 ≡ record { n = quotient self.c5.n (unsigned_abs divisor.n) } }
        ensures c6 { result.c6 ≡ record { n = quotient self.c6.n (unsigned_abs divisor.n) } }
        ensures c7 { result.c7 ≡ record { n = quotient self.c7.n (unsigned_abs divisor.n) } }
        ensures most { IsWithin8 (2 ^ 62) result }
    {
        Short8 {
            d: self.d.divided(divisor),
            c0: self.c0.divided(divisor),
            c1: self.c1.divided(divisor),
            c2: self.c2.divided(divisor),
            c3: self.c3.divided(divisor),
            c4: self.c4.divided(divisor),
            c5: self.c5.divided(divisor),
            c6: self.c6.divided(divisor),
            c7: self.c7.divided(divisor),
        }
    }

    // The number in lowest terms, over a denominator that may be other than 1.
    #[inline(never)]
    fn reduced(self) -> Fraction8
        requires most { IsWithin8 (2 ^ 62) self }
        requires positive { is_positive self.d.n ≡ true }
        ensures lowest { numbers8 result ≡ lowest_terms (numerators self) (unsigned_abs self.d.n) }
        ensures narrow { IsNarrow8 result }
    {
        let all = self.content();
        if all.is_one() {
            return self.widened();
        }
        self.divided(all).widened()
    }

    /// The number in lowest terms.
    #[inline]
    pub(crate) fn lowest(self) -> Fraction8
        requires most { IsWithin8 (2 ^ 62) self }
        requires positive { is_positive self.d.n ≡ true }
        ensures lowest { numbers8 result ≡ lowest_terms (numerators self) (unsigned_abs self.d.n) }
        ensures narrow { IsNarrow8 result }
    {
        if self.d.is_one() {
            return self.widened();
        }
        self.reduced()
    }
}
