// The coefficients of products and inverses of numbers with four numerators.
ghost use Rattle.std.specs.Prelude.{◌≡◌, ◌≤◌, ◌^◌, ◌+◌, ◌+ℤ◌, ◌*ℤ◌, neg_ℤ, pos};
ghost use Rattle.std.specs.Int.RustNames.{unsigned_abs};
ghost use Rattle.cyclo24.specs.Four.{mul4, norm_u, norm_v};
ghost use Rattle.algebra.specs.Whole.{whole};
ghost use Rattle.cyclo24.specs.Short4.{four_of, IsWithin4, AreWithin4};

use crate::short4::Short4;
use crate::small::Small;

// The sum of four numbers.
fn sum_of_four(x: Small, y: Small, z: Small, w: Small) -> Small
    requires first { unsigned_abs x.n ≤ 2 ^ 59 }
    requires second { unsigned_abs y.n ≤ 2 ^ 59 }
    requires third { unsigned_abs z.n ≤ 2 ^ 59 }
    requires fourth { unsigned_abs w.n ≤ 2 ^ 59 }
    ensures value { result ≡ record { n = x.n +ℤ y.n +ℤ z.n +ℤ w.n } }
    ensures most { unsigned_abs result.n ≤ unsigned_abs x.n + unsigned_abs y.n + unsigned_abs z.n + unsigned_abs w.n }
{
    x.plus(y).plus(z).plus(w)
}

/// The coefficient of 1 in a product.
pub(crate) fn product0(a: Short4, b: Short4) -> Small
    requires { AreWithin4 (2 ^ 28) a b }
    ensures value { result ≡ record { n = (mul4 whole (four_of a) (four_of b)).c0 } }
    ensures most { unsigned_abs result.n ≤ 2 ^ 61 }
{
    sum_of_four(
        a.a0.times(b.a0),
        a.a1.times(b.a1).multiple(Small { n: 2 }),
        a.a2.times(b.a2).multiple(Small { n: 3 }),
        a.a3.times(b.a3).multiple(Small { n: 6 }),
    )
}

/// The coefficient of r2 in a product.
pub(crate) fn product1(a: Short4, b: Short4) -> Small
    requires { AreWithin4 (2 ^ 28) a b }
    ensures value { result ≡ record { n = (mul4 whole (four_of a) (four_of b)).c1 } }
    ensures most { unsigned_abs result.n ≤ 2 ^ 61 }
{
    sum_of_four(
        a.a0.times(b.a1),
        a.a1.times(b.a0),
        a.a2.times(b.a3).multiple(Small { n: 3 }),
        a.a3.times(b.a2).multiple(Small { n: 3 }),
    )
}

/// The coefficient of r3 in a product.
pub(crate) fn product2(a: Short4, b: Short4) -> Small
    requires { AreWithin4 (2 ^ 28) a b }
    ensures value { result ≡ record { n = (mul4 whole (four_of a) (four_of b)).c2 } }
    ensures most { unsigned_abs result.n ≤ 2 ^ 61 }
{
    sum_of_four(
        a.a0.times(b.a2),
        a.a2.times(b.a0),
        a.a1.times(b.a3).multiple(Small { n: 2 }),
        a.a3.times(b.a1).multiple(Small { n: 2 }),
    )
}

/// The coefficient of r6 in a product.
pub(crate) fn product3(a: Short4, b: Short4) -> Small
    requires { AreWithin4 (2 ^ 28) a b }
    ensures value { result ≡ record { n = (mul4 whole (four_of a) (four_of b)).c3 } }
    ensures most { unsigned_abs result.n ≤ 2 ^ 61 }
{
    sum_of_four(
        a.a0.times(b.a3),
        a.a3.times(b.a0),
        a.a1.times(b.a2),
        a.a2.times(b.a1),
    )
}

/// a0² + 2 a1² - 3 a2² - 6 a3².
pub(crate) fn norm_u(a: Short4) -> Small
    requires { IsWithin4 (2 ^ 11) a }
    ensures value { result ≡ record { n = norm_u whole (four_of a) } }
    ensures most { unsigned_abs result.n ≤ 2 ^ 28 }
{
    sum_of_four(
        a.a0.scaled(a.a0),
        a.a1.scaled(a.a1).multiple(Small { n: 2 }),
        a.a2.scaled(a.a2).multiple(Small { n: 3 }).negated(),
        a.a3.scaled(a.a3).multiple(Small { n: 6 }).negated(),
    )
}

/// 2 a0 a1 - 6 a2 a3.
pub(crate) fn norm_v(a: Short4) -> Small
    requires { IsWithin4 (2 ^ 11) a }
    ensures value { result ≡ record { n = norm_v whole (four_of a) } }
    ensures most { unsigned_abs result.n ≤ 2 ^ 28 }
{
    let second = a.a3.scaled(a.a2).multiple(Small { n: 6 });
    a.a1.scaled(a.a0)
        .multiple(Small { n: 2 })
        .plus(second.negated())
}

/// u² - 2 v².
pub(crate) fn norm(u: Small, v: Small) -> Small
    requires u { unsigned_abs u.n ≤ 2 ^ 28 }
    requires v { unsigned_abs v.n ≤ 2 ^ 28 }
    ensures value { result ≡ record { n = u.n *ℤ u.n +ℤ neg_ℤ (pos 2 *ℤ (v.n *ℤ v.n)) } }
    ensures most { unsigned_abs result.n ≤ 2 ^ 62 }
{
    let second = v.times(v).multiple(Small { n: 2 });
    u.times(u).plus(second.negated())
}

/// d (x u - f y v).
pub(crate) fn less(d: Small, x: Small, u: Small, factor: Small, y: Small, v: Small) -> Small
    requires d { unsigned_abs d.n ≤ 2 ^ 11 }
    requires x { unsigned_abs x.n ≤ 2 ^ 11 }
    requires u { unsigned_abs u.n ≤ 2 ^ 28 }
    requires factor { unsigned_abs factor.n ≤ 8 }
    requires y { unsigned_abs y.n ≤ 2 ^ 11 }
    requires v { unsigned_abs v.n ≤ 2 ^ 28 }
    ensures value { result ≡ record { n = d.n *ℤ (x.n *ℤ u.n +ℤ neg_ℤ (factor.n *ℤ (y.n *ℤ v.n))) } }
    ensures most { unsigned_abs result.n ≤ 2 ^ 62 }
{
    let second = v.scaled(y).multiple(factor);
    u.scaled(x).plus(second.negated()).scaled(d)
}

/// d (-(x u) + f y v).
pub(crate) fn plus(d: Small, x: Small, u: Small, factor: Small, y: Small, v: Small) -> Small
    requires d { unsigned_abs d.n ≤ 2 ^ 11 }
    requires x { unsigned_abs x.n ≤ 2 ^ 11 }
    requires u { unsigned_abs u.n ≤ 2 ^ 28 }
    requires factor { unsigned_abs factor.n ≤ 8 }
    requires y { unsigned_abs y.n ≤ 2 ^ 11 }
    requires v { unsigned_abs v.n ≤ 2 ^ 28 }
    ensures value { result ≡ record { n = d.n *ℤ (neg_ℤ (x.n *ℤ u.n) +ℤ factor.n *ℤ (y.n *ℤ v.n)) } }
    ensures most { unsigned_abs result.n ≤ 2 ^ 62 }
{
    let second = v.scaled(y).multiple(factor);
    u.scaled(x).negated().plus(second).scaled(d)
}
