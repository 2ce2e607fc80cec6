// The sums of products that make a product of two numbers with eight numerators.
ghost use Rattle.std.specs.Prelude.{◌≡◌, ◌≤◌, ◌^◌, ◌+◌, ◌+ℤ◌, neg_ℤ};
ghost use Rattle.std.specs.Int.RustNames.{unsigned_abs};
ghost use Rattle.cyclo24.specs.Eight.{s0, s1, s2, s3, s4, s5, s6, s7, s8, s9, s10, s11, s12, s13, s14};
ghost use Rattle.algebra.specs.Whole.{whole};
ghost use Rattle.cyclo24.specs.Short8.{eight_of, IsWithin8};

use crate::short8::Short8;
use crate::small::Small;

/// The sum of the products a_i b_j with i + j = 0.
pub(crate) fn sum0(a: Short8, b: Short8) -> Small
    requires left { IsWithin8 (2 ^ 28) a }
    requires right { IsWithin8 (2 ^ 28) b }
    ensures value { result ≡ record { n = s0 whole (eight_of a) (eight_of b) } }
    ensures most { unsigned_abs result.n ≤ 2 ^ 59 }
{
    a.c0.times(b.c0)
}

/// The sum of the products a_i b_j with i + j = 1.
pub(crate) fn sum1(a: Short8, b: Short8) -> Small
    requires left { IsWithin8 (2 ^ 28) a }
    requires right { IsWithin8 (2 ^ 28) b }
    ensures value { result ≡ record { n = s1 whole (eight_of a) (eight_of b) } }
    ensures most { unsigned_abs result.n ≤ 2 ^ 59 }
{
    a.c0.times(b.c1).plus_product(a.c1, b.c0)
}

/// The sum of the products a_i b_j with i + j = 2.
pub(crate) fn sum2(a: Short8, b: Short8) -> Small
    requires left { IsWithin8 (2 ^ 28) a }
    requires right { IsWithin8 (2 ^ 28) b }
    ensures value { result ≡ record { n = s2 whole (eight_of a) (eight_of b) } }
    ensures most { unsigned_abs result.n ≤ 2 ^ 59 }
{
    a.c0.times(b.c2)
        .plus_product(a.c1, b.c1)
        .plus_product(a.c2, b.c0)
}

/// The sum of the products a_i b_j with i + j = 3.
pub(crate) fn sum3(a: Short8, b: Short8) -> Small
    requires left { IsWithin8 (2 ^ 28) a }
    requires right { IsWithin8 (2 ^ 28) b }
    ensures value { result ≡ record { n = s3 whole (eight_of a) (eight_of b) } }
    ensures most { unsigned_abs result.n ≤ 2 ^ 59 }
{
    a.c0.times(b.c3)
        .plus_product(a.c1, b.c2)
        .plus_product(a.c2, b.c1)
        .plus_product(a.c3, b.c0)
}

/// The sum of the products a_i b_j with i + j = 4.
pub(crate) fn sum4(a: Short8, b: Short8) -> Small
    requires left { IsWithin8 (2 ^ 28) a }
    requires right { IsWithin8 (2 ^ 28) b }
    ensures value { result ≡ record { n = s4 whole (eight_of a) (eight_of b) } }
    ensures most { unsigned_abs result.n ≤ 2 ^ 59 }
{
    a.c0.times(b.c4)
        .plus_product(a.c1, b.c3)
        .plus_product(a.c2, b.c2)
        .plus_product(a.c3, b.c1)
        .plus_product(a.c4, b.c0)
}

/// The sum of the products a_i b_j with i + j = 5.
pub(crate) fn sum5(a: Short8, b: Short8) -> Small
    requires left { IsWithin8 (2 ^ 28) a }
    requires right { IsWithin8 (2 ^ 28) b }
    ensures value { result ≡ record { n = s5 whole (eight_of a) (eight_of b) } }
    ensures most { unsigned_abs result.n ≤ 2 ^ 59 }
{
    a.c0.times(b.c5)
        .plus_product(a.c1, b.c4)
        .plus_product(a.c2, b.c3)
        .plus_product(a.c3, b.c2)
        .plus_product(a.c4, b.c1)
        .plus_product(a.c5, b.c0)
}

/// The sum of the products a_i b_j with i + j = 6.
pub(crate) fn sum6(a: Short8, b: Short8) -> Small
    requires left { IsWithin8 (2 ^ 28) a }
    requires right { IsWithin8 (2 ^ 28) b }
    ensures value { result ≡ record { n = s6 whole (eight_of a) (eight_of b) } }
    ensures most { unsigned_abs result.n ≤ 2 ^ 59 }
{
    a.c0.times(b.c6)
        .plus_product(a.c1, b.c5)
        .plus_product(a.c2, b.c4)
        .plus_product(a.c3, b.c3)
        .plus_product(a.c4, b.c2)
        .plus_product(a.c5, b.c1)
        .plus_product(a.c6, b.c0)
}

/// The sum of the products a_i b_j with i + j = 7.
pub(crate) fn sum7(a: Short8, b: Short8) -> Small
    requires left { IsWithin8 (2 ^ 28) a }
    requires right { IsWithin8 (2 ^ 28) b }
    ensures value { result ≡ record { n = s7 whole (eight_of a) (eight_of b) } }
    ensures most { unsigned_abs result.n ≤ 2 ^ 59 }
{
    a.c0.times(b.c7)
        .plus_product(a.c1, b.c6)
        .plus_product(a.c2, b.c5)
        .plus_product(a.c3, b.c4)
        .plus_product(a.c4, b.c3)
        .plus_product(a.c5, b.c2)
        .plus_product(a.c6, b.c1)
        .plus_product(a.c7, b.c0)
}

/// The sum of the products a_i b_j with i + j = 8.
pub(crate) fn sum8(a: Short8, b: Short8) -> Small
    requires left { IsWithin8 (2 ^ 28) a }
    requires right { IsWithin8 (2 ^ 28) b }
    ensures value { result ≡ record { n = s8 whole (eight_of a) (eight_of b) } }
    ensures most { unsigned_abs result.n ≤ 2 ^ 59 }
{
    a.c1.times(b.c7)
        .plus_product(a.c2, b.c6)
        .plus_product(a.c3, b.c5)
        .plus_product(a.c4, b.c4)
        .plus_product(a.c5, b.c3)
        .plus_product(a.c6, b.c2)
        .plus_product(a.c7, b.c1)
}

/// The sum of the products a_i b_j with i + j = 9.
pub(crate) fn sum9(a: Short8, b: Short8) -> Small
    requires left { IsWithin8 (2 ^ 28) a }
    requires right { IsWithin8 (2 ^ 28) b }
    ensures value { result ≡ record { n = s9 whole (eight_of a) (eight_of b) } }
    ensures most { unsigned_abs result.n ≤ 2 ^ 59 }
{
    a.c2.times(b.c7)
        .plus_product(a.c3, b.c6)
        .plus_product(a.c4, b.c5)
        .plus_product(a.c5, b.c4)
        .plus_product(a.c6, b.c3)
        .plus_product(a.c7, b.c2)
}

/// The sum of the products a_i b_j with i + j = 10.
pub(crate) fn sum10(a: Short8, b: Short8) -> Small
    requires left { IsWithin8 (2 ^ 28) a }
    requires right { IsWithin8 (2 ^ 28) b }
    ensures value { result ≡ record { n = s10 whole (eight_of a) (eight_of b) } }
    ensures most { unsigned_abs result.n ≤ 2 ^ 59 }
{
    a.c3.times(b.c7)
        .plus_product(a.c4, b.c6)
        .plus_product(a.c5, b.c5)
        .plus_product(a.c6, b.c4)
        .plus_product(a.c7, b.c3)
}

/// The sum of the products a_i b_j with i + j = 11.
pub(crate) fn sum11(a: Short8, b: Short8) -> Small
    requires left { IsWithin8 (2 ^ 28) a }
    requires right { IsWithin8 (2 ^ 28) b }
    ensures value { result ≡ record { n = s11 whole (eight_of a) (eight_of b) } }
    ensures most { unsigned_abs result.n ≤ 2 ^ 59 }
{
    a.c4.times(b.c7)
        .plus_product(a.c5, b.c6)
        .plus_product(a.c6, b.c5)
        .plus_product(a.c7, b.c4)
}

/// The sum of the products a_i b_j with i + j = 12.
pub(crate) fn sum12(a: Short8, b: Short8) -> Small
    requires left { IsWithin8 (2 ^ 28) a }
    requires right { IsWithin8 (2 ^ 28) b }
    ensures value { result ≡ record { n = s12 whole (eight_of a) (eight_of b) } }
    ensures most { unsigned_abs result.n ≤ 2 ^ 59 }
{
    a.c5.times(b.c7)
        .plus_product(a.c6, b.c6)
        .plus_product(a.c7, b.c5)
}

/// The sum of the products a_i b_j with i + j = 13.
pub(crate) fn sum13(a: Short8, b: Short8) -> Small
    requires left { IsWithin8 (2 ^ 28) a }
    requires right { IsWithin8 (2 ^ 28) b }
    ensures value { result ≡ record { n = s13 whole (eight_of a) (eight_of b) } }
    ensures most { unsigned_abs result.n ≤ 2 ^ 59 }
{
    a.c6.times(b.c7).plus_product(a.c7, b.c6)
}

/// The sum of the products a_i b_j with i + j = 14.
pub(crate) fn sum14(a: Short8, b: Short8) -> Small
    requires left { IsWithin8 (2 ^ 28) a }
    requires right { IsWithin8 (2 ^ 28) b }
    ensures value { result ≡ record { n = s14 whole (eight_of a) (eight_of b) } }
    ensures most { unsigned_abs result.n ≤ 2 ^ 59 }
{
    a.c7.times(b.c7)
}

/// x - y.
pub(crate) fn less(x: Small, y: Small) -> Small
    requires left { unsigned_abs x.n ≤ 2 ^ 61 }
    requires right { unsigned_abs y.n ≤ 2 ^ 59 }
    ensures value { result ≡ record { n = x.n +ℤ neg_ℤ y.n } }
    ensures most { unsigned_abs result.n ≤ unsigned_abs x.n + unsigned_abs y.n }
{
    x.plus(y.negated())
}
