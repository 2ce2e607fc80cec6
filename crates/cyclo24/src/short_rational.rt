// The rational numbers of the real field Q(sqrt 2, sqrt 3), short and in 32 bits.
ghost use Rattle.std.specs.Prelude.{◌≡◌, true};
ghost use Rattle.cyclo24.specs.Written4.{numbers4};
ghost use Rattle.cyclo24.specs.Packed4.{widened, IsPacked4};
ghost use Rattle.cyclo24.specs.Ratio.{packed_ratio4};
ghost use Rattle.cyclo24.specs.Listed.{is_exact};

use crate::packed::Packed;
use crate::ratio::{PackedRatio, Ratio};
use crate::{Field, K24, Short, ShortK24, Wide};

/// A rational number of the same field as `K24`, in the same lowest terms, whose numerator and
/// denominator are below 2^28 in absolute value. It is kept in 8 bytes. An operation is wide exactly
/// where its result isn't such a number.
#[derive(Clone, Copy, Debug, PartialEq, Eq, PartialOrd, Ord, Hash)]
pub struct ShortRational {
    ratio: PackedRatio,
    pub ghost packed: { IsPacked4 (packed_ratio4 ratio) },
    pub ghost lowest: { is_exact 4 (numbers4 (widened (packed_ratio4 ratio))) ≡ true },
}

impl ShortRational {
    ghost use Rattle.std.specs.Prelude.{◌↔◌, false, ◌&&◌, IfOk, IsErr, IfSome, IsNone, IsTrue};
    ghost use Rattle.cyclo24.specs.Ratio.{ratio4};
    ghost use Rattle.cyclo24.specs.K24.{exact24};
    ghost use Rattle.cyclo24.specs.ShortK24.{exact_short};
    ghost use Rattle.cyclo24.specs.ShortRational.{exact_rational};
    ghost use Rattle.cyclo24.specs.Long.{is_long};
    ghost use Rattle.cyclo24.specs.ExactShort.{is_rational24, is_short24};

    // The number in 32 bits, unless it is long.
    #[inline(always)]
    fn of(number: Ratio) -> Result<ShortRational, Wide>
        requires { is_exact 4 (numbers4 (ratio4 number)) ≡ true }
        ensures exact { IfOk result (λ s. (exact_rational s).0 ≡ numbers4 (ratio4 number)) }
        ensures wide { IsErr result ↔ IsTrue (is_long (numbers4 (ratio4 number))) }
    {
        if number.is_short() {
            Ok(ShortRational {
                ratio: number.packed(),
            })
        } else {
            Err(Wide)
        }
    }

    /// The same number among those that needn't be rational.
    pub fn to_short(self) -> ShortK24
        ensures { exact_short result ≡ exact_rational self }
    {
        ShortK24 {
            fraction: self.ratio.four(),
        }
    }

    /// The same number, if it is rational.
    pub fn from_short(number: ShortK24) -> Option<ShortRational>
        ensures exact { IfSome result (λ r. exact_rational r ≡ exact_short number) }
        ensures rational { IsNone result ↔ (is_rational24 (exact_short number) ≡ false) }
    {
        if number.fraction.is_rational() {
            let ratio = number.fraction.ratio();
            Some(ShortRational { ratio })
        } else {
            None
        }
    }

    /// The same number in 128 bits.
    pub fn to_k24(self) -> K24
        ensures { exact24 result ≡ exact_rational self }
    {
        self.to_short().to_k24()
    }

    /// The same number in 32 bits, if it is short and rational.
    pub fn from_k24(number: K24) -> Option<ShortRational>
        ensures exact { IfSome result (λ r. exact_rational r ≡ exact24 number) }
        ensures none { IsNone result ↔ ((is_short24 (exact24 number) && is_rational24 (exact24 number)) ≡ false) }
    {
        let short = ShortK24::from_k24(number)?;
        ShortRational::from_short(short)
    }
}

impl Field for ShortRational {
    ghost use Rattle.cyclo24.specs.ExactShort.{short24};
    ghost use Rattle.cyclo24.specs.ShortRational.{exact_rational};
    ghost use Rattle.cyclo24.specs.ShortRationalOrderLaws.{exact_rational_cmp};

    ghost field = { short24 };

    ghost value = { exact_rational };

    #[inline(always)]
    fn zero() -> ShortRational {
        ShortRational {
            ratio: PackedRatio {
                d: Packed { n: 1 },
                n: Packed { n: 0 },
            },
        }
    }

    #[inline(always)]
    fn one() -> ShortRational {
        ShortRational {
            ratio: PackedRatio {
                d: Packed { n: 1 },
                n: Packed { n: 1 },
            },
        }
    }

    #[inline(always)]
    fn small(n: i8) -> ShortRational {
        ShortRational {
            ratio: PackedRatio {
                d: Packed { n: 1 },
                n: Packed::byte(n),
            },
        }
    }

    #[inline(always)]
    fn is_zero(self) -> bool {
        self.ratio.n.is_zero()
    }

    #[inline(always)]
    fn neg(self) -> ShortRational {
        ShortRational {
            ratio: self.ratio.negated(),
        }
    }

    #[inline(always)]
    fn add(self, other: ShortRational) -> Result<ShortRational, Wide> {
        ShortRational::of(self.ratio.sum(other.ratio))
    }

    #[inline(always)]
    fn sub(self, other: ShortRational) -> Result<ShortRational, Wide> {
        self.add(other.neg())
    }

    #[inline(always)]
    fn mul(self, other: ShortRational) -> Result<ShortRational, Wide> {
        ShortRational::of(self.ratio.product(other.ratio))
    }

    #[inline(always)]
    fn inv(self) -> Result<ShortRational, Wide> {
        ShortRational::of(self.ratio.inverse())
    }

    ghost value_cmp = { exact_rational_cmp };
}

impl Short for ShortRational {
    ghost use Rattle.std.specs.Prelude.{refl, ◌&&◌};
    ghost use Rattle.cyclo24.specs.ExactShort.{is_short24, is_rational24};
    ghost use Rattle.cyclo24.specs.ShortRational.{exact_rational};

    ghost exact = { exact_rational };

    ghost holds = { λ x. is_short24 x && is_rational24 x };

    fn to_k24(self) -> K24 {
        ShortRational::to_k24(self)
    }

    fn from_k24(number: K24) -> Option<ShortRational> {
        ShortRational::from_k24(number)
    }

    ghost is_short = { refl };
}
