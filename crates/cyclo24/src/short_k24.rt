// The real field Q(sqrt 2, sqrt 3) with short values in 32 bits.
ghost use Rattle.std.specs.Prelude.{◌≡◌, true};
ghost use Rattle.cyclo24.specs.Written4.{numbers4};
ghost use Rattle.cyclo24.specs.Packed4.{widened, IsPacked4};
ghost use Rattle.cyclo24.specs.Listed.{is_exact};

use crate::packed::Packed;
use crate::packed4::Packed4;
use crate::short4::Short4;
use crate::{Field, K24, Short, Wide};

/// A number of the same field as `K24`, in the same lowest terms, whose five numbers are below 2^28
/// in absolute value. It is kept in 20 bytes and computed in 64 bits. An operation is wide exactly where
/// its result isn't such a number.
#[derive(Clone, Copy, Debug, PartialEq, Eq, PartialOrd, Ord, Hash)]
pub struct ShortK24 {
    pub(crate) fraction: Packed4,
    pub ghost packed: { IsPacked4 fraction },
    pub ghost lowest: { is_exact 4 (numbers4 (widened fraction)) ≡ true },
}

impl ShortK24 {
    ghost use Rattle.std.specs.Prelude.{◌↔◌, IfOk, IsErr, IfSome, IsNone, IsTrue};
    ghost use Rattle.cyclo24.specs.Short4.{wide_of};
    ghost use Rattle.cyclo24.specs.K24.{exact24};
    ghost use Rattle.cyclo24.specs.ShortK24.{exact_short};
    ghost use Rattle.cyclo24.specs.Long.{is_long};

    // The number in 32 bits, unless it is long.
    #[inline(always)]
    fn of(number: Short4) -> Result<ShortK24, Wide>
        requires { is_exact 4 (numbers4 (wide_of number)) ≡ true }
        ensures exact { IfOk result (λ s. (exact_short s).0 ≡ numbers4 (wide_of number)) }
        ensures wide { IsErr result ↔ IsTrue (is_long (numbers4 (wide_of number))) }
    {
        if number.is_short() {
            Ok(ShortK24 {
                fraction: number.packed(),
            })
        } else {
            Err(Wide)
        }
    }

    /// The same number in 128 bits.
    pub fn to_k24(self) -> K24
        ensures { exact24 result ≡ exact_short self }
    {
        K24 {
            fraction: self.fraction.widened(),
        }
    }

    /// The same number in 32 bits, if it is short.
    pub fn from_k24(number: K24) -> Option<ShortK24>
        ensures exact { IfSome result (λ s. exact_short s ≡ exact24 number) }
        ensures long { IsNone result ↔ IsTrue (is_long (exact24 number).0) }
    {
        if number.fraction.is_short() {
            let fraction = number.fraction.short().packed();
            Some(ShortK24 { fraction })
        } else {
            None
        }
    }
}

impl Field for ShortK24 {
    ghost use Rattle.cyclo24.specs.ExactShort.{short24};
    ghost use Rattle.cyclo24.specs.ShortK24.{exact_short};
    ghost use Rattle.cyclo24.specs.ShortK24OrderLaws.{exact_short_cmp};

    ghost field = { short24 };

    ghost value = { exact_short };

    #[inline(always)]
    fn zero() -> ShortK24 {
        ShortK24 {
            fraction: Packed4::rational(Packed { n: 0 }, Packed { n: 1 }),
        }
    }

    #[inline(always)]
    fn one() -> ShortK24 {
        ShortK24 {
            fraction: Packed4::rational(Packed { n: 1 }, Packed { n: 1 }),
        }
    }

    #[inline(always)]
    fn small(n: i8) -> ShortK24 {
        ShortK24 {
            fraction: Packed4::rational(Packed::byte(n), Packed { n: 1 }),
        }
    }

    #[inline(always)]
    fn is_zero(self) -> bool {
        self.fraction.is_zero()
    }

    #[inline(always)]
    fn neg(self) -> ShortK24 {
        ShortK24 {
            fraction: self.fraction.negated(),
        }
    }

    #[inline(always)]
    fn add(self, other: ShortK24) -> Result<ShortK24, Wide> {
        ShortK24::of(self.fraction.sum(other.fraction))
    }

    #[inline(always)]
    fn sub(self, other: ShortK24) -> Result<ShortK24, Wide> {
        self.add(other.neg())
    }

    #[inline(always)]
    fn mul(self, other: ShortK24) -> Result<ShortK24, Wide> {
        ShortK24::of(self.fraction.product(other.fraction))
    }

    /// It is computed in `K24`, where it isn't rational.
    fn inv(self) -> Result<ShortK24, Wide> {
        if self.fraction.is_rational() {
            return ShortK24::of(self.fraction.ratio().inverse().four());
        }
        let inverse = self.to_k24().inv()?;
        match ShortK24::from_k24(inverse) {
            Some(short) => Ok(short),
            None => Err(Wide),
        }
    }

    ghost value_cmp = { exact_short_cmp };
}

impl Short for ShortK24 {
    ghost use Rattle.std.specs.Prelude.{refl};
    ghost use Rattle.cyclo24.specs.ExactShort.{is_short24};
    ghost use Rattle.cyclo24.specs.ShortK24.{exact_short};

    ghost exact = { exact_short };

    ghost holds = { is_short24 };

    fn to_k24(self) -> K24 {
        ShortK24::to_k24(self)
    }

    fn from_k24(number: K24) -> Option<ShortK24> {
        ShortK24::from_k24(number)
    }

    ghost is_short = { refl };
}
