// Short types of the field of `K24`.
ghost use Rattle.std.specs.Prelude.{◌≡◌, ◌↔◌, Bool, false, IfSome, IsNone};
ghost use Rattle.cyclo24.specs.ExactK24.{Exact24};
ghost use Rattle.cyclo24.specs.ExactShort.{IsShortField};
ghost use Rattle.cyclo24.specs.K24.{exact24};

use crate::{Field, K24};

/// A field with the exact values, the laws and the order of `K24`, whose values are short and computed
/// faster. What is computed in it holds over `K24`; where it is refused as wide, `K24` may do it.
pub trait Short: Field {
    /// The exact value of `K24` that a value stands for.
    ghost exact: { Self → Exact24 };

    /// The exact values that are held.
    ghost holds: { Exact24 → Bool };

    /// The same number in 128 bits.
    fn to_k24(self) -> K24
        ensures { exact24 result ≡ exact self };

    /// The same number, if it is held.
    fn from_k24(number: K24) -> Option<Self>
        ensures exact { IfSome result (λ s. exact s ≡ exact24 number) }
        ensures none { IsNone result ↔ (holds (exact24 number) ≡ false) };

    /// The field is that of `K24` but for its wide operations, and so are the values.
    ghost is_short: { IsShortField Self.Field.field Self.Field.value exact };
}
