// Fields whose values stand for exact ones.
ghost use Rattle.std.specs.Prelude.{◌≡◌, ◌↔◌, true, false, IfOk, IsErr, IsTrue};
ghost use Rattle.cyclo24.specs.ExactField.{ExactField, Value};
ghost use Rattle.cyclo24.specs.Numerals.{of_whole};

use std::hash::Hash;

/// A number that had to be written reached the bound of the field.
#[derive(Clone, Copy, Debug, PartialEq, Eq)]
pub struct Wide;

/// A field whose values each stand for one exact value, a list of whole numbers without a bound.
/// A call gives the exact result, or `Wide` exactly where the field says that the operation is wide.
pub trait Field: Copy + Eq + Ord + Hash {
    /// The exact values with their operations, laws, order and wide operations.
    ghost field: { ExactField };

    /// The exact value that a value stands for.
    ghost value: { Self → Value field };

    /// 0.
    fn zero() -> Self
        ensures { value result ≡ field.laws.nought };

    /// 1.
    fn one() -> Self
        ensures { value result ≡ field.laws.unit };

    /// The whole number n.
    fn small(n: i8) -> Self
        ensures { value result ≡ of_whole field.laws n };

    /// Whether the value is 0.
    fn is_zero(self) -> bool
        ensures { result ≡ field.laws.is_nought (value self) };

    /// -x, which is never wide.
    fn neg(self) -> Self
        ensures { value result ≡ field.laws.neg (value self) };

    /// x + y.
    fn add(self, other: Self) -> Result<Self, Wide>
        ensures exact { IfOk result (λ r. value r ≡ field.laws.plus (value self) (value other)) }
        ensures wide { IsErr result ↔ IsTrue (field.is_wide_sum (value self) (value other)) };

    /// x - y.
    fn sub(self, other: Self) -> Result<Self, Wide>
        ensures exact { IfOk result (λ r. value r ≡ field.laws.plus (value self) (field.laws.neg (value other))) }
        ensures wide { IsErr result ↔ IsTrue (field.is_wide_difference (value self) (value other)) };

    /// x y.
    fn mul(self, other: Self) -> Result<Self, Wide>
        ensures exact { IfOk result (λ r. value r ≡ field.laws.times (value self) (value other)) }
        ensures wide { IsErr result ↔ IsTrue (field.is_wide_product (value self) (value other)) };

    /// 1 / x.
    fn inv(self) -> Result<Self, Wide>
        requires { field.laws.is_nought (value self) ≡ false }
        ensures exact { IfOk result (λ r. value r ≡ field.laws.inverse (value self)) }
        ensures wide { IsErr result ↔ IsTrue (field.is_wide_inverse (value self)) };

    /// Two values compare as their exact values do; so they are equal exactly where those are.
    ghost value_cmp: { (x y : Self) → Self.Ord.cmp x y ≡ field.cmp (value x) (value y) };
}
