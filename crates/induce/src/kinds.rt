// Kinds of representations.
ghost use Rattle.std.specs.Prelude.{◌≡◌, ◌≤◌, ◌<◌, ◌∷◌, [], pos, true, false};
ghost use Rattle.iso_text.specs.WordRanges.{IsTerm};
ghost use Rattle.cyclo24.specs.Terms.{terms_value};
ghost use Rattle.cyclo24.specs.ExactZ24.{z24_laws};
ghost use Rattle.cyclo24.specs.Numerals.{of_whole};
ghost use Rattle.cyclo24.specs.Z24.{exact_z24};
ghost use Rattle.induce.specs.Kinds.{IsKind, real_dimension};

use cyclo24::{Field, Z24};
use iso_text::{Term, Unit};
use lin_alg::are_equal;

/// The kind of a representation: Frobenius and Schur's indicator is 1, 0 or -1.
#[derive(Clone, Copy, Debug, PartialEq, Eq)]
pub enum Kind {
    /// The sum of the characters of the squares is the order of the group.
    Real,
    /// That sum is 0.
    Complex,
    /// That sum is any other number, in the textbook minus the order.
    Pseudoreal,
}

/// The number of one term.
fn one_term(term: Term) -> Z24
    requires { IsTerm term }
    ensures { exact_z24 result ≡ terms_value (term ∷ []) }
{
    Z24::from_terms(&[term])
}

fn whole_term(n: u16) -> Term
    requires { n ≤ 6144 }
    ensures term { IsTerm result }
    ensures num { result.num ≡ pos n }
    ensures den { result.den ≡ 1 }
    ensures unit { result.unit ≡ Unit.One }
{
    Term {
        num: i32::from(n),
        den: 1,
        unit: Unit::One,
    }
}

/// The whole number n.
fn whole_number(n: u16) -> Z24
    requires { n ≤ 6144 }
    ensures { exact_z24 result ≡ of_whole z24_laws (pos n) }
{
    one_term(whole_term(n))
}

/// The kind of a representation of a group of n elements, by the sum of the characters of squares.
pub fn kind_of(sum: Z24, n: u16) -> Kind
    requires { n ≤ 6144 }
    ensures { IsKind result (exact_z24 sum) n }
{
    if are_equal(sum, whole_number(n)) {
        return Kind::Real;
    }
    if are_equal(sum, Z24::zero()) {
        return Kind::Complex;
    }
    Kind::Pseudoreal
}

/// The real dimension for a dimension below 2^31.
pub fn real_dim_of(kind: Kind, dim: usize) -> usize
    requires { dim < 2147483648 }
    ensures value { result ≡ real_dimension kind dim }
    ensures few { result < 4294967296 }
{
    match kind {
        Kind::Real => dim,
        Kind::Complex | Kind::Pseudoreal => 2 * dim,
    }
}
