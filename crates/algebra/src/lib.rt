//! The mathematics that several layers share, each piece once: rings and their equations, multiples
//! and remainders, common divisors, rising lists of numbers, finite numbered groups and what
//! generates them, finite sums.
//!
//! There is nothing to run here. The definitions and laws stand in `specs/`; the functions do
//! nothing, and their clauses are the laws, so that the check owes them.
#![tactic(auto)]

ghost use Prim.Native.Nat.{◌∣◌};
ghost use Rattle.std.specs.Prelude.{◌≡◌, ℕ, ◌<◌, ◌*◌, ◌↔◌, ℤ, pos, Bool, List};
ghost use Rattle.std.specs.Int.{int_rem_euclid, IsGcd};
ghost use Rattle.algebra.specs.Multiples.{IsMultiple, IsRemainder, AreMultiplesIdeal};
ghost use Rattle.algebra.specs.NumberedGroup.{Group, IsGroup, IsGenerated, HasRightLaws, HoldsOfGenerated};
ghost use Rattle.algebra.specs.PigeonholeLaws.{IsPigeonholed};
ghost use Rattle.algebra.specs.Ring.{Ops, IsRing};
ghost use Rattle.algebra.specs.RisingLists.{IsRisingListOfTest};
ghost use Rattle.algebra.specs.Solve.{HasNormalForms};
ghost use Rattle.algebra.specs.Sums.{IsCommutativeMonoid, IsSumInAnyOrder};
ghost use Rattle.algebra.specs.Whole.{whole};

/// The whole numbers are a commutative ring.
pub fn law_of_whole_numbers()
    ensures { IsRing whole }
{}

/// In a commutative ring, expressions with one normal form have one value.
pub fn law_of_normal_forms<A>()
    ensures { (o : Ops A) → IsRing o → HasNormalForms o }
{}

/// The multiples of a number are an ideal of the whole numbers.
pub fn law_of_multiples()
    ensures { (n : ℕ) → AreMultiplesIdeal n }
{}

/// A remainder is from 0 up to but without the modulus, differs from the number by a multiple, and is
/// the only such number. It is 0 exactly where the number is a multiple.
pub fn law_of_remainders()
    ensures is { (n : ℕ) (x : ℤ) → 0 < n → IsRemainder n x (int_rem_euclid x (pos n)) }
    ensures only { (n : ℕ) (x r s : ℤ) → IsRemainder n x r → IsRemainder n x s → r ≡ s }
    ensures zero { (n : ℕ) (x : ℤ) → 0 < n → (int_rem_euclid x (pos n) ≡ pos 0) ↔ IsMultiple n x }
{}

/// What divides a product and has no common divisor with one factor divides the other.
pub fn law_of_common_divisors()
    ensures { (m n k : ℕ) → 0 < k → IsGcd n m 1 → m ∣ (k * n) → m ∣ k }
{}

/// There is only one rising list of all numbers below a bound of which a test holds.
pub fn law_of_rising_lists()
    ensures { (n : ℕ) (test : ℕ → Bool) (xs ys : List ℕ) → IsRisingListOfTest n test xs → IsRisingListOfTest n test ys → xs ≡ ys }
{}

/// Different numbers below a bound are at most as many as the bound.
pub fn law_of_pigeonholes()
    ensures { (m n : ℕ) → IsPigeonholed m n }
{}

/// The right-hand laws of a group follow from its left-hand laws.
pub fn law_of_groups()
    ensures { (g : Group) → IsGroup g → HasRightLaws g }
{}

/// What holds of the identity and is kept by products with generators on the left holds of each
/// element that they generate.
pub fn law_of_generators()
    ensures { (g : Group) → IsGroup g → (n : ℕ) (generator : ℕ → ℕ) → ((i : ℕ) → i < n → generator i < g.order) → IsGenerated g n generator → HoldsOfGenerated g n generator }
{}

/// A finite sum in a commutative monoid is the same in any order of its terms.
pub fn law_of_sums<A>()
    ensures { (nought : A) (plus : A → A → A) → IsCommutativeMonoid nought plus → IsSumInAnyOrder nought plus }
{}
