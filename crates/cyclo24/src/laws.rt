// The laws of the fields that the layers above rest on, as clauses of functions that do nothing.
ghost use Rattle.std.specs.Prelude.{◌≡◌, ◌<◌, ◌+◌, ℕ, ℤ, pos, false, ◌+ℤ◌, ◌*ℤ◌};
ghost use Rattle.cyclo24.specs.ExactField.{Value};
ghost use Rattle.cyclo24.specs.ExactK24.{Exact24, k24_laws};
ghost use Rattle.cyclo24.specs.Numerals.{of_whole};
ghost use Rattle.cyclo24.specs.Listed.{denominator};
ghost use Rattle.cyclo24.specs.Coefficients.{in_roots, reduced4};
ghost use Rattle.cyclo24.specs.Written4.{fraction_of, numbers4, sum, product, negated};
ghost use Rattle.cyclo24.specs.Written4Inverse.{inverse, upright};
ghost use Rattle.cyclo24.specs.RootsK24.{r2, r3, r6};
ghost use Rattle.cyclo24.specs.Sums.{total, IsReal};
ghost use Rattle.algebra.specs.Sums.{IsRenumbering};

use crate::Field;

/// Whole numbers in a field add and multiply as they do by themselves.
pub fn law_of_whole_numbers<F: Field>()
    ensures sum { (x y : ℤ) → of_whole F.field.laws (x +ℤ y) ≡ F.field.laws.plus (of_whole F.field.laws x) (of_whole F.field.laws y) }
    ensures product { (x y : ℤ) → of_whole F.field.laws (x *ℤ y) ≡ F.field.laws.times (of_whole F.field.laws x) (of_whole F.field.laws y) }
{}

/// A finite sum is the same in any order of its terms.
pub fn law_of_renumbering<F: Field>()
    ensures { (n : ℕ) (p r : ℕ → ℕ) → IsRenumbering n p r → (g : ℕ → Value F.field) → total F.field.laws n (λ i. g (p i)) ≡ total F.field.laws n g }
{}

/// Finite sums: of zeros, of sums, of multiples, of two sums in either order, in two pieces, and with
/// one term alone that isn't 0.
pub fn law_of_sums<F: Field>()
    ensures zeros { (n : ℕ) (g : ℕ → Value F.field) → ((k : ℕ) → k < n → g k ≡ F.field.laws.nought) → total F.field.laws n g ≡ F.field.laws.nought }
    ensures sums { (n : ℕ) (g h : ℕ → Value F.field) → total F.field.laws n (λ k. F.field.laws.plus (g k) (h k)) ≡ F.field.laws.plus (total F.field.laws n g) (total F.field.laws n h) }
    ensures products { (n : ℕ) (x : Value F.field) (g : ℕ → Value F.field) → total F.field.laws n (λ k. F.field.laws.times x (g k)) ≡ F.field.laws.times x (total F.field.laws n g) }
    ensures exchange { (n m : ℕ) (g : ℕ → ℕ → Value F.field) → total F.field.laws n (λ i. total F.field.laws m (λ j. g i j)) ≡ total F.field.laws m (λ j. total F.field.laws n (λ i. g i j)) }
    ensures pieces { (a b : ℕ) (g : ℕ → Value F.field) → total F.field.laws (a + b) g ≡ F.field.laws.plus (total F.field.laws a g) (total F.field.laws b (λ k. g (a + k))) }
    ensures one_term { (n k : ℕ) (g : ℕ → Value F.field) → k < n → ((j : ℕ) → j < n → (j ≡ k → ⊥) → g j ≡ F.field.laws.nought) → total F.field.laws n g ≡ g k }
{}

/// A value times its denominator is a0 + a1 r2 + a2 r3 + a3 r6, for the numbers of its list.
pub fn law_of_coefficients()
    ensures { (x : Exact24) → k24_laws.times (of_whole k24_laws (denominator 4 x.0)) x ≡ in_roots x }
{}

/// The sum, the product, the negative and the inverse are the written formulas, in lowest terms.
pub fn law_of_formulas()
    ensures sum { (x y : Exact24) → (k24_laws.plus x y).0 ≡ reduced4 (sum (record { n = pos 1 }) (fraction_of x.0) (fraction_of y.0)).value }
    ensures product { (x y : Exact24) → (k24_laws.times x y).0 ≡ reduced4 (product (fraction_of x.0) (fraction_of y.0)).value }
    ensures negative { (x : Exact24) → (k24_laws.neg x).0 ≡ numbers4 (negated (fraction_of x.0)) }
    ensures inverse { (x : Exact24) → k24_laws.is_nought x ≡ false → (k24_laws.inverse x).0 ≡ reduced4 (upright (inverse (fraction_of x.0)).value) }
{}

/// A sum of squares of real numbers is 0 only where each of them is.
pub fn law_of_squares()
    ensures { IsReal k24_laws }
{}

/// r2 r2 = 2, r3 r3 = 3 and r2 r3 = r6.
#[tactic(auto, using(crate::specs::RootsK24Laws::r2_square, crate::specs::RootsK24Laws::r3_square))]
pub fn law_of_roots()
    ensures two { k24_laws.times r2 r2 ≡ of_whole k24_laws (pos 2) }
    ensures three { k24_laws.times r3 r3 ≡ of_whole k24_laws (pos 3) }
    ensures six { k24_laws.times r2 r3 ≡ r6 }
{}
