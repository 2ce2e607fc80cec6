// The laws of the 24th cyclotomic field that the layers above rest on, as clauses of functions that
// do nothing.
ghost use Rattle.std.specs.Prelude.{◌≡◌, ◌+◌, ◌-◌, ◌%◌, ℕ, false};
ghost use Rattle.cyclo24.specs.ExactK24.{Exact24, k24_laws};
ghost use Rattle.cyclo24.specs.ExactZ24.{ExactZ24, z24_laws, conj, real_part, imag_part, from_real, power, imaginary};
ghost use Rattle.cyclo24.specs.Numerals.{of_whole};
ghost use Rattle.cyclo24.specs.Listed.{denominator};
ghost use Rattle.cyclo24.specs.Coefficients.{in_powers, reduced8};
ghost use Rattle.cyclo24.specs.Written8.{fraction8_of, numbers8, sum, negated};
ghost use Rattle.cyclo24.specs.Written8Products.{product};
ghost use Rattle.cyclo24.specs.RootsK24.{r2, r3, r6};

/// Conjugation is an involution that respects sums and products, and keeps real numbers.
pub fn law_of_conjugation()
    ensures involution { (x : ExactZ24) → conj (conj x) ≡ x }
    ensures sums { (x y : ExactZ24) → conj (z24_laws.plus x y) ≡ z24_laws.plus (conj x) (conj y) }
    ensures products { (x y : ExactZ24) → conj (z24_laws.times x y) ≡ z24_laws.times (conj x) (conj y) }
    ensures one { conj z24_laws.unit ≡ z24_laws.unit }
    ensures reals { (a : Exact24) → conj (from_real a) ≡ from_real a }
{}

/// A number is its real part and i times its imaginary part, and only 0 has no parts.
pub fn law_of_parts()
    ensures whole { (x : ExactZ24) → x ≡ z24_laws.plus (from_real (real_part x)) (z24_laws.times imaginary (from_real (imag_part x))) }
    ensures square { z24_laws.times imaginary imaginary ≡ z24_laws.neg z24_laws.unit }
    ensures zero { (x : ExactZ24) → real_part x ≡ k24_laws.nought → imag_part x ≡ k24_laws.nought → x ≡ z24_laws.nought }
    ensures real_sums { (x y : ExactZ24) → real_part (z24_laws.plus x y) ≡ k24_laws.plus (real_part x) (real_part y) }
    ensures imag_sums { (x y : ExactZ24) → imag_part (z24_laws.plus x y) ≡ k24_laws.plus (imag_part x) (imag_part y) }
    ensures real_one { real_part z24_laws.unit ≡ k24_laws.unit }
    ensures imag_one { imag_part z24_laws.unit ≡ k24_laws.nought }
{}

/// The parts of a product, and the squared absolute value.
pub fn law_of_products_of_parts()
    ensures real_products { (x y : ExactZ24) → real_part (z24_laws.times x y) ≡ k24_laws.plus (k24_laws.times (real_part x) (real_part y)) (k24_laws.neg (k24_laws.times (imag_part x) (imag_part y))) }
    ensures imag_products { (x y : ExactZ24) → imag_part (z24_laws.times x y) ≡ k24_laws.plus (k24_laws.times (real_part x) (imag_part y)) (k24_laws.times (imag_part x) (real_part y)) }
    ensures real_conjugates { (x : ExactZ24) → real_part (conj x) ≡ real_part x }
    ensures imag_conjugates { (x : ExactZ24) → imag_part (conj x) ≡ k24_laws.neg (imag_part x) }
    ensures norm { (x : ExactZ24) → real_part (z24_laws.times x (conj x)) ≡ k24_laws.plus (k24_laws.times (real_part x) (real_part x)) (k24_laws.times (imag_part x) (imag_part x)) }
    ensures real_norm { (x : ExactZ24) → z24_laws.times x (conj x) ≡ from_real (real_part (z24_laws.times x (conj x))) }
{}

/// The real numbers are a subfield.
pub fn law_of_real_numbers()
    ensures sums { (a b : Exact24) → from_real (k24_laws.plus a b) ≡ z24_laws.plus (from_real a) (from_real b) }
    ensures products { (a b : Exact24) → from_real (k24_laws.times a b) ≡ z24_laws.times (from_real a) (from_real b) }
    ensures zero { from_real k24_laws.nought ≡ z24_laws.nought }
    ensures one { from_real k24_laws.unit ≡ z24_laws.unit }
    ensures real { (a : Exact24) → real_part (from_real a) ≡ a }
    ensures imaginary { (a : Exact24) → imag_part (from_real a) ≡ k24_laws.nought }
{}

/// z is a root of unity of order 24 with z^8 = z^4 - 1, whose powers make i and the square roots.
pub fn law_of_powers()
    ensures products { (a b : ℕ) → z24_laws.times (power a) (power b) ≡ power ((a + b) % 24) }
    ensures conjugates { (a : ℕ) → conj (power a) ≡ power ((24 - a % 24) % 24) }
    ensures eighth { power 8 ≡ z24_laws.plus (power 4) (z24_laws.neg z24_laws.unit) }
    ensures twelfth { power 12 ≡ z24_laws.neg z24_laws.unit }
    ensures sixth { power 6 ≡ imaginary }
    ensures two { from_real r2 ≡ z24_laws.plus (power 3) (power 21) }
    ensures three { from_real r3 ≡ z24_laws.plus (power 2) (power 22) }
    ensures six { from_real r6 ≡ z24_laws.plus (z24_laws.plus (power 1) (power 23)) (z24_laws.plus (power 5) (power 19)) }
{}

/// A value times its denominator is c0 + c1 z + .. + c7 z^7, for the numbers of its list.
pub fn law_of_cyclotomic_coefficients()
    ensures { (x : ExactZ24) → z24_laws.times (of_whole z24_laws (denominator 8 x.0)) x ≡ in_powers x }
{}

/// The sum, the product and the negative are the written formulas, in lowest terms. The inverse is
/// the conjugate times the inverse of the squared absolute value.
pub fn law_of_cyclotomic_formulas()
    ensures sum { (x y : ExactZ24) → (z24_laws.plus x y).0 ≡ reduced8 (sum (fraction8_of x.0) (fraction8_of y.0)).value }
    ensures product { (x y : ExactZ24) → (z24_laws.times x y).0 ≡ reduced8 (product (fraction8_of x.0) (fraction8_of y.0)).value }
    ensures negative { (x : ExactZ24) → (z24_laws.neg x).0 ≡ numbers8 (negated (fraction8_of x.0)) }
    ensures inverse { (x : ExactZ24) → z24_laws.is_nought x ≡ false → z24_laws.inverse x ≡ z24_laws.times (conj x) (from_real (k24_laws.inverse (real_part (z24_laws.times x (conj x))))) }
{}
