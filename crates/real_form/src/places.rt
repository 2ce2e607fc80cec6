// The places where a vector isn't 0.
ghost use Rattle.std.specs.Prelude.{◌≡◌, ◌<◌, ◌≤◌, ℕ, true, IfSome, length};
ghost use Rattle.lin_alg.specs.Rows.{vector};
ghost use Rattle.real_form.specs.Sparse.{IsSparse};

use cyclo24::Field;

/// The places of a vector that is 0 at all others.
#[derive(Clone, Copy, Debug, PartialEq, Eq)]
pub struct Places {
    /// The first of them.
    pub first: usize,
    /// The last, which may be the first.
    pub last: usize,
}

// The first place where the vector isn't 0.
fn first_place<F: Field>(w: &[F]) -> Option<usize>
    ensures inside { IfSome result (λ i. i < length w.now) }
    ensures zero { IfSome result (λ i. (k : ℕ) → k < i → vector F.field.laws F.value w.now k ≡ F.field.laws.nought) }
{
    for i in 0..w.len() {
        if !w[i].is_zero() {
            return Some(i);
        }
    }
    None
}

// The last place where the vector isn't 0.
fn last_place<F: Field>(w: &[F]) -> Option<usize>
    ensures inside { IfSome result (λ j. j < length w.now) }
    ensures zero { IfSome result (λ j. (k : ℕ) → j < k → vector F.field.laws F.value w.now k ≡ F.field.laws.nought) }
{
    for j in (0..w.len()).rev() {
        if !w[j].is_zero() {
            return Some(j);
        }
    }
    None
}

// Whether the vector is 0 at all places between two.
fn are_zero<F: Field>(w: &[F], i: usize, j: usize) -> bool
    requires order { i ≤ j }
    requires inside { j < length w.now }
    ensures { (result ≡ true) → (k : ℕ) → i < k → k < j → vector F.field.laws F.value w.now k ≡ F.field.laws.nought }
{
    for k in i + 1..j {
        if !w[k].is_zero() {
            return false;
        }
    }
    true
}

// The places where the vector isn't 0, if there are one or two.
pub(crate) fn places_of<F: Field>(w: &[F]) -> Option<Places>
    ensures { IfSome result (λ p. IsSparse F.field.laws (length w.now) (vector F.field.laws F.value w.now) p.first p.last) }
{
    let first = first_place(w)?;
    let last = last_place(w)?;
    if first <= last && are_zero(w, first, last) {
        return Some(Places { first, last });
    }
    None
}
