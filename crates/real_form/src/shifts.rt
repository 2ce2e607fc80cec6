// Candidates that translations move to multiples of earlier ones.
ghost use Rattle.std.specs.Prelude.{◌≡◌, ◌<◌, ◌≤◌, ◌-◌, ◌/◌, ℕ, true, IfSome, length, slice_index_or};
ghost use Rattle.induce.specs.Tables.{dimension_in, matrix_in, size_in};
ghost use Rattle.induce.specs.InducedView.{IsInducedOf, star_in};
ghost use Rattle.real_form.specs.declared.candidate.Candidate.TheVariants as candidate;
ghost use Rattle.real_form.specs.Shifts.{IsShift, IsShifted};

use crate::candidate::Candidate;
use induce::Induced;
use super_group::Quotient;

/// The order of z.
const ROOT_ORDER: u8 = 24;

// A number d from 1 to a such that a translation multiplies the rows of arm j by a power z^p, and those of
// arm k by z^(p + d).
fn shift_of(quotient: &Quotient, induced: &Induced, j: usize, k: usize, a: u8) -> Option<u8>
    requires of { IsInducedOf quotient.now induced.now }
    requires first { j < length (star_in induced.now).by }
    requires second { k < length (star_in induced.now).by }
    ensures some { IfSome result (λ d. 0 < d) }
    ensures few { IfSome result (λ d. d ≤ a) }
    ensures shift { IfSome result (λ d. IsShift (length quotient.now.parent.ops) (length quotient.now.translations) (dimension_in induced.now.tables) (size_in induced.now.tables) (matrix_in quotient.now induced.now.tables) j k d) }
{
    let count = quotient.translations().len();
    for t in 0..count {
        let first = induced.phase(quotient, t, j);
        let second = induced.phase(quotient, t, k);
        let d = (second + ROOT_ORDER - first) % ROOT_ORDER;
        if 0 < d && d <= a {
            return Some(d);
        }
    }
    None
}

// Whether this candidate stands d places before place k.
fn is_before(candidates: &[Candidate], k: usize, d: u8, wanted: Candidate) -> bool
    requires inside { k < length candidates.now }
    ensures few { (result ≡ true) → d ≤ k }
    ensures at { (result ≡ true) → slice_index_or candidates.now (k - d) (candidate.Place 0) ≡ wanted }
{
    let back = usize::from(d);
    back <= k && candidates[k - back] == wanted
}

// Whether a candidate of a pair, at place k, is the multiple of an image of one before it.
fn is_shifted_pair(
    quotient: &Quotient,
    induced: &Induced,
    candidates: &[Candidate],
    k: usize,
    i: usize,
    j: usize,
    a: u8,
) -> bool
    requires of { IsInducedOf quotient.now induced.now }
    requires inside { k < length candidates.now }
    ensures { (result ≡ true) → (b d : ℕ) × (b < k) × (d ≤ a) × (slice_index_or candidates.now b (candidate.Place 0) ≡ candidate.Pair i j (a - d)) × IsShift (length quotient.now.parent.ops) (length quotient.now.translations) (dimension_in induced.now.tables) (size_in induced.now.tables) (matrix_in quotient.now induced.now.tables) (i / size_in induced.now.tables) (j / size_in induced.now.tables) d }
{
    let size = induced.rep().size();
    let arms = induced.star().arms();
    if arms <= i / size || arms <= j / size {
        return false;
    }
    match shift_of(quotient, induced, i / size, j / size, a) {
        Some(d) => is_before(candidates, k, d, Candidate::Pair(i, j, a - d)),
        None => false,
    }
}

// Whether the candidate at place k is the multiple of an image of one before it.
pub(crate) fn is_shifted(
    quotient: &Quotient,
    induced: &Induced,
    candidates: &[Candidate],
    k: usize,
) -> bool
    requires of { IsInducedOf quotient.now induced.now }
    requires inside { k < length candidates.now }
    ensures { (result ≡ true) → (b : ℕ) × (b < k) × IsShifted (length quotient.now.parent.ops) (length quotient.now.translations) (dimension_in induced.now.tables) (size_in induced.now.tables) (matrix_in quotient.now induced.now.tables) (slice_index_or candidates.now b (candidate.Place 0)) (slice_index_or candidates.now k (candidate.Place 0)) }
{
    match candidates[k] {
        Candidate::Place(_) => false,
        Candidate::Pair(i, j, a) => { is_shifted_pair(quotient, induced, candidates, k, i, j, a) }
    }
}
