// The first vector that fits.
ghost use Rattle.std.specs.Prelude.{◌≡◌, ◌+◌, ◌*◌, ◌<◌, map, take, Some, Err, IfOk, IfSome, IfNone, length, slice_index_or};
ghost use Rattle.std.specs.Option.{option_copied, ForSome};
ghost use Rattle.cyclo24.specs.K24.{exact24};
ghost use Rattle.cyclo24.specs.ExactK24.{k24_laws};
ghost use Rattle.lin_alg.specs.Rows.{exact_rows, HaveWidth};
ghost use Rattle.lin_alg.specs.declared.errors.LinError.TheVariants as lin_error;
ghost use Rattle.super_group.specs.Quotient.{order_of};
ghost use Rattle.induce.specs.Tables.{dimension_in, matrix_in, size_in};
ghost use Rattle.induce.specs.InducedView.{IsInducedOf, star_in};
ghost use Rattle.real_form.specs.Orbits.{FirstOf, NoneOf};
ghost use Rattle.real_form.specs.RealBasis.{IsBasisOf, FitsNot, IsWideSpans};
ghost use Rattle.real_form.specs.Wide.{IsWideOrbit};
ghost use Rattle.real_form.specs.declared.candidate.Candidate.TheVariants as candidate;
ghost use Rattle.real_form.specs.Candidates.{candidate_vector, candidates_of, tried, ArePowers};
ghost use Rattle.real_form.specs.Sparse.{AreCombined};

use crate::candidate::{Candidate, candidate_row};
use crate::candidates::candidates;
use crate::combined::combined;
use crate::shifts::is_shifted;
use crate::span::span_of;
use cyclo24::{K24, Z24};
use induce::Induced;
use lin_alg::{Echelon, LinError};
use std::alloc::Global;
use super_group::Quotient;

// The form of the span of the orbit of the first vector that fits: the given one alone is tried, or
// each candidate.
pub(crate) fn fitting_form(
    alloc: Global,
    quotient: &Quotient,
    induced: &Induced,
    given: Option<&[Z24]>,
) -> Result<Option<Echelon<K24>>, LinError>
    requires of { IsInducedOf quotient.now induced.now }
    requires given { ForSome given (λ w. length w.now ≡ (dimension_in induced.now.tables)) }
    ensures some { IfOk result (λ answer. IfSome answer (λ form. FirstOf (IsBasisOf (dimension_in induced.now.tables) (order_of quotient.now) (matrix_in quotient.now induced.now.tables) (exact_rows k24_laws exact24 form.rows)) (FitsNot (dimension_in induced.now.tables) (order_of quotient.now) (matrix_in quotient.now induced.now.tables)) (tried (dimension_in induced.now.tables) (option_copied given.entry)))) }
    ensures shape { IfOk result (λ answer. IfSome answer (λ form. HaveWidth ((dimension_in induced.now.tables) + (dimension_in induced.now.tables)) form.rows)) }
    ensures none { IfOk result (λ answer. IfNone answer (NoneOf (FitsNot (dimension_in induced.now.tables) (order_of quotient.now) (matrix_in quotient.now induced.now.tables)) (tried (dimension_in induced.now.tables) (option_copied given.entry)))) }
    ensures wide { (result ≡ Err lin_error.Wide) → IsWideSpans (dimension_in induced.now.tables) (order_of quotient.now) (matrix_in quotient.now induced.now.tables) (tried (dimension_in induced.now.tables) (option_copied given.entry)) }
{
    match given {
        Some(w) => given_form(alloc, quotient, induced, w),
        None => candidate_form(alloc, quotient, induced),
    }
}

// The same for a given vector.
fn given_form(
    alloc: Global,
    quotient: &Quotient,
    induced: &Induced,
    w: &[Z24],
) -> Result<Option<Echelon<K24>>, LinError>
    requires of { IsInducedOf quotient.now induced.now }
    requires length { length w.now ≡ (dimension_in induced.now.tables) }
    ensures some { IfOk result (λ answer. IfSome answer (λ form. FirstOf (IsBasisOf (dimension_in induced.now.tables) (order_of quotient.now) (matrix_in quotient.now induced.now.tables) (exact_rows k24_laws exact24 form.rows)) (FitsNot (dimension_in induced.now.tables) (order_of quotient.now) (matrix_in quotient.now induced.now.tables)) (tried (dimension_in induced.now.tables) (Some w.now)))) }
    ensures shape { IfOk result (λ answer. IfSome answer (λ form. HaveWidth ((dimension_in induced.now.tables) + (dimension_in induced.now.tables)) form.rows)) }
    ensures none { IfOk result (λ answer. IfNone answer (NoneOf (FitsNot (dimension_in induced.now.tables) (order_of quotient.now) (matrix_in quotient.now induced.now.tables)) (tried (dimension_in induced.now.tables) (Some w.now)))) }
    ensures wide { (result ≡ Err lin_error.Wide) → IsWideSpans (dimension_in induced.now.tables) (order_of quotient.now) (matrix_in quotient.now induced.now.tables) (tried (dimension_in induced.now.tables) (Some w.now)) }
{
    let combined = combined(alloc, quotient, induced)?;
    span_of(alloc, quotient, induced, w, &combined)
}

// The same for the candidates.
fn candidate_form(
    alloc: Global,
    quotient: &Quotient,
    induced: &Induced,
) -> Result<Option<Echelon<K24>>, LinError>
    requires of { IsInducedOf quotient.now induced.now }
    ensures some { IfOk result (λ answer. IfSome answer (λ form. FirstOf (IsBasisOf (dimension_in induced.now.tables) (order_of quotient.now) (matrix_in quotient.now induced.now.tables) (exact_rows k24_laws exact24 form.rows)) (FitsNot (dimension_in induced.now.tables) (order_of quotient.now) (matrix_in quotient.now induced.now.tables)) (map (candidate_vector (dimension_in induced.now.tables)) (candidates_of (dimension_in induced.now.tables))))) }
    ensures shape { IfOk result (λ answer. IfSome answer (λ form. HaveWidth ((dimension_in induced.now.tables) + (dimension_in induced.now.tables)) form.rows)) }
    ensures none { IfOk result (λ answer. IfNone answer (NoneOf (FitsNot (dimension_in induced.now.tables) (order_of quotient.now) (matrix_in quotient.now induced.now.tables)) (map (candidate_vector (dimension_in induced.now.tables)) (candidates_of (dimension_in induced.now.tables))))) }
    ensures wide { (result ≡ Err lin_error.Wide) → IsWideSpans (dimension_in induced.now.tables) (order_of quotient.now) (matrix_in quotient.now induced.now.tables) (map (candidate_vector (dimension_in induced.now.tables)) (candidates_of (dimension_in induced.now.tables))) }
{
    let all = candidates(alloc, induced.dim())?;
    let combined = combined(alloc, quotient, induced)?;
    first_form(alloc, quotient, induced, &all, &combined)
}

// The form of the span of the orbit of the candidate at place k, where none before it fits. That of a
// multiple of an image of one before it isn't formed.
fn tried_form(
    alloc: Global,
    quotient: &Quotient,
    induced: &Induced,
    candidates: &[Candidate],
    combined: &[bool],
    k: usize,
) -> Result<Option<Echelon<K24>>, LinError>
    requires of { IsInducedOf quotient.now induced.now }
    requires combined { AreCombined (length quotient.now.parent.ops) (length quotient.now.translations) (dimension_in induced.now.tables) (size_in induced.now.tables) (length (star_in induced.now).by) (matrix_in quotient.now induced.now.tables) combined.now (length (star_in induced.now).by * length (star_in induced.now).by * length quotient.now.translations) }
    requires powers { ArePowers candidates.now }
    requires inside { k < length candidates.now }
    requires before { NoneOf (FitsNot (dimension_in induced.now.tables) (order_of quotient.now) (matrix_in quotient.now induced.now.tables)) (map (candidate_vector (dimension_in induced.now.tables)) (take k candidates.now)) }
    ensures some { IfOk result (λ answer. IfSome answer (λ form. IsBasisOf (dimension_in induced.now.tables) (order_of quotient.now) (matrix_in quotient.now induced.now.tables) (exact_rows k24_laws exact24 form.rows) (candidate_vector (dimension_in induced.now.tables) (slice_index_or candidates.now k (candidate.Place 0))))) }
    ensures shape { IfOk result (λ answer. IfSome answer (λ form. HaveWidth ((dimension_in induced.now.tables) + (dimension_in induced.now.tables)) form.rows)) }
    ensures none { IfOk result (λ answer. IfNone answer (FitsNot (dimension_in induced.now.tables) (order_of quotient.now) (matrix_in quotient.now induced.now.tables) (candidate_vector (dimension_in induced.now.tables) (slice_index_or candidates.now k (candidate.Place 0))))) }
    ensures wide { (result ≡ Err lin_error.Wide) → IsWideOrbit (dimension_in induced.now.tables) (order_of quotient.now) (matrix_in quotient.now induced.now.tables) (candidate_vector (dimension_in induced.now.tables) (slice_index_or candidates.now k (candidate.Place 0))) }
{
    let _order = quotient.order();
    let _size = induced.rep().size();
    let n = induced.dim();
    if is_shifted(quotient, induced, candidates, k) {
        return Ok(None);
    }
    let row = candidate_row(alloc, candidates[k], n)?;
    span_of(alloc, quotient, induced, &row, combined)
}

// The form of the span of the orbit of the first candidate that fits.
fn first_form(
    alloc: Global,
    quotient: &Quotient,
    induced: &Induced,
    candidates: &[Candidate],
    combined: &[bool],
) -> Result<Option<Echelon<K24>>, LinError>
    requires of { IsInducedOf quotient.now induced.now }
    requires combined { AreCombined (length quotient.now.parent.ops) (length quotient.now.translations) (dimension_in induced.now.tables) (size_in induced.now.tables) (length (star_in induced.now).by) (matrix_in quotient.now induced.now.tables) combined.now (length (star_in induced.now).by * length (star_in induced.now).by * length quotient.now.translations) }
    requires powers { ArePowers candidates.now }
    ensures some { IfOk result (λ answer. IfSome answer (λ form. FirstOf (IsBasisOf (dimension_in induced.now.tables) (order_of quotient.now) (matrix_in quotient.now induced.now.tables) (exact_rows k24_laws exact24 form.rows)) (FitsNot (dimension_in induced.now.tables) (order_of quotient.now) (matrix_in quotient.now induced.now.tables)) (map (candidate_vector (dimension_in induced.now.tables)) candidates.now))) }
    ensures shape { IfOk result (λ answer. IfSome answer (λ form. HaveWidth ((dimension_in induced.now.tables) + (dimension_in induced.now.tables)) form.rows)) }
    ensures none { IfOk result (λ answer. IfNone answer (NoneOf (FitsNot (dimension_in induced.now.tables) (order_of quotient.now) (matrix_in quotient.now induced.now.tables)) (map (candidate_vector (dimension_in induced.now.tables)) candidates.now))) }
    ensures wide { (result ≡ Err lin_error.Wide) → IsWideSpans (dimension_in induced.now.tables) (order_of quotient.now) (matrix_in quotient.now induced.now.tables) (map (candidate_vector (dimension_in induced.now.tables)) candidates.now) }
{
    for k in 0..candidates.len() {
        match tried_form(alloc, quotient, induced, candidates, combined, k) {
            Ok(Some(form)) => return Ok(Some(form)),
            Ok(None) => {}
            Err(error) => return Err(error),
        }
    }
    Ok(None)
}
