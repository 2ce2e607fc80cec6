// The span of an orbit.
ghost use Rattle.std.specs.Prelude.{◌≡◌, ◌<◌, ◌≤◌, ◌+◌, ◌-◌, ◌*◌, ℕ, true, false, Ok, Err, IfOk, IfSome, IfNone, OnOk, OnErr, length, slice_index_or};
ghost use Rattle.cyclo24.specs.K24.{exact24};
ghost use Rattle.cyclo24.specs.Z24.{exact_z24};
ghost use Rattle.cyclo24.specs.ExactK24.{k24, k24_laws};
ghost use Rattle.cyclo24.specs.ExactZ24.{z24, z24_laws};
ghost use Rattle.lin_alg.specs.Spans.{IsInSpan};
ghost use Rattle.lin_alg.specs.Rows.{vector, exact_rows, HaveWidth};
ghost use Rattle.lin_alg.specs.Solving.{plain_rows};
ghost use Rattle.lin_alg.specs.declared.errors.LinError.TheVariants as lin_error;
ghost use Rattle.lin_alg.specs.declared.echelon.Grew.TheVariants as grew;
ghost use Rattle.super_group.specs.Quotient.{order_of};
ghost use Rattle.induce.specs.Tables.{dimension_in, matrix_in, size_in};
ghost use Rattle.induce.specs.InducedView.{IsInducedOf, star_in};
ghost use Rattle.real_form.specs.Parts.{orbit};
ghost use Rattle.real_form.specs.Complexes.{z24_parts};
ghost use Rattle.real_form.specs.Orbits.{Fits};
ghost use Rattle.real_form.specs.RealBasis.{IsBasisOf};
ghost use Rattle.real_form.specs.Wide.{IsWideOrbit};
ghost use Rattle.real_form.specs.Spanned.{HoldsSpan};
ghost use Rattle.real_form.specs.Sparse.{IsSparse, AreCombined, AreAgain};

use crate::combined::{combined_from, is_marked};
use crate::insertion::insert;
use crate::places::{Places, places_of};
use crate::sparse::form_image;
use cyclo24::{K24, Z24};
use induce::Induced;
use lin_alg::{Echelon, Grew, LinError, zeros};
use std::alloc::Global;
use super_group::Quotient;

// Inserts the image of w under element q into the form of the images before it.
fn insert_image(
    form: &mut Echelon<K24>,
    row: &mut [K24],
    quotient: &Quotient,
    induced: &Induced,
    w: &[Z24],
    places: Option<Places>,
    q: usize,
) -> Result<Grew, LinError>
    requires of { IsInducedOf quotient.now induced.now }
    requires length { length w.now ≡ (dimension_in induced.now.tables) }
    requires sparse { IfSome places (λ p. IsSparse z24_laws (dimension_in induced.now.tables) (vector z24_laws exact_z24 w.now) p.first p.last) }
    requires element { q < order_of quotient.now }
    requires room { length row.old ≡ (dimension_in induced.now.tables) + (dimension_in induced.now.tables) }
    requires held { HoldsSpan k24_laws exact24 ((dimension_in induced.now.tables) + (dimension_in induced.now.tables)) (orbit z24_parts (dimension_in induced.now.tables) (matrix_in quotient.now induced.now.tables) (vector z24_laws exact_z24 w.now)) q form.old }
    ensures held { OnOk result (HoldsSpan k24_laws exact24 ((dimension_in induced.now.tables) + (dimension_in induced.now.tables)) (orbit z24_parts (dimension_in induced.now.tables) (matrix_in quotient.now induced.now.tables) (vector z24_laws exact_z24 w.now)) (q + 1) form.new) }
    ensures member { IfOk result (λ answer. (answer ≡ grew.No) → IsInSpan k24_laws (plain_rows (orbit z24_parts (dimension_in induced.now.tables) (matrix_in quotient.now induced.now.tables) (vector z24_laws exact_z24 w.now)) q) (orbit z24_parts (dimension_in induced.now.tables) (matrix_in quotient.now induced.now.tables) (vector z24_laws exact_z24 w.now) q)) }
    ensures wide { (result ≡ Err lin_error.Wide) → IsWideOrbit (dimension_in induced.now.tables) (order_of quotient.now) (matrix_in quotient.now induced.now.tables) (vector z24_laws exact_z24 w.now) }
{
    match form_image(row, quotient, induced, w, places, q) {
        Ok(()) => {}
        Err(_) => return Err(LinError::Wide),
    }
    match insert(form, row) {
        Ok(answer) => Ok(answer),
        Err(error) => Err(error),
    }
}

// The same for an element behind the first of a block. An image that is marked as a combination of those
// before it isn't formed.
fn insert_other(
    form: &mut Echelon<K24>,
    row: &mut [K24],
    quotient: &Quotient,
    induced: &Induced,
    w: &[Z24],
    places: Option<Places>,
    combined: &[bool],
    from: Option<usize>,
    first: usize,
    q: usize,
) -> Result<Grew, LinError>
    requires of { IsInducedOf quotient.now induced.now }
    requires length { length w.now ≡ (dimension_in induced.now.tables) }
    requires sparse { IfSome places (λ p. IsSparse z24_laws (dimension_in induced.now.tables) (vector z24_laws exact_z24 w.now) p.first p.last) }
    requires element { q < order_of quotient.now }
    requires behind { first ≤ q }
    requires inside { IfSome from (λ k. k + (q - first) < length combined.now) }
    requires again { IfSome from (λ k. slice_index_or combined.now (k + (q - first)) false ≡ true → IsInSpan k24_laws (plain_rows (orbit z24_parts (dimension_in induced.now.tables) (matrix_in quotient.now induced.now.tables) (vector z24_laws exact_z24 w.now)) q) (orbit z24_parts (dimension_in induced.now.tables) (matrix_in quotient.now induced.now.tables) (vector z24_laws exact_z24 w.now) q)) }
    requires room { length row.old ≡ (dimension_in induced.now.tables) + (dimension_in induced.now.tables) }
    requires held { HoldsSpan k24_laws exact24 ((dimension_in induced.now.tables) + (dimension_in induced.now.tables)) (orbit z24_parts (dimension_in induced.now.tables) (matrix_in quotient.now induced.now.tables) (vector z24_laws exact_z24 w.now)) q form.old }
    ensures held { OnOk result (HoldsSpan k24_laws exact24 ((dimension_in induced.now.tables) + (dimension_in induced.now.tables)) (orbit z24_parts (dimension_in induced.now.tables) (matrix_in quotient.now induced.now.tables) (vector z24_laws exact_z24 w.now)) (q + 1) form.new) }
    ensures wide { (result ≡ Err lin_error.Wide) → IsWideOrbit (dimension_in induced.now.tables) (order_of quotient.now) (matrix_in quotient.now induced.now.tables) (vector z24_laws exact_z24 w.now) }
{
    if is_marked(combined, from, q - first) {
        return Ok(Grew::No);
    }
    insert_image(form, row, quotient, induced, w, places, q)
}

// Inserts the images under the elements behind the first of a block, up to its end, and answers no as
// soon as the form has more than n rows.
fn insert_rest(
    form: &mut Echelon<K24>,
    row: &mut [K24],
    quotient: &Quotient,
    induced: &Induced,
    w: &[Z24],
    places: Option<Places>,
    combined: &[bool],
    from: Option<usize>,
    first: usize,
    end: usize,
) -> Result<bool, LinError>
    requires of { IsInducedOf quotient.now induced.now }
    requires length { length w.now ≡ (dimension_in induced.now.tables) }
    requires sparse { IfSome places (λ p. IsSparse z24_laws (dimension_in induced.now.tables) (vector z24_laws exact_z24 w.now) p.first p.last) }
    requires inside { IfSome from (λ k. k + (end - first) ≤ length combined.now) }
    requires again { IfSome from (λ k. AreAgain k24_laws (orbit z24_parts (dimension_in induced.now.tables) (matrix_in quotient.now induced.now.tables) (vector z24_laws exact_z24 w.now)) first (end - first) combined.now k) }
    requires room { length row.old ≡ (dimension_in induced.now.tables) + (dimension_in induced.now.tables) }
    requires some { first < end }
    requires end { end ≤ order_of quotient.now }
    requires held { HoldsSpan k24_laws exact24 ((dimension_in induced.now.tables) + (dimension_in induced.now.tables)) (orbit z24_parts (dimension_in induced.now.tables) (matrix_in quotient.now induced.now.tables) (vector z24_laws exact_z24 w.now)) (first + 1) form.old }
    ensures held { IfOk result (λ few. (few ≡ true) → HoldsSpan k24_laws exact24 ((dimension_in induced.now.tables) + (dimension_in induced.now.tables)) (orbit z24_parts (dimension_in induced.now.tables) (matrix_in quotient.now induced.now.tables) (vector z24_laws exact_z24 w.now)) end form.new) }
    ensures passed { IfOk result (λ few. (few ≡ false) → Fits z24_parts (dimension_in induced.now.tables) (order_of quotient.now) (matrix_in quotient.now induced.now.tables) (vector z24_laws exact_z24 w.now) → ⊥) }
    ensures wide { (result ≡ Err lin_error.Wide) → IsWideOrbit (dimension_in induced.now.tables) (order_of quotient.now) (matrix_in quotient.now induced.now.tables) (vector z24_laws exact_z24 w.now) }
{
    let n = induced.dim();
    for q in first + 1..end {
        if form.len() > n {
            return Ok(false);
        }
        match insert_other(
            form, row, quotient, induced, w, places, combined, from, first, q,
        ) {
            Ok(_) => {}
            Err(error) => return Err(error),
        }
    }
    Ok(true)
}

// Inserts the images under all elements of rotation r, and answers no where the form has more than n
// rows. Where the first is in the span of those before, which the translations keep, so are the others.
fn insert_block(
    form: &mut Echelon<K24>,
    row: &mut [K24],
    quotient: &Quotient,
    induced: &Induced,
    w: &[Z24],
    places: Option<Places>,
    combined: &[bool],
    r: usize,
) -> Result<bool, LinError>
    requires of { IsInducedOf quotient.now induced.now }
    requires length { length w.now ≡ (dimension_in induced.now.tables) }
    requires sparse { IfSome places (λ p. IsSparse z24_laws (dimension_in induced.now.tables) (vector z24_laws exact_z24 w.now) p.first p.last) }
    requires combined { AreCombined (length quotient.now.parent.ops) (length quotient.now.translations) (dimension_in induced.now.tables) (size_in induced.now.tables) (length (star_in induced.now).by) (matrix_in quotient.now induced.now.tables) combined.now (length (star_in induced.now).by * length (star_in induced.now).by * length quotient.now.translations) }
    requires room { length row.old ≡ (dimension_in induced.now.tables) + (dimension_in induced.now.tables) }
    requires rotation { r < length quotient.now.parent.ops }
    requires held { HoldsSpan k24_laws exact24 ((dimension_in induced.now.tables) + (dimension_in induced.now.tables)) (orbit z24_parts (dimension_in induced.now.tables) (matrix_in quotient.now induced.now.tables) (vector z24_laws exact_z24 w.now)) (r * length quotient.now.translations) form.old }
    ensures held { IfOk result (λ few. (few ≡ true) → HoldsSpan k24_laws exact24 ((dimension_in induced.now.tables) + (dimension_in induced.now.tables)) (orbit z24_parts (dimension_in induced.now.tables) (matrix_in quotient.now induced.now.tables) (vector z24_laws exact_z24 w.now)) ((r + 1) * length quotient.now.translations) form.new) }
    ensures passed { IfOk result (λ few. (few ≡ false) → Fits z24_parts (dimension_in induced.now.tables) (order_of quotient.now) (matrix_in quotient.now induced.now.tables) (vector z24_laws exact_z24 w.now) → ⊥) }
    ensures wide { (result ≡ Err lin_error.Wide) → IsWideOrbit (dimension_in induced.now.tables) (order_of quotient.now) (matrix_in quotient.now induced.now.tables) (vector z24_laws exact_z24 w.now) }
{
    let _order = quotient.order();
    if form.len() > induced.dim() {
        return Ok(false);
    }
    let count = quotient.translations().len();
    let first = r * count;
    match insert_image(form, row, quotient, induced, w, places, first) {
        Ok(Grew::No) => Ok(true),
        Ok(Grew::Yes) => {
            let from = combined_from(quotient, induced, w, places, combined, r);
            insert_rest(
                form,
                row,
                quotient,
                induced,
                w,
                places,
                combined,
                from,
                first,
                first + count,
            )
        }
        Err(error) => Err(error),
    }
}

// The reduced form of the span of the orbit of w, where it has n rows.
pub(crate) fn span_of(
    alloc: Global,
    quotient: &Quotient,
    induced: &Induced,
    w: &[Z24],
    combined: &[bool],
) -> Result<Option<Echelon<K24>>, LinError>
    requires of { IsInducedOf quotient.now induced.now }
    requires length { length w.now ≡ (dimension_in induced.now.tables) }
    requires combined { AreCombined (length quotient.now.parent.ops) (length quotient.now.translations) (dimension_in induced.now.tables) (size_in induced.now.tables) (length (star_in induced.now).by) (matrix_in quotient.now induced.now.tables) combined.now (length (star_in induced.now).by * length (star_in induced.now).by * length quotient.now.translations) }
    ensures some { IfOk result (λ answer. IfSome answer (λ form. IsBasisOf (dimension_in induced.now.tables) (order_of quotient.now) (matrix_in quotient.now induced.now.tables) (exact_rows k24_laws exact24 form.rows) (vector z24_laws exact_z24 w.now))) }
    ensures shape { IfOk result (λ answer. IfSome answer (λ form. HaveWidth ((dimension_in induced.now.tables) + (dimension_in induced.now.tables)) form.rows)) }
    ensures none { IfOk result (λ answer. IfNone answer (Fits z24_parts (dimension_in induced.now.tables) (order_of quotient.now) (matrix_in quotient.now induced.now.tables) (vector z24_laws exact_z24 w.now) → ⊥)) }
    ensures wide { (result ≡ Err lin_error.Wide) → IsWideOrbit (dimension_in induced.now.tables) (order_of quotient.now) (matrix_in quotient.now induced.now.tables) (vector z24_laws exact_z24 w.now) }
{
    let n = induced.dim();
    let places = places_of(w);
    let mut form = Echelon::new(alloc, n + n);
    form.reserve(n + 1)?;
    let mut row = zeros(alloc, n + n)?;
    for r in 0..quotient.group().len() {
        match insert_block(
            &mut form, &mut row, quotient, induced, w, places, combined, r,
        ) {
            Ok(true) => {}
            Ok(false) => return Ok(None),
            Err(error) => return Err(error),
        }
    }
    if form.len() == n {
        Ok(Some(form))
    } else {
        Ok(None)
    }
}
