// Translations whose images of a vector on two arms are combinations of those under earlier ones.
ghost use Rattle.std.specs.Prelude.{◌≡◌, ◌<◌, ◌≤◌, ◌+◌, ◌*◌, ◌/◌, ◌%◌, ℕ, true, false, Some, IfOk, OnOk, IfSome, length, slice_index, slice_index_or};
ghost use Rattle.cyclo24.specs.K24.{exact24};
ghost use Rattle.cyclo24.specs.Z24.{exact_z24};
ghost use Rattle.cyclo24.specs.ExactK24.{Exact24, k24_laws};
ghost use Rattle.cyclo24.specs.ExactZ24.{z24_laws};
ghost use Rattle.lin_alg.specs.Rows.{vector};
ghost use Rattle.lin_alg.specs.Spans.{IsInSpan};
ghost use Rattle.lin_alg.specs.Solving.{plain_rows};
ghost use Rattle.induce.specs.Tables.{dimension_in, matrix_in, size_in};
ghost use Rattle.induce.specs.InducedView.{IsInducedOf, star_in};
ghost use Rattle.real_form.specs.Parts.{orbit};
ghost use Rattle.real_form.specs.Complexes.{z24_parts};
ghost use Rattle.real_form.specs.Sparse.{IsSparse, ArePhases, pair_rows, AreCombined, AreAgain};
ghost use Rattle.real_form.specs.Spanned.{HoldsPart};

use crate::phases::{PHASE_WIDTH, insert_phases};
use crate::places::Places;
use cyclo24::{K24, Z24};
use induce::Induced;
use iso_text::NoMemory;
use lin_alg::{Echelon, Grew, LinError, zeros};
use std::alloc::Global;
use super_group::Quotient;

// The phases of the translations of the supercell on the arms, arm by arm.
fn phases_of(alloc: Global, quotient: &Quotient, induced: &Induced) -> Result<Vec<u8>, NoMemory>
    requires of { IsInducedOf quotient.now induced.now }
    ensures { IfOk result (λ xs. ArePhases (length quotient.now.parent.ops) (length quotient.now.translations) (dimension_in induced.now.tables) (size_in induced.now.tables) (matrix_in quotient.now induced.now.tables) xs.items (length (star_in induced.now).by * length quotient.now.translations)) }
{
    let _order = quotient.order();
    let count = quotient.translations().len();
    let mut phases: Vec<u8> = Vec::new(alloc);
    for d in 0..induced.star().arms() * count {
        match phases.push(induced.phase(quotient, d % count, d / count)) {
            Ok(()) => {}
            Err(_) => return Err(NoMemory),
        }
    }
    Ok(phases)
}

// Whether a translation before t has the phases of t on arms j and k.
fn is_repeated(phases: &[u8], count: usize, j: usize, k: usize, t: usize) -> bool
    requires first { j * count + count ≤ length phases.now }
    requires second { k * count + count ≤ length phases.now }
    requires translation { t < count }
    ensures { (result ≡ true) → (b : ℕ) × (b < t) × (slice_index phases.now (j * count + b) ≡ slice_index phases.now (j * count + t)) × (slice_index phases.now (k * count + b) ≡ slice_index phases.now (k * count + t)) }
{
    let first = j * count;
    let second = k * count;
    for b in 0..t {
        if phases[first + b] == phases[first + t] && phases[second + b] == phases[second + t] {
            return true;
        }
    }
    false
}

// Whether the phases of translation t on arms j and k are a real combination of those of earlier ones,
// of which the form holds some. New ones are inserted; where a number is too wide the form is emptied, and
// later translations are told new that needn't be.
fn is_combined(
    form: &mut Echelon<K24>,
    row: &mut [K24],
    phases: &[u8],
    count: usize,
    j: usize,
    k: usize,
    t: usize,
) -> Result<bool, NoMemory>
    requires first { j * count + count ≤ length phases.now }
    requires second { k * count + count ≤ length phases.now }
    requires translation { t < count }
    requires below { (d : ℕ) → d < length phases.now → slice_index phases.now d < 24 }
    requires room { length row.old ≡ 4 }
    requires held { HoldsPart k24_laws exact24 4 (pair_rows phases.now count j k) t form.old }
    ensures held { OnOk result (HoldsPart k24_laws exact24 4 (pair_rows phases.now count j k) (t + 1) form.new) }
    ensures combined { IfOk result (λ b. (b ≡ true) → IsInSpan k24_laws (plain_rows (pair_rows phases.now count j k) t) (pair_rows phases.now count j k t)) }
{
    if is_repeated(phases, count, j, k, t) {
        return Ok(true);
    }
    match insert_phases(form, row, phases[j * count + t], phases[k * count + t]) {
        Ok(Grew::No) => Ok(true),
        Ok(Grew::Yes) => Ok(false),
        Err(LinError::Wide) => {
            form.clear(PHASE_WIDTH);
            Ok(false)
        }
        Err(LinError::NoMemory) => Err(NoMemory),
    }
}

// Empties the form before the first translation of a pair.
fn start_pair(form: &mut Echelon<K24>, t: usize)
    ensures { (a : ℕ → ℕ → Exact24) → ((0 < t) → HoldsPart k24_laws exact24 4 a t form.old) → HoldsPart k24_laws exact24 4 a t form.new }
{
    if t == 0 {
        form.clear(PHASE_WIDTH);
    }
}

// Which translations' phases on the arms of a pair are a real combination of those of earlier ones, pair
// by pair of all arms.
pub(crate) fn combined(
    alloc: Global,
    quotient: &Quotient,
    induced: &Induced,
) -> Result<Vec<bool>, NoMemory>
    requires of { IsInducedOf quotient.now induced.now }
    ensures { IfOk result (λ xs. AreCombined (length quotient.now.parent.ops) (length quotient.now.translations) (dimension_in induced.now.tables) (size_in induced.now.tables) (length (star_in induced.now).by) (matrix_in quotient.now induced.now.tables) xs.items (length (star_in induced.now).by * length (star_in induced.now).by * length quotient.now.translations)) }
{
    let phases = phases_of(alloc, quotient, induced)?;
    let _order = quotient.order();
    let count = quotient.translations().len();
    let arms = induced.star().arms();
    let _size = induced.rep().size();
    let mut form = Echelon::new(alloc, PHASE_WIDTH);
    let mut row = zeros(alloc, PHASE_WIDTH)?;
    let mut combined: Vec<bool> = Vec::new(alloc);
    for d in 0..arms * arms * count {
        let pair = d / count;
        start_pair(&mut form, d % count);
        let mark = is_combined(
            &mut form,
            &mut row,
            &phases,
            count,
            pair / arms,
            pair % arms,
            d % count,
        )?;
        match combined.push(mark) {
            Ok(()) => {}
            Err(_) => return Err(NoMemory),
        }
    }
    Ok(combined)
}

// Where those of the arms stand to which rotation r moves the arms of the places: each image of w under
// a translation that is marked there is a combination of those under earlier elements.
pub(crate) fn combined_from(
    quotient: &Quotient,
    induced: &Induced,
    w: &[Z24],
    places: Option<Places>,
    combined: &[bool],
    r: usize,
) -> Option<usize>
    requires of { IsInducedOf quotient.now induced.now }
    requires length { length w.now ≡ (dimension_in induced.now.tables) }
    requires sparse { IfSome places (λ p. IsSparse z24_laws (dimension_in induced.now.tables) (vector z24_laws exact_z24 w.now) p.first p.last) }
    requires combined { AreCombined (length quotient.now.parent.ops) (length quotient.now.translations) (dimension_in induced.now.tables) (size_in induced.now.tables) (length (star_in induced.now).by) (matrix_in quotient.now induced.now.tables) combined.now (length (star_in induced.now).by * length (star_in induced.now).by * length quotient.now.translations) }
    requires rotation { r < length quotient.now.parent.ops }
    ensures inside { IfSome result (λ k. k + length quotient.now.translations ≤ length combined.now) }
    ensures again { IfSome result (λ k. AreAgain k24_laws (orbit z24_parts (dimension_in induced.now.tables) (matrix_in quotient.now induced.now.tables) (vector z24_laws exact_z24 w.now)) (r * length quotient.now.translations) (length quotient.now.translations) combined.now k) }
{
    match places {
        Some(places) => Some(pair_from(quotient, induced, w, places, combined, r)),
        None => None,
    }
}

// The same for the places.
fn pair_from(
    quotient: &Quotient,
    induced: &Induced,
    w: &[Z24],
    places: Places,
    combined: &[bool],
    r: usize,
) -> usize
    requires of { IsInducedOf quotient.now induced.now }
    requires length { length w.now ≡ (dimension_in induced.now.tables) }
    requires sparse { IsSparse z24_laws (dimension_in induced.now.tables) (vector z24_laws exact_z24 w.now) places.first places.last }
    requires combined { AreCombined (length quotient.now.parent.ops) (length quotient.now.translations) (dimension_in induced.now.tables) (size_in induced.now.tables) (length (star_in induced.now).by) (matrix_in quotient.now induced.now.tables) combined.now (length (star_in induced.now).by * length (star_in induced.now).by * length quotient.now.translations) }
    requires rotation { r < length quotient.now.parent.ops }
    ensures inside { result + length quotient.now.translations ≤ length combined.now }
    ensures again { AreAgain k24_laws (orbit z24_parts (dimension_in induced.now.tables) (matrix_in quotient.now induced.now.tables) (vector z24_laws exact_z24 w.now)) (r * length quotient.now.translations) (length quotient.now.translations) combined.now result }
{
    let _order = quotient.order();
    let count = quotient.translations().len();
    let arms = induced.star().arms();
    let size = induced.rep().size();
    let element = r * count;
    let arm = induced.moved(quotient, element, places.first / size);
    let other = induced.moved(quotient, element, places.last / size);
    (arm * arms + other) * count
}

// Whether a translation is marked.
pub(crate) fn is_marked(combined: &[bool], from: Option<usize>, t: usize) -> bool
    requires { IfSome from (λ k. k + t < length combined.now) }
    ensures { (result ≡ true) → (k : ℕ) × (from ≡ Some k) × (slice_index_or combined.now (k + t) false ≡ true) }
{
    match from {
        Some(from) => combined[from + t],
        None => false,
    }
}
