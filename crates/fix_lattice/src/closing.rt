// The fixed subspaces of an action: what single elements fix, and then, class by class, what these
// have in common.
ghost use Rattle.std.specs.Prelude.{◌≡◌, ◌<◌, ◌≤◌, ◌+◌, ◌*◌, ◌⊎◌, [], ℕ, true, false, Err, IfOk, OnOk, length, map, min, get_or};
ghost use Rattle.lin_alg.specs.Action.{Action};
ghost use Rattle.fix_lattice.specs.declared.errors.CloseError.TheVariants as close_error;
ghost use Rattle.fix_lattice.specs.Subspaces.{AreHeld, exact_forms};
ghost use Rattle.fix_lattice.specs.Held.{IsGrown};
ghost use Rattle.fix_lattice.specs.Cuts.{cut_count, AreFewCuts};
ghost use Rattle.fix_lattice.specs.Classes.{IsClosing, IsClassClosed, IsReached, AreImages, AreCovered};
ghost use Rattle.fix_lattice.specs.Lattice.{HoldsFixes, AreMoreFixes, AreMoreSingles, HasEachStabiliser, AreStabilisers};
ghost use Rattle.fix_lattice.specs.Wide.{IsWideFixes};

use crate::classes::reach;
use crate::images::{close_images, row_in};
use crate::memory::push;
use crate::singles::{Singles, hold_singles};
use crate::tables::{Given, Tables, cut_each};
use crate::{CloseError, Form, Subspaces};
use cyclo24::Field;
use indexmap::IndexSet;
use iso_text::NoMemory;
use lin_alg::{Acts, Echelon, Steps, zeros};
use std::alloc::Global;
use std::sync::ledger::Ledger;

/// The equations of each distinct Fix(H), H any list of elements, once. `TooManySubspaces` comes
/// exactly where there are more than `limit`. A step is one insertion of a row: there are at most
/// dim (|Q| + S F) for S distinct fixed subspaces, or one more than the limit where that is less,
/// and F distinct Fix(q) of single elements.
///
/// One subspace of each class is cut with each Fix(q); the others, and their cuts, are images. The
/// image of what U and Fix(q) have in common is what the image of U and Fix(p q p^-1) have.
pub fn close<F: Field, G: Acts<F>, L: Ledger>(
    alloc: Global,
    acts: &G,
    limit: usize,
    steps: &mut Steps<L>,
) -> Result<Subspaces<F>, CloseError>
    requires some { 0 < limit }
    requires limit { limit ≤ 16384 }
    requires dim { (G.action acts.now).dim ≤ 24 }
    requires order { (G.action acts.now).group.order ≤ 16384 }
    ensures width { IfOk result (λ s. s.width ≡ (G.action acts.now).dim) }
    ensures holds { IfOk result (λ s. HoldsFixes F.field.laws (G.action acts.now) (exact_forms F.field.laws F.value s.forms)) }
    ensures vectors { IfOk result (λ s. HasEachStabiliser F.field.laws (G.action acts.now) (exact_forms F.field.laws F.value s.forms)) }
    ensures spaces { IfOk result (λ s. AreStabilisers F.field.laws (G.action acts.now) (exact_forms F.field.laws F.value s.forms)) }
    ensures few { OnOk result (AreMoreFixes F.field.laws (G.action acts.now) limit → ⊥) }
    ensures many { (result ≡ Err close_error.TooManySubspaces) → AreMoreFixes F.field.laws (G.action acts.now) limit }
    ensures wide { (result ≡ Err close_error.Wide) → G.wide acts.now ⊎ IsWideFixes F.field (G.action acts.now) }
    ensures cost { (s d : ℕ) → (AreMoreFixes F.field.laws (G.action acts.now) s → ⊥) → (AreMoreSingles F.field.laws (G.action acts.now) d → ⊥) → steps.new ≤ steps.old + (G.action acts.now).dim * ((G.action acts.now).group.order + min s (limit + 1) * d) }
{
    let dim = acts.dim();
    let mut row = zeros(alloc, dim)?;
    let mut tables = Tables {
        scratch: Echelon::new(alloc, dim),
        held: IndexSet::new(alloc),
        cuts: Vec::new(alloc),
        sources: Vec::new(alloc),
    };
    let mut singles = Singles {
        places: Vec::new(alloc),
        elements: Vec::new(alloc),
    };
    hold_singles(
        acts,
        &mut tables.held,
        &mut singles,
        &mut tables.scratch,
        &mut row,
        limit,
        steps,
    )?;
    let given = Given {
        alloc,
        acts,
        singles: &singles,
        limit,
    };
    close_over(&given, &mut tables, &mut row, steps)?;
    Ok(Subspaces::new(dim, tables.held))
}

// Cuts one form of each class with each Fix(q) and finds the images of all, until none is new.
fn close_over<F: Field, G: Acts<F>, L: Ledger>(
    given: &Given<G>,
    tables: &mut Tables<F>,
    row: &mut [F],
    steps: &mut Steps<L>,
) -> Result<(), CloseError>
    requires small { given.now.limit ≤ 16384 }
    requires held { AreHeld F.field.laws F.value F.PartialEq.eq (G.action given.now.acts.now).dim tables.old.held.keys }
    requires closing { IsClosing F.field.laws (G.action given.now.acts.now) (exact_forms F.field.laws F.value tables.old.held.keys) given.now.singles.now.places.items given.now.singles.now.elements.items (map (λ r. r.items) tables.old.cuts.items) tables.old.sources.items }
    requires within { length tables.old.held.keys ≤ given.now.limit }
    requires room { length row.old ≡ (G.action given.now.acts.now).dim }
    ensures held { AreHeld F.field.laws F.value F.PartialEq.eq (G.action given.now.acts.now).dim tables.new.held.keys }
    ensures closed { OnOk result (IsClassClosed F.field.laws (G.action given.now.acts.now) (exact_forms F.field.laws F.value tables.new.held.keys)) }
    ensures within { OnOk result (length tables.new.held.keys ≤ given.now.limit) }
    ensures many { (result ≡ Err close_error.TooManySubspaces) → AreMoreFixes F.field.laws (G.action given.now.acts.now) given.now.limit }
    ensures wide { (result ≡ Err close_error.Wide) → IsWideFixes F.field (G.action given.now.acts.now) }
    ensures few { AreFewCuts F.field.laws (G.action given.now.acts.now) given.now.limit (length given.now.singles.now.elements.items) (map (λ r. r.items) tables.new.cuts.items) }
    ensures cost { steps.new + (G.action given.now.acts.now).dim * cut_count (map (λ r. r.items) tables.old.cuts.items) ≤ steps.old + (G.action given.now.acts.now).dim * cut_count (map (λ r. r.items) tables.new.cuts.items) }
{
    let mut images = Vec::new(given.alloc);
    let mut covered = marks(given.alloc, given.limit)?;
    close_images(given, tables, &mut images, row, steps)?;
    close_classes(given, tables, &mut images, &mut covered, row, steps)?;
    Ok(())
}

// No marks.
fn marks(alloc: Global, len: usize) -> Result<Vec<bool>, NoMemory>
    ensures len { IfOk result (λ v. length v.items ≡ len) }
    ensures none { IfOk result (λ v. (i : ℕ) → get_or v.items i false ≡ true → ⊥) }
{
    let mut covered = Vec::new(alloc);
    match covered.resize(len, false) {
        Ok(()) => Ok(covered),
        Err(_) => Err(NoMemory),
    }
}

// Closes the class of each form, until none is new.
fn close_classes<F: Field, G: Acts<F>, L: Ledger>(
    given: &Given<G>,
    tables: &mut Tables<F>,
    images: &mut Vec<Vec<usize>>,
    covered: &mut [bool],
    row: &mut [F],
    steps: &mut Steps<L>,
) -> Result<(), CloseError>
    requires small { given.now.limit ≤ 16384 }
    requires held { AreHeld F.field.laws F.value F.PartialEq.eq (G.action given.now.acts.now).dim tables.old.held.keys }
    requires closing { IsClosing F.field.laws (G.action given.now.acts.now) (exact_forms F.field.laws F.value tables.old.held.keys) given.now.singles.now.places.items given.now.singles.now.elements.items (map (λ r. r.items) tables.old.cuts.items) tables.old.sources.items }
    requires images { AreImages F.field.laws (G.action given.now.acts.now) (exact_forms F.field.laws F.value tables.old.held.keys) (map (λ r. r.items) images.old.items) }
    requires all { length images.old.items ≡ length tables.old.held.keys }
    requires covered { AreCovered F.field.laws (G.action given.now.acts.now) (exact_forms F.field.laws F.value tables.old.held.keys) covered.old }
    requires marks { length covered.old ≡ given.now.limit }
    requires within { length tables.old.held.keys ≤ given.now.limit }
    requires room { length row.old ≡ (G.action given.now.acts.now).dim }
    ensures held { AreHeld F.field.laws F.value F.PartialEq.eq (G.action given.now.acts.now).dim tables.new.held.keys }
    ensures closed { OnOk result (IsClassClosed F.field.laws (G.action given.now.acts.now) (exact_forms F.field.laws F.value tables.new.held.keys)) }
    ensures within { OnOk result (length tables.new.held.keys ≤ given.now.limit) }
    ensures many { (result ≡ Err close_error.TooManySubspaces) → AreMoreFixes F.field.laws (G.action given.now.acts.now) given.now.limit }
    ensures wide { (result ≡ Err close_error.Wide) → IsWideFixes F.field (G.action given.now.acts.now) }
    ensures few { AreFewCuts F.field.laws (G.action given.now.acts.now) given.now.limit (length given.now.singles.now.elements.items) (map (λ r. r.items) tables.new.cuts.items) }
    ensures cost { steps.new + (G.action given.now.acts.now).dim * cut_count (map (λ r. r.items) tables.old.cuts.items) ≤ steps.old + (G.action given.now.acts.now).dim * cut_count (map (λ r. r.items) tables.new.cuts.items) }
{
    for at in 0..given.limit {
        if at >= tables.held.len() {
            return Ok(());
        }
        visit(given, tables, images, covered, at, row, steps)?;
    }
    Ok(())
}

// Closes the class of a form that isn't marked.
fn visit<F: Field, G: Acts<F>, L: Ledger>(
    given: &Given<G>,
    tables: &mut Tables<F>,
    images: &mut Vec<Vec<usize>>,
    covered: &mut [bool],
    at: usize,
    row: &mut [F],
    steps: &mut Steps<L>,
) -> Result<(), CloseError>
    requires small { given.now.limit ≤ 16384 }
    requires there { at < length tables.old.held.keys }
    requires held { AreHeld F.field.laws F.value F.PartialEq.eq (G.action given.now.acts.now).dim tables.old.held.keys }
    requires closing { IsClosing F.field.laws (G.action given.now.acts.now) (exact_forms F.field.laws F.value tables.old.held.keys) given.now.singles.now.places.items given.now.singles.now.elements.items (map (λ r. r.items) tables.old.cuts.items) tables.old.sources.items }
    requires images { AreImages F.field.laws (G.action given.now.acts.now) (exact_forms F.field.laws F.value tables.old.held.keys) (map (λ r. r.items) images.old.items) }
    requires all { length images.old.items ≡ length tables.old.held.keys }
    requires covered { AreCovered F.field.laws (G.action given.now.acts.now) (exact_forms F.field.laws F.value tables.old.held.keys) covered.old }
    requires marks { length covered.old ≡ given.now.limit }
    requires within { length tables.old.held.keys ≤ given.now.limit }
    requires room { length row.old ≡ (G.action given.now.acts.now).dim }
    ensures held { AreHeld F.field.laws F.value F.PartialEq.eq (G.action given.now.acts.now).dim tables.new.held.keys }
    ensures closing { OnOk result (IsClosing F.field.laws (G.action given.now.acts.now) (exact_forms F.field.laws F.value tables.new.held.keys) given.now.singles.now.places.items given.now.singles.now.elements.items (map (λ r. r.items) tables.new.cuts.items) tables.new.sources.items) }
    ensures grown { OnOk result (IsGrown (exact_forms F.field.laws F.value tables.old.held.keys) (exact_forms F.field.laws F.value tables.new.held.keys)) }
    ensures images { OnOk result (AreImages F.field.laws (G.action given.now.acts.now) (exact_forms F.field.laws F.value tables.new.held.keys) (map (λ r. r.items) images.new.items)) }
    ensures all { OnOk result (length images.new.items ≡ length tables.new.held.keys) }
    ensures covered { OnOk result (AreCovered F.field.laws (G.action given.now.acts.now) (exact_forms F.field.laws F.value tables.new.held.keys) covered.new) }
    ensures reached { OnOk result (IsReached F.field.laws (G.action given.now.acts.now) (exact_forms F.field.laws F.value tables.new.held.keys) at) }
    ensures within { OnOk result (length tables.new.held.keys ≤ given.now.limit) }
    ensures many { (result ≡ Err close_error.TooManySubspaces) → AreMoreFixes F.field.laws (G.action given.now.acts.now) given.now.limit }
    ensures wide { (result ≡ Err close_error.Wide) → IsWideFixes F.field (G.action given.now.acts.now) }
    ensures few { AreFewCuts F.field.laws (G.action given.now.acts.now) given.now.limit (length given.now.singles.now.elements.items) (map (λ r. r.items) tables.new.cuts.items) }
    ensures cost { steps.new + (G.action given.now.acts.now).dim * cut_count (map (λ r. r.items) tables.old.cuts.items) ≤ steps.old + (G.action given.now.acts.now).dim * cut_count (map (λ r. r.items) tables.new.cuts.items) }
{
    if covered[at] {
        return Ok(());
    }
    close_class(given, tables, images, covered, at, row, steps)
}

// Cuts a form with each Fix(q), finds the images of what is new, and marks the form's class.
fn close_class<F: Field, G: Acts<F>, L: Ledger>(
    given: &Given<G>,
    tables: &mut Tables<F>,
    images: &mut Vec<Vec<usize>>,
    covered: &mut [bool],
    at: usize,
    row: &mut [F],
    steps: &mut Steps<L>,
) -> Result<(), CloseError>
    requires small { given.now.limit ≤ 16384 }
    requires there { at < length tables.old.held.keys }
    requires held { AreHeld F.field.laws F.value F.PartialEq.eq (G.action given.now.acts.now).dim tables.old.held.keys }
    requires closing { IsClosing F.field.laws (G.action given.now.acts.now) (exact_forms F.field.laws F.value tables.old.held.keys) given.now.singles.now.places.items given.now.singles.now.elements.items (map (λ r. r.items) tables.old.cuts.items) tables.old.sources.items }
    requires images { AreImages F.field.laws (G.action given.now.acts.now) (exact_forms F.field.laws F.value tables.old.held.keys) (map (λ r. r.items) images.old.items) }
    requires all { length images.old.items ≡ length tables.old.held.keys }
    requires covered { AreCovered F.field.laws (G.action given.now.acts.now) (exact_forms F.field.laws F.value tables.old.held.keys) covered.old }
    requires marks { length covered.old ≡ given.now.limit }
    requires within { length tables.old.held.keys ≤ given.now.limit }
    requires room { length row.old ≡ (G.action given.now.acts.now).dim }
    ensures held { AreHeld F.field.laws F.value F.PartialEq.eq (G.action given.now.acts.now).dim tables.new.held.keys }
    ensures closing { OnOk result (IsClosing F.field.laws (G.action given.now.acts.now) (exact_forms F.field.laws F.value tables.new.held.keys) given.now.singles.now.places.items given.now.singles.now.elements.items (map (λ r. r.items) tables.new.cuts.items) tables.new.sources.items) }
    ensures grown { OnOk result (IsGrown (exact_forms F.field.laws F.value tables.old.held.keys) (exact_forms F.field.laws F.value tables.new.held.keys)) }
    ensures images { OnOk result (AreImages F.field.laws (G.action given.now.acts.now) (exact_forms F.field.laws F.value tables.new.held.keys) (map (λ r. r.items) images.new.items)) }
    ensures all { OnOk result (length images.new.items ≡ length tables.new.held.keys) }
    ensures covered { OnOk result (AreCovered F.field.laws (G.action given.now.acts.now) (exact_forms F.field.laws F.value tables.new.held.keys) covered.new) }
    ensures reached { OnOk result (IsReached F.field.laws (G.action given.now.acts.now) (exact_forms F.field.laws F.value tables.new.held.keys) at) }
    ensures within { OnOk result (length tables.new.held.keys ≤ given.now.limit) }
    ensures many { (result ≡ Err close_error.TooManySubspaces) → AreMoreFixes F.field.laws (G.action given.now.acts.now) given.now.limit }
    ensures wide { (result ≡ Err close_error.Wide) → IsWideFixes F.field (G.action given.now.acts.now) }
    ensures few { AreFewCuts F.field.laws (G.action given.now.acts.now) given.now.limit (length given.now.singles.now.elements.items) (map (λ r. r.items) tables.new.cuts.items) }
    ensures cost { steps.new + (G.action given.now.acts.now).dim * cut_count (map (λ r. r.items) tables.old.cuts.items) ≤ steps.old + (G.action given.now.acts.now).dim * cut_count (map (λ r. r.items) tables.new.cuts.items) }
{
    cut_each(given, tables, at, row, steps)?;
    close_images(given, tables, images, row, steps)?;
    cover(given.alloc, given.acts, &tables.held, images, covered, at)?;
    Ok(())
}

// Marks the forms to which images lead from the form at a place.
fn cover<F: Field, G: Acts<F>>(
    alloc: Global,
    acts: &G,
    held: &IndexSet<Form<F>>,
    images: &[Vec<usize>],
    covered: &mut [bool],
    at: usize,
) -> Result<(), NoMemory>
    requires images { AreImages F.field.laws (G.action acts.now) (exact_forms F.field.laws F.value held.now.keys) (map (λ r. r.items) images.now) }
    requires all { length images.now ≡ length held.now.keys }
    requires covered { AreCovered F.field.laws (G.action acts.now) (exact_forms F.field.laws F.value held.now.keys) covered.old }
    requires marks { length held.now.keys ≤ length covered.old }
    requires there { at < length held.now.keys }
    requires reached { IsReached F.field.laws (G.action acts.now) (exact_forms F.field.laws F.value held.now.keys) at }
    ensures covered { AreCovered F.field.laws (G.action acts.now) (exact_forms F.field.laws F.value held.now.keys) covered.new }
{
    if acts.generators() == 0 {
        return Ok(());
    }
    let mut queue = Vec::new(alloc);
    push(&mut queue, at)?;
    for t in 0..held.len() {
        if t >= queue.len() {
            return Ok(());
        }
        let found = row_in(images, queue[t]);
        reach(found, covered, &mut queue)?;
    }
    Ok(())
}
