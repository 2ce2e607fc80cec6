// Cuts of held forms, each form with a Fix(q) once.
ghost use Rattle.std.specs.Prelude.{◌≡◌, ◌<◌, ◌≤◌, ◌+◌, ◌*◌, ◌⊎◌, ℕ, Err, IfOk, OnOk, length, map};
ghost use Rattle.lin_alg.specs.Action.{Action};
ghost use Rattle.fix_lattice.specs.declared.errors.CloseError.TheVariants as close_error;
ghost use Rattle.fix_lattice.specs.Subspaces.{AreHeld, exact_forms};
ghost use Rattle.fix_lattice.specs.Held.{IsCutAt, IsFixSpace, IsSingleSpace, IsGrown, IsMeet};
ghost use Rattle.fix_lattice.specs.Cuts.{cut_count, AreFewCuts};
ghost use Rattle.fix_lattice.specs.Classes.{IsClosing, IsCutWithEach};
ghost use Rattle.fix_lattice.specs.Lattice.{form_at, AreMoreFixes};
ghost use Rattle.fix_lattice.specs.Wide.{IsWideFixes};

use crate::cutting::{cut_form, put};
use crate::memory::push_if;
use crate::singles::Singles;
use crate::{CloseError, Form, cuts};
use cyclo24::Field;
use indexmap::IndexSet;
use lin_alg::{Acts, Echelon, LinError, Steps};
use std::alloc::Global;
use std::sync::ledger::Ledger;

// Held fixed subspaces, and which two of them were cut. The first forms are the equations of each
// Fix(q). A cut is one of a form with one of these; `cuts` tells where it stands. Each form behind the
// first ones is the cut of its source. Cuts are worked out in the scratch form, so that only a form that
// is held takes memory.
#[derive(Drop)]
pub(crate) struct Tables<F: Field> {
    pub(crate) scratch: Echelon<F>,
    pub(crate) held: IndexSet<Form<F>>,
    pub(crate) cuts: Vec<Vec<u16>>,
    pub(crate) sources: Vec<(usize, usize)>,
}

// What a closing is given: the allocator, the action, what single elements fix, and the limit.
#[derive(Drop)]
pub(crate) struct Given<'a, G> {
    pub(crate) alloc: Global,
    pub(crate) acts: &'a G,
    pub(crate) singles: &'a Singles,
    pub(crate) limit: usize,
}

// The place of what the form at a place and the Fix(q) at k have in common.
pub(crate) fn cut_at<F: Field, G: Acts<F>, L: Ledger>(
    given: &Given<G>,
    tables: &mut Tables<F>,
    at: usize,
    k: usize,
    row: &mut [F],
    steps: &mut Steps<L>,
) -> Result<usize, CloseError>
    requires small { given.now.limit ≤ 16384 }
    requires there { at < length tables.old.held.keys }
    requires fix { k < length given.now.singles.now.elements.items }
    requires held { AreHeld F.field.laws F.value F.PartialEq.eq (G.action given.now.acts.now).dim tables.old.held.keys }
    requires closing { IsClosing F.field.laws (G.action given.now.acts.now) (exact_forms F.field.laws F.value tables.old.held.keys) given.now.singles.now.places.items given.now.singles.now.elements.items (map (λ r. r.items) tables.old.cuts.items) tables.old.sources.items }
    requires within { length tables.old.held.keys ≤ given.now.limit }
    requires room { length row.old ≡ (G.action given.now.acts.now).dim }
    ensures held { AreHeld F.field.laws F.value F.PartialEq.eq (G.action given.now.acts.now).dim tables.new.held.keys }
    ensures closing { OnOk result (IsClosing F.field.laws (G.action given.now.acts.now) (exact_forms F.field.laws F.value tables.new.held.keys) given.now.singles.now.places.items given.now.singles.now.elements.items (map (λ r. r.items) tables.new.cuts.items) tables.new.sources.items) }
    ensures grown { OnOk result (IsGrown (exact_forms F.field.laws F.value tables.old.held.keys) (exact_forms F.field.laws F.value tables.new.held.keys)) }
    ensures place { IfOk result (λ p. p < length tables.new.held.keys) }
    ensures meet { IfOk result (λ p. IsMeet F.field.laws (G.action given.now.acts.now).dim (form_at (exact_forms F.field.laws F.value tables.new.held.keys) at) (form_at (exact_forms F.field.laws F.value tables.new.held.keys) k) (form_at (exact_forms F.field.laws F.value tables.new.held.keys) p)) }
    ensures within { OnOk result (length tables.new.held.keys ≤ given.now.limit) }
    ensures many { (result ≡ Err close_error.TooManySubspaces) → AreMoreFixes F.field.laws (G.action given.now.acts.now) given.now.limit }
    ensures wide { (result ≡ Err close_error.Wide) → IsWideFixes F.field (G.action given.now.acts.now) }
    ensures few { AreFewCuts F.field.laws (G.action given.now.acts.now) given.now.limit (length given.now.singles.now.elements.items) (map (λ r. r.items) tables.new.cuts.items) }
    ensures cost { steps.new + (G.action given.now.acts.now).dim * cut_count (map (λ r. r.items) tables.old.cuts.items) ≤ steps.old + (G.action given.now.acts.now).dim * cut_count (map (λ r. r.items) tables.new.cuts.items) }
{
    if let Some(place) = cuts::place_of(&tables.cuts, at, k) {
        return Ok(place);
    }
    let fixes = given.singles.elements.len();
    cuts::begin(given.alloc, &mut tables.cuts, at, k, fixes)?;
    let before = tables.held.len();
    let place = cut_one(
        given,
        &mut tables.held,
        at,
        k,
        &mut tables.scratch,
        row,
        steps,
    )?;
    cuts::write(&mut tables.cuts, at, k, (place + 1) as u16);
    let grew = tables.held.len() > before;
    push_if(&mut tables.sources, (at, k), grew)?;
    Ok(place)
}

// Cuts the form at a place with each Fix(q).
pub(crate) fn cut_each<F: Field, G: Acts<F>, L: Ledger>(
    given: &Given<G>,
    tables: &mut Tables<F>,
    at: usize,
    row: &mut [F],
    steps: &mut Steps<L>,
) -> Result<(), CloseError>
    requires small { given.now.limit ≤ 16384 }
    requires there { at < length tables.old.held.keys }
    requires held { AreHeld F.field.laws F.value F.PartialEq.eq (G.action given.now.acts.now).dim tables.old.held.keys }
    requires closing { IsClosing F.field.laws (G.action given.now.acts.now) (exact_forms F.field.laws F.value tables.old.held.keys) given.now.singles.now.places.items given.now.singles.now.elements.items (map (λ r. r.items) tables.old.cuts.items) tables.old.sources.items }
    requires within { length tables.old.held.keys ≤ given.now.limit }
    requires room { length row.old ≡ (G.action given.now.acts.now).dim }
    ensures held { AreHeld F.field.laws F.value F.PartialEq.eq (G.action given.now.acts.now).dim tables.new.held.keys }
    ensures closing { OnOk result (IsClosing F.field.laws (G.action given.now.acts.now) (exact_forms F.field.laws F.value tables.new.held.keys) given.now.singles.now.places.items given.now.singles.now.elements.items (map (λ r. r.items) tables.new.cuts.items) tables.new.sources.items) }
    ensures grown { OnOk result (IsGrown (exact_forms F.field.laws F.value tables.old.held.keys) (exact_forms F.field.laws F.value tables.new.held.keys)) }
    ensures cut { OnOk result (IsCutWithEach F.field.laws (G.action given.now.acts.now) (exact_forms F.field.laws F.value tables.new.held.keys) at) }
    ensures within { OnOk result (length tables.new.held.keys ≤ given.now.limit) }
    ensures many { (result ≡ Err close_error.TooManySubspaces) → AreMoreFixes F.field.laws (G.action given.now.acts.now) given.now.limit }
    ensures wide { (result ≡ Err close_error.Wide) → IsWideFixes F.field (G.action given.now.acts.now) }
    ensures few { AreFewCuts F.field.laws (G.action given.now.acts.now) given.now.limit (length given.now.singles.now.elements.items) (map (λ r. r.items) tables.new.cuts.items) }
    ensures cost { steps.new + (G.action given.now.acts.now).dim * cut_count (map (λ r. r.items) tables.old.cuts.items) ≤ steps.old + (G.action given.now.acts.now).dim * cut_count (map (λ r. r.items) tables.new.cuts.items) }
{
    for k in 0..given.singles.elements.len() {
        cut_at(given, tables, at, k, row, steps)?;
    }
    Ok(())
}

// Cuts the form at a place with the one at k, and holds what they have in common.
fn cut_one<F: Field, G: Acts<F>, L: Ledger>(
    given: &Given<G>,
    held: &mut IndexSet<Form<F>>,
    at: usize,
    k: usize,
    scratch: &mut Echelon<F>,
    row: &mut [F],
    steps: &mut Steps<L>,
) -> Result<usize, CloseError>
    requires there { at < length held.old.keys }
    requires fix { k < length held.old.keys }
    requires held { AreHeld F.field.laws F.value F.PartialEq.eq (G.action given.now.acts.now).dim held.old.keys }
    requires spaces { (i : ℕ) → i < length held.old.keys → IsFixSpace F.field.laws (G.action given.now.acts.now) (form_at (exact_forms F.field.laws F.value held.old.keys) i) }
    requires single { IsSingleSpace F.field.laws (G.action given.now.acts.now) (form_at (exact_forms F.field.laws F.value held.old.keys) k) }
    requires room { length row.old ≡ (G.action given.now.acts.now).dim }
    ensures held { AreHeld F.field.laws F.value F.PartialEq.eq (G.action given.now.acts.now).dim held.new.keys }
    ensures cut { IfOk result (λ p. IsCutAt F.field.laws (G.action given.now.acts.now) (exact_forms F.field.laws F.value held.old.keys) at k (exact_forms F.field.laws F.value held.new.keys) p) }
    ensures within { OnOk result (length held.new.keys ≤ given.now.limit) }
    ensures many { (result ≡ Err close_error.TooManySubspaces) → AreMoreFixes F.field.laws (G.action given.now.acts.now) given.now.limit }
    ensures wide { (result ≡ Err close_error.Wide) → IsWideFixes F.field (G.action given.now.acts.now) }
    ensures cost { steps.new ≤ steps.old + (G.action given.now.acts.now).dim }
{
    match cut_form(scratch, held[at].form(), held[k].form(), row, steps) {
        Ok(()) => {}
        Err(LinError::Wide) => return Err(CloseError::Wide),
        Err(LinError::NoMemory) => return Err(CloseError::NoMemory),
    }
    put(held, scratch, given.acts.dim(), given.limit)
}
