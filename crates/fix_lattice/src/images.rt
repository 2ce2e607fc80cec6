// Images of held forms under the generators, found by cuts of images.
ghost use Rattle.std.specs.Prelude.{◌≡◌, ◌<◌, ◌≤◌, ◌+◌, ◌*◌, [], ℕ, Err, IfOk, OnOk, length, map, get_or};
ghost use Rattle.lin_alg.specs.Action.{Action};
ghost use Rattle.lin_alg.specs.Images.{moves_of};
ghost use Rattle.lin_alg.specs.Moves.{conjugate};
ghost use Rattle.fix_lattice.specs.declared.errors.CloseError.TheVariants as close_error;
ghost use Rattle.fix_lattice.specs.Subspaces.{AreHeld, exact_forms};
ghost use Rattle.fix_lattice.specs.Held.{IsGrown};
ghost use Rattle.fix_lattice.specs.Cuts.{cut_count, AreFewCuts};
ghost use Rattle.fix_lattice.specs.Classes.{IsClosing, IsImageForm, IsImageRow, AreImages};
ghost use Rattle.fix_lattice.specs.Lattice.{form_at, AreMoreFixes};
ghost use Rattle.fix_lattice.specs.Wide.{IsWideFixes};

use crate::CloseError;
use crate::memory::push;
use crate::singles::Singles;
use crate::tables::{Given, Tables, cut_at};
use cyclo24::Field;
use lin_alg::{Acts, Steps};
use std::sync::ledger::Ledger;

// Finds the images of each held form behind the first ones, until none is new.
pub(crate) fn close_images<F: Field, G: Acts<F>, L: Ledger>(
    given: &Given<G>,
    tables: &mut Tables<F>,
    images: &mut Vec<Vec<usize>>,
    row: &mut [F],
    steps: &mut Steps<L>,
) -> Result<(), CloseError>
    requires small { given.now.limit ≤ 16384 }
    requires held { AreHeld F.field.laws F.value F.PartialEq.eq (G.action given.now.acts.now).dim tables.old.held.keys }
    requires closing { IsClosing F.field.laws (G.action given.now.acts.now) (exact_forms F.field.laws F.value tables.old.held.keys) given.now.singles.now.places.items given.now.singles.now.elements.items (map (λ r. r.items) tables.old.cuts.items) tables.old.sources.items }
    requires images { AreImages F.field.laws (G.action given.now.acts.now) (exact_forms F.field.laws F.value tables.old.held.keys) (map (λ r. r.items) images.old.items) }
    requires short { length images.old.items ≤ length tables.old.held.keys }
    requires within { length tables.old.held.keys ≤ given.now.limit }
    requires room { length row.old ≡ (G.action given.now.acts.now).dim }
    ensures held { AreHeld F.field.laws F.value F.PartialEq.eq (G.action given.now.acts.now).dim tables.new.held.keys }
    ensures closing { OnOk result (IsClosing F.field.laws (G.action given.now.acts.now) (exact_forms F.field.laws F.value tables.new.held.keys) given.now.singles.now.places.items given.now.singles.now.elements.items (map (λ r. r.items) tables.new.cuts.items) tables.new.sources.items) }
    ensures grown { OnOk result (IsGrown (exact_forms F.field.laws F.value tables.old.held.keys) (exact_forms F.field.laws F.value tables.new.held.keys)) }
    ensures images { OnOk result (AreImages F.field.laws (G.action given.now.acts.now) (exact_forms F.field.laws F.value tables.new.held.keys) (map (λ r. r.items) images.new.items)) }
    ensures all { OnOk result (length images.new.items ≡ length tables.new.held.keys) }
    ensures within { OnOk result (length tables.new.held.keys ≤ given.now.limit) }
    ensures many { (result ≡ Err close_error.TooManySubspaces) → AreMoreFixes F.field.laws (G.action given.now.acts.now) given.now.limit }
    ensures wide { (result ≡ Err close_error.Wide) → IsWideFixes F.field (G.action given.now.acts.now) }
    ensures few { AreFewCuts F.field.laws (G.action given.now.acts.now) given.now.limit (length given.now.singles.now.elements.items) (map (λ r. r.items) tables.new.cuts.items) }
    ensures cost { steps.new + (G.action given.now.acts.now).dim * cut_count (map (λ r. r.items) tables.old.cuts.items) ≤ steps.old + (G.action given.now.acts.now).dim * cut_count (map (λ r. r.items) tables.new.cuts.items) }
{
    for i in images.len()..given.limit {
        if i >= tables.held.len() {
            return Ok(());
        }
        let found = image_row(given, tables, images, i, row, steps)?;
        push(images, found)?;
    }
    Ok(())
}

// The places of the images of form i under the generators.
fn image_row<F: Field, G: Acts<F>, L: Ledger>(
    given: &Given<G>,
    tables: &mut Tables<F>,
    images: &[Vec<usize>],
    i: usize,
    row: &mut [F],
    steps: &mut Steps<L>,
) -> Result<Vec<usize>, CloseError>
    requires small { given.now.limit ≤ 16384 }
    requires there { i < length tables.old.held.keys }
    requires held { AreHeld F.field.laws F.value F.PartialEq.eq (G.action given.now.acts.now).dim tables.old.held.keys }
    requires closing { IsClosing F.field.laws (G.action given.now.acts.now) (exact_forms F.field.laws F.value tables.old.held.keys) given.now.singles.now.places.items given.now.singles.now.elements.items (map (λ r. r.items) tables.old.cuts.items) tables.old.sources.items }
    requires images { AreImages F.field.laws (G.action given.now.acts.now) (exact_forms F.field.laws F.value tables.old.held.keys) (map (λ r. r.items) images.now) }
    requires before { length images.now ≡ i }
    requires within { length tables.old.held.keys ≤ given.now.limit }
    requires room { length row.old ≡ (G.action given.now.acts.now).dim }
    ensures held { AreHeld F.field.laws F.value F.PartialEq.eq (G.action given.now.acts.now).dim tables.new.held.keys }
    ensures closing { OnOk result (IsClosing F.field.laws (G.action given.now.acts.now) (exact_forms F.field.laws F.value tables.new.held.keys) given.now.singles.now.places.items given.now.singles.now.elements.items (map (λ r. r.items) tables.new.cuts.items) tables.new.sources.items) }
    ensures grown { OnOk result (IsGrown (exact_forms F.field.laws F.value tables.old.held.keys) (exact_forms F.field.laws F.value tables.new.held.keys)) }
    ensures found { IfOk result (λ found. IsImageRow F.field.laws (G.action given.now.acts.now) (exact_forms F.field.laws F.value tables.new.held.keys) i (G.action given.now.acts.now).generators found.items) }
    ensures within { OnOk result (length tables.new.held.keys ≤ given.now.limit) }
    ensures many { (result ≡ Err close_error.TooManySubspaces) → AreMoreFixes F.field.laws (G.action given.now.acts.now) given.now.limit }
    ensures wide { (result ≡ Err close_error.Wide) → IsWideFixes F.field (G.action given.now.acts.now) }
    ensures few { AreFewCuts F.field.laws (G.action given.now.acts.now) given.now.limit (length given.now.singles.now.elements.items) (map (λ r. r.items) tables.new.cuts.items) }
    ensures cost { steps.new + (G.action given.now.acts.now).dim * cut_count (map (λ r. r.items) tables.old.cuts.items) ≤ steps.old + (G.action given.now.acts.now).dim * cut_count (map (λ r. r.items) tables.new.cuts.items) }
{
    let mut found = Vec::new(given.alloc);
    for p in 0..given.acts.generators() {
        let place = image_at(given, tables, images, i, p, row, steps)?;
        push(&mut found, place)?;
    }
    Ok(found)
}

// The place of the image of form i under generator p: that of a Fix(q) is a Fix(q), and that of a cut
// is the cut of the images.
fn image_at<F: Field, G: Acts<F>, L: Ledger>(
    given: &Given<G>,
    tables: &mut Tables<F>,
    images: &[Vec<usize>],
    i: usize,
    p: usize,
    row: &mut [F],
    steps: &mut Steps<L>,
) -> Result<usize, CloseError>
    requires small { given.now.limit ≤ 16384 }
    requires there { i < length tables.old.held.keys }
    requires generator { p < (G.action given.now.acts.now).generators }
    requires held { AreHeld F.field.laws F.value F.PartialEq.eq (G.action given.now.acts.now).dim tables.old.held.keys }
    requires closing { IsClosing F.field.laws (G.action given.now.acts.now) (exact_forms F.field.laws F.value tables.old.held.keys) given.now.singles.now.places.items given.now.singles.now.elements.items (map (λ r. r.items) tables.old.cuts.items) tables.old.sources.items }
    requires images { AreImages F.field.laws (G.action given.now.acts.now) (exact_forms F.field.laws F.value tables.old.held.keys) (map (λ r. r.items) images.now) }
    requires before { length images.now ≡ i }
    requires within { length tables.old.held.keys ≤ given.now.limit }
    requires room { length row.old ≡ (G.action given.now.acts.now).dim }
    ensures held { AreHeld F.field.laws F.value F.PartialEq.eq (G.action given.now.acts.now).dim tables.new.held.keys }
    ensures closing { OnOk result (IsClosing F.field.laws (G.action given.now.acts.now) (exact_forms F.field.laws F.value tables.new.held.keys) given.now.singles.now.places.items given.now.singles.now.elements.items (map (λ r. r.items) tables.new.cuts.items) tables.new.sources.items) }
    ensures grown { OnOk result (IsGrown (exact_forms F.field.laws F.value tables.old.held.keys) (exact_forms F.field.laws F.value tables.new.held.keys)) }
    ensures place { IfOk result (λ y. y < length tables.new.held.keys) }
    ensures image { IfOk result (λ y. IsImageForm F.field.laws (G.action given.now.acts.now) ((G.action given.now.acts.now).generator p) (form_at (exact_forms F.field.laws F.value tables.new.held.keys) i) (form_at (exact_forms F.field.laws F.value tables.new.held.keys) y)) }
    ensures within { OnOk result (length tables.new.held.keys ≤ given.now.limit) }
    ensures many { (result ≡ Err close_error.TooManySubspaces) → AreMoreFixes F.field.laws (G.action given.now.acts.now) given.now.limit }
    ensures wide { (result ≡ Err close_error.Wide) → IsWideFixes F.field (G.action given.now.acts.now) }
    ensures few { AreFewCuts F.field.laws (G.action given.now.acts.now) given.now.limit (length given.now.singles.now.elements.items) (map (λ r. r.items) tables.new.cuts.items) }
    ensures cost { steps.new + (G.action given.now.acts.now).dim * cut_count (map (λ r. r.items) tables.old.cuts.items) ≤ steps.old + (G.action given.now.acts.now).dim * cut_count (map (λ r. r.items) tables.new.cuts.items) }
{
    let a = given.acts.generator(p);
    let fixes = given.singles.elements.len();
    if i < fixes {
        return Ok(conjugate_place(given.acts, given.singles, a, i));
    }
    let (space, k) = tables.sources[i - fixes];
    let at = place_in(images, space, p);
    let fix = conjugate_place(given.acts, given.singles, a, k);
    let place = cut_at(given, tables, at, fix, row, steps)?;
    Ok(place)
}

// A row of the table of images.
pub(crate) fn row_in(images: &[Vec<usize>], i: usize) -> &[usize]
    requires { i < length images.now }
    ensures { result.now ≡ get_or (map (λ r. r.items) images.now) i [] }
{
    &images[i]
}

// The place in a row of the table of images.
fn place_in(images: &[Vec<usize>], space: usize, p: usize) -> usize
    requires row { space < length images.now }
    requires column { p < length (get_or (map (λ r. r.items) images.now) space []) }
    ensures { result ≡ get_or (get_or (map (λ r. r.items) images.now) space []) p 0 }
{
    images[space][p]
}

// The place of Fix(a q a^-1) for the element q at a place.
fn conjugate_place<F: Field, G: Acts<F>>(acts: &G, singles: &Singles, a: usize, k: usize) -> usize
    requires element { a < (G.action acts.now).group.order }
    requires there { k < length singles.now.elements.items }
    requires elements { (j : ℕ) → j < length singles.now.elements.items → get_or singles.now.elements.items j 0 < (G.action acts.now).group.order }
    requires places { length singles.now.places.items ≡ (G.action acts.now).group.order }
    ensures { result ≡ get_or singles.now.places.items (conjugate (moves_of F.field.laws (G.action acts.now)) a (get_or singles.now.elements.items k 0)) 0 }
{
    let q = singles.elements[k];
    singles.places[acts.product(acts.product(a, q), acts.inverse(a))]
}
