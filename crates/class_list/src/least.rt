// The listing of the least directions.
ghost use Rattle.std.specs.Prelude.{◌≡◌, ◌<◌, ◌≤◌, ◌+◌, ◌*◌, ◌⊎◌, Err, IfOk, OnOk, length, map};
ghost use Rattle.fix_lattice.specs.Lattice.{HoldsFixes, HasEachStabiliser, AreStabilisers};
ghost use Rattle.fix_lattice.specs.Subspaces.{AreWholeForms, exact_forms};
ghost use Rattle.fix_lattice.specs.Wide.{IsWideFixes};
ghost use Rattle.class_list.specs.declared.errors.ListError.TheVariants as list_error;
ghost use Rattle.class_list.specs.Directions.{IsListing};
ghost use Rattle.class_list.specs.Collected.{AreCollected, IsPushed};
ghost use Rattle.class_list.specs.Ranks.{rows_at};
ghost use Rattle.class_list.specs.Seen.{directions_of};
ghost use Rattle.class_list.specs.Wide.{IsWideImages};

use crate::arrows::arrows_of;
use crate::classes::least_places;
use crate::ranked::{Ranked, rank_direction};
use crate::{ListError, Listing, Order};
use cyclo24::Field;
use fix_lattice::Subspaces;
use lin_alg::{Acts, Steps};
use std::alloc::Global;
use std::sync::ledger::Ledger;

// The directions of the places that are the least of their class.
fn collect<F: Field, G: Acts<F>>(
    alloc: Global,
    acts: &G,
    spaces: &Subspaces<F>,
    least: &[usize],
    order: Order,
) -> Result<Vec<Ranked<F>>, ListError>
    requires width { spaces.now.width ≡ (G.action acts.now).dim }
    requires holds { HoldsFixes F.field.laws (G.action acts.now) (exact_forms F.field.laws F.value spaces.now.forms) }
    requires size { length least.now ≡ length spaces.now.forms }
    ensures collected { IfOk result (λ entries. AreCollected F.field.laws F.value F.PartialEq.eq (G.action acts.now) order spaces.now.forms least.now (length spaces.now.forms) (map (λ r. ((r.first, r.second), r.direction)) entries.items)) }
    ensures wide { (result ≡ Err list_error.WideStabiliser) → G.wide acts.now ⊎ IsWideFixes F.field (G.action acts.now) }
    ensures never { (result ≡ Err list_error.WideImage) → ⊥ }
{
    let mut entries = Vec::new(alloc);
    for i in 0..least.len() {
        match add_entry(alloc, acts, spaces, least, i, order, &mut entries) {
            Ok(()) => {}
            Err(error) => return Err(error),
        }
    }
    Ok(entries)
}

// Adds the direction of the subspace at a place that is the least of its class.
fn add_entry<F: Field, G: Acts<F>>(
    alloc: Global,
    acts: &G,
    spaces: &Subspaces<F>,
    least: &[usize],
    i: usize,
    order: Order,
    entries: &mut Vec<Ranked<F>>,
) -> Result<(), ListError>
    requires width { spaces.now.width ≡ (G.action acts.now).dim }
    requires holds { HoldsFixes F.field.laws (G.action acts.now) (exact_forms F.field.laws F.value spaces.now.forms) }
    requires size { length least.now ≡ length spaces.now.forms }
    requires place { i < length spaces.now.forms }
    requires collected { AreCollected F.field.laws F.value F.PartialEq.eq (G.action acts.now) order spaces.now.forms least.now i (map (λ r. ((r.first, r.second), r.direction)) entries.old.items) }
    ensures collected { OnOk result (AreCollected F.field.laws F.value F.PartialEq.eq (G.action acts.now) order spaces.now.forms least.now (i + 1) (map (λ r. ((r.first, r.second), r.direction)) entries.new.items)) }
    ensures wide { (result ≡ Err list_error.WideStabiliser) → G.wide acts.now ⊎ IsWideFixes F.field (G.action acts.now) }
    ensures never { (result ≡ Err list_error.WideImage) → ⊥ }
{
    if least[i] != i {
        return Ok(());
    }
    match push_ranked(alloc, acts, spaces, i, order, entries) {
        Ok(()) => Ok(()),
        Err(error) => Err(error),
    }
}

// Adds the direction of the subspace at a place.
fn push_ranked<F: Field, G: Acts<F>>(
    alloc: Global,
    acts: &G,
    spaces: &Subspaces<F>,
    i: usize,
    order: Order,
    entries: &mut Vec<Ranked<F>>,
) -> Result<(), ListError>
    requires width { spaces.now.width ≡ (G.action acts.now).dim }
    requires holds { HoldsFixes F.field.laws (G.action acts.now) (exact_forms F.field.laws F.value spaces.now.forms) }
    requires place { i < length spaces.now.forms }
    ensures pushed { OnOk result (IsPushed F.field.laws F.value (G.action acts.now) order (rows_at spaces.now.forms i) (map (λ r. ((r.first, r.second), r.direction)) entries.old.items) (map (λ r. ((r.first, r.second), r.direction)) entries.new.items)) }
    ensures wide { (result ≡ Err list_error.WideStabiliser) → G.wide acts.now ⊎ IsWideFixes F.field (G.action acts.now) }
    ensures never { (result ≡ Err list_error.WideImage) → ⊥ }
{
    let entry = match rank_direction(alloc, acts, spaces.get(i), order) {
        Ok(entry) => entry,
        Err(error) => return Err(error),
    };
    match entries.push(entry) {
        Ok(()) => Ok(()),
        Err(_) => Err(ListError::NoMemory),
    }
}

/// The least direction of each class of isotropy subgroups, in order, each with its whole pointwise
/// stabiliser. Classes are found by the images of the subspaces under the generators alone, with at
/// most dim times subspaces times generators insertions.
pub fn listing<F: Field, G: Acts<F>, L: Ledger>(
    alloc: Global,
    acts: &G,
    spaces: Subspaces<F>,
    order: Order,
    steps: &mut Steps<L>,
) -> Result<Listing<F>, ListError>
    requires width { spaces.width ≡ (G.action acts.now).dim }
    requires holds { HoldsFixes F.field.laws (G.action acts.now) (exact_forms F.field.laws F.value spaces.forms) }
    requires vectors { HasEachStabiliser F.field.laws (G.action acts.now) (exact_forms F.field.laws F.value spaces.forms) }
    requires spaces { AreStabilisers F.field.laws (G.action acts.now) (exact_forms F.field.laws F.value spaces.forms) }
    ensures listing { IfOk result (λ l. IsListing F.field.laws F.field.cmp (G.action acts.now) order (directions_of F.field.laws F.value l)) }
    ensures forms { IfOk result (λ l. AreWholeForms F.field.laws F.value (G.action acts.now).dim (map (λ d. d.equations) l)) }
    ensures wide_stabiliser { (result ≡ Err list_error.WideStabiliser) → G.wide acts.now ⊎ IsWideFixes F.field (G.action acts.now) }
    ensures wide_image { (result ≡ Err list_error.WideImage) → G.wide acts.now ⊎ IsWideImages F.field (G.action acts.now) }
    ensures cost { OnOk result (steps.new ≤ steps.old + (G.action acts.now).dim * length spaces.forms * (G.action acts.now).generators) }
{
    let _ = spaces.set();
    let arrows = match arrows_of(alloc, acts, &spaces, steps) {
        Ok(arrows) => arrows,
        Err(error) => return Err(error),
    };
    let least = least_places(alloc, &spaces, &arrows)?;
    let mut entries = match collect(alloc, acts, &spaces, &least, order) {
        Ok(entries) => entries,
        Err(error) => return Err(error),
    };
    entries.sort_unstable();
    Ok(Listing::new(entries))
}
