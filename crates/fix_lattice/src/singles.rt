// What single elements fix.
ghost use Rattle.std.specs.Prelude.{◌≡◌, ◌<◌, ◌≤◌, ◌+◌, ◌*◌, ◌⊎◌, ◌∷◌, [], ℕ, Err, IfOk, OnOk, length};
ghost use Rattle.lin_alg.specs.Action.{Action};
ghost use Rattle.fix_lattice.specs.declared.errors.CloseError.TheVariants as close_error;
ghost use Rattle.fix_lattice.specs.Subspaces.{AreHeld, exact_forms};
ghost use Rattle.fix_lattice.specs.Held.{HoldsSingles, IsSingleSpace, IsSingleAt};
ghost use Rattle.fix_lattice.specs.Lattice.{form_at, AreMoreFixes};
ghost use Rattle.fix_lattice.specs.Wide.{IsWideFixes};

use crate::cutting::put;
use crate::memory::{push, push_if};
use crate::movers::fix_form;
use crate::{CloseError, Form};
use cyclo24::Field;
use indexmap::IndexSet;
use lin_alg::{Acts, Echelon, LinError, Steps};
use std::sync::ledger::Ledger;

// Where the equations of the Fix(q) of each element stand, and for each such place one element.
#[derive(Drop)]
pub(crate) struct Singles {
    pub(crate) places: Vec<usize>,
    pub(crate) elements: Vec<usize>,
}

// Holds the equations of Fix(q) for each element q by number.
pub(crate) fn hold_singles<F: Field, G: Acts<F>, L: Ledger>(
    acts: &G,
    held: &mut IndexSet<Form<F>>,
    singles: &mut Singles,
    scratch: &mut Echelon<F>,
    row: &mut [F],
    limit: usize,
    steps: &mut Steps<L>,
) -> Result<(), CloseError>
    requires empty { held.old.keys ≡ [] }
    requires places { singles.old.places.items ≡ [] }
    requires elements { singles.old.elements.items ≡ [] }
    requires room { length row.old ≡ (G.action acts.now).dim }
    ensures held { AreHeld F.field.laws F.value F.PartialEq.eq (G.action acts.now).dim held.new.keys }
    ensures singles { OnOk result (HoldsSingles F.field.laws (G.action acts.now) (exact_forms F.field.laws F.value held.new.keys) singles.new.places.items singles.new.elements.items (G.action acts.now).group.order) }
    ensures within { OnOk result (length held.new.keys ≤ limit) }
    ensures many { (result ≡ Err close_error.TooManySubspaces) → AreMoreFixes F.field.laws (G.action acts.now) limit }
    ensures wide { (result ≡ Err close_error.Wide) → G.wide acts.now ⊎ IsWideFixes F.field (G.action acts.now) }
    ensures cost { steps.new ≤ steps.old + (G.action acts.now).dim * (G.action acts.now).group.order }
{
    for q in 0..acts.order() {
        let before = held.len();
        let place = hold_single(acts, held, q, scratch, row, limit, steps)?;
        push(&mut singles.places, place)?;
        let grew = held.len() > before;
        push_if(&mut singles.elements, q, grew)?;
    }
    Ok(())
}

// Holds the equations of Fix(q), worked out in a scratch form, and answers their place.
fn hold_single<F: Field, G: Acts<F>, L: Ledger>(
    acts: &G,
    held: &mut IndexSet<Form<F>>,
    q: usize,
    scratch: &mut Echelon<F>,
    row: &mut [F],
    limit: usize,
    steps: &mut Steps<L>,
) -> Result<usize, CloseError>
    requires element { q < (G.action acts.now).group.order }
    requires held { AreHeld F.field.laws F.value F.PartialEq.eq (G.action acts.now).dim held.old.keys }
    requires singles { (i : ℕ) → i < length (exact_forms F.field.laws F.value held.old.keys) → IsSingleSpace F.field.laws (G.action acts.now) (form_at (exact_forms F.field.laws F.value held.old.keys) i) }
    requires room { length row.old ≡ (G.action acts.now).dim }
    ensures held { AreHeld F.field.laws F.value F.PartialEq.eq (G.action acts.now).dim held.new.keys }
    ensures put { IfOk result (λ p. IsSingleAt F.field.laws (G.action acts.now) q (exact_forms F.field.laws F.value held.old.keys) (exact_forms F.field.laws F.value held.new.keys) p) }
    ensures within { OnOk result (length held.new.keys ≤ limit) }
    ensures many { (result ≡ Err close_error.TooManySubspaces) → AreMoreFixes F.field.laws (G.action acts.now) limit }
    ensures wide { (result ≡ Err close_error.Wide) → G.wide acts.now ⊎ IsWideFixes F.field (G.action acts.now) }
    ensures cost { steps.new ≤ steps.old + (G.action acts.now).dim }
{
    match fix_form(scratch, acts, q, row, steps) {
        Ok(()) => {}
        Err(LinError::Wide) => return Err(CloseError::Wide),
        Err(LinError::NoMemory) => return Err(CloseError::NoMemory),
    }
    put(held, scratch, acts.dim(), limit)
}
