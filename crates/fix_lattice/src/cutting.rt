// What two fixed subspaces have in common, and the set of held forms.
ghost use Rattle.std.specs.Prelude.{◌≡◌, ◌↔◌, ◌<◌, ◌≤◌, ◌+◌, ◌∷◌, ℕ, true, Err, IfOk, OnOk, length};
ghost use Rattle.cyclo24.specs.ExactField.{Value};
ghost use Rattle.lin_alg.specs.Rows.{exact_rows};
ghost use Rattle.lin_alg.specs.Echelon.{IsSolution};
ghost use Rattle.lin_alg.specs.declared.errors.LinError.TheVariants as lin_error;
ghost use Rattle.fix_lattice.specs.declared.errors.CloseError.TheVariants as close_error;
ghost use Rattle.fix_lattice.specs.Subspaces.{IsWholeForm, AreHeld, exact_forms};
ghost use Rattle.fix_lattice.specs.Held.{IsPut};
ghost use Rattle.fix_lattice.specs.Wide.{IsWideInserts, row_of};

use crate::{CloseError, Form};
use cyclo24::Field;
use indexmap::IndexSet;
use iso_text::NoMemory;
use lin_alg::{Echelon, LinError, Steps};
use std::mem::replace;
use std::sync::ledger::Ledger;

// Makes a form the equations of what the spaces of two forms have in common: those of the second, in
// order, inserted into those of the first.
pub(crate) fn cut_form<F: Field, L: Ledger>(
    form: &mut Echelon<F>,
    space: &Echelon<F>,
    by: &Echelon<F>,
    row: &mut [F],
    steps: &mut Steps<L>,
) -> Result<(), LinError>
    requires space { IsWholeForm F.field.laws F.value (length row.old) space.now }
    requires by { IsWholeForm F.field.laws F.value (length row.old) by.now }
    ensures form { OnOk result (IsWholeForm F.field.laws F.value (length row.old) form.new) }
    ensures cut { OnOk result ((v : ℕ → Value F.field) → IsSolution F.field.laws F.value form.new v ↔ (IsSolution F.field.laws F.value by.now v × IsSolution F.field.laws F.value space.now v)) }
    ensures wide { (result ≡ Err lin_error.Wide) → IsWideInserts F.field (length row.old) (exact_rows F.field.laws F.value space.now.rows) (length (exact_rows F.field.laws F.value by.now.rows)) (row_of F.field.laws (exact_rows F.field.laws F.value by.now.rows)) }
    ensures cost { steps.new ≤ steps.old + length row.old }
{
    form.copy_from(space)?;
    for i in 0..by.len() {
        row.copy_from_slice(by.row(i));
        match form.insert(row, steps) {
            Ok(_) => {}
            Err(error) => return Err(error),
        }
    }
    Ok(())
}

// Holds the scratch form last, unless one with its rows is held, and answers its place. A form that is
// held leaves the scratch an empty one.
fn hold<F: Field>(
    held: &mut IndexSet<Form<F>>,
    scratch: &mut Echelon<F>,
    width: usize,
) -> Result<usize, NoMemory>
    requires held { AreHeld F.field.laws F.value F.PartialEq.eq width held.old.keys }
    requires form { IsWholeForm F.field.laws F.value width scratch.old }
    ensures held { AreHeld F.field.laws F.value F.PartialEq.eq width held.new.keys }
    ensures put { IfOk result (λ p. IsPut (exact_forms F.field.laws F.value held.old.keys) (exact_rows F.field.laws F.value scratch.old.rows) (exact_forms F.field.laws F.value held.new.keys) p) }
{
    let empty = Echelon::new(*held.allocator(), width);
    let form = Form::new(replace(scratch, empty));
    match held.get_index_of(&form) {
        Some(place) => {
            *scratch = form.into_echelon();
            Ok(place)
        }
        None => insert(held, form, width),
    }
}

// Inserts a form last, unless one with its rows is held, and answers its place.
fn insert<F: Field>(
    held: &mut IndexSet<Form<F>>,
    form: Form<F>,
    width: usize,
) -> Result<usize, NoMemory>
    requires held { AreHeld F.field.laws F.value F.PartialEq.eq width held.old.keys }
    requires form { IsWholeForm F.field.laws F.value width form }
    ensures held { AreHeld F.field.laws F.value F.PartialEq.eq width held.new.keys }
    ensures put { IfOk result (λ p. IsPut (exact_forms F.field.laws F.value held.old.keys) (exact_rows F.field.laws F.value form.rows) (exact_forms F.field.laws F.value held.new.keys) p) }
{
    match held.insert_full(form) {
        Ok((place, _)) => Ok(place),
        Err(_) => Err(NoMemory),
    }
}

// Holds the scratch form, where the limit allows it, and answers its place. The scratch holds any form
// afterwards.
pub(crate) fn put<F: Field>(
    held: &mut IndexSet<Form<F>>,
    scratch: &mut Echelon<F>,
    width: usize,
    limit: usize,
) -> Result<usize, CloseError>
    requires held { AreHeld F.field.laws F.value F.PartialEq.eq width held.old.keys }
    requires form { IsWholeForm F.field.laws F.value width scratch.old }
    ensures held { AreHeld F.field.laws F.value F.PartialEq.eq width held.new.keys }
    ensures put { IfOk result (λ p. IsPut (exact_forms F.field.laws F.value held.old.keys) (exact_rows F.field.laws F.value scratch.old.rows) (exact_forms F.field.laws F.value held.new.keys) p) }
    ensures within { OnOk result (length held.new.keys ≤ limit) }
    ensures many { (result ≡ Err close_error.TooManySubspaces) → (limit < length held.new.keys) × ((p : ℕ) × IsPut (exact_forms F.field.laws F.value held.old.keys) (exact_rows F.field.laws F.value scratch.old.rows) (exact_forms F.field.laws F.value held.new.keys) p) }
    ensures never { (result ≡ Err close_error.Wide) → ⊥ }
{
    let place = hold(held, scratch, width)?;
    if held.len() > limit {
        return Err(CloseError::TooManySubspaces);
    }
    Ok(place)
}
