// Images of the held subspaces under the generators, as arrows between their places.
ghost use Rattle.std.specs.Prelude.{◌≡◌, ◌<◌, ◌≤◌, ◌+◌, ◌*◌, ◌⊎◌, Err, IfOk, OnOk, length};
ghost use Rattle.fix_lattice.specs.Lattice.{form_at, HoldsFixes};
ghost use Rattle.fix_lattice.specs.Subspaces.{exact_forms};
ghost use Rattle.class_list.specs.declared.errors.ListError.TheVariants as list_error;
ghost use Rattle.fix_lattice.specs.Classes.{IsImageForm};
ghost use Rattle.class_list.specs.Images.{AreArrows};
ghost use Rattle.class_list.specs.Wide.{IsWideImageOf, IsWideImages};

use crate::ListError;
use crate::image::image_form;
use cyclo24::Field;
use fix_lattice::{Form, Subspaces};
use lin_alg::{Acts, Steps, zeros};
use std::alloc::Global;
use std::sync::ledger::Ledger;

// The subspace at the one place has that at the other for its image under a generator.
#[derive(Clone, Copy, Debug)]
pub(crate) struct Arrow {
    pub(crate) from: usize,
    pub(crate) to: usize,
}

// What arrows are made of: the allocator, the action and the held subspaces.
#[derive(Drop)]
struct Given<'a, F: Field, G> {
    alloc: Global,
    acts: &'a G,
    spaces: &'a Subspaces<F>,
}

// The place of the image of the subspace at a place. The lent rows are only room.
fn image_place<F: Field, G: Acts<F>, L: Ledger>(
    given: &Given<F, G>,
    q: usize,
    i: usize,
    line: &mut [F],
    row: &mut [F],
    steps: &mut Steps<L>,
) -> Result<usize, ListError>
    requires element { q < (G.action given.now.acts.now).group.order }
    requires width { given.now.spaces.now.width ≡ (G.action given.now.acts.now).dim }
    requires holds { HoldsFixes F.field.laws (G.action given.now.acts.now) (exact_forms F.field.laws F.value given.now.spaces.now.forms) }
    requires place { i < length given.now.spaces.now.forms }
    requires line { length line.old ≡ (G.action given.now.acts.now).dim }
    requires row { length row.old ≡ (G.action given.now.acts.now).dim }
    ensures below { IfOk result (λ k. k < length given.now.spaces.now.forms) }
    ensures image { IfOk result (λ k. IsImageForm F.field.laws (G.action given.now.acts.now) q (form_at (exact_forms F.field.laws F.value given.now.spaces.now.forms) i) (form_at (exact_forms F.field.laws F.value given.now.spaces.now.forms) k)) }
    ensures wide { (result ≡ Err list_error.WideImage) → G.wide given.now.acts.now ⊎ IsWideImageOf F.field (G.action given.now.acts.now) q (form_at (exact_forms F.field.laws F.value given.now.spaces.now.forms) i) }
    ensures never { (result ≡ Err list_error.WideStabiliser) → ⊥ }
    ensures cost { steps.new ≤ steps.old + (G.action given.now.acts.now).dim }
{
    let image = match image_form(
        given.alloc,
        given.acts,
        q,
        given.spaces.get(i),
        line,
        row,
        steps,
    ) {
        Ok(image) => image,
        Err(error) => return Err(error),
    };
    let key = Form::new(image);
    match given.spaces.set().get_index_of(&key) {
        Some(place) => Ok(place),
        None => unreachable!(),
    }
}

// Adds the arrows of generator j. The lent rows are only room.
fn add_arrows<F: Field, G: Acts<F>, L: Ledger>(
    given: &Given<F, G>,
    j: usize,
    arrows: &mut Vec<Arrow>,
    line: &mut [F],
    row: &mut [F],
    steps: &mut Steps<L>,
) -> Result<(), ListError>
    requires generator { j < (G.action given.now.acts.now).generators }
    requires width { given.now.spaces.now.width ≡ (G.action given.now.acts.now).dim }
    requires holds { HoldsFixes F.field.laws (G.action given.now.acts.now) (exact_forms F.field.laws F.value given.now.spaces.now.forms) }
    requires arrows { AreArrows F.field.laws (G.action given.now.acts.now) (exact_forms F.field.laws F.value given.now.spaces.now.forms) j 0 arrows.old.items }
    requires line { length line.old ≡ (G.action given.now.acts.now).dim }
    requires row { length row.old ≡ (G.action given.now.acts.now).dim }
    ensures arrows { OnOk result (AreArrows F.field.laws (G.action given.now.acts.now) (exact_forms F.field.laws F.value given.now.spaces.now.forms) (j + 1) 0 arrows.new.items) }
    ensures wide { (result ≡ Err list_error.WideImage) → G.wide given.now.acts.now ⊎ IsWideImages F.field (G.action given.now.acts.now) }
    ensures never { (result ≡ Err list_error.WideStabiliser) → ⊥ }
    ensures cost { OnOk result (steps.new ≤ steps.old + (G.action given.now.acts.now).dim * length given.now.spaces.now.forms) }
{
    let q = given.acts.generator(j);
    for i in 0..given.spaces.len() {
        let to = match image_place(given, q, i, line, row, steps) {
            Ok(to) => to,
            Err(error) => return Err(error),
        };
        match arrows.push(Arrow { from: i, to }) {
            Ok(()) => {}
            Err(_) => return Err(ListError::NoMemory),
        }
    }
    Ok(())
}

// The arrows of all generators.
pub(crate) fn arrows_of<F: Field, G: Acts<F>, L: Ledger>(
    alloc: Global,
    acts: &G,
    spaces: &Subspaces<F>,
    steps: &mut Steps<L>,
) -> Result<Vec<Arrow>, ListError>
    requires width { spaces.now.width ≡ (G.action acts.now).dim }
    requires holds { HoldsFixes F.field.laws (G.action acts.now) (exact_forms F.field.laws F.value spaces.now.forms) }
    ensures arrows { IfOk result (λ arrows. AreArrows F.field.laws (G.action acts.now) (exact_forms F.field.laws F.value spaces.now.forms) (G.action acts.now).generators 0 arrows.items) }
    ensures wide { (result ≡ Err list_error.WideImage) → G.wide acts.now ⊎ IsWideImages F.field (G.action acts.now) }
    ensures never { (result ≡ Err list_error.WideStabiliser) → ⊥ }
    ensures cost { OnOk result (steps.new ≤ steps.old + (G.action acts.now).dim * length spaces.now.forms * (G.action acts.now).generators) }
{
    let mut line = zeros(alloc, acts.dim())?;
    let mut row = zeros(alloc, acts.dim())?;
    let mut arrows = Vec::new(alloc);
    let given = Given {
        alloc,
        acts,
        spaces,
    };
    for j in 0..acts.generators() {
        match add_arrows(&given, j, &mut arrows, &mut line, &mut row, steps) {
            Ok(()) => {}
            Err(error) => return Err(error),
        }
    }
    Ok(arrows)
}
