// The equations of what one element fixes.
ghost use Rattle.std.specs.Prelude.{◌≡◌, ◌<◌, ◌≤◌, ◌+◌, ◌∷◌, [], ◌⊎◌, ◌↔◌, ℕ, true, Err, OnOk, OnErr, IsTrue, length};
ghost use Rattle.cyclo24.specs.ExactField.{Value};
ghost use Rattle.lin_alg.specs.Rows.{vector, exact_rows};
ghost use Rattle.lin_alg.specs.Action.{Action, entry_of};
ghost use Rattle.lin_alg.specs.Fixed.{mover, IsFixForm};
ghost use Rattle.lin_alg.specs.Equations.{dot};
ghost use Rattle.lin_alg.specs.Echelon.{IsSolution};
ghost use Rattle.lin_alg.specs.Insertion.{IsWideInsert};
ghost use Rattle.lin_alg.specs.declared.errors.LinError.TheVariants as lin_error;
ghost use Rattle.fix_lattice.specs.Subspaces.{IsWholeForm};
ghost use Rattle.fix_lattice.specs.Wide.{IsWideInserts, IsWideMover};

use cyclo24::{Field, Wide};
use lin_alg::{Acts, Echelon, LinError, Steps};
use std::sync::ledger::Ledger;

/// Writes row i of A(q) - 1. After `Wide` the row holds any values.
pub fn mover_row<F: Field, G: Acts<F>>(
    acts: &G,
    q: usize,
    i: usize,
    into: &mut [F],
) -> Result<(), Wide>
    requires element { q < (G.action acts.now).group.order }
    requires place { i < (G.action acts.now).dim }
    requires room { length into.old ≡ (G.action acts.now).dim }
    ensures exact { OnOk result (vector F.field.laws F.value into.new ≡ mover F.field.laws (G.action acts.now) q i) }
    ensures wide { OnErr result (G.wide acts.now ⊎ IsTrue (F.field.is_wide_difference (entry_of F.field.laws (G.action acts.now) q i i) F.field.laws.unit)) }
{
    acts.row(q, i, into)?;
    into[i] = into[i].sub(F::one())?;
    Ok(())
}

// Makes a form the equations of Fix(q): the rows of A(q) - 1 by rising number, inserted into the empty
// form.
pub(crate) fn fix_form<F: Field, G: Acts<F>, L: Ledger>(
    form: &mut Echelon<F>,
    acts: &G,
    q: usize,
    row: &mut [F],
    steps: &mut Steps<L>,
) -> Result<(), LinError>
    requires element { q < (G.action acts.now).group.order }
    requires room { length row.old ≡ (G.action acts.now).dim }
    ensures form { OnOk result (IsWholeForm F.field.laws F.value (G.action acts.now).dim form.new) }
    ensures fixes { OnOk result (IsFixForm F.field.laws (G.action acts.now) (q ∷ []) (exact_rows F.field.laws F.value form.new.rows)) }
    ensures wide { (result ≡ Err lin_error.Wide) → G.wide acts.now ⊎ (IsWideMover F.field (G.action acts.now) q ⊎ IsWideInserts F.field (G.action acts.now).dim [] (G.action acts.now).dim (mover F.field.laws (G.action acts.now) q)) }
    ensures cost { steps.new ≤ steps.old + (G.action acts.now).dim }
{
    let dim = acts.dim();
    form.clear(dim);
    for i in 0..dim {
        match insert_mover(form, acts, q, i, row, steps) {
            Ok(()) => {}
            Err(error) => return Err(error),
        }
    }
    Ok(())
}

// Inserts row i of A(q) - 1. The lent row is only room for it.
fn insert_mover<F: Field, G: Acts<F>, L: Ledger>(
    form: &mut Echelon<F>,
    acts: &G,
    q: usize,
    i: usize,
    row: &mut [F],
    steps: &mut Steps<L>,
) -> Result<(), LinError>
    requires element { q < (G.action acts.now).group.order }
    requires place { i < (G.action acts.now).dim }
    requires room { length row.old ≡ (G.action acts.now).dim }
    requires form { IsWholeForm F.field.laws F.value (G.action acts.now).dim form.old }
    ensures form { OnOk result (IsWholeForm F.field.laws F.value (G.action acts.now).dim form.new) }
    ensures cut { OnOk result ((v : ℕ → Value F.field) → IsSolution F.field.laws F.value form.new v ↔ ((dot F.field.laws (G.action acts.now).dim (mover F.field.laws (G.action acts.now) q i) v ≡ F.field.laws.nought) × IsSolution F.field.laws F.value form.old v)) }
    ensures wide { (result ≡ Err lin_error.Wide) → G.wide acts.now ⊎ (IsTrue (F.field.is_wide_difference (entry_of F.field.laws (G.action acts.now) q i i) F.field.laws.unit) ⊎ IsWideInsert F.field (exact_rows F.field.laws F.value form.old.rows) (mover F.field.laws (G.action acts.now) q i)) }
    ensures cost { steps.new ≤ steps.old + 1 }
{
    match mover_row(acts, q, i, row) {
        Ok(()) => {}
        Err(_) => return Err(LinError::Wide),
    }
    match form.insert(row, steps) {
        Ok(_) => Ok(()),
        Err(error) => Err(error),
    }
}
