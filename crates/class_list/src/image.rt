// Images of subspaces: the equations of q U are those of U times A(q^-1).
ghost use Rattle.std.specs.Prelude.{◌≡◌, ◌↔◌, ◌<◌, ◌≤◌, ◌+◌, ◌⊎◌, ℕ, true, Err, IfOk, OnOk, OnErr, length};
ghost use Rattle.cyclo24.specs.ExactField.{Value};
ghost use Rattle.lin_alg.specs.Action.{entry_of};
ghost use Rattle.lin_alg.specs.Equations.{dot, Vanishes};
ghost use Rattle.lin_alg.specs.Images.{moves_of, row_image};
ghost use Rattle.lin_alg.specs.Insertion.{IsWideInsert};
ghost use Rattle.lin_alg.specs.Matrix.{IsWideTerm};
ghost use Rattle.lin_alg.specs.Moves.{moved};
ghost use Rattle.lin_alg.specs.Rows.{vector, exact_rows};
ghost use Rattle.lin_alg.specs.Spans.{row_vectors, AreSame};
ghost use Rattle.fix_lattice.specs.Subspaces.{IsWholeForm};
ghost use Rattle.class_list.specs.declared.errors.ListError.TheVariants as list_error;
ghost use Rattle.class_list.specs.Wide.{IsWideImage, IsWideImageOf};

use crate::ListError;
use cyclo24::{Field, Wide};
use lin_alg::{Acts, Echelon, LinError, Steps, add_product};
use std::alloc::Global;
use std::sync::ledger::Ledger;

// Adds c times b to the row.
fn add_multiple<F: Field>(row: &mut [F], c: F, b: &[F]) -> Result<(), Wide>
    requires { length row.old ≡ length b.now }
    ensures exact { OnOk result ((j : ℕ) → j < length b.now → vector F.field.laws F.value row.new j ≡ F.field.laws.plus (vector F.field.laws F.value row.old j) (F.field.laws.times (F.value c) (vector F.field.laws F.value b.now j))) }
    ensures wide { OnErr result ((j : ℕ) × (j < length b.now) × IsWideTerm F.field (vector F.field.laws F.value row.old j) (F.value c) (vector F.field.laws F.value b.now j)) }
{
    for j in 0..b.len() {
        row[j] = add_product(row[j], c, b[j])?;
    }
    Ok(())
}

// Writes zeros.
fn clear<F: Field>(row: &mut [F])
    ensures { (j : ℕ) → vector F.field.laws F.value row.new j ≡ F.field.laws.nought }
{
    for j in 0..row.len() {
        row[j] = F::zero();
    }
}

// Adds c times row i of A(p). The lent line is room for it.
fn add_row<F: Field, G: Acts<F>>(
    acts: &G,
    p: usize,
    i: usize,
    c: F,
    line: &mut [F],
    into: &mut [F],
) -> Result<(), Wide>
    requires element { p < (G.action acts.now).group.order }
    requires place { i < (G.action acts.now).dim }
    requires line { length line.old ≡ (G.action acts.now).dim }
    requires into { length into.old ≡ (G.action acts.now).dim }
    ensures exact { OnOk result ((j : ℕ) → j < (G.action acts.now).dim → vector F.field.laws F.value into.new j ≡ F.field.laws.plus (vector F.field.laws F.value into.old j) (F.field.laws.times (F.value c) (entry_of F.field.laws (G.action acts.now) p i j))) }
    ensures wide { OnErr result (G.wide acts.now ⊎ ((j : ℕ) × (j < (G.action acts.now).dim) × IsWideTerm F.field (vector F.field.laws F.value into.old j) (F.value c) (entry_of F.field.laws (G.action acts.now) p i j))) }
{
    if c.is_zero() {
        return Ok(());
    }
    acts.row(p, i, line)?;
    add_multiple(into, c, line)?;
    Ok(())
}

// The row e A(q^-1), in a row of zeros. The lent line is room for a row of A(q^-1).
fn image_row<F: Field, G: Acts<F>>(
    acts: &G,
    q: usize,
    e: &[F],
    line: &mut [F],
    into: &mut [F],
) -> Result<(), Wide>
    requires element { q < (G.action acts.now).group.order }
    requires row { length e.now ≡ (G.action acts.now).dim }
    requires line { length line.old ≡ (G.action acts.now).dim }
    requires into { length into.old ≡ (G.action acts.now).dim }
    requires zeros { (j : ℕ) → vector F.field.laws F.value into.old j ≡ F.field.laws.nought }
    ensures exact { OnOk result (vector F.field.laws F.value into.new ≡ row_image F.field.laws (G.action acts.now) q (vector F.field.laws F.value e.now)) }
    ensures wide { OnErr result (G.wide acts.now ⊎ IsWideImage F.field (G.action acts.now) q (vector F.field.laws F.value e.now)) }
{
    let back = acts.inverse(q);
    for i in 0..e.len() {
        add_row(acts, back, i, e[i], line, into)?;
    }
    Ok(())
}

// Inserts the row e A(q^-1). The lent rows are only room.
fn insert_image<F: Field, G: Acts<F>, L: Ledger>(
    out: &mut Echelon<F>,
    acts: &G,
    q: usize,
    e: &[F],
    line: &mut [F],
    row: &mut [F],
    steps: &mut Steps<L>,
) -> Result<(), ListError>
    requires element { q < (G.action acts.now).group.order }
    requires out { IsWholeForm F.field.laws F.value (G.action acts.now).dim out.old }
    requires e { length e.now ≡ (G.action acts.now).dim }
    requires line { length line.old ≡ (G.action acts.now).dim }
    requires row { length row.old ≡ (G.action acts.now).dim }
    ensures out { OnOk result (IsWholeForm F.field.laws F.value (G.action acts.now).dim out.new) }
    ensures cut { OnOk result ((v : ℕ → Value F.field) → Vanishes F.field.laws (G.action acts.now).dim (row_vectors (exact_rows F.field.laws F.value out.new.rows)) v ↔ ((dot F.field.laws (G.action acts.now).dim (row_image F.field.laws (G.action acts.now) q (vector F.field.laws F.value e.now)) v ≡ F.field.laws.nought) × Vanishes F.field.laws (G.action acts.now).dim (row_vectors (exact_rows F.field.laws F.value out.old.rows)) v)) }
    ensures wide { (result ≡ Err list_error.WideImage) → G.wide acts.now ⊎ (IsWideImage F.field (G.action acts.now) q (vector F.field.laws F.value e.now) ⊎ IsWideInsert F.field (exact_rows F.field.laws F.value out.old.rows) (row_image F.field.laws (G.action acts.now) q (vector F.field.laws F.value e.now))) }
    ensures never { (result ≡ Err list_error.WideStabiliser) → ⊥ }
    ensures cost { steps.new ≤ steps.old + 1 }
{
    clear(row);
    match image_row(acts, q, e, line, row) {
        Ok(()) => {}
        Err(_) => return Err(ListError::WideImage),
    }
    match out.insert(row, steps) {
        Ok(_) => Ok(()),
        Err(LinError::Wide) => Err(ListError::WideImage),
        Err(LinError::NoMemory) => Err(ListError::NoMemory),
    }
}

// The equations of q U from those of U. The lent rows are only room.
pub(crate) fn image_form<F: Field, G: Acts<F>, L: Ledger>(
    alloc: Global,
    acts: &G,
    q: usize,
    form: &Echelon<F>,
    line: &mut [F],
    row: &mut [F],
    steps: &mut Steps<L>,
) -> Result<Echelon<F>, ListError>
    requires element { q < (G.action acts.now).group.order }
    requires form { IsWholeForm F.field.laws F.value (G.action acts.now).dim form.now }
    requires line { length line.old ≡ (G.action acts.now).dim }
    requires row { length row.old ≡ (G.action acts.now).dim }
    ensures form { IfOk result (IsWholeForm F.field.laws F.value (G.action acts.now).dim) }
    ensures image { IfOk result (λ r. AreSame (Vanishes F.field.laws (G.action acts.now).dim (row_vectors (exact_rows F.field.laws F.value r.rows))) (moved (moves_of F.field.laws (G.action acts.now)) q (Vanishes F.field.laws (G.action acts.now).dim (row_vectors (exact_rows F.field.laws F.value form.now.rows))))) }
    ensures wide { (result ≡ Err list_error.WideImage) → G.wide acts.now ⊎ IsWideImageOf F.field (G.action acts.now) q (exact_rows F.field.laws F.value form.now.rows) }
    ensures never { (result ≡ Err list_error.WideStabiliser) → ⊥ }
    ensures cost { steps.new ≤ steps.old + (G.action acts.now).dim }
{
    let mut out = Echelon::new(alloc, acts.dim());
    for i in 0..form.len() {
        match insert_image(&mut out, acts, q, form.row(i), line, row, steps) {
            Ok(()) => {}
            Err(error) => return Err(error),
        }
    }
    Ok(out)
}
