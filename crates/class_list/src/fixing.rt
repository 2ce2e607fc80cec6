// Pointwise stabilisers of subspaces.
ghost use Rattle.std.specs.Prelude.{◌≡◌, ◌↔◌, ◌<◌, ◌+◌, ◌⊎◌, true, Err, IfOk, OnOk, OnErr, length};
ghost use Rattle.algebra.specs.RisingLists.{IsRisingListOf};
ghost use Rattle.lin_alg.specs.Action.{IsFixed};
ghost use Rattle.lin_alg.specs.Echelon.{IsSolution};
ghost use Rattle.lin_alg.specs.Fixed.{FixesAll, mover};
ghost use Rattle.lin_alg.specs.Rows.{exact_rows};
ghost use Rattle.fix_lattice.specs.Subspaces.{IsWholeForm};
ghost use Rattle.fix_lattice.specs.Wide.{IsWideInserts, IsWideMover};
ghost use Rattle.class_list.specs.declared.errors.ListError.TheVariants as list_error;
ghost use Rattle.class_list.specs.Stabilisers.{IsPointwiseStabiliserOf};
ghost use Rattle.class_list.specs.Wide.{IsWideStabiliser};

use crate::ListError;
use cyclo24::{Field, Wide};
use fix_lattice::mover_row;
use iso_text::Stab;
use lin_alg::{Acts, Echelon, zeros};
use std::alloc::Global;

/// The rising list of all elements q that fix every vector on which the equations vanish:
/// A(q) v = v. An element does so exactly where the rows of A(q) - 1 are in the span of the equations.
pub fn stabiliser<F: Field, G: Acts<F>>(
    alloc: Global,
    acts: &G,
    equations: &Echelon<F>,
) -> Result<Stab, ListError>
    requires whole { equations.now.whole ≡ true }
    requires width { equations.now.width ≡ (G.action acts.now).dim }
    ensures exact { IfOk result (IsPointwiseStabiliserOf F.field.laws (G.action acts.now) (IsSolution F.field.laws F.value equations.now)) }
    ensures wide { (result ≡ Err list_error.WideStabiliser) → G.wide acts.now ⊎ IsWideStabiliser F.field (G.action acts.now) (exact_rows F.field.laws F.value equations.now.rows) }
    ensures never { (result ≡ Err list_error.WideImage) → ⊥ }
{
    let _ = equations.is_whole();
    let mut row = zeros(alloc, acts.dim())?;
    let mut members = Vec::new(alloc);
    for q in 0..acts.order() {
        match add_member(acts, q, equations, &mut row, &mut members) {
            Ok(()) => {}
            Err(error) => return Err(error),
        }
    }
    Ok(Stab::from_vec(members))
}

// Adds q where it fixes every vector on which the equations vanish. The lent row is only room.
fn add_member<F: Field, G: Acts<F>>(
    acts: &G,
    q: usize,
    equations: &Echelon<F>,
    row: &mut [F],
    members: &mut Vec<usize>,
) -> Result<(), ListError>
    requires element { q < (G.action acts.now).group.order }
    requires form { IsWholeForm F.field.laws F.value (G.action acts.now).dim equations.now }
    requires room { length row.old ≡ (G.action acts.now).dim }
    requires members { IsRisingListOf q (FixesAll (IsFixed F.field.laws (G.action acts.now)) (IsSolution F.field.laws F.value equations.now)) members.old.items }
    ensures members { OnOk result (IsRisingListOf (q + 1) (FixesAll (IsFixed F.field.laws (G.action acts.now)) (IsSolution F.field.laws F.value equations.now)) members.new.items) }
    ensures wide { (result ≡ Err list_error.WideStabiliser) → G.wide acts.now ⊎ IsWideStabiliser F.field (G.action acts.now) (exact_rows F.field.laws F.value equations.now.rows) }
    ensures never { (result ≡ Err list_error.WideImage) → ⊥ }
{
    match fixes_all(acts, q, equations, row) {
        Ok(true) => {}
        Ok(false) => return Ok(()),
        Err(_) => return Err(ListError::WideStabiliser),
    }
    match members.push(q) {
        Ok(()) => Ok(()),
        Err(_) => Err(ListError::NoMemory),
    }
}

// Whether q fixes every vector on which the equations vanish. The lent row is only room.
fn fixes_all<F: Field, G: Acts<F>>(
    acts: &G,
    q: usize,
    equations: &Echelon<F>,
    row: &mut [F],
) -> Result<bool, Wide>
    requires element { q < (G.action acts.now).group.order }
    requires form { IsWholeForm F.field.laws F.value (G.action acts.now).dim equations.now }
    requires room { length row.old ≡ (G.action acts.now).dim }
    ensures answer { IfOk result (λ b. (b ≡ true) ↔ FixesAll (IsFixed F.field.laws (G.action acts.now)) (IsSolution F.field.laws F.value equations.now) q) }
    ensures wide { OnErr result (G.wide acts.now ⊎ (IsWideMover F.field (G.action acts.now) q ⊎ IsWideInserts F.field (G.action acts.now).dim (exact_rows F.field.laws F.value equations.now.rows) (G.action acts.now).dim (mover F.field.laws (G.action acts.now) q))) }
{
    for i in 0..acts.dim() {
        mover_row(acts, q, i, row)?;
        if !equations.contains(row)? {
            return Ok(false);
        }
    }
    Ok(true)
}
