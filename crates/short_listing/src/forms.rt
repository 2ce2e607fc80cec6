// Forms, directions and listings of short values as those of values in 128 bits.
ghost use Rattle.std.specs.Prelude.{◌≡◌, ◌≤◌, ◌<◌, ℕ, true, IfOk, OnOk, length, map, take};
ghost use Rattle.cyclo24.specs.ExactK24.{k24_laws};
ghost use Rattle.cyclo24.specs.K24.{exact24};
ghost use Rattle.lin_alg.specs.Rows.{exact_rows};
ghost use Rattle.lin_alg.specs.Echelon.{IsEchelon};
ghost use Rattle.fix_lattice.specs.Subspaces.{IsWholeForm};
ghost use Rattle.class_list.specs.Seen.{direction_of, directions_of};
ghost use Rattle.short_listing.specs.Carried.{exact_lines, AreForms};

use class_list::{Direction, Listing};
use cyclo24::{Field, K24, Short};
use iso_text::{NoMemory, Stab};
use lin_alg::Echelon;
use short_rows::lengthened;
use std::alloc::Global;

// The rows of a form with their pivots, in 128 bits.
fn lengthened_lines<S: Short>(
    alloc: Global,
    form: &Echelon<S>,
) -> Result<Vec<(usize, Vec<K24>)>, NoMemory>
    ensures { IfOk result (λ v. exact_lines exact24 (map (λ r. (r.0, r.1.items)) v.items) ≡ exact_lines S.exact form.now.rows) }
{
    let mut lines = Vec::new(alloc);
    for i in 0..form.len() {
        let pivot = form.pivot(i);
        let row = lengthened(alloc, form.row(i))?;
        match lines.push((pivot, row)) {
            Ok(()) => {}
            Err(_) => return Err(NoMemory),
        }
    }
    Ok(lines)
}

// The form of the same exact rows in 128 bits.
fn lengthened_form<S: Short>(alloc: Global, form: &Echelon<S>) -> Result<Echelon<K24>, NoMemory>
    requires whole { form.now.whole ≡ true }
    ensures rows { IfOk result (λ e. exact_rows k24_laws exact24 e.rows ≡ exact_rows k24_laws S.exact form.now.rows) }
    ensures form { IfOk result (λ e. IsWholeForm k24_laws exact24 form.now.width e) }
{
    let width = form.width();
    let _whole = form.is_whole();
    let lines = lengthened_lines(alloc, form)?;
    Ok(Echelon::from_rows(alloc, width, lines))
}

// The same numbers of elements.
fn copied_stabiliser(alloc: Global, members: &[usize]) -> Result<Stab, NoMemory>
    ensures { IfOk result (λ s. s ≡ members.now) }
{
    let mut copy = Vec::new(alloc);
    for member in members {
        match copy.push(*member) {
            Ok(()) => {}
            Err(_) => return Err(NoMemory),
        }
    }
    Ok(Stab::from_vec(copy))
}

// The direction of the same exact equations in 128 bits.
fn lengthened_direction<S: Short>(
    alloc: Global,
    direction: &Direction<S>,
) -> Result<Direction<K24>, NoMemory>
    ensures direction { IfOk result (λ d. direction_of k24_laws exact24 d ≡ direction_of k24_laws S.exact direction.now) }
    ensures form { IfOk result (λ d. IsWholeForm k24_laws exact24 direction.now.equations.width d.equations) }
{
    let equations = lengthened_form(alloc, direction.equations())?;
    let stabiliser = copied_stabiliser(alloc, direction.stabiliser())?;
    Ok(Direction::new(equations, stabiliser))
}

/// The listing of the same exact directions in 128 bits.
pub(crate) fn lengthened_listing<S: Short>(
    alloc: Global,
    listing: &Listing<S>,
) -> Result<Listing<K24>, NoMemory>
    ensures directions { IfOk result (λ l. directions_of k24_laws exact24 l ≡ directions_of k24_laws S.exact listing.now) }
    ensures forms { IfOk result (λ l. AreForms (map (λ d. d.equations.width) listing.now) (map (λ d. d.equations) l)) }
{
    let mut copy = Listing::empty(alloc);
    for i in 0..listing.len() {
        let direction = lengthened_direction(alloc, listing.get(i))?;
        copy.push(direction)?;
    }
    Ok(copy)
}
