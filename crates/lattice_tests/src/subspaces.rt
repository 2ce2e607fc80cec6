// Fixed subspaces: of all sign changes of six coordinates, one for each set of coordinates that are 0, and
// of three groups by tables.
ghost use Rattle.std.specs.Prelude.{◌≡◌, ◌<◌, ◌≤◌, ◌^◌};

use crate::flips::{Flips, flips_of_six};
use crate::octahedron::Octahedron;
use crate::prism::Prism;
use crate::tetrahedron::Tetrahedron;
use cyclo24::{Field, K24};
use fix_lattice::{CloseError, Form, Subspaces, close, mover_row};
use iso_text::NoMemory;
use lin_alg::{Acts, Echelon, LinError, Steps};
use std::alloc::Global;
use std::marker::Brand;
use std::sync::ledger::{Blank, Ledger};
use std::test::Fail;

// Closes with a counter of its own.
fn close_of<G: Acts<K24>>(
    alloc: Global,
    acts: &G,
    limit: usize,
) -> Result<Subspaces<K24>, CloseError>
    requires dim { (G.action acts.now).dim ≤ 24 }
    requires order { (G.action acts.now).group.order ≤ 16384 }
    requires some { 0 < limit }
    requires limit { limit ≤ 16384 }
{
    close_by::<G, Brand>(alloc, acts, limit, Blank::new(1))
}

fn close_by<G: Acts<K24>, L: Ledger>(
    alloc: Global,
    acts: &G,
    limit: usize,
    blank: Blank,
) -> Result<Subspaces<K24>, CloseError>
    requires name { blank.name ≡ L.name }
    requires parts { blank.parts ≡ L.parts }
    requires shares { 0 < blank.parts }
    requires dim { (G.action acts.now).dim ≤ 24 }
    requires order { (G.action acts.now).group.order ≤ 16384 }
    requires some { 0 < limit }
    requires limit { limit ≤ 16384 }
{
    let mut steps = Steps::<L>::new(blank);
    close(alloc, acts, limit, &mut steps)
}

// Whether each held form is found at its place.
fn are_found(spaces: &Subspaces<K24>) -> bool {
    for i in 0..spaces.len() {
        if spaces.find(spaces.get(i)) != Some(i) {
            return false;
        }
    }
    true
}

// How many of the held forms have that many rows.
fn count(spaces: &Subspaces<K24>, rows: usize) -> usize {
    let mut count = 0_usize;
    for i in 0..spaces.len() {
        if spaces.get(i).len() == rows {
            count = count.saturating_add(1);
        }
    }
    count
}

fn has_each(alloc: Global) -> Result<bool, CloseError> {
    let spaces = close_of(alloc, &flips_of_six(), 64)?;
    Ok(
        spaces.len() == 64
            && spaces.width() == 6
            && spaces.set().len() == 64
            && are_found(&spaces)
            && [
                count(&spaces, 0),
                count(&spaces, 1),
                count(&spaces, 2),
                count(&spaces, 3),
                count(&spaces, 6),
            ] == [1, 6, 15, 20, 1],
    )
}

#[test]
fn sets_of_coordinates(rt: HostRuntime) {
    assert!(rt; has_each(rt.alloc()) == Ok(true));
}

#[test]
fn one_more_than_the_limit(rt: HostRuntime) {
    let spaces = close_of(rt.alloc(), &flips_of_six(), 63);
    assert!(rt; matches!(spaces, Err(CloseError::TooManySubspaces)));
}

// The set holds the empty form, and finds no form of a row that no subspace has.
fn looks_up(alloc: Global) -> Result<bool, CloseError> {
    let spaces = close_of(alloc, &flips_of_six(), 64)?;
    let none: Form<K24> = Form::new(Echelon::new(alloc, 6));
    Ok(none.form().len() == 0 && spaces.set().contains(&none))
}

#[test]
fn the_set_is_looked_up(rt: HostRuntime) {
    assert!(rt; looks_up(rt.alloc()) == Ok(true));
}

#[test]
fn rows_of_the_difference(rt: HostRuntime) -> Result<(), Fail> {
    let acts = flips_of_six();
    let mut row = [K24::zero(); 6];
    mover_row::<K24, Flips>(&acts, 5, 2, &mut row)?;
    let zero = K24::zero();
    assert!(rt; row == [zero, zero, K24::ratio(-2, 1), zero, zero, zero]);
    mover_row::<K24, Flips>(&acts, 5, 1, &mut row)?;
    assert!(rt; row == [zero; 6]);
    Ok(())
}

// Whether there are so many fixed subspaces, each found, and one fewer is refused as too few.
fn has_just<G: Acts<K24>>(alloc: Global, acts: &G, count: usize) -> bool
    requires dim { (G.action acts.now).dim ≤ 24 }
    requires order { (G.action acts.now).group.order ≤ 16384 }
    requires some { 1 < count }
    requires limit { count ≤ 16384 }
{
    let spaces = match close_of(alloc, acts, count) {
        Ok(spaces) => spaces,
        Err(_) => return false,
    };
    spaces.len() == count
        && are_found(&spaces)
        && matches!(
            close_of(alloc, acts, count - 1),
            Err(CloseError::TooManySubspaces)
        )
}

// The prism: the zero vector, three lines, two planes of dimension 2, three spaces of dimension 3, all.
#[test]
fn spaces_of_the_prism(rt: HostRuntime) {
    assert!(rt; has_just(rt.alloc(), &Prism, 10));
}

// The tetrahedron: the zero vector, three axes, four diagonals, all.
#[test]
fn spaces_of_the_tetrahedron(rt: HostRuntime) {
    assert!(rt; has_just(rt.alloc(), &Tetrahedron, 9));
}

// The octahedron: the zero vector, three axes, four diagonals, six diagonals of faces, nine mirror
// planes, all.
#[test]
fn spaces_of_the_octahedron(rt: HostRuntime) {
    assert!(rt; has_just(rt.alloc(), &Octahedron, 24));
}
