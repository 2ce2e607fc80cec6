// Listings worked out by hand, in both orders, and their pages.
ghost use Rattle.std.specs.Prelude.{◌≡◌, ◌<◌, ◌≤◌};

use crate::flips::{Flips, flips_of_two};
use crate::octahedron::Octahedron;
use crate::prism::Prism;
use crate::tetrahedron::Tetrahedron;
use class_list::{Direction, Listing, Order, listing, stabiliser};
use cyclo24::{Field, K24};
use fix_lattice::close;
use lin_alg::{Acts, Echelon, Steps};
use std::alloc::Global;
use std::marker::Brand;
use std::sync::ledger::{Blank, Ledger};
use std::test::Fail;

// The listing of an action, if there is one.
fn listing_of<F: Field, G: Acts<F>>(alloc: Global, acts: &G, order: Order) -> Option<Listing<F>>
    requires dim { (G.action acts.now).dim ≤ 24 }
    requires order { (G.action acts.now).group.order ≤ 16384 }
{
    listing_by::<F, G, Brand>(alloc, acts, order, Blank::new(1))
}

// The same, with a counter of its own.
fn listing_by<F: Field, G: Acts<F>, L: Ledger>(
    alloc: Global,
    acts: &G,
    order: Order,
    blank: Blank,
) -> Option<Listing<F>>
    requires dim { (G.action acts.now).dim ≤ 24 }
    requires order { (G.action acts.now).group.order ≤ 16384 }
    requires name { blank.name ≡ L.name }
    requires parts { blank.parts ≡ L.parts }
    requires some { 0 < blank.parts }
{
    let mut steps = Steps::<L>::new(blank);
    let spaces = match close(alloc, acts, 64, &mut steps) {
        Ok(spaces) => spaces,
        Err(_) => return None,
    };
    match listing(alloc, acts, spaces, order, &mut steps) {
        Ok(listing) => Some(listing),
        Err(_) => None,
    }
}

// Whether a row has these entries; those behind its last are 0.
fn has_entries(row: &[K24], entries: &[i8; 4]) -> bool {
    if row.len() > 4 {
        return false;
    }
    for (x, n) in row.iter().zip(entries.as_slice()) {
        if *x != K24::small(*n) {
            return false;
        }
    }
    true
}

// Whether a form has these rows.
fn has_rows(form: &Echelon<K24>, rows: &[[i8; 4]]) -> bool {
    if form.len() != rows.len() {
        return false;
    }
    for i in 0..form.len() {
        if !has_entries(form.row(i), &rows[i]) {
            return false;
        }
    }
    true
}

// A direction as it is expected: its stabiliser and its equations.
#[derive(Drop)]
struct Expected<'a> {
    stabiliser: &'a [usize],
    equations: &'a [[i8; 4]],
}

// What is expected of this stabiliser and these equations.
fn wanted<'a>(stabiliser: &'a [usize], equations: &'a [[i8; 4]]) -> Expected<'a> {
    Expected {
        stabiliser,
        equations,
    }
}

// Whether a direction of vectors of so many coordinates is as expected.
fn is_expected(direction: &Direction<K24>, coordinates: usize, expected: &Expected) -> bool {
    direction.dim().checked_add(expected.equations.len()) == Some(coordinates)
        && direction.order() == expected.stabiliser.len()
        && direction.stabiliser() == expected.stabiliser
        && has_rows(direction.equations(), expected.equations)
}

// Whether a listing has these directions, in this order.
fn are_expected(listing: &Listing<K24>, coordinates: usize, expected: &[Expected]) -> bool {
    if listing.len() != expected.len() {
        return false;
    }
    for i in 0..listing.len() {
        if !is_expected(listing.get(i), coordinates, &expected[i]) {
            return false;
        }
    }
    true
}

// The four directions of the sign changes of two coordinates, in both orders.
fn lists_flips(listing: &Listing<K24>) -> bool {
    are_expected(
        listing,
        2,
        &[
            wanted(&[0, 1, 2, 3], &[[1, 0, 0, 0], [0, 1, 0, 0]]),
            wanted(&[0, 2], &[[0, 1, 0, 0]]),
            wanted(&[0, 1], &[[1, 0, 0, 0]]),
            wanted(&[0], &[]),
        ],
    )
}

#[test]
fn sign_changes_of_two_coordinates(rt: HostRuntime) -> Result<(), Fail> {
    for order in [Order::Dimension, Order::Index] {
        let listing = listing_of::<K24, Flips>(rt.alloc(), &flips_of_two(), order).ok_or("none")?;
        assert!(rt; lists_flips(&listing));
    }
    Ok(())
}

#[test]
fn pages_of_a_listing(rt: HostRuntime) -> Result<(), Fail> {
    let listing = listing_of::<K24, Flips>(rt.alloc(), &flips_of_two(), Order::Dimension).ok_or(
        "none",
    )?;
    assert!(rt; listing.page(0, None) == (0, 4));
    assert!(rt; listing.page(1, Some(2)) == (1, 3));
    assert!(rt; listing.page(3, Some(2)) == (3, 4));
    assert!(rt; listing.page(2, Some(0)) == (2, 2));
    assert!(rt; listing.page(9, Some(1)) == (4, 4));
    assert!(rt; listing.page(u64::MAX, Some(u64::MAX)) == (4, 4));
    Ok(())
}

// Equations: of the zero vector alone, of the line that an upright mirror and the level one keep, of
// the two coordinates that the rotations keep, of the plane of the triangle, and of what one upright
// mirror keeps.
const ZERO: [[i8; 4]; 4] = [[1, 0, 0, 0], [0, 1, 0, 0], [0, 0, 1, 0], [0, 0, 0, 1]];

const LINE: [[i8; 4]; 3] = [[-1, 1, 0, 0], [0, 0, 1, 0], [0, 0, 0, 1]];

const ROTATIONS: [[i8; 4]; 2] = [[1, 0, 0, 0], [0, 1, 0, 0]];

const PLANE: [[i8; 4]; 2] = [[0, 0, 1, 0], [0, 0, 0, 1]];

const MIRROR: [[i8; 4]; 1] = [[-1, 1, 0, 0]];

const ALL: [usize; 12] = [0, 1, 2, 3, 4, 5, 6, 7, 8, 9, 10, 11];

// By dimension: 0, 1, 2, 2, 3, 4, with stabilisers of the orders 12, 4, 6, 2, 2, 1.
fn lists_prism_by_dimension(listing: &Listing<K24>) -> bool {
    are_expected(
        listing,
        4,
        &[
            wanted(&ALL, &ZERO),
            wanted(&[0, 3, 6, 9], &LINE),
            wanted(&[0, 1, 2, 3, 4, 5], &ROTATIONS),
            wanted(&[0, 6], &PLANE),
            wanted(&[0, 3], &MIRROR),
            wanted(&[0], &[]),
        ],
    )
}

// By the order of the stabiliser: 12, 6, 4, 2, 2, 1, of the dimensions 0, 2, 1, 2, 3, 4.
fn lists_prism_by_index(listing: &Listing<K24>) -> bool {
    are_expected(
        listing,
        4,
        &[
            wanted(&ALL, &ZERO),
            wanted(&[0, 1, 2, 3, 4, 5], &ROTATIONS),
            wanted(&[0, 3, 6, 9], &LINE),
            wanted(&[0, 6], &PLANE),
            wanted(&[0, 3], &MIRROR),
            wanted(&[0], &[]),
        ],
    )
}

#[test]
fn prism_in_both_orders(rt: HostRuntime) -> Result<(), Fail> {
    let by_dimension = listing_of::<K24, Prism>(rt.alloc(), &Prism, Order::Dimension).ok_or(
        "none",
    )?;
    assert!(rt; lists_prism_by_dimension(&by_dimension));
    let by_index = listing_of::<K24, Prism>(rt.alloc(), &Prism, Order::Index).ok_or("none")?;
    assert!(rt; lists_prism_by_index(&by_index));
    Ok(())
}

#[test]
fn only_the_identity_fixes_all(rt: HostRuntime) -> Result<(), Fail> {
    let none = Echelon::<K24>::new(rt.alloc(), 4);
    let elements = stabiliser(rt.alloc(), &Prism, &none)?;
    assert!(rt; elements.as_slice() == [0].as_slice());
    Ok(())
}

// The four directions of the tetrahedron's rotations, in both orders: the zero vector, a diagonal, an
// axis, all.
fn lists_tetrahedron(listing: &Listing<K24>) -> bool {
    are_expected(
        listing,
        3,
        &[
            wanted(&ALL, &[[1, 0, 0, 0], [0, 1, 0, 0], [0, 0, 1, 0]]),
            wanted(&[0, 4, 8], &[[-1, 1, 0, 0], [-1, 0, 1, 0]]),
            wanted(&[0, 1], &[[0, 1, 0, 0], [0, 0, 1, 0]]),
            wanted(&[0], &[]),
        ],
    )
}

#[test]
fn tetrahedron_in_both_orders(rt: HostRuntime) -> Result<(), Fail> {
    for order in [Order::Dimension, Order::Index] {
        let listing = listing_of::<K24, Tetrahedron>(rt.alloc(), &Tetrahedron, order).ok_or(
            "none",
        )?;
        assert!(rt; lists_tetrahedron(&listing));
    }
    Ok(())
}

const WHOLE: [usize; 48] = [
    0, 1, 2, 3, 4, 5, 6, 7, 8, 9, 10, 11, 12, 13, 14, 15, 16, 17, 18, 19, 20, 21, 22, 23, 24, 25,
    26, 27, 28, 29, 30, 31, 32, 33, 34, 35, 36, 37, 38, 39, 40, 41, 42, 43, 44, 45, 46, 47,
];

// The seven directions of the octahedron's group, in both orders: the zero vector, an axis, a diagonal,
// a diagonal of a face, a mirror plane through one, one through two axes, all.
fn lists_octahedron(listing: &Listing<K24>) -> bool {
    are_expected(
        listing,
        3,
        &[
            wanted(&WHOLE, &[[1, 0, 0, 0], [0, 1, 0, 0], [0, 0, 1, 0]]),
            wanted(&[0, 2, 4, 6, 40, 42, 44, 46], &[[0, 1, 0, 0], [0, 0, 1, 0]]),
            wanted(&[0, 8, 16, 24, 32, 40], &[[-1, 1, 0, 0], [-1, 0, 1, 0]]),
            wanted(&[0, 4, 24, 28], &[[-1, 1, 0, 0], [0, 0, 1, 0]]),
            wanted(&[0, 32], &[[-1, 0, 1, 0]]),
            wanted(&[0, 4], &[[0, 0, 1, 0]]),
            wanted(&[0], &[]),
        ],
    )
}

#[test]
fn octahedron_in_both_orders(rt: HostRuntime) -> Result<(), Fail> {
    for order in [Order::Dimension, Order::Index] {
        let listing = listing_of::<K24, Octahedron>(rt.alloc(), &Octahedron, order).ok_or("none")?;
        assert!(rt; lists_octahedron(&listing));
    }
    Ok(())
}
