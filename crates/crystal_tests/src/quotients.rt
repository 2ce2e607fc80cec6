// All products and inverses of two quotients beside composing their operations, and copies.
use hall_symbol::read;
use space_ops::{Group, Op};
use std::alloc::Global;
use std::process::Abort;
use std::test::Fail;
use super_group::{MAX_ORDER, Quotient, are_denominators, multipliers};

fn quotient_of(rt: &impl Abort, alloc: Global, symbol: &[u8], dens: [u8; 3]) -> Quotient {
    let generators = read(symbol).expect(rt, "a symbol");
    let closed = Group::close(alloc, generators.ops.as_slice(), generators.lattice);
    let group = closed.expect(rt, "a group");
    let dens = [dens];
    assert!(rt; are_denominators(&dens));
    let d = multipliers(&group, &dens);
    Quotient::new(alloc, group, d).expect(rt, "a quotient")
}

// Whether two coordinates differ by whole edges of so many cells, at most 12.
fn differ_by_edges(s: i32, t: i32, cells: u32) -> bool {
    let edge = i64::from(cells.clamp(1, 12)) * 12;
    (i64::from(s) - i64::from(t)) % edge == 0
}

fn is_same_element(d: [u32; 3], a: Op, b: Op) -> bool {
    a.rot == b.rot
        && differ_by_edges(a.shift[0], b.shift[0], d[0])
        && differ_by_edges(a.shift[1], b.shift[1], d[1])
        && differ_by_edges(a.shift[2], b.shift[2], d[2])
}

// The number of an operation's element, by a look through all of them.
fn found(quotient: &Quotient, op: Op) -> Option<usize> {
    for q in 0..quotient.order() {
        if is_same_element(quotient.d(), quotient.element(q), op) {
            return Some(q);
        }
    }
    None
}

// Whether the products of element a, and its inverse, are those of the operations.
fn multiplies(quotient: &Quotient, a: usize) -> bool {
    if a >= quotient.order() {
        return false;
    }
    let left = quotient.element(a);
    for b in 0..quotient.order() {
        let product = left.compose(quotient.element(b));
        if found(quotient, product) != Some(quotient.product(a, b)) {
            return false;
        }
    }
    found(quotient, left) == Some(a) && found(quotient, left.inverse()) == Some(quotient.inverse(a))
}

fn is_group(quotient: &Quotient) -> bool {
    for a in 0..quotient.order() {
        if !multiplies(quotient, a) {
            return false;
        }
    }
    true
}

// P4122 in 2 by 2 by 2 cells.
#[test]
fn multiplies_in_p4122(rt: HostRuntime) {
    let quotient = quotient_of(&rt, rt.alloc(), b"P 4w 2", [2, 1, 2]);
    assert!(rt; quotient.order() == 64 && is_group(&quotient));
}

// R-3 in 2 by 2 by 1 cells.
#[test]
fn multiplies_in_r3_bar(rt: HostRuntime) {
    let quotient = quotient_of(&rt, rt.alloc(), b"-R 3", [1, 2, 1]);
    assert!(rt; quotient.order() == 72 && is_group(&quotient));
}

fn are_alike(one: &Quotient, other: &Quotient) -> bool {
    one.d() == other.d()
        && one.order() == other.order()
        && one.group().len() == other.group().len()
        && one.translations() == other.translations()
}

#[test]
fn copies(rt: HostRuntime) -> Result<(), Fail> {
    let quotient = quotient_of(&rt, rt.alloc(), b"C 2x", [3, 1, 1]);
    assert!(rt; quotient.d() == [3, 1, 1] && quotient.order() == 12);
    assert!(rt; quotient.group().len() == 2);
    let copy = quotient.copy(rt.alloc())?;
    assert!(rt; are_alike(&quotient, &copy));
    assert!(rt; MAX_ORDER == 6144);
    Ok(())
}
