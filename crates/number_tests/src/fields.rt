// Values through the trait, as keys, in order, and from terms.
use crate::values::{has_real_text, has_text, number, square_roots};
use cyclo24::{Field, K24, Wide, Z24};
use indexmap::IndexSet;
use iso_text::{Term, Unit};
use std::alloc::Global;

fn are_square_roots() -> Result<bool, Wide> {
    let [two, three, six] = square_roots()?;
    let squares = [two.mul(two)?, three.mul(three)?, six.mul(six)?];
    Ok(squares == [K24::whole(2), K24::whole(3), K24::whole(6)])
}

fn is_root_of_two(alloc: Global) -> Result<bool, Wide> {
    let root = Z24::root(3).add(Z24::root(21))?;
    let real = root.real_part()?;
    let back = Z24::from_real(real)?;
    Ok(root.imag_part()?.is_zero() && back == root && has_real_text(alloc, real, "r2"))
}

#[test]
fn the_square_root_of_two(rt: HostRuntime) {
    assert!(rt; are_square_roots() == Ok(true));
    assert!(rt; is_root_of_two(rt.alloc()) == Ok(true));
}

// Whether the powers of exp(2 pi i / 24) follow one another.
fn are_powers() -> Result<bool, Wide> {
    let mut power = Z24::one();
    for a in 0..24u8 {
        if Z24::root(a) != power {
            return Ok(false);
        }
        power = power.mul(Z24::root(1))?;
    }
    Ok(power == Z24::one())
}

fn is_product_of_roots(alloc: Global) -> Result<bool, Wide> {
    Ok(has_text(alloc, Z24::root(1).mul(Z24::root(7))?, "-1+z4"))
}

#[test]
fn powers(rt: HostRuntime) {
    assert!(rt; are_powers() == Ok(true));
    assert!(rt; is_product_of_roots(rt.alloc()) == Ok(true));
}

const TERMS: [Term; 6] = [
    Term {
        num: 1,
        den: 2,
        unit: Unit::One,
    },
    Term {
        num: -3,
        den: 4,
        unit: Unit::Z(17),
    },
    Term {
        num: 1,
        den: 3,
        unit: Unit::R6,
    },
    Term {
        num: 5,
        den: 1,
        unit: Unit::I,
    },
    Term {
        num: 7,
        den: 24,
        unit: Unit::R2,
    },
    Term {
        num: -2,
        den: 1,
        unit: Unit::R3,
    },
];

#[test]
fn sums_of_terms(rt: HostRuntime) {
    let sum = "1/2+5/8*z1-4*z2+5/8*z3+19/24*z5+7*z6-2/3*z7";
    assert!(rt; has_text(rt.alloc(), Z24::from_terms(&TERMS), sum));
}

fn cube<F: Field>(x: F) -> Result<F, Wide> {
    x.mul(x)?.mul(x)
}

// x (y + 1) - x y - x
fn distributes<F: Field>(x: F, y: F) -> Result<bool, Wide> {
    let left = x.mul(y.add(F::one())?)?;
    let right = x.mul(y)?;
    Ok(left.sub(right)?.sub(x)?.is_zero())
}

fn distribute() -> Result<bool, Wide> {
    let x = number([1, -2, 3, 4], K24::ratio(1, 5))?;
    distributes(x, number([-7, 2, 0, 1], K24::ratio(1, 6))?)
}

#[test]
fn used_through_the_trait(rt: HostRuntime) {
    assert!(rt; distribute() == Ok(true));
    assert!(rt; cube(Z24::root(11)) == Ok(Z24::root(9)));
    assert!(rt; K24::zero().is_zero());
    assert!(rt; !K24::one().is_zero());
    assert!(rt; K24::one() == K24::ratio(6, 6));
}

// Inserts each value, and tells whether the set was without it just where it should be.
fn are_fresh<F: Field + Drop>(alloc: Global, values: &[(F, bool)]) -> bool {
    let mut keys = IndexSet::new(alloc);
    for (x, fresh) in values {
        match keys.insert(*x) {
            Ok(found) if found == *fresh => {}
            _ => return false,
        }
    }
    true
}

#[test]
fn real_keys(rt: HostRuntime) {
    let values = [
        (K24::ratio(1, 2), true),
        (K24::ratio(2, 4), false),
        (K24::ratio(1, 3), true),
        (K24::ratio(-3, 6), true),
        (K24::ratio(5, 10), false),
    ];
    assert!(rt; are_fresh(rt.alloc(), &values));
}

#[test]
fn cyclotomic_keys(rt: HostRuntime) {
    match Z24::root(4).sub(Z24::one()) {
        Ok(sum) => {
            let values = [(Z24::root(8), true), (sum, false), (Z24::root(9), true)];
            assert!(rt; are_fresh(rt.alloc(), &values))
        }
        Err(_) => assert!(rt; false),
    }
}

fn half_of_roots_in_order() -> Result<bool, Wide> {
    let half = K24::ratio(1, 2);
    Ok(number([0, 0, 0, 1], half)? < number([0, 1, 0, 0], half)?)
}

#[test]
fn order_by_denominator_first(rt: HostRuntime) {
    let half = K24::ratio(1, 2);
    assert!(rt; K24::whole(5) < half);
    assert!(rt; half < K24::ratio(-1, 3));
    assert!(rt; half_of_roots_in_order() == Ok(true));
}
