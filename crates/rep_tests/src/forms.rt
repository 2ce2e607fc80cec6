// Bases and matrices of real forms, worked out by hand.
ghost use Rattle.std.specs.Prelude.{◌<◌};
ghost use Rattle.induce.specs.InducedView.{IsInducedOf};

use crate::cases::{Case, induced_of};
use cyclo24::{Field, K24, Z24};
use lin_alg::Acts;
use real_form::{FormError, RealForm};
use std::alloc::Global;
use std::process::Abort;
use super_group::Quotient;

// The twofold representation of a trigonal group.
const PAIR: &str = "isodist 1
hall P 3 2\"
irrep E 2
k 0 0 0
mat x,y,z 1 0 0 1
mat -y,x-y,z z8 0 0 z16
mat -x+y,-x,z z16 0 0 z8
mat y,x,-z 0 1 1 0
mat x-y,-y,-z 0 z16 z8 0
mat -x,-x+y,-z 0 z8 z16 0
end
";

// The same with basis vectors of different lengths: no candidate fits.
const UNEQUAL: &str = "isodist 1
hall P 3 2\"
irrep E 2
k 0 0 0
mat x,y,z 1 0 0 1
mat -y,x-y,z z8 0 0 z16
mat -x+y,-x,z z16 0 0 z8
mat y,x,-z 0 1/2 2 0
mat x-y,-y,-z 0 1/2*z16 2*z8 0
mat -x,-x+y,-z 0 1/2*z8 2*z16 0
end
";

// The point Z of a screw axis, whose values are i and -i.
const SCREW: &str = "isodist 1
hall P 2c
irrep Z1 1
k 0 0 1/2
mat x,y,z 1
mat -x,-y,z+1/2 z6
end
";

const THREE: [[i8; 3]; 3] = [[0, -1, 0], [1, -1, 0], [0, 0, 1]];

const TWO: [[i8; 3]; 3] = [[0, 1, 0], [1, 0, 0], [0, 0, -1]];

const AXIS: [[i8; 3]; 3] = [[-1, 0, 0], [0, -1, 0], [0, 0, 1]];

// The first element of a rotation.
fn element_of(rt: &impl Abort, quotient: &Quotient, rot: [[i8; 3]; 3]) -> usize {
    for q in 0..quotient.order() {
        if quotient.element(q).rot == rot {
            return q;
        }
    }
    panic!(rt; "no such rotation")
}

// The cosine of 15 a degrees.
fn cosine(rt: &impl Abort, a: u8) -> K24
    requires { a < 24 }
{
    Z24::root(a).real_part().expect(rt, "a number")
}

/// The real form of a case.
pub fn form_of(rt: &impl Abort, alloc: Global, case: &Case) -> RealForm
    requires { IsInducedOf case.now.quotient case.now.induced }
{
    RealForm::new(alloc, &case.quotient, &case.induced, None).expect(rt, "a real form")
}

// What a given vector leads to.
fn given_form(rt: &impl Abort, alloc: Global, case: &Case, w: &[Z24]) -> Result<RealForm, FormError>
    requires { IsInducedOf case.now.quotient case.now.induced }
{
    assert!(rt; case.induced.dim() == w.len());
    RealForm::new(alloc, &case.quotient, &case.induced, Some(w))
}

/// Whether there is no real basis.
pub fn is_no_basis(form: &Result<RealForm, FormError>) -> bool {
    match form {
        Ok(_) => false,
        Err(error) => *error == FormError::NoRealBasis,
    }
}

/// Whether row i of the basis is this one.
pub fn has_basis(form: &RealForm, i: usize, want: &[K24]) -> bool {
    i < form.dim() && form.basis(i) == want
}

// Whether the matrix of an element has these two rows.
fn is_matrix(form: &RealForm, q: usize, first: [K24; 2], second: [K24; 2]) -> bool {
    has_row(form, q, 0, first) && has_row(form, q, 1, second)
}

fn has_row(form: &RealForm, q: usize, i: usize, want: [K24; 2]) -> bool {
    let mut row = [K24::zero(); 2];
    if form.dim() != 2 || q >= form.order() || i >= 2 {
        return false;
    }
    match form.row(q, i, &mut row) {
        Ok(()) => row == want,
        Err(_) => false,
    }
}

#[test]
fn a_pair(rt: HostRuntime) {
    let case = induced_of(&rt, rt.alloc(), PAIR.as_bytes());
    let form = form_of(&rt, rt.alloc(), &case);
    let zero = K24::zero();
    let one = K24::one();
    let less = K24::small(-1);
    assert!(rt; form.order() == 6);
    assert!(rt; has_basis(&form, 0, &[one, one, zero, zero]));
    assert!(rt; has_basis(&form, 1, &[zero, zero, less, one]));
    let three = element_of(&rt, &case.quotient, THREE);
    let half = cosine(&rt, 8);
    let root = cosine(&rt, 2);
    assert!(rt; is_matrix(&form, three, [half, root], [cosine(&rt, 10), half]));
    let two = element_of(&rt, &case.quotient, TWO);
    assert!(rt; is_matrix(&form, two, [one, zero], [zero, less]));
}

#[test]
fn a_given_vector(rt: HostRuntime) {
    let case = induced_of(&rt, rt.alloc(), UNEQUAL.as_bytes());
    let none = RealForm::new(rt.alloc(), &case.quotient, &case.induced, None);
    assert!(rt; is_no_basis(&none));
    let one = Z24::one();
    let equal = given_form(&rt, rt.alloc(), &case, &[one, one]);
    assert!(rt; is_no_basis(&equal));
    let given = given_form(&rt, rt.alloc(), &case, &[one, Z24::small(2)]);
    let form = given.expect(&rt, "a real form");
    let zero = K24::zero();
    let half = cosine(&rt, 4);
    assert!(rt; form.dim() == 2);
    assert!(rt; has_basis(&form, 0, &[half, K24::one(), zero, zero]));
    assert!(rt; has_basis(&form, 1, &[zero, zero, cosine(&rt, 8), K24::one()]));
    let three = element_of(&rt, &case.quotient, THREE);
    let less = cosine(&rt, 8);
    assert!(rt;
        is_matrix(
            &form,
            three,
            [less, cosine(&rt, 2)],
            [cosine(&rt, 10), less]
        )
    );
    let two = element_of(&rt, &case.quotient, TWO);
    assert!(rt; is_matrix(&form, two, [K24::one(), zero], [zero, K24::small(-1)]));
}

#[test]
fn both_parts_of_a_screw(rt: HostRuntime) {
    let case = induced_of(&rt, rt.alloc(), SCREW.as_bytes());
    let form = form_of(&rt, rt.alloc(), &case);
    let zero = K24::zero();
    let one = K24::one();
    assert!(rt; form.order() == 4);
    assert!(rt; has_basis(&form, 0, &[one, zero]));
    assert!(rt; has_basis(&form, 1, &[zero, one]));
    let axis = element_of(&rt, &case.quotient, AXIS);
    assert!(rt; is_matrix(&form, axis, [zero, K24::small(-1)], [one, zero]));
}
