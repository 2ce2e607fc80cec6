// Real forms of larger representations: the vectors of a cubic group, stars of twelve and of
// twenty-four arms, and matrices for which no candidate fits. `bench/` counts what they take.
ghost use Rattle.std.specs.Prelude.{◌<◌};

use crate::cases::induced_of;
use crate::forms::{form_of, has_basis, is_no_basis};
use cyclo24::{Field, K24};
use lin_alg::{Acts, add_product};
use real_form::RealForm;
use std::alloc::Global;

// The vectors of a cubic group.
const VECTORS: &str = "isodist 1
hall -P 4 2 3
irrep T 3
k 0 0 0
mat x,y,z 1 0 0 0 1 0 0 0 1
mat x,y,-z 1 0 0 0 1 0 0 0 -1
mat x,-y,z 1 0 0 0 -1 0 0 0 1
mat x,-y,-z 1 0 0 0 -1 0 0 0 -1
mat -x,y,z -1 0 0 0 1 0 0 0 1
mat -x,y,-z -1 0 0 0 1 0 0 0 -1
mat -x,-y,z -1 0 0 0 -1 0 0 0 1
mat -x,-y,-z -1 0 0 0 -1 0 0 0 -1
mat x,z,y 1 0 0 0 0 1 0 1 0
mat x,z,-y 1 0 0 0 0 1 0 -1 0
mat x,-z,y 1 0 0 0 0 -1 0 1 0
mat x,-z,-y 1 0 0 0 0 -1 0 -1 0
mat -x,z,y -1 0 0 0 0 1 0 1 0
mat -x,z,-y -1 0 0 0 0 1 0 -1 0
mat -x,-z,y -1 0 0 0 0 -1 0 1 0
mat -x,-z,-y -1 0 0 0 0 -1 0 -1 0
mat y,x,z 0 1 0 1 0 0 0 0 1
mat y,x,-z 0 1 0 1 0 0 0 0 -1
mat y,-x,z 0 1 0 -1 0 0 0 0 1
mat y,-x,-z 0 1 0 -1 0 0 0 0 -1
mat -y,x,z 0 -1 0 1 0 0 0 0 1
mat -y,x,-z 0 -1 0 1 0 0 0 0 -1
mat -y,-x,z 0 -1 0 -1 0 0 0 0 1
mat -y,-x,-z 0 -1 0 -1 0 0 0 0 -1
mat y,z,x 0 1 0 0 0 1 1 0 0
mat y,z,-x 0 1 0 0 0 1 -1 0 0
mat y,-z,x 0 1 0 0 0 -1 1 0 0
mat y,-z,-x 0 1 0 0 0 -1 -1 0 0
mat -y,z,x 0 -1 0 0 0 1 1 0 0
mat -y,z,-x 0 -1 0 0 0 1 -1 0 0
mat -y,-z,x 0 -1 0 0 0 -1 1 0 0
mat -y,-z,-x 0 -1 0 0 0 -1 -1 0 0
mat z,x,y 0 0 1 1 0 0 0 1 0
mat z,x,-y 0 0 1 1 0 0 0 -1 0
mat z,-x,y 0 0 1 -1 0 0 0 1 0
mat z,-x,-y 0 0 1 -1 0 0 0 -1 0
mat -z,x,y 0 0 -1 1 0 0 0 1 0
mat -z,x,-y 0 0 -1 1 0 0 0 -1 0
mat -z,-x,y 0 0 -1 -1 0 0 0 1 0
mat -z,-x,-y 0 0 -1 -1 0 0 0 -1 0
mat z,y,x 0 0 1 0 1 0 1 0 0
mat z,y,-x 0 0 1 0 1 0 -1 0 0
mat z,-y,x 0 0 1 0 -1 0 1 0 0
mat z,-y,-x 0 0 1 0 -1 0 -1 0 0
mat -z,y,x 0 0 -1 0 1 0 1 0 0
mat -z,y,-x 0 0 -1 0 1 0 -1 0 0
mat -z,-y,x 0 0 -1 0 -1 0 1 0 0
mat -z,-y,-x 0 0 -1 0 -1 0 -1 0 0
end
";

// Twelve arms, whose little group has four operations.
const TWELVE: &str = "isodist 1
hall -P 4 2 3
irrep S 1
k 1/4 1/4 0
mat x,y,z 1
mat x,y,-z 1
mat y,x,z 1
mat y,x,-z 1
end
";

// Twenty-four arms, modulo the largest quotient.
const TWENTY_FOUR: &str = "isodist 1
hall -I 4 2 3
irrep S 1
k 1/4 1/2 0
mat x,y,z 1
mat x,y,-z 1
end
";

// Six arms of two rows each, whose basis vectors have different lengths: no candidate fits.
const UNFIT: &str = "isodist 1
hall -P 4 2 3
irrep V0 2
k 1/4 0 0
mat x,y,z 1 0 0 1
mat x,-y,-z -1 0 0 -1
mat x,-y,z 0 -1/2 -2 0
mat x,-z,-y 0 -1/2*i 2*i 0
mat x,-z,y 1*i 0 0 -1*i
mat x,z,-y -1*i 0 0 1*i
mat x,z,y 0 1/2*i -2*i 0
mat x,y,-z 0 1/2 2 0
end
";

// Entry (i, j) of a matrix of d columns that is written row by row.
fn entry(matrix: &[K24], d: usize, i: usize, j: usize) -> K24 {
    match matrix.get(i.saturating_mul(d).saturating_add(j)) {
        Some(x) => *x,
        None => K24::zero(),
    }
}

fn product_entry(a: &[K24], b: &[K24], d: usize, i: usize, j: usize) -> Option<K24> {
    let mut sum = K24::zero();
    for k in 0..d {
        match add_product(sum, entry(a, d, i, k), entry(b, d, k, j)) {
            Ok(next) => sum = next,
            Err(_) => return None,
        }
    }
    Some(sum)
}

fn is_product(a: &[K24], b: &[K24], ab: &[K24], d: usize) -> bool {
    for i in 0..d {
        for j in 0..d {
            if product_entry(a, b, d, i, j) != Some(entry(ab, d, i, j)) {
                return false;
            }
        }
    }
    true
}

// The matrix of an element, row by row.
fn matrix_of(alloc: Global, form: &RealForm, q: usize) -> Option<Vec<K24>> {
    if q >= form.order() {
        return None;
    }
    let mut row: Vec<K24> = Vec::new(alloc);
    for _ in 0..form.dim() {
        row.push(K24::zero()).ok()?;
    }
    let mut matrix: Vec<K24> = Vec::new(alloc);
    for i in 0..form.dim() {
        if row.len() != form.dim() {
            return None;
        }
        form.row(q, i, &mut row).ok()?;
        for x in &row {
            matrix.push(*x).ok()?;
        }
    }
    Some(matrix)
}

// Whether the matrices of a and b multiply to that of a b.
fn multiplies(alloc: Global, form: &RealForm, a: usize, b: usize) -> Option<bool> {
    if a >= form.order() || b >= form.order() {
        return None;
    }
    let left = matrix_of(alloc, form, a)?;
    let right = matrix_of(alloc, form, b)?;
    let both = matrix_of(alloc, form, form.product(a, b))?;
    Some(is_product(&left, &right, &both, form.dim()))
}

// Whether the matrices of n elements, every `step` from 0 on, multiply, each with each.
fn all_multiply(alloc: Global, form: &RealForm, n: usize, step: usize) -> bool {
    for a in 0..n {
        for b in 0..n {
            let left = a.saturating_mul(step);
            let right = b.saturating_mul(step);
            if multiplies(alloc, form, left, right) != Some(true) {
                return false;
            }
        }
    }
    true
}

#[test]
fn vectors_of_a_cubic_group(rt: HostRuntime) {
    let case = induced_of(&rt, rt.alloc(), VECTORS.as_bytes());
    let form = form_of(&rt, rt.alloc(), &case);
    let zero = K24::zero();
    assert!(rt; form.order() == 48);
    assert!(rt; form.dim() == 3);
    assert!(rt; has_basis(&form, 0, &[K24::one(), zero, zero, zero, zero, zero]));
    assert!(rt; all_multiply(rt.alloc(), &form, 48, 1));
}

#[test]
fn twelve_arms(rt: HostRuntime) {
    let case = induced_of(&rt, rt.alloc(), TWELVE.as_bytes());
    let form = form_of(&rt, rt.alloc(), &case);
    assert!(rt; form.order() == 3072);
    assert!(rt; form.dim() == 12);
    assert!(rt; all_multiply(rt.alloc(), &form, 48, 64));
}

#[test]
fn twenty_four_arms(rt: HostRuntime) {
    let case = induced_of(&rt, rt.alloc(), TWENTY_FOUR.as_bytes());
    let form = form_of(&rt, rt.alloc(), &case);
    assert!(rt; form.order() == 6144);
    assert!(rt; form.dim() == 24);
    assert!(rt; multiplies(rt.alloc(), &form, 6143, 6143) == Some(true));
}

#[test]
fn no_candidate_of_twelve(rt: HostRuntime) {
    let case = induced_of(&rt, rt.alloc(), UNFIT.as_bytes());
    let form = RealForm::new(rt.alloc(), &case.quotient, &case.induced, None);
    assert!(rt; case.quotient.order() == 3072);
    assert!(rt; is_no_basis(&form));
}
