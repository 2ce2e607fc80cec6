// What small representations induce, worked out by hand.
ghost use Rattle.std.specs.Prelude.{◌≡◌, ◌<◌, length};
ghost use Rattle.super_group.specs.Quotient.{order_of};
ghost use Rattle.induce.specs.Tables.{dimension_in};
ghost use Rattle.induce.specs.InducedView.{IsInducedOf};

use crate::cases::{Case, induced_of};
use cyclo24::{Field, K24, Z24};
use induce::Kind;

// The star k and -k of a twofold axis: a translation has the phases of k and -k, and the axis changes
// the arms.
const TWO_ARMS: &str = "isodist 1
hall P 2
irrep S 1
k 1/3 0 0
mat x,y,z 1
end
";

// The point Z of a screw axis, whose values are i and -i.
const SCREW: &str = "isodist 1
hall P 2c
irrep Z1 1
k 0 0 1/2
mat x,y,z 1
mat -x,-y,z+1/2 z6
end
";

// Three arms of a rhombohedral lattice.
const THREE_ARMS: &str = "isodist 1
hall R 3
irrep L 1
k 1/3 1/3 0
mat x,y,z 1
end
";

// Entry (i, j) of D(q), where there is one.
fn entry_of(case: &Case, q: usize, i: usize, j: usize) -> Option<Z24>
    requires { IsInducedOf case.now.quotient case.now.induced }
{
    let dim = case.induced.dim();
    if q < case.quotient.order() && i < dim && j < dim {
        Some(case.induced.entry(&case.quotient, q, i, j))
    } else {
        None
    }
}

// Whether D(q) has these entries, row by row, in two rows.
fn is_matrix(case: &Case, q: usize, want: [Z24; 4]) -> bool
    requires { IsInducedOf case.now.quotient case.now.induced }
{
    case.induced.dim() == 2
        && entry_of(case, q, 0, 0) == Some(want[0])
        && entry_of(case, q, 0, 1) == Some(want[1])
        && entry_of(case, q, 1, 0) == Some(want[2])
        && entry_of(case, q, 1, 1) == Some(want[3])
}

// Whether D(q) has this character and this weight.
fn has_trace(case: &Case, q: usize, character: Z24, weight: K24) -> bool
    requires { IsInducedOf case.now.quotient case.now.induced }
{
    q < case.quotient.order()
        && case.induced.character(q) == character
        && case.induced.weight(q) == weight
}

// Whether there are three rows with this number on the diagonal of D(q).
fn has_diagonal(case: &Case, q: usize, want: Z24) -> bool
    requires { IsInducedOf case.now.quotient case.now.induced }
{
    case.induced.dim() == 3
        && entry_of(case, q, 0, 0) == Some(want)
        && entry_of(case, q, 1, 1) == Some(want)
        && entry_of(case, q, 2, 2) == Some(want)
}

fn are_two_arms(case: &Case) -> bool
    requires { IsInducedOf case.now.quotient case.now.induced }
{
    let zero = Z24::zero();
    let one = Z24::one();
    is_matrix(case, 0, [one, zero, zero, one])
        && is_matrix(case, 1, [Z24::root(16), zero, zero, Z24::root(8)])
        && is_matrix(case, 3, [zero, one, one, zero])
        && is_matrix(case, 4, [zero, Z24::root(16), Z24::root(8), zero])
}

#[test]
fn two_arms_change_places(rt: HostRuntime) {
    let case = induced_of(&rt, rt.alloc(), TWO_ARMS.as_bytes());
    assert!(rt; are_two_arms(&case));
    assert!(rt; has_trace(&case, 0, Z24::small(2), K24::small(4)));
    assert!(rt; has_trace(&case, 1, Z24::small(-1), K24::small(-2)));
    assert!(rt; has_trace(&case, 3, Z24::zero(), K24::small(0)));
    assert!(rt; case.induced.kind() == Kind::Real);
    assert!(rt; case.induced.real_dim() == 2);
    assert!(rt; case.induced.star().arms() == 2);
    assert!(rt; case.induced.rep().size() == 1);
}

#[test]
fn a_screw_axis(rt: HostRuntime) {
    let case = induced_of(&rt, rt.alloc(), SCREW.as_bytes());
    assert!(rt; has_trace(&case, 0, Z24::one(), K24::small(2)));
    assert!(rt; has_trace(&case, 1, Z24::root(12), K24::small(-2)));
    assert!(rt; has_trace(&case, 2, Z24::root(6), K24::small(0)));
    assert!(rt; has_trace(&case, 3, Z24::root(18), K24::small(0)));
    assert!(rt; case.induced.kind() == Kind::Complex);
    assert!(rt; case.induced.real_dim() == 2);
}

#[test]
fn three_arms_of_one_phase(rt: HostRuntime) {
    let case = induced_of(&rt, rt.alloc(), THREE_ARMS.as_bytes());
    assert!(rt; has_diagonal(&case, 1, Z24::root(16)));
    assert!(rt; has_diagonal(&case, 27, Z24::zero()));
    assert!(rt; case.induced.kind() == Kind::Complex);
    assert!(rt; case.induced.real_dim() == 6);
}
