// The least translation of a rotation, modulo a lattice.
ghost use Rattle.std.specs.Prelude.{◌≡◌, ℕ, ◌<◌, ℤ, pos, ◌+ℤ◌, ◌*ℤ◌, length, slice_index_or, [], ⊤, IsTrue, ◌↔◌};
ghost use Rattle.std.specs.Int.{int_rem_euclid};
ghost use Rattle.std.specs.Ordering.{int_cmp};
ghost use Rattle.std.specs.Cmp.Lexicographic.{slice_cmp};
ghost use Rattle.space_ops.specs.Op.{number_at, vector_of, shift_of, seitz_of, IsWithin, IsShiftWithin};
ghost use Rattle.space_ops.specs.Lattice.{centrings_of};
ghost use Rattle.space_ops.specs.LeastShift.{IsLeastOp, HasRows, IsShaped, IsFirstOfReduced, IsLeastArray, earlier_of, reduced_vector, reduced_sum as sum_reduced};

use crate::lattice::Lattice;
use crate::op::{Op, TWELFTHS};

fn reduced(t: i32) -> i32
    ensures { result ≡ int_rem_euclid t (pos 12) }
{
    t.rem_euclid(TWELFTHS)
}

fn reduced_pair(t: i32, c: i32) -> i32
    requires left { IsWithin 60000000 t }
    requires right { IsWithin 12 c }
    ensures { result ≡ int_rem_euclid (t +ℤ c) (pos 12) }
{
    reduced(t + c)
}

fn reduced_sum(t: [i32; 3], c: [i32; 3]) -> [i32; 3]
    requires left { IsShiftWithin 60000000 t }
    requires right { IsShiftWithin 12 c }
    ensures { result ≡ sum_reduced t c }
{
    [
        reduced_pair(t[0], c[0]),
        reduced_pair(t[1], c[1]),
        reduced_pair(t[2], c[2]),
    ]
}

/// The translation with each coordinate reduced to the cell, from 0 to 11 twelfths.
pub fn reduced_shift(t: [i32; 3]) -> [i32; 3]
    ensures value { result ≡ shift_of (reduced_vector (vector_of t)) }
    ensures near { IsShiftWithin 12 result }
{
    [reduced(t[0]), reduced(t[1]), reduced(t[2])]
}

fn earlier(a: [i32; 3], b: [i32; 3]) -> [i32; 3]
    ensures { result ≡ earlier_of a b }
{
    a.min(b)
}

fn least_of(t: [i32; 3], centrings: &[[i32; 3]]) -> [i32; 3]
    requires near { IsShiftWithin 60000000 t }
    requires some { 0 < length centrings.now }
    requires centrings { (i : ℕ) → i < length centrings.now → IsShiftWithin 12 (slice_index_or centrings.now i []) }
    ensures { IsFirstOfReduced t centrings.now (length centrings.now) result }
{
    let mut least = reduced_sum(t, centrings[0]);
    for centring in centrings {
        let first = earlier(least, reduced_sum(t, *centring));
        least = first;
    }
    least
}

/// The least translation from 0 to 11 twelfths that differs from t by a lattice vector.
pub fn least_shift(t: [i32; 3], lattice: Lattice) -> [i32; 3]
    requires { IsShiftWithin 60000000 t }
    ensures { IsLeastArray lattice t result }
{
    least_of(t, lattice.centrings().as_slice())
}

/// The operation with its least translation.
pub fn least_op(op: Op, lattice: Lattice) -> Op
    requires { IsShiftWithin 60000000 op.shift }
    ensures least { IsLeastOp lattice (seitz_of op) result }
    ensures shaped { HasRows op.rot → IsShaped result }
    ensures rot { result.rot ≡ op.rot }
{
    let rot = op.rot;
    let shift = least_shift(op.shift, lattice);
    Op { rot, shift }
}
