// The rank of P, by its trace.
ghost use Rattle.std.specs.Prelude.{◌≡◌, ◌<◌, ℕ, [], IfOk, IfSome, length, slice_index_or};
ghost use Rattle.cyclo24.specs.Sums.{total};
ghost use Rattle.lin_alg.specs.Matrices.{IsClassFunction};
ghost use Rattle.lin_alg.specs.Rows.{vector};
ghost use Rattle.mode_project.specs.AtomSpace.{IsAtomSpace, size_of};
ghost use Rattle.mode_project.specs.Projection.{projection, column_of};
ghost use Rattle.mode_project.specs.Turns.{IsOrbitIn, AreWays};
ghost use Rattle.mode_project.specs.Parts.{rows_in, row_in, AreVectors};
ghost use Rattle.mode_project.specs.Scaled.{IsRank};

use crate::scale::{are_equal, scale_of};
use crate::space::OfSpace;
use cyclo24::{Field, Wide};
use std::alloc::Global;
use wyckoff::Orbit;

// The sum of the entries on the diagonal of the first block.
fn diagonal<F: Field>(columns: &[Vec<F>]) -> Result<F, Wide>
    requires long { (b : ℕ) → b < length columns.now → b < length (slice_index_or (rows_in columns.now) b []) }
    ensures { IfOk result (λ r. F.value r ≡ total F.field.laws (length columns.now) (λ b. row_in F.field.laws F.value (rows_in columns.now) b b)) }
{
    let mut sum = F::zero();
    for b in 0..columns.len() {
        sum = sum.add(columns[b][b])?;
    }
    Ok(sum)
}

// The number, n times.
fn multiple<F: Field>(x: F, n: usize) -> Result<F, Wide>
    ensures { IfOk result (λ r. F.value r ≡ total F.field.laws n (λ _. F.value x)) }
{
    let mut sum = F::zero();
    for _ in 0..n {
        sum = sum.add(x)?;
    }
    Ok(sum)
}

// How often the scale makes up the trace, if below a bound.
fn times_in<F: Field>(trace: F, scale: F, bound: usize) -> Option<usize>
    ensures { IfSome result (λ r. total F.field.laws r (λ _. F.value scale) ≡ F.value trace) }
{
    let mut sum = F::zero();
    for r in 0..bound {
        if are_equal(sum, trace) {
            return Some(r);
        }
        match sum.add(scale) {
            Ok(more) => sum = more,
            Err(_) => return None,
        }
    }
    None
}

// The rank of P, from its columns for the first atom. None where it isn't seen, or isn't below the size.
pub(crate) fn rank_of<S: OfSpace, F: Field>(
    alloc: Global,
    orbit: &Orbit,
    ways: &[(usize, usize)],
    weights: &[F],
    columns: &[Vec<F>],
    size: usize,
) -> Option<usize>
    requires laws { IsAtomSpace S.space }
    requires orbit { IsOrbitIn S.space orbit.now }
    requires ways { AreWays S.space ways.now S.space.atoms }
    requires free { S.space.atoms ≡ S.space.group.order }
    requires weights { length weights.now ≡ S.space.group.order }
    requires class { IsClassFunction S.space.group (vector F.field.laws F.value weights.now) }
    requires columns { AreVectors F.field.laws F.value (size_of S.space) (column_of F.field.laws (size_of S.space) (projection F.field.laws S.space (vector F.field.laws F.value weights.now))) (rows_in columns.now) S.space.each }
    ensures { IfSome result (IsRank F.field.laws (size_of S.space) (projection F.field.laws S.space (vector F.field.laws F.value weights.now))) }
{
    let scale = match scale_of::<S, F>(alloc, orbit, ways, weights) {
        Some(scale) => scale,
        None => return None,
    };
    let first = match diagonal(columns) {
        Ok(first) => first,
        Err(_) => return None,
    };
    let trace = match multiple(first, orbit.atoms()) {
        Ok(trace) => trace,
        Err(_) => return None,
    };
    match times_in(trace, scale, size) {
        Some(rank) => Some(rank),
        None => None,
    }
}
