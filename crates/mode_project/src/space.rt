// Spaces of numbers at atoms, for functions over all of them.
ghost use Rattle.std.specs.Prelude.{◌≡◌, ◌<◌, ◌+◌, ℕ, IfOk, OnErr, length};
ghost use Rattle.cyclo24.specs.Numerals.{of_whole};
ghost use Rattle.lin_alg.specs.Rows.{vector};
ghost use Rattle.lin_alg.specs.Matrix.{IsWideTerm};
ghost use Rattle.mode_project.specs.AtomSpace.{AtomSpace};
ghost use Rattle.mode_project.specs.Turns.{no_space, IsTurnTable};
ghost use Rattle.mode_project.specs.WideParts.{IsWideOne};

use crate::turns::Turns;
use cyclo24::{Field, Wide};
use lin_alg::add_product;
use std::marker::Brand;

// The space that a function works in; only proofs speak of it.
pub(crate) trait OfSpace {
    ghost space: { AtomSpace };
}

impl OfSpace for Brand {
    ghost space = { no_space };
}

// Entry (a, b) of the matrix of element q.
#[inline(always)]
pub(crate) fn turn<S: OfSpace>(turns: &Turns, q: usize, a: usize, b: usize) -> i8
    requires table { IsTurnTable S.space turns.now }
    requires element { q < S.space.group.order }
    requires row { a < S.space.each }
    requires column { b < S.space.each }
    ensures { result ≡ S.space.turn q a b }
{
    turns.matrices[q / turns.translations][a][b]
}

// The sum and y. Where either is 0, it is the other.
#[inline(always)]
fn add_one<F: Field>(sum: F, y: F) -> Result<F, Wide>
    ensures exact { IfOk result (λ r. F.value r ≡ F.field.laws.plus (F.value sum) (F.value y)) }
    ensures wide { OnErr result (IsWideOne F.field (F.value sum) (F.value y)) }
{
    if y.is_zero() {
        return Ok(sum);
    }
    if sum.is_zero() {
        return Ok(y);
    }
    let more = sum.add(y)?;
    Ok(more)
}

// The sum and n y. Where n or y is 0, or n is 1 or -1, no product is formed.
#[inline(always)]
pub(crate) fn add_multiple<F: Field>(sum: F, n: i8, y: F) -> Result<F, Wide>
    ensures exact { IfOk result (λ r. F.value r ≡ F.field.laws.plus (F.value sum) (F.field.laws.times (of_whole F.field.laws n) (F.value y))) }
    ensures wide { OnErr result (IsWideTerm F.field (F.value sum) (of_whole F.field.laws n) (F.value y)) }
{
    if n == 0 {
        return Ok(sum);
    }
    if n == 1 {
        return add_one(sum, y);
    }
    if n == -1 {
        return add_one(sum, y.neg());
    }
    add_product(sum, F::small(n), y)
}

// The sum and y times entry (a, b) of the matrix of element q. Where either is 0, no product is formed.
#[inline(always)]
pub(crate) fn add_turn<S: OfSpace, F: Field>(
    sum: F,
    turns: &Turns,
    q: usize,
    a: usize,
    b: usize,
    y: F,
) -> Result<F, Wide>
    requires table { IsTurnTable S.space turns.now }
    requires element { q < S.space.group.order }
    requires row { a < S.space.each }
    requires column { b < S.space.each }
    ensures exact { IfOk result (λ r. F.value r ≡ F.field.laws.plus (F.value sum) (F.field.laws.times (of_whole F.field.laws (S.space.turn q a b)) (F.value y))) }
    ensures wide { OnErr result (IsWideTerm F.field (F.value sum) (of_whole F.field.laws (S.space.turn q a b)) (F.value y)) }
{
    add_multiple(sum, turn::<S>(turns, q, a, b), y)
}

// The same with an entry of a row, which is read only where the factor isn't 0.
#[inline(always)]
pub(crate) fn add_turned_entry<S: OfSpace, F: Field>(
    sum: F,
    turns: &Turns,
    q: usize,
    a: usize,
    b: usize,
    row: &[F],
    at: usize,
) -> Result<F, Wide>
    requires table { IsTurnTable S.space turns.now }
    requires element { q < S.space.group.order }
    requires row { a < S.space.each }
    requires column { b < S.space.each }
    requires place { at < length row.now }
    ensures exact { IfOk result (λ r. F.value r ≡ F.field.laws.plus (F.value sum) (F.field.laws.times (of_whole F.field.laws (S.space.turn q a b)) (vector F.field.laws F.value row.now at))) }
    ensures wide { OnErr result (IsWideTerm F.field (F.value sum) (of_whole F.field.laws (S.space.turn q a b)) (vector F.field.laws F.value row.now at)) }
{
    let n = turn::<S>(turns, q, a, b);
    if n == 0 {
        return Ok(sum);
    }
    add_multiple(sum, n, row[at])
}
