// Rows that are added up.
ghost use Rattle.std.specs.Prelude.{◌≡◌, ◌<◌, ℕ, OnOk, OnErr, length};
ghost use Rattle.cyclo24.specs.Numerals.{of_whole};
ghost use Rattle.lin_alg.specs.Rows.{vector};
ghost use Rattle.lin_alg.specs.Matrix.{IsWideTerm};
ghost use Rattle.mode_project.specs.Turns.{IsTurnTable};
ghost use Rattle.mode_project.specs.Parts.{more};

use crate::space::{OfSpace, add_multiple, turn};
use crate::turns::Turns;
use cyclo24::{Field, Wide};

// Sets each entry to 0.
pub(crate) fn clear<F: Field>(row: &mut [F])
    ensures { vector F.field.laws F.value row.new ≡ (λ _. F.field.laws.nought) }
{
    for j in 0..row.len() {
        row[j] = F::zero();
    }
}

// Adds n times the row. An entry that is 0 costs its test alone.
fn add_row<F: Field>(into: &mut [F], n: i8, row: &[F]) -> Result<(), Wide>
    requires room { length into.old ≡ length row.now }
    ensures exact { OnOk result (vector F.field.laws F.value into.new ≡ more F.field.laws (vector F.field.laws F.value into.old) (of_whole F.field.laws n) (vector F.field.laws F.value row.now)) }
    ensures wide { OnErr result ((r : ℕ) × (r < length row.now) × IsWideTerm F.field (vector F.field.laws F.value into.old r) (of_whole F.field.laws n) (vector F.field.laws F.value row.now r)) }
{
    for r in 0..into.len() {
        if !row[r].is_zero() {
            into[r] = add_multiple(into[r], n, row[r])?;
        }
    }
    Ok(())
}

// Adds the row times entry (b, a) of the matrix of element q.
pub(crate) fn add_turned_row<S: OfSpace, F: Field>(
    into: &mut [F],
    turns: &Turns,
    q: usize,
    b: usize,
    a: usize,
    row: &[F],
) -> Result<(), Wide>
    requires table { IsTurnTable S.space turns.now }
    requires element { q < S.space.group.order }
    requires row { b < S.space.each }
    requires column { a < S.space.each }
    requires room { length into.old ≡ length row.now }
    ensures exact { OnOk result (vector F.field.laws F.value into.new ≡ more F.field.laws (vector F.field.laws F.value into.old) (of_whole F.field.laws (S.space.turn q b a)) (vector F.field.laws F.value row.now)) }
    ensures wide { OnErr result ((r : ℕ) × (r < length row.now) × IsWideTerm F.field (vector F.field.laws F.value into.old r) (of_whole F.field.laws (S.space.turn q b a)) (vector F.field.laws F.value row.now r)) }
{
    let n = turn::<S>(turns, q, b, a);
    if n == 0 {
        return Ok(());
    }
    add_row(into, n, row)
}
