// The written steps of an insertion over the stored rows: pairs of a pivot and the row's entries.
ghost use Rattle.std.specs.Prelude.{◌≡◌, ◌<◌, ◌≤◌, ◌+◌, ◌++◌, ◌∷◌, ℕ, List, MatchOption, OnOk, OnErr, IfOk, vec_len, vec_capacity, length, map, take, drop};
ghost use Rattle.std.specs.List.{insert};
ghost use Rattle.lin_alg.specs.Spans.{less};
ghost use Rattle.lin_alg.specs.Reduced.{reduce, scaled, cleared, placed};
ghost use Rattle.lin_alg.specs.Rows.{vector, exact_rows, HaveWidth, HaveLength, AreEnded};
ghost use Rattle.lin_alg.specs.Insertion.{IsLastColumn, IsWideLess, IsWideReduce, IsWideScale, IsWideClear, IsWideInsert, IsInserted};
ghost use Rattle.lin_alg.specs.declared.echelon.Grew.TheVariants as grew;

use crate::Grew;
use cyclo24::{Field, Wide};

// Takes the multiple of b from the row that the row's entry at p says. Behind its end b is 0. It is
// compiled into the two loops over the stored rows, which stay functions of their own: so it costs
// the fewest instructions (`bench/lin_alg.sh`).
#[inline(always)]
fn take_multiple<F: Field>(row: &mut [F], p: usize, b: &[F]) -> Result<(), Wide>
    requires place { p < length row.old }
    requires length { length b.now ≤ length row.old }
    ensures exact { OnOk result (vector F.field.laws F.value row.new ≡ less F.field.laws (vector F.field.laws F.value row.old) (vector F.field.laws F.value row.old p) (vector F.field.laws F.value b.now)) }
    ensures wide { OnErr result (IsWideLess F.field (vector F.field.laws F.value row.old) (vector F.field.laws F.value row.old p) (vector F.field.laws F.value b.now)) }
{
    let c = entry(row, p);
    for j in 0..b.len() {
        if !b[j].is_zero() {
            let product = c.mul(b[j])?;
            row[j] = row[j].sub(product)?;
        }
    }
    Ok(())
}

// The entry at a column.
pub(crate) fn entry<F: Field>(row: &[F], p: usize) -> F
    requires { p < length row.now }
    ensures { F.value result ≡ vector F.field.laws F.value row.now p }
{
    row[p]
}

// Step 1: takes the row to 0 in each pivot column. A stored row is 0 behind its pivot.
#[inline(never)]
pub(crate) fn reduce_row<F: Field>(lines: &[(usize, Vec<F>)], row: &mut [F]) -> Result<(), Wide>
    requires shape { HaveWidth (length row.old) (map (λ r. (r.0, r.1.items)) lines.now) }
    requires ended { AreEnded F.field.laws F.value (map (λ r. (r.0, r.1.items)) lines.now) }
    ensures exact { OnOk result (vector F.field.laws F.value row.new ≡ reduce F.field.laws (exact_rows F.field.laws F.value (map (λ r. (r.0, r.1.items)) lines.now)) (vector F.field.laws F.value row.old)) }
    ensures wide { OnErr result (IsWideReduce F.field (exact_rows F.field.laws F.value (map (λ r. (r.0, r.1.items)) lines.now)) (vector F.field.laws F.value row.old)) }
{
    for line in lines {
        if !entry(row, line.0).is_zero() {
            take_multiple(row, line.0, &line.1[..line.0 + 1])?;
        }
    }
    Ok(())
}

// The last column where the row isn't 0.
pub(crate) fn last_column<F: Field>(row: &[F]) -> Option<usize>
    ensures { MatchOption result ((j : ℕ) → vector F.field.laws F.value row.now j ≡ F.field.laws.nought) (λ p. (p < length row.now) × IsLastColumn F.field.laws (vector F.field.laws F.value row.now) p) }
{
    for i in (0..row.len()).rev() {
        if !entry(row, i).is_zero() {
            return Some(i);
        }
    }
    None
}

// Step 3: the row divided by its entry at p, the last that isn't 0.
fn scale<F: Field>(row: &mut [F], p: usize) -> Result<(), Wide>
    requires place { p < length row.old }
    requires last { IsLastColumn F.field.laws (vector F.field.laws F.value row.old) p }
    ensures exact { OnOk result (vector F.field.laws F.value row.new ≡ scaled F.field.laws p (vector F.field.laws F.value row.old)) }
    ensures wide { OnErr result (IsWideScale F.field p (vector F.field.laws F.value row.old)) }
{
    let u = entry(row, p).inv()?;
    for j in 0..p + 1 {
        if !row[j].is_zero() {
            row[j] = u.mul(row[j])?;
        }
    }
    Ok(())
}

// How many rows have a pivot at most p before the first past it.
fn place_of<F: Field>(lines: &[(usize, Vec<F>)], p: usize) -> usize
    ensures { (at : result ≤ length lines.now) × ((u : List F) → placed p (vector F.field.laws F.value u) (exact_rows F.field.laws F.value (map (λ r. (r.0, r.1.items)) lines.now)) ≡ exact_rows F.field.laws F.value (take result (map (λ r. (r.0, r.1.items)) lines.now) ++ (p, u) ∷ drop result (map (λ r. (r.0, r.1.items)) lines.now))) }
{
    for (i, line) in lines.iter().enumerate() {
        if p < line.0 {
            return i;
        }
    }
    lines.len()
}

// Step 4: the stored rows less the multiples of the row that make them 0 at p. The row is 0 behind p.
#[inline(never)]
fn clear_lines<F: Field>(lines: &mut [(usize, Vec<F>)], p: usize, row: &[F]) -> Result<(), Wide>
    requires shape { HaveWidth (length row.now) (map (λ r. (r.0, r.1.items)) lines.old) }
    requires place { p < length row.now }
    requires ended { (j : ℕ) → p < j → vector F.field.laws F.value row.now j ≡ F.field.laws.nought }
    ensures shape { HaveWidth (length row.now) (map (λ r. (r.0, r.1.items)) lines.new) }
    ensures exact { OnOk result (exact_rows F.field.laws F.value (map (λ r. (r.0, r.1.items)) lines.new) ≡ cleared F.field.laws p (vector F.field.laws F.value row.now) (exact_rows F.field.laws F.value (map (λ r. (r.0, r.1.items)) lines.old))) }
    ensures wide { OnErr result (IsWideClear F.field p (vector F.field.laws F.value row.now) (exact_rows F.field.laws F.value (map (λ r. (r.0, r.1.items)) lines.old))) }
{
    let head = &row[..p + 1];
    for i in 0..lines.len() {
        let line = &mut lines[i];
        if !entry(&line.1, p).is_zero() {
            take_multiple(&mut line.1, p, head)?;
        }
    }
    Ok(())
}

// Step 5: puts the row at its place. A spare row takes its entries, so nothing is allocated.
pub(crate) fn put_line<F: Field>(
    lines: &mut Vec<(usize, Vec<F>)>,
    spare: &mut Vec<Vec<F>>,
    at: usize,
    p: usize,
    row: &[F],
)
    requires room { vec_len lines.old + vec_len spare.old ≤ vec_capacity lines.old }
    requires some { 0 < vec_len spare.old }
    requires long { HaveLength (length row.now) (map (λ r. r.items) spare.old.items) }
    requires place { at ≤ vec_len lines.old }
    ensures room { vec_len lines.new + vec_len spare.new ≤ vec_capacity lines.new }
    ensures less { vec_len spare.new + 1 ≡ vec_len spare.old }
    ensures long { HaveLength (length row.now) (map (λ r. r.items) spare.new.items) }
    ensures put { map {B = ℕ × List F} (λ r. (r.0, r.1.items)) lines.new.items ≡ insert (map {B = ℕ × List F} (λ r. (r.0, r.1.items)) lines.old.items) at (p, row.now) }
{
    if let Some(mut fresh) = spare.pop() {
        fresh.copy_from_slice(row);
        let _ = lines.insert(at, (p, fresh));
    }
}

// Insertion into rows with room for one more. It answers whether the row was new.
pub(crate) fn insert_row<F: Field>(
    lines: &mut Vec<(usize, Vec<F>)>,
    spare: &mut Vec<Vec<F>>,
    row: &mut [F],
) -> Result<Grew, Wide>
    requires room { vec_len lines.old + vec_len spare.old ≤ vec_capacity lines.old }
    requires some { 0 < vec_len spare.old }
    requires long { HaveLength (length row.old) (map (λ r. r.items) spare.old.items) }
    requires shape { HaveWidth (length row.old) (map (λ r. (r.0, r.1.items)) lines.old.items) }
    requires ended { AreEnded F.field.laws F.value (map (λ r. (r.0, r.1.items)) lines.old.items) }
    ensures room { vec_len lines.new + vec_len spare.new ≤ vec_capacity lines.new }
    ensures less { IfOk result (λ g. (g ≡ grew.No) → vec_len spare.new ≡ vec_len spare.old) }
    ensures one { vec_len spare.old ≤ vec_len spare.new + 1 }
    ensures kept { OnErr result (vec_len spare.new ≡ vec_len spare.old) }
    ensures long { HaveLength (length row.old) (map (λ r. r.items) spare.new.items) }
    ensures shape { HaveWidth (length row.old) (map (λ r. (r.0, r.1.items)) lines.new.items) }
    ensures exact { IfOk result (λ g. IsInserted F.field.laws F.value (map (λ r. (r.0, r.1.items)) lines.old.items) (vector F.field.laws F.value row.old) g (map (λ r. (r.0, r.1.items)) lines.new.items)) }
    ensures wide { OnErr result (IsWideInsert F.field (exact_rows F.field.laws F.value (map (λ r. (r.0, r.1.items)) lines.old.items)) (vector F.field.laws F.value row.old)) }
{
    reduce_row(lines, row)?;
    match last_column(row) {
        None => Ok(Grew::No),
        Some(p) => {
            scale(row, p)?;
            clear_lines(lines, p, row)?;
            let at = place_of(lines, p);
            put_line(lines, spare, at, p, row);
            Ok(Grew::Yes)
        }
    }
}
