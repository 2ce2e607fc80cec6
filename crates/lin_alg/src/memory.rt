// Rows in memory.
ghost use Rattle.std.specs.Prelude.{◌≡◌, ◌≤◌, ◌+◌, ◌++◌, ◌∷◌, ◌⊎◌, [], ℕ, List, IfOk, OnOk, length, map, vec_len, vec_capacity};
ghost use Rattle.lin_alg.specs.Rows.{vector, HaveLength, HaveWidth};

use cyclo24::Field;
use iso_text::NoMemory;
use std::alloc::Global;

/// A row of zeros.
pub fn zeros<F: Field>(alloc: Global, len: usize) -> Result<Vec<F>, NoMemory>
    ensures len { IfOk result (λ v. length v.items ≡ len) }
    ensures zero { IfOk result (λ v. (j : ℕ) → vector F.field.laws F.value v.items j ≡ F.field.laws.nought) }
{
    let mut row = Vec::with_capacity(alloc, len)?;
    match row.resize(len, F::zero()) {
        Ok(()) => Ok(row),
        Err(_) => Err(NoMemory),
    }
}

// Adds spare rows until there are as many as asked. Want of memory keeps those that were added.
pub(crate) fn add_spare<F: Field>(
    spare: &mut Vec<Vec<F>>,
    alloc: Global,
    width: usize,
    rows: usize,
) -> Result<(), NoMemory>
    requires { HaveLength width (map (λ r. r.items) spare.old.items) }
    ensures long { HaveLength width (map (λ r. r.items) spare.new.items) }
    ensures enough { OnOk result (rows ≤ vec_len spare.new) }
    ensures more { vec_len spare.old ≤ vec_len spare.new }
    ensures few { (n : ℕ) → vec_len spare.old ≤ n → rows ≤ n → vec_len spare.new ≤ n }
{
    for _ in spare.len()..rows {
        let row = zeros(alloc, width)?;
        match spare.push(row) {
            Ok(()) => {}
            Err(_) => return Err(NoMemory),
        }
    }
    Ok(())
}

// A copy of the stored rows.
pub(crate) fn copy_lines<F: Field>(
    alloc: Global,
    lines: &[(usize, Vec<F>)],
) -> Result<Vec<(usize, Vec<F>)>, NoMemory>
    ensures { IfOk result (λ v. map {B = ℕ × List F} (λ r. (r.0, r.1.items)) v.items ≡ map (λ r. (r.0, r.1.items)) lines.now) }
{
    let mut copies = Vec::with_capacity(alloc, lines.len())?;
    for line in lines {
        let row = Vec::from_slice(alloc, &line.1)?;
        match copies.push((line.0, row)) {
            Ok(()) => {}
            Err(_) => return Err(NoMemory),
        }
    }
    Ok(copies)
}

// Takes all rows from the stored ones. Those for which there is room become spare rows.
pub(crate) fn free_lines<F: Field>(lines: &mut Vec<(usize, Vec<F>)>, spare: &mut Vec<Vec<F>>)
    requires room { vec_len lines.old + vec_len spare.old ≤ vec_capacity lines.old }
    ensures empty { lines.new.items ≡ [] }
    ensures room { vec_len lines.new + vec_len spare.new ≤ vec_capacity lines.new }
    ensures more { vec_len spare.old ≤ vec_len spare.new }
    ensures long { (w : ℕ) → HaveWidth w (map (λ r. (r.0, r.1.items)) lines.old.items) → HaveLength w (map (λ r. r.items) spare.old.items) → HaveLength w (map (λ r. r.items) spare.new.items) }
{
    for _ in 0..lines.len() {
        if let Some((_, row)) = lines.pop() {
            keep_row(spare, row);
        }
    }
    lines.clear();
}

// Adds a spare row where there is room for one.
fn keep_row<F: Field>(spare: &mut Vec<Vec<F>>, row: Vec<F>)
    ensures kept { (spare.new.items ≡ spare.old.items) ⊎ (spare.new.items ≡ spare.old.items ++ row ∷ []) }
    ensures more { vec_len spare.old ≤ vec_len spare.new }
    ensures one { vec_len spare.new ≤ vec_len spare.old + 1 }
{
    if spare.len() < spare.capacity() {
        let _ = spare.push(row);
    }
}
