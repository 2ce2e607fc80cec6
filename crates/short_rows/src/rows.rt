// Rows of short values as rows of values in 128 bits, and back.
ghost use Rattle.std.specs.Prelude.{◌≡◌, ◌<◌, ◌↔◌, ℕ, false, IfOk, OnOk, OnErr, length, map};
ghost use Rattle.cyclo24.specs.ExactK24.{k24_laws};
ghost use Rattle.cyclo24.specs.K24.{exact24};
ghost use Rattle.lin_alg.specs.Rows.{vector};

use cyclo24::{K24, Short, Wide};
use iso_text::NoMemory;
use std::alloc::Global;

/// The row of the same exact values in 128 bits.
pub fn lengthened<S: Short>(alloc: Global, row: &[S]) -> Result<Vec<K24>, NoMemory>
    ensures { IfOk result (λ v. map exact24 v.items ≡ map S.exact row.now) }
{
    let mut values = Vec::new(alloc);
    for entry in row {
        match values.push(entry.to_k24()) {
            Ok(()) => {}
            Err(_) => return Err(NoMemory),
        }
    }
    Ok(values)
}

/// Writes the row of the same exact values in short values, unless one of them isn't held. After
/// `Wide` it holds any values.
pub fn shortened<S: Short>(row: &[K24], into: &mut [S]) -> Result<(), Wide>
    requires { length into.old ≡ length row.now }
    ensures exact { OnOk result ((j : ℕ) → j < length row.now → vector k24_laws S.exact into.new j ≡ vector k24_laws exact24 row.now j) }
    ensures wide { OnErr result ((j : ℕ) × (j < length row.now) × (S.holds (vector k24_laws exact24 row.now j) ≡ false)) }
{
    for j in 0..row.len() {
        match S::from_k24(row[j]) {
            Some(short) => into[j] = short,
            None => return Err(Wide),
        }
    }
    Ok(())
}
