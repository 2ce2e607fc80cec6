// Real vectors of 2n entries as complex ones of n.
ghost use Rattle.std.specs.Prelude.{◌≡◌, ◌<◌, ◌+◌, ℕ, Err, IfOk, OnErr, length};
ghost use Rattle.cyclo24.specs.K24.{exact24};
ghost use Rattle.cyclo24.specs.Z24.{exact_z24};
ghost use Rattle.cyclo24.specs.ExactK24.{k24_laws};
ghost use Rattle.cyclo24.specs.ExactZ24.{z24_laws};
ghost use Rattle.lin_alg.specs.Rows.{vector, exact_rows, HaveWidth};
ghost use Rattle.lin_alg.specs.declared.errors.LinError.TheVariants as lin_error;
ghost use Rattle.real_form.specs.Parts.{lifted};
ghost use Rattle.real_form.specs.Bases.{row_at};
ghost use Rattle.real_form.specs.Complexes.{z24_parts};
ghost use Rattle.real_form.specs.Vectors.{lines_of, vector_at, AreLong};
ghost use Rattle.real_form.specs.Wide.{IsWideLifted};

use cyclo24::{Field, K24, Wide, Z24};
use lin_alg::LinError;
use std::alloc::Global;

// Entry j of the complex vector: a + z^6 b.
fn lifted_entry(row: &[K24], n: usize, j: usize) -> Result<Z24, Wide>
    requires length { length row.now ≡ n + n }
    requires place { j < n }
    ensures exact { IfOk result (λ x. exact_z24 x ≡ lifted z24_parts n (vector k24_laws exact24 row.now) j) }
    ensures wide { OnErr result (IsWideLifted n (vector k24_laws exact24 row.now)) }
{
    let real = Z24::from_real(row[j])?;
    let imaginary = Z24::from_real(row[n + j])?;
    let turned = Z24::root(6).mul(imaginary)?;
    real.add(turned)
}

// The complex vector of n entries.
fn lifted_row(alloc: Global, row: &[K24], n: usize) -> Result<Vec<Z24>, LinError>
    requires { length row.now ≡ n + n }
    ensures len { IfOk result (λ v. length v.items ≡ n) }
    ensures exact { IfOk result (λ v. vector z24_laws exact_z24 v.items ≡ lifted z24_parts n (vector k24_laws exact24 row.now)) }
    ensures wide { (result ≡ Err lin_error.Wide) → IsWideLifted n (vector k24_laws exact24 row.now) }
{
    let mut entries = Vec::new(alloc);
    for j in 0..n {
        let entry = match lifted_entry(row, n, j) {
            Ok(entry) => entry,
            Err(_) => return Err(LinError::Wide),
        };
        match entries.push(entry) {
            Ok(()) => {}
            Err(_) => return Err(LinError::NoMemory),
        }
    }
    Ok(entries)
}

// Each row as a complex vector.
pub(crate) fn lifted_rows(
    alloc: Global,
    lines: &[(usize, Vec<K24>)],
    n: usize,
) -> Result<Vec<Vec<Z24>>, LinError>
    requires { HaveWidth (n + n) (lines_of lines.now) }
    ensures len { IfOk result (λ vs. length vs.items ≡ length lines.now) }
    ensures long { IfOk result (λ vs. AreLong n vs.items) }
    ensures exact { IfOk result (λ vs. (m : ℕ) → m < length lines.now → vector_at vs.items m ≡ lifted z24_parts n (row_at k24_laws (exact_rows k24_laws exact24 (lines_of lines.now)) m)) }
    ensures wide { (result ≡ Err lin_error.Wide) → (m : ℕ) × (m < length lines.now) × IsWideLifted n (row_at k24_laws (exact_rows k24_laws exact24 (lines_of lines.now)) m) }
{
    let mut vectors = Vec::new(alloc);
    for line in lines {
        let row = match lifted_row(alloc, &line.1, n) {
            Ok(row) => row,
            Err(error) => return Err(error),
        };
        match vectors.push(row) {
            Ok(()) => {}
            Err(_) => return Err(LinError::NoMemory),
        }
    }
    Ok(vectors)
}
