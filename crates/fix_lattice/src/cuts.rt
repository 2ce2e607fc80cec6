// Where the cuts of two forms stand: a row of small numbers for each form, made at its first cut.
ghost use Rattle.std.specs.Prelude.{◌≡◌, ◌<◌, ◌≤◌, ◌+◌, ◌++◌, ◌∷◌, [], ℕ, suc, OnOk, OnErr, length, map, get_or, slice_set};
ghost use Rattle.std.specs.List.{sum_by};
ghost use Rattle.fix_lattice.specs.Cuts.{cut_entry, cut_count, noted, AreShort, IsCutNoted, IsPlaced, IsRowMade};

use iso_text::NoMemory;
use std::alloc::Global;

// The entry of a cut that is being made.
const BEGUN: u16 = u16::MAX;

// The place of the cut of the form i with the form k, where it is noted.
pub(crate) fn place_of(cuts: &[Vec<u16>], i: usize, k: usize) -> Option<usize>
    ensures { IsPlaced (map (λ r. r.items) cuts.now) i k result }
{
    let entry = entry(cuts, i, k);
    if entry == 0 {
        return None;
    }
    Some(entry as usize - 1)
}

// Entry k of row i, 0 where there is none.
fn entry(cuts: &[Vec<u16>], i: usize, k: usize) -> u16
    ensures { result ≡ cut_entry (map (λ r. r.items) cuts.now) i k }
{
    if i >= cuts.len() {
        return 0;
    }
    entry_of(&cuts[i], k)
}

// Entry k of a row, 0 where there is none.
fn entry_of(row: &[u16], k: usize) -> u16
    ensures { result ≡ get_or row.now k 0 }
{
    if k >= row.len() {
        return 0;
    }
    row[k]
}

// Notes that the form i and the form k, below n, are being cut.
pub(crate) fn begin(
    alloc: Global,
    cuts: &mut Vec<Vec<u16>>,
    i: usize,
    k: usize,
    n: usize,
) -> Result<(), NoMemory>
    requires row { i < 16384 }
    requires column { k < n }
    requires short { AreShort n (map (λ r. r.items) cuts.old.items) }
    requires none { cut_entry (map (λ r. r.items) cuts.old.items) i k ≡ 0 }
    ensures noted { OnOk result (IsCutNoted (map (λ r. r.items) cuts.old.items) i k 65535 (map (λ r. r.items) cuts.new.items)) }
    ensures count { OnOk result (cut_count (map (λ r. r.items) cuts.new.items) ≡ suc (cut_count (map (λ r. r.items) cuts.old.items))) }
    ensures same { OnErr result (cut_count (map (λ r. r.items) cuts.new.items) ≡ cut_count (map (λ r. r.items) cuts.old.items)) }
    ensures short { AreShort n (map (λ r. r.items) cuts.new.items) }
    ensures few { (m : ℕ) → length cuts.old.items ≤ m → i < m → length cuts.new.items ≤ m }
    ensures there { OnOk result (i < length cuts.new.items) }
    ensures inside { OnOk result (k < length (get_or (map (λ r. r.items) cuts.new.items) i [])) }
{
    make_row(alloc, cuts, i, n)?;
    write(cuts, i, k, BEGUN);
    Ok(())
}

// Writes entry k of row i.
pub(crate) fn write(cuts: &mut Vec<Vec<u16>>, i: usize, k: usize, x: u16)
    requires row { i < length cuts.old.items }
    requires column { k < length (get_or (map (λ r. r.items) cuts.old.items) i []) }
    ensures { map (λ r. r.items) cuts.new.items ≡ slice_set (map (λ r. r.items) cuts.old.items) i (slice_set (get_or (map (λ r. r.items) cuts.old.items) i []) k x) }
{
    write_entry(&mut cuts[i], k, x);
}

// Writes entry k of a row.
fn write_entry(row: &mut Vec<u16>, k: usize, x: u16)
    requires { k < length row.old.items }
    ensures { row.new.items ≡ slice_set row.old.items k x }
{
    row[k] = x;
}

// Makes row i, of n entries.
fn make_row(alloc: Global, cuts: &mut Vec<Vec<u16>>, i: usize, n: usize) -> Result<(), NoMemory>
    requires row { i < 16384 }
    requires short { AreShort n (map (λ r. r.items) cuts.old.items) }
    ensures made { IsRowMade n (map (λ r. r.items) cuts.old.items) (map (λ r. r.items) cuts.new.items) }
    ensures few { (m : ℕ) → length cuts.old.items ≤ m → i < m → length cuts.new.items ≤ m }
    ensures there { OnOk result (i < length cuts.new.items) }
    ensures width { OnOk result (n ≤ length (get_or (map (λ r. r.items) cuts.new.items) i [])) }
{
    add_rows(alloc, cuts, i + 1, n)?;
    fill_row(cuts, i, n)
}

// Adds empty rows until there are as many as asked.
fn add_rows(alloc: Global, cuts: &mut Vec<Vec<u16>>, rows: usize, n: usize) -> Result<(), NoMemory>
    requires { AreShort n (map (λ r. r.items) cuts.old.items) }
    ensures made { IsRowMade n (map (λ r. r.items) cuts.old.items) (map (λ r. r.items) cuts.new.items) }
    ensures few { (m : ℕ) → length cuts.old.items ≤ m → rows ≤ m → length cuts.new.items ≤ m }
    ensures enough { OnOk result (rows ≤ length cuts.new.items) }
{
    for _ in cuts.len()..rows {
        add_row(alloc, cuts)?;
    }
    Ok(())
}

// Adds an empty row.
fn add_row(alloc: Global, cuts: &mut Vec<Vec<u16>>) -> Result<(), NoMemory>
    ensures added { OnOk result (map (λ r. r.items) cuts.new.items ≡ map (λ r. r.items) cuts.old.items ++ [] ∷ []) }
    ensures same { OnErr result (cuts.new.items ≡ cuts.old.items) }
{
    match cuts.push(Vec::new(alloc)) {
        Ok(()) => Ok(()),
        Err(_) => Err(NoMemory),
    }
}

// Widens row i to n entries.
fn fill_row(cuts: &mut Vec<Vec<u16>>, i: usize, n: usize) -> Result<(), NoMemory>
    requires row { i < length cuts.old.items }
    requires short { AreShort n (map (λ r. r.items) cuts.old.items) }
    ensures made { IsRowMade n (map (λ r. r.items) cuts.old.items) (map (λ r. r.items) cuts.new.items) }
    ensures width { OnOk result (n ≤ length (get_or (map (λ r. r.items) cuts.new.items) i [])) }
    ensures kept { length cuts.new.items ≡ length cuts.old.items }
{
    widen(&mut cuts[i], n)
}

// Adds zeros at the end of a row until it has n entries.
fn widen(row: &mut Vec<u16>, n: usize) -> Result<(), NoMemory>
    requires { length row.old.items ≤ n }
    ensures entries { (b : ℕ) → get_or row.new.items b 0 ≡ get_or row.old.items b 0 }
    ensures count { sum_by noted row.new.items ≡ sum_by noted row.old.items }
    ensures short { length row.new.items ≤ n }
    ensures wide { OnOk result (length row.new.items ≡ n) }
{
    match row.resize(n, 0) {
        Ok(()) => Ok(()),
        Err(_) => Err(NoMemory),
    }
}
