// Lists of rows.
ghost use Rattle.std.specs.Prelude.{◌≡◌, ℕ, ◌<◌, IfOk, length, slice_index, slice_index_or, [], ◌∷◌, ◌++◌};
ghost use Rattle.kstar.specs.Rows.{AreRowsAt};

use iso_text::NoMemory;
use std::alloc::Global;

/// Adds a row at the end.
pub fn add(rows: &mut Vec<[i32; 3]>, row: [i32; 3]) -> Result<(), NoMemory>
    ensures { IfOk result (λ _. rows.new.items ≡ rows.old.items ++ row ∷ []) }
{
    match rows.push(row) {
        Ok(()) => Ok(()),
        Err(_) => Err(NoMemory),
    }
}

/// Row r.
pub fn row_at(rows: &[[i32; 3]], r: usize) -> [i32; 3]
    requires { r < length rows.now }
    ensures { result ≡ slice_index_or rows.now r [] }
{
    rows[r]
}

/// The rows with these numbers.
pub fn rows_at(
    alloc: Global,
    rows: &[[i32; 3]],
    numbers: &[usize],
) -> Result<Vec<[i32; 3]>, NoMemory>
    requires { (i : ℕ) → i < length numbers.now → slice_index numbers.now i < length rows.now }
    ensures { IfOk result (λ chosen. AreRowsAt rows.now numbers.now (length numbers.now) chosen.items) }
{
    let mut chosen: Vec<[i32; 3]> = Vec::new(alloc);
    for number in numbers {
        add(&mut chosen, row_at(rows, *number))?;
    }
    Ok(chosen)
}
