// The letters of the free coordinates of a direction.
ghost use Rattle.std.specs.Prelude.{◌≡◌, ◌<◌, ◌≤◌, ◌+◌, [], IfOk, IfSome, OnOk, length, option_map, slice_index_or};
ghost use Rattle.list_report.specs.Letters.{pivot_row, is_free, letter_of, lettered};

use cyclo24::Field;
use iso_text::NoMemory;
use lin_alg::Echelon;
use std::alloc::Global;

/// The letter of the first coordinate without a pivot.
pub const FIRST_LETTER: u8 = b'a';

/// The place of the row with its pivot at column j.
pub fn pivot_place<F: Field>(rows: &Echelon<F>, j: usize) -> Option<usize>
    ensures place { IfSome result (λ i. i < length rows.now.rows) }
    ensures row { option_map (λ i. slice_index_or rows.now.rows i (0, [])) result ≡ pivot_row rows.now.rows j }
{
    for i in 0..rows.len() {
        if rows.pivot(i) == j {
            return Some(i);
        }
    }
    None
}

// Whether no row has its pivot at column j.
fn is_free<F: Field>(rows: &Echelon<F>, j: usize) -> bool
    ensures { result ≡ is_free rows.now.rows j }
{
    pivot_place(rows, j).is_none()
}

// Adds column j with its letter where no row has its pivot there.
fn add_column<F: Field>(
    rows: &Echelon<F>,
    j: usize,
    columns: &mut Vec<(usize, u8)>,
) -> Result<(), NoMemory>
    requires few { j < 24 }
    requires before { columns.old.items ≡ lettered rows.now.rows j }
    ensures { OnOk result (columns.new.items ≡ lettered rows.now.rows (j + 1)) }
{
    if !is_free(rows, j) {
        return Ok(());
    }
    let letter = FIRST_LETTER + columns.len() as u8;
    match columns.push((j, letter)) {
        Ok(()) => Ok(()),
        Err(_) => Err(NoMemory),
    }
}

/// The columns without a pivot, each with its letter.
pub fn lettered<F: Field>(alloc: Global, rows: &Echelon<F>) -> Result<Vec<(usize, u8)>, NoMemory>
    requires { rows.now.width ≤ 24 }
    ensures { IfOk result (λ columns. columns.items ≡ lettered rows.now.rows rows.now.width) }
{
    let mut columns = Vec::new(alloc);
    for j in 0..rows.width() {
        add_column(rows, j, &mut columns)?;
    }
    Ok(columns)
}

/// The letter of the next column, by that of column j.
pub fn next_letter<F: Field>(rows: &Echelon<F>, j: usize, letter: u8) -> u8
    requires few { j < 24 }
    requires letter { letter ≡ letter_of rows.now.rows j }
    ensures { result ≡ letter_of rows.now.rows (j + 1) }
{
    if is_free(rows, j) { letter + 1 } else { letter }
}
