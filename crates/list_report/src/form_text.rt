// The form of a direction.
ghost use Rattle.std.specs.Prelude.{◌≡◌, ◌<◌, ◌≤◌, ◌++◌, ◌∷◌, [], All, IfOk, OnOk, length, flat_map, codes};
ghost use Rattle.std.specs.List.{range_with_len};
ghost use Rattle.cyclo24.specs.ExactK24.{k24_laws};
ghost use Rattle.cyclo24.specs.K24.{exact24};
ghost use Rattle.lin_alg.specs.Rows.{vector, exact_rows};
ghost use Rattle.list_report.specs.Letters.{letter_of, lettered};
ghost use Rattle.list_report.specs.FormText.{sum_text, row_terms, coordinate_text, form_text};
ghost use Rattle.list_report.specs.FormParts.{sum_with};

use crate::letters::{FIRST_LETTER, lettered, next_letter, pivot_place};
use crate::sums::add_entry;
use cyclo24::K24;
use iso_text::{NoMemory, Text};
use lin_alg::Echelon;
use std::alloc::Global;

// The sum of the terms of a row.
fn row_sum(alloc: Global, row: &[K24], columns: &[(usize, u8)]) -> Result<Option<Text>, NoMemory>
    requires { All (λ c. c.0 < length row.now) columns.now }
    ensures { IfOk result (λ sum. sum_with sum [] ≡ sum_text (row_terms (vector k24_laws exact24 row.now) columns.now)) }
{
    let mut sum = None;
    for (column, letter) in columns {
        sum = add_entry(alloc, sum, row[*column], *letter)?;
    }
    Ok(sum)
}

// The text of the sum of the terms of a row.
fn sum_text(alloc: Global, row: &[K24], columns: &[(usize, u8)]) -> Result<Text, NoMemory>
    requires { All (λ c. c.0 < length row.now) columns.now }
    ensures { IfOk result (λ text. text ≡ sum_text (row_terms (vector k24_laws exact24 row.now) columns.now)) }
{
    match row_sum(alloc, row, columns)? {
        Some(text) => Ok(text),
        None => {
            let mut text = Text::new(alloc);
            text.push(b"0")?;
            Ok(text)
        }
    }
}

// A letter alone.
fn letter_text(alloc: Global, letter: u8) -> Result<Text, NoMemory>
    ensures { IfOk result (λ text. text ≡ letter ∷ []) }
{
    let mut text = Text::new(alloc);
    text.push(&[letter])?;
    Ok(text)
}

// Coordinate j, whose letter is given.
fn coordinate_text(
    alloc: Global,
    rows: &Echelon<K24>,
    columns: &[(usize, u8)],
    j: usize,
    letter: u8,
) -> Result<Text, NoMemory>
    requires columns { columns.now ≡ lettered rows.now.rows rows.now.width }
    requires letter { letter ≡ letter_of rows.now.rows j }
    ensures { IfOk result (λ text. text ≡ coordinate_text (exact_rows k24_laws exact24 rows.now.rows) rows.now.width j) }
{
    let _ = rows.is_whole();
    match pivot_place(rows, j) {
        None => letter_text(alloc, letter),
        Some(i) => sum_text(alloc, rows.row(i), columns),
    }
}

// Adds coordinate j behind a space.
fn push_coordinate(
    alloc: Global,
    text: &mut Text,
    rows: &Echelon<K24>,
    columns: &[(usize, u8)],
    j: usize,
    letter: u8,
) -> Result<(), NoMemory>
    requires columns { columns.now ≡ lettered rows.now.rows rows.now.width }
    requires letter { letter ≡ letter_of rows.now.rows j }
    ensures { OnOk result (text.new ≡ text.old ++ (codes " " ++ coordinate_text (exact_rows k24_laws exact24 rows.now.rows) rows.now.width j)) }
{
    let coordinate = coordinate_text(alloc, rows, columns, j, letter)?;
    text.push(b" ")?;
    text.push(coordinate.as_slice())
}

// All coordinates, each behind a space.
fn coordinates(
    alloc: Global,
    rows: &Echelon<K24>,
    columns: &[(usize, u8)],
) -> Result<Text, NoMemory>
    requires columns { columns.now ≡ lettered rows.now.rows rows.now.width }
    requires few { rows.now.width ≤ 24 }
    ensures { IfOk result (λ text. text ≡ form_text (exact_rows k24_laws exact24 rows.now.rows) rows.now.width) }
{
    let mut text = Text::new(alloc);
    let mut letter = FIRST_LETTER;
    for j in 0..rows.width() {
        push_coordinate(alloc, &mut text, rows, columns, j, letter)?;
        letter = next_letter(rows, j, letter);
    }
    Ok(text)
}

/// The coordinates of the vectors on which the rows vanish, each behind a space: a letter for each
/// column without a pivot, and sums of multiples of these.
pub fn form_text(alloc: Global, rows: &Echelon<K24>) -> Result<Text, NoMemory>
    requires { rows.now.width ≤ 24 }
    ensures { IfOk result (λ text. text ≡ form_text (exact_rows k24_laws exact24 rows.now.rows) rows.now.width) }
{
    let columns = lettered(alloc, rows)?;
    coordinates(alloc, rows, &columns)
}
