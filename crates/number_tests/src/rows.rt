// Rows of whole numbers as values, and forms of them.
ghost use Rattle.std.specs.Prelude.{◌≡◌, ◌<◌};

use cyclo24::{Field, K24};
use lin_alg::{Echelon, Grew, LinError, Steps};
use std::alloc::Global;
use std::marker::Brand;
use std::sync::ledger::{Blank, Ledger};

pub fn two(row: [i64; 2]) -> [K24; 2] {
    [K24::ratio(row[0], 1), K24::ratio(row[1], 1)]
}

pub fn three(row: [i64; 3]) -> [K24; 3] {
    [
        K24::ratio(row[0], 1),
        K24::ratio(row[1], 1),
        K24::ratio(row[2], 1),
    ]
}

/// Inserts a row of the form's width.
pub fn put<F: Field>(form: &mut Echelon<F>, row: &mut [F]) -> Result<Grew, LinError> {
    put_by::<F, Brand>(form, row, Blank::new(1))
}

// Inserts a row with a counter of its own.
fn put_by<F: Field, L: Ledger>(
    form: &mut Echelon<F>,
    row: &mut [F],
    blank: Blank,
) -> Result<Grew, LinError>
    requires name { blank.name ≡ L.name }
    requires parts { blank.parts ≡ L.parts }
    requires some { 0 < blank.parts }
{
    if !form.is_whole() || row.len() != form.width() {
        return Err(LinError::Wide);
    }
    let mut steps = Steps::<L>::new(blank);
    form.insert(row, &mut steps)
}

/// The form of rows of three whole numbers.
pub fn form_of(alloc: Global, rows: &[[i64; 3]]) -> Result<Echelon<K24>, LinError> {
    let mut form = Echelon::new(alloc, 3);
    for row in rows {
        put(&mut form, &mut three(*row))?;
    }
    Ok(form)
}

/// Whether row i of the form is this row, with this pivot.
pub fn has_row<F: Field>(form: &Echelon<F>, i: usize, row: &[F], pivot: usize) -> bool {
    i < form.len() && form.row(i) == row && form.pivot(i) == pivot
}
