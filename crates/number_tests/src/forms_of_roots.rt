// Forms over Z24 of rows of roots of unity, worked out by hand.
use crate::rows::{has_row, put};
use cyclo24::{Field, Wide, Z24};
use lin_alg::{Echelon, LinError};
use std::alloc::Global;

// Rows of powers of exp(2 pi i / 24), and two of their span beside the second.
const ROWS: [[u8; 3]; 2] = [[9, 12, 7], [9, 20, 11]];

const SCRAMBLED: [[u8; 3]; 3] = [[22, 9, 0], [2, 5, 0], [9, 20, 11]];

fn roots(powers: [u8; 3]) -> [Z24; 3] {
    [
        Z24::root(powers[0] % 24),
        Z24::root(powers[1] % 24),
        Z24::root(powers[2] % 24),
    ]
}

fn form_of_roots(alloc: Global, rows: &[[u8; 3]]) -> Result<Echelon<Z24>, LinError> {
    let mut form = Echelon::new(alloc, 3);
    for powers in rows {
        put(&mut form, &mut roots(*powers))?;
    }
    Ok(form)
}

// The first reduced row of the span.
fn first_row() -> [Z24; 3] {
    [Z24::root(5), Z24::one(), Z24::zero()]
}

// The second one.
fn second_row() -> Result<[Z24; 3], LinError> {
    match Z24::root(2).add(Z24::root(22)) {
        Ok(entry) => Ok([entry, Z24::zero(), Z24::one()]),
        Err(Wide) => Err(LinError::Wide),
    }
}

fn has_reduced_rows(alloc: Global) -> Result<bool, LinError> {
    let second = second_row()?;
    let form = form_of_roots(alloc, &ROWS)?;
    Ok(form.len() == 2 && has_row(&form, 0, &first_row(), 1) && has_row(&form, 1, &second, 2))
}

#[test]
fn rows_of_roots_of_unity(rt: HostRuntime) {
    assert!(rt; has_reduced_rows(rt.alloc()) == Ok(true));
}

fn is_form_of_roots(
    alloc: Global,
    form: &Echelon<Z24>,
    rows: &[[u8; 3]],
) -> Result<bool, LinError> {
    Ok(form_of_roots(alloc, rows)? == *form)
}

fn are_alike(alloc: Global, rows: &[[u8; 3]], others: &[[u8; 3]]) -> Result<bool, LinError> {
    let form = form_of_roots(alloc, rows)?;
    is_form_of_roots(alloc, &form, others)
}

// Whether the form of the reduced rows, the second first, is that of the rows.
fn is_reduced_form(alloc: Global) -> Result<bool, LinError> {
    let mut form = Echelon::new(alloc, 3);
    let mut second = second_row()?;
    let mut first = first_row();
    put(&mut form, &mut second)?;
    put(&mut form, &mut first)?;
    is_form_of_roots(alloc, &form, &ROWS)
}

#[test]
fn one_form_of_roots_of_unity(rt: HostRuntime) {
    assert!(rt; are_alike(rt.alloc(), &ROWS, &SCRAMBLED) == Ok(true));
    assert!(rt; is_reduced_form(rt.alloc()) == Ok(true));
    assert!(rt; are_alike(rt.alloc(), &ROWS, &ROWS[..1]) == Ok(false));
}
