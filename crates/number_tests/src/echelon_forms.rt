// Reduced echelon forms over K24, worked out by hand.
use crate::matrices::row_is;
use crate::rows::{form_of, has_row, put, three, two};
use cyclo24::{Field, K24};
use lin_alg::{Echelon, Grew, LinError};
use std::alloc::Global;

fn insertions_answer(alloc: Global) -> Result<bool, LinError> {
    let mut form = Echelon::new(alloc, 2);
    let first = put(&mut form, &mut two([1, 2]))?;
    let second = put(&mut form, &mut two([2, 4]))?;
    let third = put(&mut form, &mut two([0, 1]))?;
    Ok(
        [first, second, third] == [Grew::Yes, Grew::No, Grew::Yes]
            && form.len() == 2
            && has_row(&form, 0, &two([1, 0]), 0)
            && has_row(&form, 1, &two([0, 1]), 1),
    )
}

#[test]
fn insertions_answer_and_reduce(rt: HostRuntime) {
    assert!(rt; insertions_answer(rt.alloc()) == Ok(true));
}

fn has_free_basis(alloc: Global) -> Result<bool, LinError> {
    let form = form_of(alloc, &[[-1, 0, 1]])?;
    if !form.is_whole() || form.len() != 1 || form.width() != 3 {
        return Ok(false);
    }
    let basis = form.free_basis(alloc)?;
    Ok(basis.rows() == 2 && row_is(&basis, 0, &[1, 0, 1]) && row_is(&basis, 1, &[0, 1, 0]))
}

#[test]
fn free_bases(rt: HostRuntime) {
    assert!(rt; has_free_basis(rt.alloc()) == Ok(true));
}

const ROWS: [[i64; 3]; 2] = [[2, 1, 3], [4, 2, 7]];

const SCRAMBLED: [[i64; 3]; 4] = [[0, 0, -5], [6, 3, 10], [-2, -1, -3], [2, 1, 1]];

const MORE: [[i64; 3]; 3] = [[2, 1, 3], [4, 2, 7], [0, 1, 0]];

fn are_equal(one: &Echelon<K24>, other: &Echelon<K24>) -> bool {
    one == other && one.cmp(other).is_eq()
}

fn are_alike(alloc: Global, rows: &[[i64; 3]], others: &[[i64; 3]]) -> Result<bool, LinError> {
    let form = form_of(alloc, rows)?;
    let other = form_of(alloc, others)?;
    Ok(are_equal(&form, &other))
}

fn is_copied(alloc: Global) -> Result<bool, LinError> {
    let form = form_of(alloc, &ROWS)?;
    let copy = form.copy(alloc)?;
    Ok(copy == form)
}

#[test]
fn one_form_of_a_span(rt: HostRuntime) {
    assert!(rt; are_alike(rt.alloc(), &ROWS, &SCRAMBLED) == Ok(true));
    assert!(rt; is_copied(rt.alloc()) == Ok(true));
}

// The form in the place of a longer one, and of one of another width.
fn is_copied_over(alloc: Global) -> Result<bool, LinError> {
    let form = form_of(alloc, &ROWS)?;
    let mut longer = form_of(alloc, &MORE)?;
    let mut narrow = Echelon::new(alloc, 2);
    put(&mut narrow, &mut two([1, 2]))?;
    longer.copy_from(&form)?;
    narrow.copy_from(&form)?;
    let same = are_equal(&longer, &form) && are_equal(&narrow, &form);
    put(&mut narrow, &mut three([0, 1, 0]))?;
    let more = form_of(alloc, &MORE)?;
    Ok(same && narrow.width() == 3 && are_equal(&narrow, &more))
}

#[test]
fn one_form_in_the_place_of_another(rt: HostRuntime) {
    assert!(rt; is_copied_over(rt.alloc()) == Ok(true));
}

fn is_empty(form: &Echelon<K24>, width: usize) -> bool {
    form.len() == 0 && form.width() == width && form.is_whole()
}

// A form that isn't whole, cleared and filled again, and then cleared for rows of another width.
fn is_cleared(alloc: Global) -> Result<bool, LinError> {
    let mut form = Echelon::new(alloc, 2);
    let large = K24::whole((1 << 126) - 1);
    put(&mut form, &mut [large, K24::one()])?;
    let wide = put(&mut form, &mut [K24::one(), large]);
    form.clear(2);
    let empty = is_empty(&form, 2);
    put(&mut form, &mut two([3, 0]))?;
    let filled = form.len() == 1 && has_row(&form, 0, &two([1, 0]), 0);
    form.clear(3);
    Ok(wide == Err(LinError::Wide) && empty && filled && is_empty(&form, 3))
}

#[test]
fn a_cleared_form(rt: HostRuntime) {
    assert!(rt; is_cleared(rt.alloc()) == Ok(true));
}

fn is_larger(alloc: Global) -> Result<bool, LinError> {
    let form = form_of(alloc, &ROWS)?;
    let more = form_of(alloc, &MORE)?;
    Ok(form != more && has_row(&more, 0, &three([1, 0, 0]), 0))
}

#[test]
fn a_larger_span(rt: HostRuntime) {
    assert!(rt; is_larger(rt.alloc()) == Ok(true));
}

fn is_member(form: &Echelon<K24>, row: [i64; 3]) -> Result<bool, LinError> {
    let mut values = three(row);
    if !form.is_whole() || values.len() != form.width() {
        return Err(LinError::Wide);
    }
    Ok(form.contains(&mut values)?)
}

fn rest(form: &Echelon<K24>, row: [i64; 3]) -> Result<[K24; 3], LinError> {
    let mut values = three(row);
    if !form.is_whole() || values.len() != form.width() {
        return Err(LinError::Wide);
    }
    form.reduce(&mut values)?;
    Ok(values)
}

fn members_answer(alloc: Global) -> Result<bool, LinError> {
    let mut form = form_of(alloc, &[[1, 1, 0], [0, 2, 1]])?;
    form.reserve(2)?;
    for (row, member) in [([0, 0, 0], true), ([3, 9, 3], true), ([0, 0, 1], false)] {
        if is_member(&form, row)? != member {
            return Ok(false);
        }
    }
    Ok(rest(&form, [5, 4, 3])? == three([7, 0, 0]))
}

#[test]
fn members_and_what_is_left(rt: HostRuntime) {
    assert!(rt; members_answer(rt.alloc()) == Ok(true));
}

fn ends_as_wide(alloc: Global) -> Result<bool, LinError> {
    let mut form = Echelon::new(alloc, 2);
    let large = K24::whole((1 << 126) - 1);
    let first = put(&mut form, &mut [large, K24::one()])?;
    let whole = form.is_whole();
    let second = put(&mut form, &mut [K24::one(), large]);
    Ok(first == Grew::Yes && whole && second == Err(LinError::Wide) && !form.is_whole())
}

#[test]
fn a_wide_insertion_ends_the_form(rt: HostRuntime) {
    assert!(rt; ends_as_wide(rt.alloc()) == Ok(true));
}
