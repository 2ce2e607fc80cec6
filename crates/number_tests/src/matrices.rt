// Products and solutions over K24, worked out by hand.
ghost use Rattle.std.specs.Prelude.{◌≡◌, true, length};

use crate::rows::two;
use cyclo24::{Field, K24};
use iso_text::NoMemory;
use lin_alg::{LinError, Matrix, Row, are_independent, solve};
use std::alloc::Global;

/// Whether row i of the matrix is this row of whole numbers.
pub fn row_is(matrix: &Matrix<K24>, i: usize, row: &[i64]) -> bool {
    if i >= matrix.rows() || row.len() != matrix.cols() {
        return false;
    }
    for j in 0..matrix.cols() {
        if matrix.get(i, j) != K24::ratio(row[j], 1) {
            return false;
        }
    }
    true
}

fn set_row(matrix: &mut Matrix<K24>, i: usize, row: [i64; 2]) {
    if i < matrix.rows() && matrix.cols() == 2 {
        matrix.set(i, 0, K24::ratio(row[0], 1));
        matrix.set(i, 1, K24::ratio(row[1], 1));
    }
}

// The matrix of these two rows.
fn square(alloc: Global, rows: [[i64; 2]; 2]) -> Result<Matrix<K24>, NoMemory> {
    let mut matrix = Matrix::new(alloc, 2, 2)?;
    set_row(&mut matrix, 0, rows[0]);
    set_row(&mut matrix, 1, rows[1]);
    Ok(matrix)
}

fn is_product(
    alloc: Global,
    a: [[i64; 2]; 2],
    b: [[i64; 2]; 2],
    want: [[i64; 2]; 2],
) -> Result<bool, LinError> {
    let a = square(alloc, a)?;
    let b = square(alloc, b)?;
    if a.rows() != 2 || a.cols() != 2 || b.rows() != 2 || b.cols() != 2 {
        return Ok(false);
    }
    let product = a.mul(alloc, &b)?;
    Ok(row_is(&product, 0, &want[0]) && row_is(&product, 1, &want[1]))
}

#[test]
fn products(rt: HostRuntime) {
    let a = [[1, 1], [0, 1]];
    assert!(rt; is_product(rt.alloc(), a, a, [[1, 2], [0, 1]]) == Ok(true));
    assert!(rt; is_product(rt.alloc(), a, [[0, 2], [3, 0]], [[3, 2], [3, 0]]) == Ok(true));
}

// Whether the matrix is square, and the other one has its shape.
fn have_one_shape(a: &Matrix<K24>, b: &Matrix<K24>) -> bool
    ensures { result ≡ true → (a.now.rows ≡ a.now.cols) × (b.now.rows ≡ a.now.rows) × (b.now.cols ≡ a.now.rows) }
{
    a.rows() == a.cols() && b.rows() == a.rows() && b.cols() == a.rows()
}

// The trace, whether the matrix is the unit matrix, and whether it is twice the unit matrix.
fn compared(alloc: Global, rows: [[i64; 2]; 2]) -> Result<Option<(K24, bool, bool)>, LinError> {
    let matrix = square(alloc, rows)?;
    let unit = square(alloc, [[1, 0], [0, 1]])?;
    if !have_one_shape(&matrix, &unit) {
        return Ok(None);
    }
    let trace = matrix.trace()?;
    let twice = matrix.is_multiple(K24::ratio(2, 1), &unit)?;
    Ok(Some((trace, matrix.is_unit(), twice)))
}

#[test]
fn traces_and_comparisons(rt: HostRuntime) {
    let (two, four) = (K24::ratio(2, 1), K24::ratio(4, 1));
    assert!(rt; compared(rt.alloc(), [[1, 0], [0, 1]]) == Ok(Some((two, true, false))));
    assert!(rt; compared(rt.alloc(), [[2, 0], [0, 2]]) == Ok(Some((four, false, true))));
    assert!(rt; compared(rt.alloc(), [[2, 0], [1, 2]]) == Ok(Some((four, false, false))));
}

// Solves where the rows are independent; `None` where they aren't, too.
fn solved(alloc: Global, rows: &Matrix<K24>, target: &[K24]) -> Result<Option<Row<K24>>, LinError>
    requires { length target.now ≡ rows.now.cols }
{
    match are_independent(alloc, rows) {
        Ok(true) => solve(alloc, rows, target),
        Ok(false) => Ok(None),
        Err(error) => Err(error),
    }
}

// Whether x with x A = (1, 2) is this row, where A has these rows.
fn is_solution(alloc: Global, rows: &Matrix<K24>, want: &[K24]) -> Result<bool, LinError> {
    let target = two([1, 2]);
    if target.len() != rows.cols() {
        return Ok(false);
    }
    match solved(alloc, rows, &target)? {
        Some(x) => Ok(x.as_slice() == want),
        None => Ok(want.is_empty()),
    }
}

fn has_solution(alloc: Global) -> Result<bool, LinError> {
    let rows = square(alloc, [[1, 1], [0, 2]])?;
    is_solution(alloc, &rows, &[K24::ratio(1, 1), K24::ratio(1, 2)])
}

fn has_no_solution(alloc: Global) -> Result<bool, LinError> {
    let mut one = Matrix::new(alloc, 1, 2)?;
    set_row(&mut one, 0, [1, 1]);
    Ok(are_independent(alloc, &one)? && is_solution(alloc, &one, &[])?)
}

fn depend(alloc: Global) -> Result<bool, LinError> {
    let twice = square(alloc, [[1, 1], [2, 2]])?;
    Ok(!are_independent(alloc, &twice)?)
}

#[test]
fn solutions(rt: HostRuntime) {
    assert!(rt; has_solution(rt.alloc()) == Ok(true));
    assert!(rt; has_no_solution(rt.alloc()) == Ok(true));
    assert!(rt; depend(rt.alloc()) == Ok(true));
}
