// The cell of the listed places: its matrix in twelfths, and the whole combinations of its columns.
ghost use Rattle.std.specs.Prelude.{◌≡◌, ◌<◌, ◌↔◌, IsTrue, ◌*ℤ◌, ◌+ℤ◌, neg_ℤ, unsigned_abs};
ghost use Rattle.std.specs.List.{All};
ghost use Rattle.algebra.specs.Multiples.{IsMultiple};
ghost use Rattle.algebra.specs.Whole.{whole};
ghost use Rattle.iso_text.specs.Ranges.{IsCell};
ghost use Rattle.iso_text.specs.WordRanges.{IsFraction};
ghost use Rattle.space_ops.specs.Matrix.{row_times, minor, adjugate, determinant};
ghost use Rattle.space_ops.specs.Op.{number_at, vector_of, matrix_of, cross_product, IsWithin, IsShiftWithin, IsRotationWithin};
ghost use Rattle.distort_match.specs.ListedCells.{twelfths_of, cell_matrix};
ghost use Rattle.distort_match.specs.CellPieces.{IsMultipleUnder, AreCellParts};

use crate::frame::dot;
use iso_text::{CellText, Frac};

/// The matrix of a cell in twelfths of a cell edge of the parent, row by row, its adjugate, and the
/// absolute value of its determinant.
#[derive(Clone, Copy)]
pub(crate) struct CellParts {
    pub rows: [[i32; 3]; 3],
    pub adjugate: [[i32; 3]; 3],
    pub size: u64,
}

fn twelfths(v: Frac) -> i32
    requires { IsFraction v }
    ensures value { result ≡ twelfths_of v }
    ensures near { IsWithin 288 result }
{
    i32::from(12 / v.den) * v.num
}

fn rows_of_cell(cell: &CellText) -> [[i32; 3]; 3]
    requires { IsCell cell.now }
    ensures value { matrix_of result ≡ cell_matrix cell.now }
    ensures near { IsRotationWithin 288 result }
{
    let rows = cell.rows;
    [
        [
            twelfths(rows[0][0]),
            twelfths(rows[0][1]),
            twelfths(rows[0][2]),
        ],
        [
            twelfths(rows[1][0]),
            twelfths(rows[1][1]),
            twelfths(rows[1][2]),
        ],
        [
            twelfths(rows[2][0]),
            twelfths(rows[2][1]),
            twelfths(rows[2][2]),
        ],
    ]
}

fn product(a: i32, b: i32) -> i32
    requires left { IsWithin 288 a }
    requires right { IsWithin 288 b }
    ensures value { result ≡ a *ℤ b }
    ensures near { IsWithin 82944 result }
{
    a * b
}

fn difference(a: i32, b: i32) -> i32
    requires left { IsWithin 82944 a }
    requires right { IsWithin 82944 b }
    ensures value { result ≡ a +ℤ neg_ℤ b }
    ensures near { IsWithin 165888 result }
{
    a - b
}

// a d - b c
fn minor_of(a: i32, b: i32, c: i32, d: i32) -> i32
    requires a { IsWithin 288 a }
    requires b { IsWithin 288 b }
    requires c { IsWithin 288 c }
    requires d { IsWithin 288 d }
    ensures value { result ≡ minor whole a b c d }
    ensures near { IsWithin 165888 result }
{
    difference(product(a, d), product(b, c))
}

fn cross(a: [i32; 3], b: [i32; 3]) -> [i32; 3]
    requires left { IsShiftWithin 288 a }
    requires right { IsShiftWithin 288 b }
    ensures value { result ≡ cross_product a b }
    ensures near { IsShiftWithin 165888 result }
{
    [
        minor_of(a[1], a[2], b[1], b[2]),
        minor_of(a[2], a[0], b[2], b[0]),
        minor_of(a[0], a[1], b[0], b[1]),
    ]
}

// The matrix whose product with these rows is the determinant.
fn adjugate_of(rows: [[i32; 3]; 3]) -> [[i32; 3]; 3]
    requires { IsRotationWithin 288 rows }
    ensures value { matrix_of result ≡ adjugate whole (matrix_of rows) }
    ensures near { IsRotationWithin 165888 result }
{
    let first = cross(rows[1], rows[2]);
    let second = cross(rows[2], rows[0]);
    let third = cross(rows[0], rows[1]);
    [
        [first[0], second[0], third[0]],
        [first[1], second[1], third[1]],
        [first[2], second[2], third[2]],
    ]
}

fn widened(v: [i32; 3]) -> [i64; 3]
    ensures { result ≡ v }
{
    [i64::from(v[0]), i64::from(v[1]), i64::from(v[2])]
}

fn determinant_of(rows: [[i32; 3]; 3]) -> i64
    requires { IsRotationWithin 288 rows }
    ensures { result ≡ determinant whole (matrix_of rows) }
{
    dot(rows[0], widened(cross(rows[1], rows[2])))
}

/// The matrix, adjugate and determinant of a cell.
pub(crate) fn parts_of(cell: &CellText) -> CellParts
    requires { IsCell cell.now }
    ensures { AreCellParts cell.now result }
{
    let rows = rows_of_cell(cell);
    CellParts {
        rows,
        adjugate: adjugate_of(rows),
        size: determinant_of(rows).unsigned_abs(),
    }
}

fn is_multiple(x: i64, n: u64) -> bool
    requires { 0 < n }
    ensures { IsTrue result ↔ IsMultiple n x }
{
    x.unsigned_abs() % n == 0
}

fn is_multiple_along(row: [i32; 3], t: [i32; 3], n: u64) -> bool
    requires row { IsShiftWithin 165888 row }
    requires translation { IsShiftWithin 144 t }
    requires positive { 0 < n }
    ensures { IsTrue result ↔ IsMultiple n (row_times whole (number_at row 0) (number_at row 1) (number_at row 2) (number_at t 0) (number_at t 1) (number_at t 2)) }
{
    is_multiple(dot(row, widened(t)), n)
}

/// Whether a translation in twelfths is a whole combination of the columns, by Cramer's rule.
pub(crate) fn is_combination(parts: CellParts, t: [i32; 3]) -> bool
    requires size { 0 < parts.size }
    requires adjugate { IsRotationWithin 165888 parts.adjugate }
    requires translation { IsShiftWithin 144 t }
    ensures { IsTrue result ↔ IsMultipleUnder parts.size (matrix_of parts.adjugate) (vector_of t) }
{
    let a = parts.adjugate;
    is_multiple_along(a[0], t, parts.size)
        && is_multiple_along(a[1], t, parts.size)
        && is_multiple_along(a[2], t, parts.size)
}
