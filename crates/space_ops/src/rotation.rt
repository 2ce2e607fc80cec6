// Products and inverses of 3 by 3 matrices of small whole numbers.
ghost use Rattle.std.specs.Prelude.{◌≡◌, ◌+ℤ◌, ◌*ℤ◌, neg_ℤ, [], ◌∷◌};
ghost use Rattle.algebra.specs.Whole.{whole};
ghost use Rattle.space_ops.specs.Matrix.{row_times, matrix_times, image_under, minor, determinant};
ghost use Rattle.space_ops.specs.Seitz.{inverse_matrix};
ghost use Rattle.space_ops.specs.Op.{number_at, row_at, matrix_of, vector_of, rows_of, shift_of, product_row, cross_product, IsWithin, IsShiftWithin, IsRotationWithin, IsSmallRotation, IsUnimodular};

use crate::shift::long_dot;

fn term(a: i8, x: i8) -> i8
    requires left { IsWithin 3 a }
    requires right { IsWithin 3 x }
    ensures value { result ≡ a *ℤ x }
    ensures within { IsWithin 9 result }
{
    a * x
}

fn sum(a: i8, b: i8, c: i8) -> i8
    requires first { IsWithin 9 a }
    requires second { IsWithin 9 b }
    requires third { IsWithin 9 c }
    ensures { result ≡ (a +ℤ b) +ℤ c }
{
    a + b + c
}

fn dot(row: [i8; 3], x: i8, y: i8, z: i8) -> i8
    requires row { IsShiftWithin 3 row }
    requires x { IsWithin 3 x }
    requires y { IsWithin 3 y }
    requires z { IsWithin 3 z }
    ensures { result ≡ row_times whole (number_at row 0) (number_at row 1) (number_at row 2) x y z }
{
    sum(term(row[0], x), term(row[1], y), term(row[2], z))
}

fn row_product(row: [i8; 3], b: [[i8; 3]; 3]) -> [i8; 3]
    requires left { IsShiftWithin 3 row }
    requires right { IsSmallRotation b }
    ensures { result ≡ product_row row b }
{
    [
        dot(row, b[0][0], b[1][0], b[2][0]),
        dot(row, b[0][1], b[1][1], b[2][1]),
        dot(row, b[0][2], b[1][2], b[2][2]),
    ]
}

/// The matrix product, of entries from -3 to 3.
pub fn rotation_product(a: [[i8; 3]; 3], b: [[i8; 3]; 3]) -> [[i8; 3]; 3]
    requires left { IsSmallRotation a }
    requires right { IsSmallRotation b }
    ensures { result ≡ rows_of (matrix_times whole (matrix_of a) (matrix_of b)) }
{
    [
        row_product(a[0], b),
        row_product(a[1], b),
        row_product(a[2], b),
    ]
}

/// The image of a translation under a matrix of entries from -18 to 18.
pub fn moved(a: [[i8; 3]; 3], shift: [i32; 3]) -> [i32; 3]
    requires left { IsRotationWithin 18 a }
    requires right { IsShiftWithin 1000000 shift }
    ensures value { result ≡ shift_of (image_under whole (matrix_of a) (vector_of shift)) }
    ensures within { IsShiftWithin 54000000 result }
{
    [
        long_dot(a[0], shift),
        long_dot(a[1], shift),
        long_dot(a[2], shift),
    ]
}

fn difference(a: i8, b: i8) -> i8
    requires left { IsWithin 9 a }
    requires right { IsWithin 9 b }
    ensures value { result ≡ a +ℤ neg_ℤ b }
    ensures within { IsWithin 18 result }
{
    a - b
}

/// a d - b c
fn minor_of(a: i8, b: i8, c: i8, d: i8) -> i8
    requires a { IsWithin 3 a }
    requires b { IsWithin 3 b }
    requires c { IsWithin 3 c }
    requires d { IsWithin 3 d }
    ensures value { result ≡ minor whole a b c d }
    ensures within { IsWithin 18 result }
{
    difference(term(a, d), term(b, c))
}

fn cross(a: [i8; 3], b: [i8; 3]) -> [i8; 3]
    requires left { IsShiftWithin 3 a }
    requires right { IsShiftWithin 3 b }
    ensures value { result ≡ cross_product a b }
    ensures within { IsShiftWithin 18 result }
{
    [
        minor_of(a[1], a[2], b[1], b[2]),
        minor_of(a[2], a[0], b[2], b[0]),
        minor_of(a[0], a[1], b[0], b[1]),
    ]
}

fn widened(row: [i8; 3]) -> [i32; 3]
    ensures { result ≡ shift_of (vector_of row) }
{
    [i32::from(row[0]), i32::from(row[1]), i32::from(row[2])]
}

/// The determinant.
pub fn determinant_of(a: [[i8; 3]; 3]) -> i32
    requires { IsSmallRotation a }
    ensures { result ≡ determinant whole (matrix_of a) }
{
    long_dot(a[0], widened(cross(a[1], a[2])))
}

/// 1 or -1.
fn sign_of(a: [[i8; 3]; 3]) -> i8
    requires small { IsSmallRotation a }
    requires unimodular { IsUnimodular (matrix_of a) }
    ensures value { result ≡ determinant whole (matrix_of a) }
    ensures within { IsWithin 1 result }
{
    if determinant_of(a) < 0 { -1 } else { 1 }
}

fn scaled_entry(sign: i8, x: i8) -> i8
    requires sign { IsWithin 1 sign }
    requires right { IsWithin 18 x }
    ensures value { result ≡ sign *ℤ x }
    ensures within { IsWithin 18 result }
{
    sign * x
}

fn scaled_row(sign: i8, x: i8, y: i8, z: i8) -> [i8; 3]
    requires sign { IsWithin 1 sign }
    requires x { IsWithin 18 x }
    requires y { IsWithin 18 y }
    requires z { IsWithin 18 z }
    ensures value { result ≡ (sign *ℤ x) ∷ (sign *ℤ y) ∷ (sign *ℤ z) ∷ [] }
    ensures within { IsShiftWithin 18 result }
{
    [
        scaled_entry(sign, x),
        scaled_entry(sign, y),
        scaled_entry(sign, z),
    ]
}

/// The inverse of a matrix of determinant 1 or -1: its determinant times its adjugate, whose columns
/// are the cross products of the rows.
pub fn inverse_rotation(a: [[i8; 3]; 3]) -> [[i8; 3]; 3]
    requires small { IsSmallRotation a }
    requires unimodular { IsUnimodular (matrix_of a) }
    ensures value { result ≡ rows_of (inverse_matrix whole (matrix_of a)) }
    ensures within { IsRotationWithin 18 result }
{
    let sign = sign_of(a);
    let first = cross(a[1], a[2]);
    let second = cross(a[2], a[0]);
    let third = cross(a[0], a[1]);
    [
        scaled_row(sign, first[0], second[0], third[0]),
        scaled_row(sign, first[1], second[1], third[1]),
        scaled_row(sign, first[2], second[2], third[2]),
    ]
}
