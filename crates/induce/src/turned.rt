// Translations turned by rotations.
ghost use Rattle.std.specs.Prelude.{◌≡◌, ◌+ℤ◌, ◌*ℤ◌};
ghost use Rattle.algebra.specs.Whole.{whole};
ghost use Rattle.space_ops.specs.Matrix.{row_times, image_under};
ghost use Rattle.space_ops.specs.Op.{number_at, matrix_of, vector_of, shift_of, IsWithin, IsShiftWithin, IsSmallRotation};

fn term(a: i8, x: i32) -> i32
    requires left { IsWithin 3 a }
    requires right { IsWithin 144 x }
    ensures value { result ≡ a *ℤ x }
    ensures within { IsWithin 432 result }
{
    i32::from(a) * x
}

fn sum(a: i32, b: i32, c: i32) -> i32
    requires first { IsWithin 432 a }
    requires second { IsWithin 432 b }
    requires third { IsWithin 432 c }
    ensures { result ≡ (a +ℤ b) +ℤ c }
{
    a + b + c
}

fn dot(row: [i8; 3], shift: [i32; 3]) -> i32
    requires row { IsShiftWithin 3 row }
    requires shift { IsShiftWithin 144 shift }
    ensures { result ≡ row_times whole (number_at row 0) (number_at row 1) (number_at row 2) (number_at shift 0) (number_at shift 1) (number_at shift 2) }
{
    sum(
        term(row[0], shift[0]),
        term(row[1], shift[1]),
        term(row[2], shift[2]),
    )
}

/// The image of a translation of a supercell under a rotation.
pub fn turned(rot: [[i8; 3]; 3], shift: [i32; 3]) -> [i32; 3]
    requires rotation { IsSmallRotation rot }
    requires translation { IsShiftWithin 144 shift }
    ensures { result ≡ shift_of (image_under whole (matrix_of rot) (vector_of shift)) }
{
    [dot(rot[0], shift), dot(rot[1], shift), dot(rot[2], shift)]
}
