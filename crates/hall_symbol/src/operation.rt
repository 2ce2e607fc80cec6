// The operations of the generators, seen from a shifted origin.
ghost use Rattle.std.specs.Prelude.{◌≡◌, ◌+◌, ◌+ℤ◌, ◌-ℤ◌, ◌*ℤ◌, pos};
ghost use Rattle.std.specs.Int.{int_rem_euclid};
ghost use Rattle.space_ops.specs.Op.{IsWithin, IsShiftWithin, IsRotationWithin};
ghost use Rattle.hall_symbol.specs.Operations as operations;

use crate::generator::Generator;
use crate::rotation::rotation_rows;
use space_ops::{Op, TWELFTHS};

fn opposite_row(row: [i8; 3]) -> [i8; 3]
    requires { IsShiftWithin 1 row }
    ensures value { result ≡ operations.opposite_row row }
    ensures within { IsShiftWithin 1 result }
{
    [-row[0], -row[1], -row[2]]
}

// The rows of the rotation with its sign.
fn generator_rows(generator: Generator) -> [[i8; 3]; 3]
    ensures value { result ≡ operations.generator_rows generator }
    ensures within { IsRotationWithin 1 result }
{
    let rows = rotation_rows(generator.rotation);
    if generator.negated {
        [
            opposite_row(rows[0]),
            opposite_row(rows[1]),
            opposite_row(rows[2]),
        ]
    } else {
        rows
    }
}

fn product(entry: i8, twelfths: i32) -> i32
    requires entry { IsWithin 1 entry }
    requires twelfths { IsWithin 12 twelfths }
    ensures value { result ≡ entry *ℤ twelfths }
    ensures within { IsWithin 12 result }
{
    i32::from(entry) * twelfths
}

fn sum(a: i32, b: i32, c: i32) -> i32
    requires first { IsWithin 12 a }
    requires second { IsWithin 12 b }
    requires third { IsWithin 12 c }
    ensures value { result ≡ (a +ℤ b) +ℤ c }
    ensures within { IsWithin 36 result }
{
    a + b + c
}

// A row of R times the origin shift.
fn image_along(row: [i8; 3], origin: [i32; 3]) -> i32
    requires row { IsShiftWithin 1 row }
    requires origin { IsShiftWithin 12 origin }
    ensures value { result ≡ operations.image_along row origin }
    ensures within { IsWithin 36 result }
{
    sum(
        product(row[0], origin[0]),
        product(row[1], origin[1]),
        product(row[2], origin[2]),
    )
}

// t + v - R v along one axis, modulo 1.
fn reduced(screw: u16, letters: u16, along: i32, image: i32) -> i32
    requires along { IsWithin 12 along }
    requires image { IsWithin 36 image }
    ensures { result ≡ int_rem_euclid ((pos (screw + letters) +ℤ along) -ℤ image) (pos 12) }
{
    (i32::from(screw) + i32::from(letters) + along - image).rem_euclid(TWELFTHS)
}

/// {R | t + v - R v} for a generator {R|t} and an origin shift v.
pub fn op_at_origin(origin: [i32; 3], generator: Generator) -> Op
    requires { IsShiftWithin 12 origin }
    ensures { result ≡ operations.op_at_origin origin generator }
{
    let rot = generator_rows(generator);
    let screw = generator.screw;
    let letters = generator.letters;
    let x = reduced(screw[0], letters[0], origin[0], image_along(rot[0], origin));
    let y = reduced(screw[1], letters[1], origin[1], image_along(rot[1], origin));
    let z = reduced(screw[2], letters[2], origin[2], image_along(rot[2], origin));
    Op {
        rot,
        shift: [x, y, z],
    }
}
