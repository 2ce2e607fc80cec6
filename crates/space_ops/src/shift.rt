// Sums of translations.
ghost use Rattle.std.specs.Prelude.{◌≡◌, ◌+ℤ◌, ◌*ℤ◌, neg_ℤ};
ghost use Rattle.algebra.specs.Whole.{whole};
ghost use Rattle.space_ops.specs.Matrix.{row_times, vector_sum, minus_vector};
ghost use Rattle.space_ops.specs.Op.{number_at, vector_of, shift_of, IsWithin, IsShiftWithin};

fn long_term(a: i8, x: i32) -> i32
    requires left { IsWithin 18 a }
    requires right { IsWithin 1000000 x }
    ensures value { result ≡ a *ℤ x }
    ensures within { IsWithin 18000000 result }
{
    i32::from(a) * x
}

fn long_sum(a: i32, b: i32, c: i32) -> i32
    requires first { IsWithin 18000000 a }
    requires second { IsWithin 18000000 b }
    requires third { IsWithin 18000000 c }
    ensures value { result ≡ (a +ℤ b) +ℤ c }
    ensures within { IsWithin 54000000 result }
{
    a + b + c
}

/// A row of entries from -18 to 18 times a translation.
pub fn long_dot(row: [i8; 3], shift: [i32; 3]) -> i32
    requires row { IsShiftWithin 18 row }
    requires shift { IsShiftWithin 1000000 shift }
    ensures value { result ≡ row_times whole (number_at row 0) (number_at row 1) (number_at row 2) (number_at shift 0) (number_at shift 1) (number_at shift 2) }
    ensures within { IsWithin 54000000 result }
{
    long_sum(
        long_term(row[0], shift[0]),
        long_term(row[1], shift[1]),
        long_term(row[2], shift[2]),
    )
}

fn pair_sum(a: i32, b: i32) -> i32
    requires first { IsWithin 1000000 a }
    requires second { IsWithin 54000000 b }
    ensures value { result ≡ a +ℤ b }
    ensures within { IsWithin 55000000 result }
{
    a + b
}

/// The sum of two translations.
pub fn shift_sum(a: [i32; 3], b: [i32; 3]) -> [i32; 3]
    requires left { IsShiftWithin 1000000 a }
    requires right { IsShiftWithin 54000000 b }
    ensures value { result ≡ shift_of (vector_sum whole (vector_of a) (vector_of b)) }
    ensures within { IsShiftWithin 55000000 result }
{
    [
        pair_sum(a[0], b[0]),
        pair_sum(a[1], b[1]),
        pair_sum(a[2], b[2]),
    ]
}

fn negative(a: i32) -> i32
    requires { IsWithin 54000000 a }
    ensures value { result ≡ neg_ℤ a }
    ensures within { IsWithin 54000000 result }
{
    -a
}

/// The translation with the signs changed.
pub fn negative_shift(a: [i32; 3]) -> [i32; 3]
    requires { IsShiftWithin 54000000 a }
    ensures value { result ≡ shift_of (minus_vector whole (vector_of a)) }
    ensures within { IsShiftWithin 54000000 result }
{
    [negative(a[0]), negative(a[1]), negative(a[2])]
}
