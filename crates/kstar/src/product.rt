// Rows times columns.
ghost use Rattle.std.specs.Prelude.{◌≡◌, ◌+ℤ◌, ◌*ℤ◌, neg_ℤ};
ghost use Rattle.space_ops.specs.Op.{IsWithin, IsShiftWithin, vector_of};
ghost use Rattle.space_ops.specs.Words.{vector_difference};
ghost use Rattle.kstar.specs.WaveVector.{row_value};

fn term(a: i32, x: i32) -> i64
    requires { IsWithin 24000 a }
    ensures value { result ≡ a *ℤ x }
    ensures within { IsWithin 51539607552000 result }
{
    i64::from(a) * i64::from(x)
}

fn sum(a: i64, b: i64, c: i64) -> i64
    requires first { IsWithin 51539607552000 a }
    requires second { IsWithin 51539607552000 b }
    requires third { IsWithin 51539607552000 c }
    ensures value { result ≡ (a +ℤ b) +ℤ c }
    ensures within { IsWithin 154618822656000 result }
{
    a + b + c
}

/// A row times a translation.
pub fn value(row: [i32; 3], t: [i32; 3]) -> i64
    requires { IsShiftWithin 24000 row }
    ensures value { result ≡ row_value (vector_of row) (vector_of t) }
    ensures within { IsWithin 154618822656000 result }
{
    sum(term(row[0], t[0]), term(row[1], t[1]), term(row[2], t[2]))
}

fn short_term(a: i32, x: i32) -> i32
    requires left { IsWithin 288 a }
    requires right { IsWithin 12 x }
    ensures value { result ≡ a *ℤ x }
    ensures within { IsWithin 3456 result }
{
    a * x
}

fn short_sum(a: i32, b: i32, c: i32) -> i32
    requires first { IsWithin 3456 a }
    requires second { IsWithin 3456 b }
    requires third { IsWithin 3456 c }
    ensures value { result ≡ (a +ℤ b) +ℤ c }
    ensures within { IsWithin 10368 result }
{
    a + b + c
}

/// A short row times a translation of at most one cell edge, or a column of a rotation.
pub fn short_value(row: [i32; 3], t: [i32; 3]) -> i32
    requires row { IsShiftWithin 288 row }
    requires column { IsShiftWithin 12 t }
    ensures value { result ≡ row_value (vector_of row) (vector_of t) }
    ensures within { IsWithin 10368 result }
{
    short_sum(
        short_term(row[0], t[0]),
        short_term(row[1], t[1]),
        short_term(row[2], t[2]),
    )
}

fn minus(a: i32, b: i32) -> i32
    requires left { IsWithin 12000 a }
    requires right { IsWithin 12000 b }
    ensures value { result ≡ a +ℤ neg_ℤ b }
    ensures within { IsWithin 24000 result }
{
    a - b
}

/// The difference of two rows.
pub fn difference(a: [i32; 3], b: [i32; 3]) -> [i32; 3]
    requires left { IsShiftWithin 12000 a }
    requires right { IsShiftWithin 12000 b }
    ensures value { vector_of result ≡ vector_difference (vector_of a) (vector_of b) }
    ensures within { IsShiftWithin 24000 result }
{
    [minus(a[0], b[0]), minus(a[1], b[1]), minus(a[2], b[2])]
}
