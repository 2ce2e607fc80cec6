// The frame of the listed places: where the places of a listed line stand in the parent.
ghost use Rattle.std.specs.Prelude.{◌≡◌, ⊤, ◌+ℤ◌, ◌*ℤ◌, MatchOption};
ghost use Rattle.algebra.specs.Whole.{whole};
ghost use Rattle.space_ops.specs.Matrix.{row_times};
ghost use Rattle.space_ops.specs.Op.{number_at, vector_of, matrix_of, IsWithin, IsShiftWithin, IsRotationWithin};
ghost use Rattle.distort_match.specs.FrameParts.{IsQuotientBy, IsCarriedAlong, IsCarriedTo};

/// Where the listed places stand in the parent: place number t of y is rows y after the origin, then
/// shift t, where there is one. The rows are in twelfths, origin and shifts in units of 1/12,000,000
/// of a cell edge.
#[derive(Drop)]
pub(crate) struct Frame {
    pub rows: [[i32; 3]; 3],
    pub origin: [i64; 3],
    pub shifts: Vec<Option<[i64; 3]>>,
}

fn term(a: i32, x: i64) -> i64
    requires left { IsWithin 165888 a }
    requires right { IsWithin 1200000000 x }
    ensures value { result ≡ a *ℤ x }
    ensures near { IsWithin 199065600000000 result }
{
    i64::from(a) * x
}

fn sum(a: i64, b: i64, c: i64) -> i64
    requires first { IsWithin 199065600000000 a }
    requires second { IsWithin 199065600000000 b }
    requires third { IsWithin 199065600000000 c }
    ensures value { result ≡ (a +ℤ b) +ℤ c }
    ensures near { IsWithin 597196800000000 result }
{
    a + b + c
}

/// The row times the column.
pub(crate) fn dot(row: [i32; 3], x: [i64; 3]) -> i64
    requires row { IsShiftWithin 165888 row }
    requires column { IsShiftWithin 1200000000 x }
    ensures value { result ≡ row_times whole (number_at row 0) (number_at row 1) (number_at row 2) (number_at x 0) (number_at x 1) (number_at x 2) }
    ensures near { IsWithin 597196800000000 result }
{
    sum(term(row[0], x[0]), term(row[1], x[1]), term(row[2], x[2]))
}

// A twelfth of a number, where it is whole.
fn twelfth_of(c: i64) -> Option<i64>
    requires { IsWithin 597196800000000 c }
    ensures value { IsQuotientBy 12 c result }
    ensures near { MatchOption result ⊤ (IsWithin 50000000000000) }
{
    if c % 12 == 0 { Some(c / 12) } else { None }
}

fn after(origin: i64, c: i64) -> Option<i64>
    requires origin { IsWithin 1200000000 origin }
    requires place { IsWithin 597196800000000 c }
    ensures value { IsCarriedAlong origin c result }
    ensures near { MatchOption result ⊤ (IsWithin 60000000000000) }
{
    match twelfth_of(c) {
        Some(along) => Some(origin + along),
        None => None,
    }
}

/// Where a written place stands before the shifts, or None where that is no whole number of units.
pub(crate) fn carried(frame: &Frame, y: [i64; 3]) -> Option<[i64; 3]>
    requires rows { IsRotationWithin 288 frame.now.rows }
    requires origin { IsShiftWithin 1200000000 frame.now.origin }
    requires place { IsShiftWithin 1200000000 y }
    ensures value { IsCarriedTo (matrix_of frame.now.rows) (vector_of frame.now.origin) (vector_of y) result }
    ensures near { MatchOption result ⊤ (IsShiftWithin 60000000000000) }
{
    match after(frame.origin[0], dot(frame.rows[0], y)) {
        None => None,
        Some(along_x) => match after(frame.origin[1], dot(frame.rows[1], y)) {
            None => None,
            Some(along_y) => match after(frame.origin[2], dot(frame.rows[2], y)) {
                None => None,
                Some(along_z) => Some([along_x, along_y, along_z]),
            },
        },
    }
}
