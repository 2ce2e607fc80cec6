// Differences of translations.
ghost use Rattle.std.specs.Prelude.{◌≡◌, ◌+ℤ◌, neg_ℤ};
ghost use Rattle.space_ops.specs.Op.{vector_of, shift_of, IsWithin, IsShiftWithin};
ghost use Rattle.space_ops.specs.Words.{vector_difference};

fn difference(a: i32, b: i32) -> i32
    requires first { IsWithin 1000000 a }
    requires second { IsWithin 1000000 b }
    ensures { result ≡ a +ℤ neg_ℤ b }
{
    a - b
}

/// The first translation less the second.
pub fn shift_difference(a: [i32; 3], b: [i32; 3]) -> [i32; 3]
    requires left { IsShiftWithin 1000000 a }
    requires right { IsShiftWithin 1000000 b }
    ensures { result ≡ shift_of (vector_difference (vector_of a) (vector_of b)) }
{
    [
        difference(a[0], b[0]),
        difference(a[1], b[1]),
        difference(a[2], b[2]),
    ]
}
