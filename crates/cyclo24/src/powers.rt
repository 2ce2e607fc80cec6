// Powers of z = exp(2 pi i / 24).
ghost use Rattle.std.specs.Prelude.{◌≡◌, ◌<◌};
ghost use Rattle.cyclo24.specs.EightNorm.{list8};
ghost use Rattle.cyclo24.specs.Z24Roots.{power8};

/// The order of z.
pub(crate) const ROOT_ORDER: u8 = 24;

/// Row a has the coefficients of 1, z, .., z^7 in z to the power a.
#[rattlefmt::skip]
const POWERS: [[i8; 8]; 24] = [
    [1, 0, 0, 0, 0, 0, 0, 0],
    [0, 1, 0, 0, 0, 0, 0, 0],
    [0, 0, 1, 0, 0, 0, 0, 0],
    [0, 0, 0, 1, 0, 0, 0, 0],
    [0, 0, 0, 0, 1, 0, 0, 0],
    [0, 0, 0, 0, 0, 1, 0, 0],
    [0, 0, 0, 0, 0, 0, 1, 0],
    [0, 0, 0, 0, 0, 0, 0, 1],
    [-1, 0, 0, 0, 1, 0, 0, 0],
    [0, -1, 0, 0, 0, 1, 0, 0],
    [0, 0, -1, 0, 0, 0, 1, 0],
    [0, 0, 0, -1, 0, 0, 0, 1],
    [-1, 0, 0, 0, 0, 0, 0, 0],
    [0, -1, 0, 0, 0, 0, 0, 0],
    [0, 0, -1, 0, 0, 0, 0, 0],
    [0, 0, 0, -1, 0, 0, 0, 0],
    [0, 0, 0, 0, -1, 0, 0, 0],
    [0, 0, 0, 0, 0, -1, 0, 0],
    [0, 0, 0, 0, 0, 0, -1, 0],
    [0, 0, 0, 0, 0, 0, 0, -1],
    [1, 0, 0, 0, -1, 0, 0, 0],
    [0, 1, 0, 0, 0, -1, 0, 0],
    [0, 0, 1, 0, 0, 0, -1, 0],
    [0, 0, 0, 1, 0, 0, 0, -1],
];

/// The coefficients of z to the power a.
pub(crate) fn power_row(a: u8) -> [i8; 8]
    requires { a < ROOT_ORDER }
    ensures { result ≡ list8 (power8 a) }
{
    POWERS[a as usize]
}
