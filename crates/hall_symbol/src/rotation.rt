// The rotations that a part of a Hall symbol can name.
ghost use Rattle.std.specs.Prelude.{◌≡◌};
ghost use Rattle.space_ops.specs.Op.{IsRotationWithin};
ghost use Rattle.hall_symbol.specs.Rotations.{rotation_rows, axis_of, order_of, value_of};

use crate::table;

/// The order of a rotation, N in a part.
#[derive(Clone, Copy)]
pub enum Order {
    One,
    Two,
    Three,
    Four,
    Six,
}

/// An axis of the cell: along a, b or c.
#[derive(Clone, Copy)]
pub enum CellAxis {
    X,
    Y,
    Z,
}

/// The axis symbol of a part: an axis of the cell, `'`, `"` or `*`.
#[derive(Clone, Copy)]
pub enum Axis {
    Along(CellAxis),
    Prime,
    DoublePrime,
    Star,
}

/// One of the sixteen rotations of the published table; those with `Prime` and `DoublePrime` are named
/// by the axis of the part before.
#[derive(Clone, Copy, Default)]
pub enum Rotation {
    #[default]
    One,
    TwoZ,
    ThreeZ,
    FourZ,
    SixZ,
    TwoX,
    TwoY,
    FourX,
    FourY,
    TwoPrimeAfterZ,
    TwoDoublePrimeAfterZ,
    TwoPrimeAfterX,
    TwoDoublePrimeAfterX,
    TwoPrimeAfterY,
    TwoDoublePrimeAfterY,
    ThreeStar,
}

/// The number N.
pub fn order_value(order: Order) -> u16
    ensures value { result ≡ value_of order }
{
    match order {
        Order::One => 1,
        Order::Two => 2,
        Order::Three => 3,
        Order::Four => 4,
        Order::Six => 6,
    }
}

/// The order N.
pub fn rotation_order(rotation: Rotation) -> Order
    ensures value { result ≡ order_of rotation }
{
    match rotation {
        Rotation::One => Order::One,
        Rotation::ThreeZ | Rotation::ThreeStar => Order::Three,
        Rotation::FourX | Rotation::FourY | Rotation::FourZ => Order::Four,
        Rotation::SixZ => Order::Six,
        _ => Order::Two,
    }
}

/// The matrix, row by row.
pub fn rotation_rows(rotation: Rotation) -> [[i8; 3]; 3]
    ensures value { result ≡ rotation_rows rotation }
    ensures within { IsRotationWithin 1 result }
{
    match rotation {
        Rotation::One => table::ONE,
        Rotation::TwoZ => table::TWO_Z,
        Rotation::ThreeZ => table::THREE_Z,
        Rotation::FourZ => table::FOUR_Z,
        Rotation::SixZ => table::SIX_Z,
        Rotation::TwoX => table::TWO_X,
        Rotation::TwoY => table::TWO_Y,
        Rotation::FourX => table::FOUR_X,
        Rotation::FourY => table::FOUR_Y,
        Rotation::TwoPrimeAfterZ => table::TWO_PRIME_AFTER_Z,
        Rotation::TwoDoublePrimeAfterZ => table::TWO_DOUBLE_PRIME_AFTER_Z,
        Rotation::TwoPrimeAfterX => table::TWO_PRIME_AFTER_X,
        Rotation::TwoDoublePrimeAfterX => table::TWO_DOUBLE_PRIME_AFTER_X,
        Rotation::TwoPrimeAfterY => table::TWO_PRIME_AFTER_Y,
        Rotation::TwoDoublePrimeAfterY => table::TWO_DOUBLE_PRIME_AFTER_Y,
        Rotation::ThreeStar => table::THREE_STAR,
    }
}

/// The axis of the cell that the rotation is about, where it is about one and isn't the identity.
pub fn rotation_axis(rotation: Rotation) -> Option<CellAxis>
    ensures value { result ≡ axis_of rotation }
{
    match rotation {
        Rotation::TwoX | Rotation::FourX => Some(CellAxis::X),
        Rotation::TwoY | Rotation::FourY => Some(CellAxis::Y),
        Rotation::TwoZ | Rotation::ThreeZ | Rotation::FourZ | Rotation::SixZ => Some(CellAxis::Z),
        _ => None,
    }
}
