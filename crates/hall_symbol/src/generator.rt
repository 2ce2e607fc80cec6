// The rotation and the translation that a part names behind the parts before it.
ghost use Rattle.std.specs.Prelude.{◌≡◌};
ghost use Rattle.hall_symbol.specs.Generators as generators;

use crate::part::Part;
use crate::rotation::{
    Axis, CellAxis, Order, Rotation, order_value, rotation_axis, rotation_order,
};
use space_ops::TWELFTHS;

/// A generator as its part names it: the rotation with its sign, and the translations of the digit and
/// of the letters in twelfths.
#[derive(Clone, Copy, Default)]
pub struct Generator {
    pub rotation: Rotation,
    pub negated: bool,
    pub screw: [u16; 3],
    pub letters: [u16; 3],
}

fn second_rotation(first: Order) -> Option<Rotation>
    ensures { result ≡ generators.second_rotation first }
{
    match first {
        Order::One => None,
        Order::Two | Order::Four => Some(Rotation::TwoX),
        Order::Three | Order::Six => Some(Rotation::TwoPrimeAfterZ),
    }
}

fn default_rotation(before: &[Generator], order: Order) -> Option<Rotation>
    ensures { result ≡ generators.default_rotation before.now order }
{
    match (order, before) {
        (Order::One, _) => Some(Rotation::One),
        (Order::Two, []) => Some(Rotation::TwoZ),
        (Order::Three, []) => Some(Rotation::ThreeZ),
        (Order::Four, []) => Some(Rotation::FourZ),
        (Order::Six, []) => Some(Rotation::SixZ),
        (Order::Two, [first]) => second_rotation(rotation_order(first.rotation)),
        (Order::Three, [_, _]) => Some(Rotation::ThreeStar),
        _ => None,
    }
}

fn prime_behind(last: Option<CellAxis>) -> Option<Rotation>
    ensures { result ≡ generators.prime_behind last }
{
    match last? {
        CellAxis::X => Some(Rotation::TwoPrimeAfterX),
        CellAxis::Y => Some(Rotation::TwoPrimeAfterY),
        CellAxis::Z => Some(Rotation::TwoPrimeAfterZ),
    }
}

fn double_prime_behind(last: Option<CellAxis>) -> Option<Rotation>
    ensures { result ≡ generators.double_prime_behind last }
{
    match last? {
        CellAxis::X => Some(Rotation::TwoDoublePrimeAfterX),
        CellAxis::Y => Some(Rotation::TwoDoublePrimeAfterY),
        CellAxis::Z => Some(Rotation::TwoDoublePrimeAfterZ),
    }
}

// The axis of the cell that the last part is about.
fn last_axis(before: &[Generator]) -> Option<CellAxis>
    ensures { result ≡ generators.last_axis before.now }
{
    let last = before.last()?;
    rotation_axis(last.rotation)
}

fn named_rotation(last: Option<CellAxis>, axis: Axis, order: Order) -> Option<Rotation>
    ensures { result ≡ generators.named_rotation last axis order }
{
    match (axis, order) {
        (Axis::Along(CellAxis::X), Order::Two) => Some(Rotation::TwoX),
        (Axis::Along(CellAxis::X), Order::Four) => Some(Rotation::FourX),
        (Axis::Along(CellAxis::Y), Order::Two) => Some(Rotation::TwoY),
        (Axis::Along(CellAxis::Y), Order::Four) => Some(Rotation::FourY),
        (Axis::Along(CellAxis::Z), Order::Two) => Some(Rotation::TwoZ),
        (Axis::Along(CellAxis::Z), Order::Three) => Some(Rotation::ThreeZ),
        (Axis::Along(CellAxis::Z), Order::Four) => Some(Rotation::FourZ),
        (Axis::Along(CellAxis::Z), Order::Six) => Some(Rotation::SixZ),
        (Axis::Prime, Order::Two) => prime_behind(last),
        (Axis::DoublePrime, Order::Two) => double_prime_behind(last),
        (Axis::Star, Order::Three) => Some(Rotation::ThreeStar),
        _ => None,
    }
}

fn rotation_of(before: &[Generator], order: Order, axis: Option<Axis>) -> Option<Rotation>
    ensures { result ≡ generators.rotation_of before.now order axis }
{
    match axis {
        None => default_rotation(before, order),
        Some(axis) => named_rotation(last_axis(before), axis, order),
    }
}

fn along(axis: CellAxis, twelfths: u16) -> [u16; 3]
    ensures { result ≡ generators.along axis twelfths }
{
    match axis {
        CellAxis::X => [twelfths, 0, 0],
        CellAxis::Y => [0, twelfths, 0],
        CellAxis::Z => [0, 0, twelfths],
    }
}

// The translation of a digit, where it may stand.
fn screw_of(rotation: Rotation, order: Order, digit: u8) -> Option<[u16; 3]>
    ensures { result ≡ generators.screw_of rotation order digit }
{
    if digit == 0 {
        return Some([0; 3]);
    }
    let n = order_value(order);
    let digit = u16::from(digit);
    if digit < n {
        let axis = rotation_axis(rotation)?;
        Some(along(axis, digit * (TWELFTHS as u16 / n)))
    } else {
        None
    }
}

/// The generator of a part behind the parts before it, where its axis and its digit may stand there.
pub fn generator_of(before: &[Generator], part: Part) -> Option<Generator>
    ensures { result ≡ generators.generator_of before.now part }
{
    let rotation = rotation_of(before, part.order, part.axis)?;
    let screw = screw_of(rotation, part.order, part.digit)?;
    let letters = part.letters;
    Some(Generator {
        rotation,
        negated: part.negated,
        screw,
        letters,
    })
}
