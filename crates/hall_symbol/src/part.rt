// The parts of a Hall symbol as they are written.
ghost use Rattle.std.specs.Prelude.{◌≡◌, ◌≤◌, ◌∷◌, [], length, option_map, IfSome};
ghost use Rattle.hall_symbol.specs.Spelling.{is_letter, letter_x, letter_y, letter_z};
ghost use Rattle.hall_symbol.specs.PartReading as part_reading;

use crate::rotation::{Axis, CellAxis, Order};

/// A part: the sign and the order N of its rotation, its digit or 0 where it has none, its axis where
/// it is written, and the sum of its letters' translations in twelfths.
#[derive(Clone, Copy)]
pub struct Part {
    pub negated: bool,
    pub order: Order,
    pub digit: u8,
    pub axis: Option<Axis>,
    pub letters: [u16; 3],
}

/// Whether `-` stands first, and what stands behind it.
pub fn sign_at(text: &[u8]) -> (bool, &[u8])
    ensures value { (result.0, result.1.now) ≡ part_reading.sign_at text.now }
    ensures shorter { length result.1.now ≤ length text.now }
{
    match text {
        [b'-', rest @ ..] => (true, rest),
        _ => (false, text),
    }
}

fn order_of_byte(byte: u8) -> Option<Order>
    ensures { result ≡ part_reading.order_of_byte byte }
{
    match byte {
        b'1' => Some(Order::One),
        b'2' => Some(Order::Two),
        b'3' => Some(Order::Three),
        b'4' => Some(Order::Four),
        b'6' => Some(Order::Six),
        _ => None,
    }
}

#[tactic(auto, unfolding(crate::specs::PartReading::order_at))]
fn order_at(text: &[u8]) -> Option<(Order, &[u8])>
    ensures value { option_map (λ p. (p.0, p.1.now)) result ≡ part_reading.order_at text.now }
    ensures shorter { IfSome result (λ p. length p.1.now ≤ length text.now) }
{
    match text {
        [] => None,
        [first, rest @ ..] => Some((order_of_byte(*first)?, rest)),
    }
}

#[tactic(auto, unfolding(crate::specs::PartReading::digit_at))]
fn digit_at(text: &[u8]) -> (u8, &[u8])
    ensures value { (result.0, result.1.now) ≡ part_reading.digit_at text.now }
    ensures shorter { length result.1.now ≤ length text.now }
{
    match text {
        [first @ b'1'..=b'9', rest @ ..] => (*first - b'0', rest),
        _ => (0, text),
    }
}

fn axis_of_byte(byte: u8) -> Option<Axis>
    ensures { result ≡ part_reading.axis_of_byte byte }
{
    match byte {
        b'x' => Some(Axis::Along(CellAxis::X)),
        b'y' => Some(Axis::Along(CellAxis::Y)),
        b'z' => Some(Axis::Along(CellAxis::Z)),
        b'\'' => Some(Axis::Prime),
        b'"' => Some(Axis::DoublePrime),
        b'*' => Some(Axis::Star),
        _ => None,
    }
}

#[tactic(auto, unfolding(crate::specs::PartReading::axis_at))]
fn axis_at(text: &[u8]) -> (Option<Axis>, &[u8])
    ensures value { (result.0, result.1.now) ≡ part_reading.axis_at text.now }
    ensures shorter { length result.1.now ≤ length text.now }
{
    match text {
        [] => (None, text),
        [first, rest @ ..] => match axis_of_byte(*first) {
            Some(axis) => (Some(axis), rest),
            None => (None, text),
        },
    }
}

fn is_letter(byte: u8) -> bool
    ensures { result ≡ is_letter byte }
{
    matches!(byte, b'a' | b'b' | b'c' | b'n' | b'u' | b'v' | b'w' | b'd')
}

// A half along a, b, c or the body diagonal, or a quarter.
fn letter_shift(letter: u8) -> [u16; 3]
    ensures { result ≡ letter_x letter ∷ letter_y letter ∷ letter_z letter ∷ [] }
{
    match letter {
        b'a' => [6, 0, 0],
        b'b' => [0, 6, 0],
        b'c' => [0, 0, 6],
        b'n' => [6, 6, 6],
        b'u' => [3, 0, 0],
        b'v' => [0, 3, 0],
        b'w' => [0, 0, 3],
        b'd' => [3, 3, 3],
        _ => [0, 0, 0],
    }
}

// The sum of the letters' translations, where all bytes are letters.
#[tactic(auto, unfolding(crate::specs::PartReading::letters_of))]
fn letters_of(text: &[u8]) -> Option<[u16; 3]>
    requires { length text.now ≤ 80 }
    ensures { result ≡ part_reading.letters_of text.now }
{
    let mut sum = [0; 3];
    'letters: for letter in text {
        if !is_letter(*letter) {
            return None;
        }
        let [x, y, z] = letter_shift(*letter);
        sum = [sum[0] + x, sum[1] + y, sum[2] + z];
    }
    Some(sum)
}

// The digit before or behind the axis, where not both stand.
fn one_digit(front: u8, back: u8) -> Option<u8>
    ensures { result ≡ part_reading.one_digit front back }
{
    if front == 0 {
        Some(back)
    } else if back == 0 {
        Some(front)
    } else {
        None
    }
}

// The part from its axis on.
#[tactic(auto, unfolding(crate::specs::PartReading::part_from))]
fn part_from(negated: bool, order: Order, front: u8, text: &[u8]) -> Option<Part>
    requires { length text.now ≤ 80 }
    ensures { result ≡ part_reading.part_from negated order front text.now }
{
    let (axis, rest) = axis_at(text);
    let (back, rest) = digit_at(rest);
    let digit = one_digit(front, back)?;
    let letters = letters_of(rest)?;
    Some(Part {
        negated,
        order,
        digit,
        axis,
        letters,
    })
}

/// The part that a word of at most 80 bytes is, where it is one.
#[tactic(auto, unfolding(crate::specs::PartReading::part_in))]
pub fn part_in(word: &[u8]) -> Option<Part>
    requires { length word.now ≤ 80 }
    ensures { result ≡ part_reading.part_in word.now }
{
    let (negated, rest) = sign_at(word);
    let (order, rest) = order_at(rest)?;
    let (front, rest) = digit_at(rest);
    part_from(negated, order, front, rest)
}
