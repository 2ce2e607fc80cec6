// Operations in words, as `-y,x-y,z+1/3`.
ghost use Rattle.std.specs.Prelude.{◌≡◌, ◌<◌, ◌≤◌, length, MatchOption};
ghost use Rattle.iso_text.specs.Fractions.{signed};
ghost use Rattle.iso_text.specs.Operations.{shift_of, letter_of, axis_of, or_shift, part_of, signed_part_of, empty_row, with_part, with_parts, row_of, coefficients, rows, operation_of};
ghost use Rattle.iso_text.specs.OperationSpellings.{SpellsOperation};
ghost use Rattle.iso_text.specs.declared.numbers.OpText.{OpText};

use crate::cuts::{Mark, first_cut, split_round_mark};
use crate::digits::ratio;
use crate::fractions::signed_small;
use crate::numbers::OpText;

/// A term of a coordinate: x, y or z times a coefficient, or a shift in twelfths.
#[derive(Clone, Copy, Debug, PartialEq, Eq)]
pub enum Part {
    X(i8),
    Y(i8),
    Z(i8),
    Shift(i32),
}

/// What stands in a coordinate.
#[derive(Clone, Copy, Debug, PartialEq, Eq)]
pub struct Row {
    pub x: Option<i8>,
    pub y: Option<i8>,
    pub z: Option<i8>,
    pub shift: Option<i32>,
}

fn coefficient(negative: bool, number: u8) -> i8
    requires { number < 4 }
    ensures { result ≡ signed negative number }
{
    if negative {
        -(number as i8)
    } else {
        number as i8
    }
}

fn shift(negative: bool, ratio: (u32, u8)) -> Option<Part>
    requires { 0 < ratio.1 }
    ensures { result ≡ shift_of negative ratio }
{
    if ratio.0 <= 120 && 12 % ratio.1 == 0 {
        let twelfths = ratio.0 * (12 / u32::from(ratio.1));
        Some(Part::Shift(signed_small(negative, twelfths)))
    } else {
        None
    }
}

fn letter(coefficient: i8, byte: u8) -> Option<Part>
    ensures { result ≡ letter_of coefficient byte }
{
    match byte {
        b'x' => Some(Part::X(coefficient)),
        b'y' => Some(Part::Y(coefficient)),
        b'z' => Some(Part::Z(coefficient)),
        _ => None,
    }
}

fn axis(negative: bool, text: &[u8]) -> Option<Part>
    ensures { result ≡ axis_of negative text.now }
{
    match text {
        [byte] => letter(coefficient(negative, 1), *byte),
        [b'2', byte] => letter(coefficient(negative, 2), *byte),
        [b'3', byte] => letter(coefficient(negative, 3), *byte),
        _ => None,
    }
}

fn or_shift(negative: bool, part: Option<Part>, text: &[u8]) -> Option<Part>
    ensures { result ≡ or_shift negative part text.now }
{
    match part {
        Some(part) => Some(part),
        None => shift(negative, ratio(text, 3)?),
    }
}

fn unsigned_part(negative: bool, text: &[u8]) -> Option<Part>
    ensures { result ≡ part_of negative text.now }
{
    or_shift(negative, axis(negative, text), text)
}

fn signed_part(text: &[u8]) -> Option<Part>
    ensures { result ≡ signed_part_of text.now }
{
    match text {
        [] => None,
        [b'-', behind @ ..] => unsigned_part(true, behind),
        [b'+', behind @ ..] => unsigned_part(false, behind),
        _ => unsigned_part(false, text),
    }
}

fn with_part(row: Row, part: Part) -> Option<Row>
    ensures { result ≡ with_part row part }
{
    let mut next = row;
    match part {
        Part::X(amount) => {
            if row.x.is_some() {
                return None;
            }
            next.x = Some(amount);
        }
        Part::Y(amount) => {
            if row.y.is_some() {
                return None;
            }
            next.y = Some(amount);
        }
        Part::Z(amount) => {
            if row.z.is_some() {
                return None;
            }
            next.z = Some(amount);
        }
        Part::Shift(amount) => {
            if row.shift.is_some() {
                return None;
            }
            next.shift = Some(amount);
        }
    }
    Some(next)
}

fn coordinate(text: &[u8]) -> Option<Row>
    ensures { result ≡ row_of text.now }
{
    if text.is_empty() {
        return None;
    }
    let mut row = Row {
        x: None,
        y: None,
        z: None,
        shift: None,
    };
    let mut rest = text;
    while !rest.is_empty() {
        let (part, behind) = first_cut(rest);
        let part = signed_part(part)?;
        row = with_part(row, part)?;
        rest = behind;
    }
    Some(row)
}

fn coefficients(row: Row) -> [i8; 3]
    ensures { result ≡ coefficients row }
{
    [row.x.unwrap_or(0), row.y.unwrap_or(0), row.z.unwrap_or(0)]
}

fn operation_of_rows(a: Row, b: Row, c: Row) -> OpText
    ensures { result ≡ rows a b c }
{
    let rows = [coefficients(a), coefficients(b), coefficients(c)];
    let shift = [
        a.shift.unwrap_or(0),
        b.shift.unwrap_or(0),
        c.shift.unwrap_or(0),
    ];
    OpText { rows, shift }
}

fn parse_operation(text: &[u8]) -> Option<OpText>
    ensures { result ≡ operation_of text.now }
{
    let (first, behind) = split_round_mark(text, Mark::Byte(b','));
    let (second, third) = split_round_mark(behind, Mark::Byte(b','));
    let a = coordinate(first)?;
    let b = coordinate(second)?;
    let c = coordinate(third)?;
    Some(operation_of_rows(a, b, c))
}

/// The operation that a text is: three coordinates joined by `,`, each a sum of x, y or z, with a
/// 2 or a 3 before it or not, and of a fraction of at most 120 over 1, 2, 3, 4, 6 or 12, none twice.
/// The determinant isn't tested.
pub fn operation(text: &[u8]) -> Option<OpText>
    ensures value { result ≡ operation_of text.now }
    ensures spelled { MatchOption result ((op : OpText) → SpellsOperation text.now op → ⊥) (λ op. SpellsOperation text.now op) }
{
    parse_operation(text)
}
