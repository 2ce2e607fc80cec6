// The printed text of an operation.
ghost use Rattle.std.specs.Prelude.{◌≡◌, ℕ, ◌<◌, ◌≤◌, ◌++◌, ◌&&◌, ◌/◌, ◌==◌, if◌then◌else◌, pos, [], codes, decimal, OnOk, IfOk, unsigned_abs};
ghost use Rattle.space_ops.specs.Op.{number_at};
ghost use Rattle.iso_text.specs.OperationSpellings.{SpellsOperation};
ghost use Rattle.space_ops.specs.OpText.{is_zero, sign_text, coefficient_text, term_text, common_with_twelve, fraction_text, translation_text, letters_text, coordinate_text, text_of, IsPrintable, op_text_of};

use crate::op::{Op, TWELFTHS};
use iso_text::{NoMemory, Text};
use itoa::Buffer;
use std::alloc::Global;

impl Op {
    /// The printed text, as `-x+y,-x,z+2/3`: for each coordinate the letters with nonzero
    /// coefficient, then the translation in lowest terms where it is not 0; `0` where there is
    /// neither. Where the entries are from -3 to 3 and the translations at most 120 twelfths, a file
    /// that has this text says exactly this operation.
    pub fn print(self, alloc: Global) -> Result<Text, NoMemory>
        ensures value { IfOk result (λ text. text ≡ text_of self) }
        ensures spelled { IsPrintable self → IfOk result (λ text. SpellsOperation text (op_text_of self)) }
    {
        let mut text = Text::new(alloc);
        push_coordinate(&mut text, self.rot[0], self.shift[0])?;
        text.push(b",")?;
        push_coordinate(&mut text, self.rot[1], self.shift[1])?;
        text.push(b",")?;
        push_coordinate(&mut text, self.rot[2], self.shift[2])?;
        Ok(text)
    }
}

fn push_coordinate(text: &mut Text, row: [i8; 3], shift: i32) -> Result<(), NoMemory>
    ensures { OnOk result (text.new ≡ text.old ++ coordinate_text row shift) }
{
    let x = i32::from(row[0]);
    let y = i32::from(row[1]);
    let z = i32::from(row[2]);
    if is_empty(x, y, z, shift) {
        return text.push(b"0");
    }
    push_letters(text, x, y, z)?;
    push_translation(text, shift)
}

fn push_letters(text: &mut Text, x: i32, y: i32, z: i32) -> Result<(), NoMemory>
    ensures { OnOk result (text.new ≡ text.old ++ letters_text x y z) }
{
    push_term(text, true, x, b"x")?;
    push_term(text, is_nothing(x), y, b"y")?;
    push_term(text, are_zero(x, y), z, b"z")
}

fn is_empty(x: i32, y: i32, z: i32, shift: i32) -> bool
    ensures { result ≡ ((is_zero x && is_zero y) && (is_zero z && is_zero shift)) }
{
    are_zero(x, y) && are_zero(z, shift)
}

fn is_nothing(number: i32) -> bool
    ensures { result ≡ is_zero number }
{
    number == 0
}

fn are_zero(first: i32, second: i32) -> bool
    ensures { result ≡ (is_zero first && is_zero second) }
{
    first == 0 && second == 0
}

fn push_term(
    text: &mut Text,
    is_first: bool,
    coefficient: i32,
    letter: &[u8],
) -> Result<(), NoMemory>
    ensures { OnOk result (text.new ≡ text.old ++ term_text is_first coefficient letter.now) }
{
    if is_nothing(coefficient) {
        return Ok(());
    }
    push_sign(text, is_first, coefficient)?;
    push_coefficient(text, coefficient.unsigned_abs())?;
    text.push(letter)
}

fn push_coefficient(text: &mut Text, size: u32) -> Result<(), NoMemory>
    ensures { OnOk result (text.new ≡ text.old ++ coefficient_text size) }
{
    if size == 1 {
        Ok(())
    } else {
        push_number(text, size)
    }
}

fn push_translation(text: &mut Text, shift: i32) -> Result<(), NoMemory>
    ensures { OnOk result (text.new ≡ text.old ++ translation_text shift) }
{
    if is_nothing(shift) {
        return Ok(());
    }
    push_sign(text, false, shift)?;
    let count = shift.unsigned_abs();
    let divisor = common_divisor(count);
    push_fraction(text, count / divisor, TWELFTHS as u32 / divisor)
}

fn push_sign(text: &mut Text, is_first: bool, number: i32) -> Result<(), NoMemory>
    ensures { OnOk result (text.new ≡ text.old ++ sign_text is_first number) }
{
    if number < 0 {
        text.push(b"-")
    } else if is_first {
        Ok(())
    } else {
        text.push(b"+")
    }
}

fn push_fraction(text: &mut Text, numerator: u32, denominator: u32) -> Result<(), NoMemory>
    ensures { OnOk result (text.new ≡ text.old ++ fraction_text numerator denominator) }
{
    push_number(text, numerator)?;
    if denominator == 1 {
        return Ok(());
    }
    text.push(b"/")?;
    push_number(text, denominator)
}

fn push_number(text: &mut Text, number: u32) -> Result<(), NoMemory>
    ensures { OnOk result (text.new ≡ text.old ++ decimal number) }
{
    let mut buffer = Buffer::new();
    text.push(buffer.format(number).as_bytes())
}

/// The greatest common divisor with the units of a translation.
fn common_divisor(count: u32) -> u32
    ensures value { result ≡ common_with_twelve count }
    ensures positive { 0 < result }
{
    if count % 12 == 0 {
        12
    } else if count % 6 == 0 {
        6
    } else if count % 4 == 0 {
        4
    } else if count % 3 == 0 {
        3
    } else if count % 2 == 0 {
        2
    } else {
        1
    }
}
