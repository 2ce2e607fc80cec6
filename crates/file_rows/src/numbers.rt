// Numbers and operations as a file gives them, nothing reduced.
use iso_text::{NoMemory, OpText, Term, Text, Unit};

pub fn push_whole(text: &mut Text, n: i64) -> Result<(), NoMemory> {
    if n < 0 {
        text.push(b"-")?;
    }
    text.push_number(n.unsigned_abs())
}

pub fn push_fraction(text: &mut Text, num: i32, den: u8) -> Result<(), NoMemory> {
    push_whole(text, i64::from(num))?;
    text.push(b"/")?;
    text.push_number(u64::from(den))
}

fn push_unit(text: &mut Text, unit: Unit) -> Result<(), NoMemory> {
    match unit {
        Unit::One => text.push(b"1"),
        Unit::Z(power) => {
            text.push(b"z")?;
            text.push_number(u64::from(power))
        }
        Unit::I => text.push(b"i"),
        Unit::R2 => text.push(b"r2"),
        Unit::R3 => text.push(b"r3"),
        Unit::R6 => text.push(b"r6"),
    }
}

/// The terms, each a fraction and its unit, joined by `,`.
pub fn push_number(text: &mut Text, terms: &[Term]) -> Result<(), NoMemory> {
    for (i, term) in terms.iter().enumerate() {
        if i > 0 {
            text.push(b",")?;
        }
        push_fraction(text, term.num, term.den)?;
        text.push(b"*")?;
        push_unit(text, term.unit)?;
    }
    Ok(())
}

fn push_row(text: &mut Text, row: [i8; 3], shift: i32) -> Result<(), NoMemory> {
    for entry in row {
        push_whole(text, i64::from(entry))?;
        text.push(b" ")?;
    }
    push_whole(text, i64::from(shift))
}

/// The rows of the rotation, behind each its shift in twelfths, joined by `,`, in brackets.
pub fn push_op(text: &mut Text, op: OpText) -> Result<(), NoMemory> {
    text.push(b"(")?;
    push_row(text, op.rows[0], op.shift[0])?;
    text.push(b", ")?;
    push_row(text, op.rows[1], op.shift[1])?;
    text.push(b", ")?;
    push_row(text, op.rows[2], op.shift[2])?;
    text.push(b")")
}
