// Lines of both kinds as one: an atom that is named, and its numbers.
ghost use Rattle.std.specs.Prelude.{◌≡◌, IfOk, map};
ghost use Rattle.extra_modes.specs.declared.amount_lines.AmountLine.{AmountLine};
ghost use Rattle.extra_modes.specs.Amounts.{value_line, axial_line};

use iso_text::{AxialText, Name, NoMemory, ValueText};
use std::alloc::Global;

/// A line that names an atom by its label and its place, in units of 1/12,000,000 of a cell edge, and
/// the numbers that it gives the atom, in units of 1/12,000,000: one and two zeros, or three.
#[derive(Clone, Copy)]
pub struct AmountLine {
    pub line: u32,
    pub label: Name,
    pub place: [i64; 3],
    pub numbers: [i64; 3],
}

/// A line that can be read so.
pub(crate) trait AmountText {
    ghost line_of: { Self → AmountLine };

    /// The line as one of both kinds.
    fn amount_line(&self) -> AmountLine
        ensures { result ≡ line_of self.now };
}

impl AmountText for ValueText {
    ghost line_of = { value_line };

    fn amount_line(&self) -> AmountLine {
        AmountLine {
            line: self.line,
            label: self.label,
            place: self.place,
            numbers: [self.value, 0, 0],
        }
    }
}

impl AmountText for AxialText {
    ghost line_of = { axial_line };

    fn amount_line(&self) -> AmountLine {
        AmountLine {
            line: self.line,
            label: self.label,
            place: self.place,
            numbers: self.value,
        }
    }
}

/// All lines of one kind so.
pub(crate) fn amount_lines<T: AmountText>(
    alloc: Global,
    texts: &[T],
) -> Result<Vec<AmountLine>, NoMemory>
    ensures { IfOk result (λ lines. lines.items ≡ map T.line_of texts.now) }
{
    let mut lines = Vec::new(alloc);
    for n in 0..texts.len() {
        match lines.push(texts[n].amount_line()) {
            Ok(()) => {}
            Err(_) => return Err(NoMemory),
        }
    }
    Ok(lines)
}
