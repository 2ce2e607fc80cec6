// Translations as fractions of cell edges.
ghost use Rattle.std.specs.Prelude.{◌≡◌, ◌<◌, ◌≤◌, ◌++◌, IfOk, codes};
ghost use Rattle.space_ops.specs.Op.{vector_of};
ghost use Rattle.space_ops.specs.OpText.{common_with_twelve};
ghost use Rattle.report_steps.specs.Fractions.{edges_text, row_text};

use crate::fraction::{minus, over};
use iso_text::{NoMemory, Text};
use std::alloc::Global;

// The greatest divisor of twelve that divides the number.
fn common_divisor(n: u32) -> u32
    ensures value { result ≡ common_with_twelve n }
    ensures positive { 0 < result }
    ensures few { result ≤ 12 }
{
    if n % 12 == 0 {
        12
    } else if n % 6 == 0 {
        6
    } else if n % 4 == 0 {
        4
    } else if n % 3 == 0 {
        3
    } else if n % 2 == 0 {
        2
    } else {
        1
    }
}

// So many twelfths in lowest terms.
fn edge_text(alloc: Global, t: i32) -> Result<Text, NoMemory>
    ensures { IfOk result (λ text. text ≡ edges_text t) }
{
    let n = t.unsigned_abs();
    let divisor = common_divisor(n);
    let mut text = Text::new(alloc);
    text.push(minus(t))?;
    text.push_number(u64::from(n / divisor))?;
    text.push(over(alloc, (12 / divisor) as u8)?.as_slice())?;
    Ok(text)
}

/// The three coordinates of a translation in twelfths, as fractions of the cell edges.
pub fn edges_text(alloc: Global, shift: [i32; 3]) -> Result<Text, NoMemory>
    ensures { IfOk result (λ text. text ≡ row_text (vector_of shift)) }
{
    let mut text = edge_text(alloc, shift[0])?;
    text.push(b" ")?;
    text.push(edge_text(alloc, shift[1])?.as_slice())?;
    text.push(b" ")?;
    text.push(edge_text(alloc, shift[2])?.as_slice())?;
    Ok(text)
}
