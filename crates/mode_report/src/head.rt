// The lines in front of the orbits.
ghost use Rattle.std.specs.Prelude.{◌≡◌, ◌++◌, [], IfOk, codes, decimal};
ghost use Rattle.iso_text.specs.Lines.{line};
ghost use Rattle.mode_report.specs.ModesReport.{head_text};

use iso_text::{NoMemory, Text};
use std::alloc::Global;

/// The first line, with the file's format.
pub fn modes_head(alloc: Global, format: u8) -> Result<Text, NoMemory>
    ensures { IfOk result (λ text. text ≡ head_text format) }
{
    let mut text = Text::new(alloc);
    text.push(b"isodist ")?;
    text.push_number(u64::from(format))?;
    text.push(b" modes")?;
    text.push(b"\n")?;
    Ok(text)
}

/// The line of the direction with this number, by the name of its irrep.
pub fn direction_head(alloc: Global, name: &[u8], number: u64) -> Result<Text, NoMemory>
    ensures { IfOk result (λ text. text ≡ line (codes "direction " ++ decimal number ++ codes " of " ++ name.now) []) }
{
    let mut text = Text::new(alloc);
    text.push(b"direction ")?;
    text.push_number(number)?;
    text.push(b" of ")?;
    text.push(name)?;
    text.push(b"\n")?;
    Ok(text)
}
