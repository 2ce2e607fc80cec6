// The line of an operation in a report.
ghost use Rattle.std.specs.Prelude.{◌≡◌, IfOk};
ghost use Rattle.report_steps.specs.OpLines.{listed_line};

use iso_text::{NoMemory, Text};
use space_ops::Op;
use std::alloc::Global;

/// The line of an operation.
pub fn op_line(alloc: Global, op: Op) -> Result<Text, NoMemory>
    ensures { IfOk result (λ text. text ≡ listed_line op) }
{
    let mut text = Text::new(alloc);
    text.push(b"op ")?;
    text.push(op.print(alloc)?.as_slice())?;
    text.push(b"\n")?;
    Ok(text)
}
