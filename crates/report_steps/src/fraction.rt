// The texts of fractions.
ghost use Rattle.std.specs.Prelude.{◌≡◌, IfOk};
ghost use Rattle.std.specs.Prelude.{[], ◌++◌, ◌==◌, if◌then◌else◌, codes, decimal};
ghost use Rattle.report_steps.specs.Fractions.{minus_text, frac_text};

use iso_text::{Frac, NoMemory, Text};
use std::alloc::Global;

// A minus sign where the number is negative.
pub fn minus(num: i32) -> &'static [u8]
    ensures { result.now ≡ minus_text num }
{
    if num < 0 { b"-" } else { b"" }
}

// `/q`, nothing where q is 1.
pub fn over(alloc: Global, den: u8) -> Result<Text, NoMemory>
    ensures { IfOk result (λ text. text ≡ (if den == 1 then [] else codes "/" ++ decimal den)) }
{
    let mut text = Text::new(alloc);
    if den == 1 {
        return Ok(text);
    }
    text.push(b"/")?;
    text.push_number(u64::from(den))?;
    Ok(text)
}

/// The text of a fraction, as it is written.
pub fn fraction_text(alloc: Global, fraction: Frac) -> Result<Text, NoMemory>
    ensures { IfOk result (λ text. text ≡ frac_text fraction) }
{
    let mut text = Text::new(alloc);
    text.push(minus(fraction.num))?;
    text.push_number(u64::from(fraction.num.unsigned_abs()))?;
    text.push(over(alloc, fraction.den)?.as_slice())?;
    Ok(text)
}
