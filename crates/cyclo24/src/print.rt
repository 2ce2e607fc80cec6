// Texts of sums of multiples of units.
ghost use Rattle.std.specs.Prelude.{◌≡◌, ◌++◌, IfOk, Some, string_bytes, ◌<◌, false};
ghost use Rattle.std.specs.Int.RustNames.{unsigned_abs};
ghost use Rattle.cyclo24.specs.Checked.{is_wide};
ghost use Rattle.cyclo24.specs.Listed.{is_positive};
ghost use Rattle.cyclo24.specs.NumberText.{quotient_text, part_text, sign_text, signed_text};

use crate::whole::Whole;
use iso_text::NoMemory;
use std::alloc::Global;
use std::fmt;

// A fraction as it is written: `top`, or `top/low` where `low` isn't 1.
#[derive(Clone, Copy, Debug)]
struct Quotient {
    top: u128,
    low: u128,
}

impl fmt::Display for Quotient {
    ghost output = { λ q. Some (quotient_text q.top q.low) };

    fn fmt<W: fmt::Write>(&self, f: &mut fmt::Formatter<W>) -> fmt::Result {
        let top = self.top;
        let low = self.low;
        if low == 1 {
            write!(f, "{top}")
        } else {
            write!(f, "{top}/{low}")
        }
    }
}

// The text with the fraction top / low behind it.
fn push_quotient(alloc: Global, mut out: String, top: u128, low: u128) -> Result<String, NoMemory>
    ensures { IfOk result (λ s. string_bytes s ≡ string_bytes out ++ quotient_text top low) }
{
    let quotient = Quotient { top, low };
    let text = format!(in alloc; "{quotient}")?;
    out.push_str(text.as_str())?;
    Ok(out)
}

// The text with the multiple top / low of a unit behind it.
#[tactic(auto, unfolding(crate::specs::NumberText::part_text), using(crate::specs::TextLaws::alone, crate::specs::TextLaws::bare, crate::specs::TextLaws::scaled))]
fn push_part(
    alloc: Global,
    mut out: String,
    top: u128,
    low: u128,
    unit: &str,
) -> Result<String, NoMemory>
    ensures { IfOk result (λ s. string_bytes s ≡ string_bytes out ++ part_text top low unit.now) }
{
    if unit.is_empty() {
        push_quotient(alloc, out, top, low)
    } else if top == 1 && low == 1 {
        out.push_str(unit)?;
        Ok(out)
    } else {
        out = push_quotient(alloc, out, top, low)?;
        out.push_str("*")?;
        out.push_str(unit)?;
        Ok(out)
    }
}

// The text with the sign of x behind it.
fn push_sign(mut out: String, first: bool, x: Whole) -> Result<String, NoMemory>
    ensures { IfOk result (λ s. string_bytes s ≡ string_bytes out ++ sign_text first x.n) }
{
    if x.is_negative() {
        out.push_str("-")?;
        Ok(out)
    } else if first {
        Ok(out)
    } else {
        out.push_str("+")?;
        Ok(out)
    }
}

/// The text with the multiple x / d of a unit behind it: in lowest terms, with its sign, and nothing
/// where x is 0. `first` says whether nothing stands before it.
pub(crate) fn push_multiple(
    alloc: Global,
    out: String,
    first: bool,
    x: Whole,
    d: Whole,
    unit: &str,
) -> Result<String, NoMemory>
    requires narrow { is_wide x.n ≡ false }
    requires narrow_low { is_wide d.n ≡ false }
    requires positive { 0 < unsigned_abs d.n }
    ensures { IfOk result (λ s. string_bytes s ≡ string_bytes out ++ signed_text first (unsigned_abs d.n) x.n unit.now) }
{
    if x.is_zero() {
        return Ok(out);
    }
    let signed = push_sign(out, first, x)?;
    let common = x.common(d).magnitude();
    push_part(
        alloc,
        signed,
        x.magnitude() / common,
        d.magnitude() / common,
        unit,
    )
}
