// What stands before a letter in a form.
ghost use Rattle.std.specs.Prelude.{◌≡◌, ◌++◌, ◌∷◌, [], IfOk, not, drop, codes, if◌then◌else◌};
ghost use Rattle.std.specs.List.{list_any};
ghost use Rattle.std.specs.Ordering.{is_eq};
ghost use Rattle.cyclo24.specs.ExactK24.{k24_laws};
ghost use Rattle.cyclo24.specs.K24.{exact24};
ghost use Rattle.iso_text.specs.Cuts.{is_sign};
ghost use Rattle.list_report.specs.FormText.{is_same24, factor_text, term_text};

use cyclo24::{Field, K24};
use iso_text::{NoMemory, Text};
use std::alloc::Global;

// Whether two values stand for one number.
fn is_same<F: Field>(x: F, y: F) -> bool
    ensures { result ≡ is_eq (F.field.cmp (F.value x) (F.value y)) }
{
    x.cmp(&y).is_eq()
}

fn is_one(x: K24) -> bool
    ensures { result ≡ is_same24 (exact24 x) k24_laws.unit }
{
    is_same(x, K24::one())
}

fn is_minus_one(x: K24) -> bool
    ensures { result ≡ is_same24 (exact24 x) (k24_laws.neg k24_laws.unit) }
{
    is_same(x, K24::one().neg())
}

fn is_sign(byte: u8) -> bool
    ensures { result ≡ is_sign byte }
{
    byte == b'+' || byte == b'-'
}

// Whether a sign stands behind the first byte.
fn has_later_sign(text: &[u8]) -> bool
    ensures { result ≡ list_any is_sign (drop 1 text.now) }
{
    for i in 1..text.len() {
        if is_sign(text[i]) {
            return true;
        }
    }
    false
}

// The text of a number with `*` behind it, in brackets where it has several terms.
fn multiple_text(alloc: Global, number: &[u8]) -> Result<Text, NoMemory>
    ensures { IfOk result (λ text. text ≡ (if list_any is_sign (drop 1 number.now) then codes "(" ++ number.now ++ codes ")*" else number.now ++ codes "*")) }
{
    let mut text = Text::new(alloc);
    if has_later_sign(number) {
        text.push(b"(")?;
        text.push(number)?;
        text.push(b")*")?;
        return Ok(text);
    }
    text.push(number)?;
    text.push(b"*")?;
    Ok(text)
}

// What stands before the letter: nothing for 1, `-` for -1, else the number.
fn factor_text(alloc: Global, x: K24) -> Result<Text, NoMemory>
    ensures { IfOk result (λ text. text ≡ factor_text (exact24 x)) }
{
    let mut text = Text::new(alloc);
    if is_one(x) {
        return Ok(text);
    }
    if is_minus_one(x) {
        text.push(b"-")?;
        return Ok(text);
    }
    let number = x.print(alloc)?;
    multiple_text(alloc, number.as_slice())
}

/// A multiple of a letter.
pub fn term_text(alloc: Global, x: K24, letter: u8) -> Result<Text, NoMemory>
    ensures { IfOk result (λ text. text ≡ term_text (exact24 x) letter) }
{
    let mut text = factor_text(alloc, x)?;
    text.push(&[letter])?;
    Ok(text)
}
