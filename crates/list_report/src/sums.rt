// Sums of multiples of letters.
ghost use Rattle.std.specs.Prelude.{◌≡◌, ◌++◌, ◌∷◌, [], ℕ, List, IfOk, Some, cond, not, codes};
ghost use Rattle.cyclo24.specs.ExactK24.{k24_laws};
ghost use Rattle.cyclo24.specs.K24.{exact24};
ghost use Rattle.list_report.specs.FormText.{added_text, term_text};
ghost use Rattle.list_report.specs.FormParts.{sum_with};

use crate::factor::term_text;
use cyclo24::{Field, K24};
use iso_text::{NoMemory, Text};
use std::alloc::Global;

// A term behind another.
fn added_text(alloc: Global, term: &[u8]) -> Result<Text, NoMemory>
    ensures { IfOk result (λ text. text ≡ added_text term.now) }
{
    let mut text = Text::new(alloc);
    if !term.starts_with(b"-") {
        text.push(b"+")?;
    }
    text.push(term)?;
    Ok(text)
}

// The sum of the terms so far, if there are some, and one more.
fn joined(alloc: Global, sum: Option<Text>, term: Text) -> Result<Text, NoMemory>
    ensures { IfOk result (λ text. (rest : List (List ℕ)) → sum_with (Some text) rest ≡ sum_with sum (term ∷ rest)) }
{
    match sum {
        None => Ok(term),
        Some(mut text) => {
            let added = added_text(alloc, term.as_slice())?;
            text.push(added.as_slice())?;
            Ok(text)
        }
    }
}

/// The sum of the terms so far, and minus this entry times the letter.
pub fn add_entry(
    alloc: Global,
    sum: Option<Text>,
    entry: K24,
    letter: u8,
) -> Result<Option<Text>, NoMemory>
    ensures { IfOk result (λ more. (rest : List (List ℕ)) → sum_with more rest ≡ sum_with sum (cond (not (k24_laws.is_nought (exact24 entry))) (term_text (k24_laws.neg (exact24 entry)) letter ∷ rest) rest)) }
{
    if entry.is_zero() {
        return Ok(sum);
    }
    let term = term_text(alloc, entry.neg(), letter)?;
    let text = joined(alloc, sum, term)?;
    Ok(Some(text))
}
