// Texts of so many words.
ghost use Rattle.std.specs.Prelude.{◌≡◌, IfSome};
ghost use Rattle.std.specs.Option.{option_copied, option_map};
ghost use Rattle.std.specs.Str.{bytes_eq};
ghost use Rattle.iso_text.specs.Cuts.{words_of};
ghost use Rattle.iso_text.specs.Fractions.{k_fraction_of, place_of};
ghost use Rattle.iso_text.specs.LineWords.{is_none_left, one, two, three_of, site_of};

use crate::cuts::first_word;
use crate::fractions::{k_fraction, place};
use crate::numbers::Frac;

/// Whether two texts are the same.
pub fn is_same(word: &[u8], text: &[u8]) -> bool
    ensures { result ≡ bytes_eq word.now text.now }
{
    word == text
}

/// Whether a text has no word.
pub fn is_empty(text: &[u8]) -> bool
    ensures { result ≡ is_none_left (words_of text.now) }
{
    match first_word(text) {
        None => true,
        Some(_) => false,
    }
}

/// The only word of a text that has one.
pub fn one_word(text: &[u8]) -> Option<&[u8]>
    ensures { option_copied result ≡ one (words_of text.now) }
{
    let (word, rest) = first_word(text)?;
    match first_word(rest) {
        None => Some(word),
        Some(_) => None,
    }
}

/// The words of a text that has two.
pub fn two_words(text: &[u8]) -> Option<(&[u8], &[u8])>
    ensures { option_map (λ w. (w.0.now, w.1.now)) result ≡ two (words_of text.now) }
{
    let (a, rest) = first_word(text)?;
    let b = one_word(rest)?;
    Some((a, b))
}

/// Three fractions, and what stands behind them.
pub fn three_fractions(text: &[u8]) -> Option<([Frac; 3], &[u8])>
    ensures { option_map (λ r. (r.0, words_of r.1.now)) result ≡ three_of k_fraction_of (words_of text.now) }
{
    let (a, rest) = first_word(text)?;
    let (b, rest) = first_word(rest)?;
    let (c, rest) = first_word(rest)?;
    let a = k_fraction(a)?;
    let b = k_fraction(b)?;
    let c = k_fraction(c)?;
    Some(([a, b, c], rest))
}

/// Three coordinates, and what stands behind them.
pub fn three_places(text: &[u8]) -> Option<([i64; 3], &[u8])>
    ensures { option_map (λ r. (r.0, words_of r.1.now)) result ≡ three_of place_of (words_of text.now) }
{
    let (x, rest) = first_word(text)?;
    let (y, rest) = first_word(rest)?;
    let (z, rest) = first_word(rest)?;
    let x = place(x)?;
    let y = place(y)?;
    let z = place(z)?;
    Some(([x, y, z], rest))
}

/// A word, three coordinates, and what stands behind them.
pub fn site(text: &[u8]) -> Option<(&[u8], [i64; 3], &[u8])>
    ensures { option_map (λ r. (r.0.now, r.1, words_of r.2.now)) result ≡ site_of (words_of text.now) }
{
    let (label, rest) = first_word(text)?;
    let (place, rest) = three_places(rest)?;
    Some((label, place, rest))
}
