// Blanks and the words of a text.
ghost use Rattle.std.specs.Prelude.{◌≡◌, ◌+◌, ◌<◌, ◌≤◌, ◌∷◌, [], true, length, take, drop, MatchOption, IfSome};
ghost use Rattle.iso_text.specs.Cuts.{is_blank};
ghost use Rattle.iso_text.specs.Lines.{unindented, without_trail, trimmed};
ghost use Rattle.hall_symbol.specs.Words.{can_follow};
ghost use Rattle.hall_symbol.specs.WordReading.{words, ends_word, begins_word};

use iso_text::{is_blank, unindented};

// Whether a text may stand behind a word.
fn can_follow(text: &[u8]) -> bool
    ensures { result ≡ can_follow text.now }
{
    match text {
        [] => true,
        [first, ..] => is_blank(*first) || *first == b')',
    }
}

// Whether a word ends with the first byte.
fn ends_word(text: &[u8]) -> bool
    ensures { result ≡ ends_word text.now }
{
    match text {
        [] => true,
        [first, rest @ ..] => *first == b'(' || can_follow(rest),
    }
}

// The length of the word that a text begins with.
fn word_len(text: &[u8]) -> usize
    requires { begins_word text.now ≡ true }
    ensures some { 0 < result }
    ensures within { result ≤ length text.now }
    ensures value { words text.now ≡ take result text.now ∷ words (drop result text.now) }
{
    let mut last = 0;
    'bytes: while !ends_word(&text[last..]) {
        last += 1;
    }
    last + 1
}

/// The first word and what stands behind it, where there is a word.
pub fn next_word(text: &[u8]) -> Option<(&[u8], &[u8])>
    ensures value { MatchOption result (words text.now ≡ []) (λ p. words text.now ≡ p.0.now ∷ words p.1.now) }
    ensures shorter { IfSome result (λ p. length p.0.now + length p.1.now ≤ length text.now) }
    ensures some { IfSome result (λ p. 0 < length p.0.now) }
{
    let text = unindented(text);
    if text.is_empty() {
        return None;
    }
    Some(text.split_at(word_len(text)))
}
