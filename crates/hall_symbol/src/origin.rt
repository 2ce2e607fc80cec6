// Origin shifts, and the operations as they are seen from a shifted origin.
ghost use Rattle.std.specs.Prelude.{◌≡◌, ◌≤◌, option_map, IfSome};
ghost use Rattle.space_ops.specs.Op.{IsWithin, IsShiftWithin};
ghost use Rattle.hall_symbol.specs.Grammar.{signed_number};
ghost use Rattle.hall_symbol.specs.ShiftReading as shift_reading;
ghost use Rattle.hall_symbol.specs.WordReading as word_reading;

use crate::part::sign_at;
use crate::words::next_word;

fn digit_in(byte: u8) -> Option<u8>
    ensures value { result ≡ shift_reading.digit_in byte }
    ensures small { IfSome result (λ d. d ≤ 9) }
{
    if b'0' <= byte && byte <= b'9' {
        Some(byte - b'0')
    } else {
        None
    }
}

fn at_most_twelve(count: u8) -> Option<u8>
    ensures value { result ≡ shift_reading.at_most_twelve count }
    ensures small { IfSome result (λ n. n ≤ 12) }
{
    if count <= 12 { Some(count) } else { None }
}

// One or two digits of at most 12.
#[tactic(auto, unfolding(crate::specs::ShiftReading::count_in))]
fn count_in(text: &[u8]) -> Option<u8>
    ensures value { result ≡ shift_reading.count_in text.now }
    ensures small { IfSome result (λ n. n ≤ 12) }
{
    match text {
        [ones] => digit_in(*ones),
        [tens, ones] => {
            let tens = digit_in(*tens)?;
            let ones = digit_in(*ones)?;
            at_most_twelve(10 * tens + ones)
        }
        _ => None,
    }
}

fn signed_number(negative: bool, count: u8) -> i32
    requires { count ≤ 12 }
    ensures value { result ≡ signed_number negative count }
    ensures within { IsWithin 12 result }
{
    let number = i32::from(count);
    if negative { -number } else { number }
}

// An optional `-` and one or two digits of at most 12.
#[tactic(auto, unfolding(crate::specs::ShiftReading::number_in))]
fn number_in(word: &[u8]) -> Option<i32>
    ensures value { result ≡ shift_reading.number_in word.now }
    ensures within { IfSome result (λ z. IsWithin 12 z) }
{
    let (negative, rest) = sign_at(word);
    let count = count_in(rest)?;
    Some(signed_number(negative, count))
}

#[tactic(auto, unfolding(crate::specs::ShiftReading::number_at))]
fn number_at(text: &[u8]) -> Option<(i32, &[u8])>
    ensures value { option_map (λ p. (p.0, word_reading.words p.1.now)) result ≡ shift_reading.number_at (word_reading.words text.now) }
    ensures within { IfSome result (λ p. IsWithin 12 p.0) }
{
    let (word, rest) = next_word(text)?;
    let number = number_in(word)?;
    Some((number, rest))
}

pub fn is_byte(byte: u8, word: &[u8]) -> bool
    ensures { result ≡ shift_reading.is_byte byte word.now }
{
    match word {
        [only] => *only == byte,
        _ => false,
    }
}

// Whether `)` is the one word that is left.
fn is_closed(text: &[u8]) -> bool
    ensures { result ≡ shift_reading.is_closed (word_reading.words text.now) }
{
    match next_word(text) {
        None => false,
        Some((word, rest)) => is_byte(b')', word) && next_word(rest).is_none(),
    }
}

#[tactic(auto, unfolding(crate::specs::ShiftReading::written_at))]
fn written_at(text: &[u8]) -> Option<[i32; 3]>
    ensures value { result ≡ shift_reading.written_at (word_reading.words text.now) }
    ensures within { IfSome result (λ v. IsShiftWithin 12 v) }
{
    let (p, rest) = number_at(text)?;
    let (q, rest) = number_at(rest)?;
    let (r, rest) = number_at(rest)?;
    if is_closed(rest) {
        Some([p, q, r])
    } else {
        None
    }
}

/// The origin shift that ends a symbol, in twelfths: zero where no word is left.
#[tactic(auto, unfolding(crate::specs::ShiftReading::shift_at))]
pub fn shift_at(text: &[u8]) -> Option<[i32; 3]>
    ensures value { result ≡ shift_reading.shift_at (word_reading.words text.now) }
    ensures within { IfSome result (λ v. IsShiftWithin 12 v) }
{
    let Some((word, rest)) = next_word(text) else {
        return Some([0; 3]);
    };
    if is_byte(b'(', word) {
        written_at(rest)
    } else {
        None
    }
}
