// Whole numbers and denominators in words.
ghost use Rattle.std.specs.Prelude.{◌≡◌, ◌^◌, ◌<◌, ◌≤◌, IfSome};
ghost use Rattle.iso_text.specs.Digits.{digits_of, whole_of, divisor_of, over_of, ratio_of};

use crate::cuts::{Mark, split_at_mark};

/// The most digits of a number in a word.
pub const MAX_DIGITS: usize = 6;

/// The number that at most `most` digits write, 0 for none.
pub fn digits(text: &[u8], most: usize) -> Option<u32>
    requires { most ≤ MAX_DIGITS }
    ensures value { result ≡ digits_of most text.now }
    ensures small { IfSome result (λ n. n < 10 ^ 6) }
{
    if text.len() > most {
        return None;
    }
    let mut number = 0;
    for byte in text {
        if !byte.is_ascii_digit() {
            return None;
        }
        number = number * 10 + u32::from(*byte - b'0');
    }
    Some(number)
}

/// The number that one to `most` digits write.
pub fn whole(text: &[u8], most: usize) -> Option<u32>
    requires { most ≤ MAX_DIGITS }
    ensures value { result ≡ whole_of most text.now }
    ensures small { IfSome result (λ n. n < 10 ^ 6) }
{
    match text {
        [] => None,
        _ => digits(text, most),
    }
}

/// The denominator that a text is: 1, 2, 3, 4, 6, 8, 12 or 24.
pub fn divisor(text: &[u8]) -> Option<u8>
    ensures value { result ≡ divisor_of text.now }
    ensures range { IfSome result (λ d. (0 < d) × (d ≤ 24)) }
{
    match text {
        [b'1'] => Some(1),
        [b'2'] => Some(2),
        [b'3'] => Some(3),
        [b'4'] => Some(4),
        [b'6'] => Some(6),
        [b'8'] => Some(8),
        [b'1', b'2'] => Some(12),
        [b'2', b'4'] => Some(24),
        _ => None,
    }
}

// 1, or the denominator behind a `/`, which is the text's first byte.
fn over(text: &[u8]) -> Option<u8>
    ensures value { result ≡ over_of text.now }
    ensures range { IfSome result (λ d. (0 < d) × (d ≤ 24)) }
{
    match text {
        [] => Some(1),
        [_, behind @ ..] => divisor(behind),
    }
}

/// One to `most` digits, and optionally `/` and a denominator.
pub fn ratio(text: &[u8], most: usize) -> Option<(u32, u8)>
    requires { most ≤ MAX_DIGITS }
    ensures value { result ≡ ratio_of most text.now }
    ensures small { IfSome result (λ r. r.0 < 10 ^ 6) }
    ensures range { IfSome result (λ r. (0 < r.1) × (r.1 ≤ 24)) }
{
    let (number, denominator) = split_at_mark(text, Mark::Byte(b'/'));
    let num = whole(number, most)?;
    let den = over(denominator)?;
    Some((num, den))
}
