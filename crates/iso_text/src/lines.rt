// The lines of a file's bytes.
ghost use Rattle.std.specs.Prelude.{◌≡◌, ◌∷◌, ◌<◌, ◌≤◌, length};
ghost use Rattle.std.specs.List.{list_all};
ghost use Rattle.iso_text.specs.Cuts.{is_blank};
ghost use Rattle.iso_text.specs.Lines.{lines_of, without_return, is_skipped, is_text_byte, is_text, unindented, without_trail, trimmed};

use crate::cuts::{Mark, split_round_mark};

// Without a carriage return at the end.
fn without_return(line: &[u8]) -> &[u8]
    ensures { result.now ≡ without_return line.now }
{
    match line {
        [] => line,
        [front @ .., last] => { if *last == b'\r' { front } else { line } }
    }
}

/// The first line, without its line feed and a carriage return before it, and the bytes behind it.
pub fn first_line(bytes: &[u8]) -> (&[u8], &[u8])
    requires { 0 < length bytes.now }
    ensures line { lines_of bytes.now ≡ result.0.now ∷ lines_of result.1.now }
    ensures shorter { length result.1.now < length bytes.now }
{
    let (line, behind) = split_round_mark(bytes, Mark::Byte(b'\n'));
    (without_return(line), behind)
}

/// Whether a byte is a space or a tab.
pub fn is_blank(byte: u8) -> bool
    ensures { result ≡ is_blank byte }
{
    byte == b' ' || byte == b'\t'
}

fn has_only_blanks(line: &[u8]) -> bool
    ensures { result ≡ list_all is_blank line.now }
{
    line.iter().all(|byte| is_blank(*byte))
}

/// Whether a line says nothing: only blanks, or a comment, whose first byte is `#`.
pub fn is_skipped(line: &[u8]) -> bool
    ensures { result ≡ is_skipped line.now }
{
    match line {
        [b'#', ..] => true,
        _ => has_only_blanks(line),
    }
}

fn is_text_byte(byte: u8) -> bool
    ensures { result ≡ is_text_byte byte }
{
    byte >= b' ' && byte <= b'~' || byte == b'\t'
}

/// Whether a line has no bytes but the printable ones of ASCII and the tab.
pub fn is_text(line: &[u8]) -> bool
    ensures { result ≡ is_text line.now }
{
    line.iter().all(|byte| is_text_byte(*byte))
}

/// The text without the blanks in front.
pub fn unindented(text: &[u8]) -> &[u8]
    ensures value { result.now ≡ unindented text.now }
    ensures shorter { length result.now ≤ length text.now }
{
    let mut rest = text;
    while let [first, behind @ ..] = rest {
        if !is_blank(*first) {
            return rest;
        }
        rest = behind;
    }
    rest
}

// The text without the blanks at the end.
fn without_trail(text: &[u8]) -> &[u8]
    ensures { result.now ≡ without_trail text.now }
{
    let mut rest = text;
    while let [front @ .., last] = rest {
        if !is_blank(*last) {
            return rest;
        }
        rest = front;
    }
    rest
}

/// The text without the blanks at both ends.
pub fn trimmed(text: &[u8]) -> &[u8]
    ensures { result.now ≡ trimmed text.now }
{
    without_trail(unindented(text))
}
