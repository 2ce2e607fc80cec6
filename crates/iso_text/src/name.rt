// The name of an irrep, or the label of an atom.
ghost use Rattle.std.specs.Prelude.{◌≡◌, ◌≤◌, ◌<◌, true, false, length, MatchOption};
ghost use Rattle.std.specs.List.{list_all};
ghost use Rattle.iso_text.specs.Name.{is_name, begins_with_letter, is_name_byte};

use std::marker::Model;

/// The most bytes of a name.
pub const NAME_BYTES: usize = 16;

/// A word of 1 to 16 bytes, seen as the list of its bytes.
#[derive(Clone, Copy, Debug, PartialEq, Eq)]
pub struct Name {
    bytes: [u8; 16],
    len: usize,
}

impl Model for Name {
    ghost use Rattle.std.specs.Prelude.{ℕ, List, length};

    ghost Value = { List ℕ };

    ghost use Rattle.iso_text.specs.NameView.{view_of, IsPadded, inverse_of};
    ghost use Rattle.iso_text.specs.NameViewLaws.{inverse_of-view_of};

    ghost view = { view_of };

    ghost invariant = { IsPadded };

    ghost inverse = { inverse_of };

    ghost inverse_ok = { inverse_of-view_of };
}

impl Name {
    /// The name that a text is, where it is one: a letter, then letters, digits, `_`, `+`, `-` or
    /// `.`, at most 16 bytes in all.
    pub fn parse(text: &[u8]) -> Option<Name>
        ensures { MatchOption result (is_name text.now ≡ false) (λ name. (name ≡ text.now) × (is_name text.now ≡ true)) }
    {
        if is_name_text(text) {
            Some(padded(text))
        } else {
            None
        }
    }

    /// The bytes in order.
    pub fn as_slice(&self) -> &[u8]
        ensures value { result.now ≡ self.now }
    {
        &self.bytes[..self.len]
    }
}

fn begins_with_letter(text: &[u8]) -> bool
    ensures { result ≡ begins_with_letter text.now }
{
    match text {
        [] => false,
        [first, ..] => first.is_ascii_alphabetic(),
    }
}

fn is_name_text(text: &[u8]) -> bool
    ensures { result ≡ is_name text.now }
{
    begins_with_letter(text) && (text.len() <= NAME_BYTES && has_name_bytes(text))
}

fn has_name_bytes(text: &[u8]) -> bool
    ensures { result ≡ list_all is_name_byte text.now }
{
    text.iter().all(|byte| can_follow(*byte))
}

fn can_follow(byte: u8) -> bool
    ensures { result ≡ is_name_byte byte }
{
    byte.is_ascii_alphanumeric()
        || (byte == b'_' || (byte == b'+' || (byte == b'-' || byte == b'.')))
}

// The bytes, and 0 behind them.
fn padded(text: &[u8]) -> Name
    requires some { 0 < length text.now }
    requires few { length text.now ≤ NAME_BYTES }
    ensures { result ≡ text.now }
{
    let mut bytes = [0; 16];
    bytes[..text.len()].copy_from_slice(text);
    Name {
        bytes,
        len: text.len(),
    }
}
