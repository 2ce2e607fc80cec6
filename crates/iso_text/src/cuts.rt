// Cutting a text into its parts.
ghost use Rattle.std.specs.Prelude.{◌≡◌, ◌∷◌, ◌+◌, ◌<◌, ◌≤◌, [], length, take, drop, MatchOption, IfSome};
ghost use Rattle.iso_text.specs.Cuts.{front, back, behind, words_of, cut_at, is_sign};
ghost use Rattle.iso_text.specs.Mark.{picks};

/// What a text is cut at.
#[derive(Clone, Copy, Debug, PartialEq, Eq)]
pub enum Mark {
    /// a space or a tab
    Blank,
    /// `+` or `-`
    Sign,
    /// this byte
    Byte(u8),
}

fn is_mark(mark: Mark, byte: u8) -> bool
    ensures { result ≡ picks mark byte }
{
    match mark {
        Mark::Blank => byte == b' ' || byte == b'\t',
        Mark::Sign => byte == b'+' || byte == b'-',
        Mark::Byte(wanted) => byte == wanted,
    }
}

// The index of the first mark, or the text's length.
fn mark_at(text: &[u8], mark: Mark) -> usize
    ensures within { result ≤ length text.now }
    ensures front { take result text.now ≡ front (picks mark) text.now }
    ensures back { drop result text.now ≡ back (picks mark) text.now }
{
    for (i, byte) in text.iter().enumerate() {
        if is_mark(mark, *byte) {
            return i;
        }
    }
    text.len()
}

/// The bytes before the first mark, and the rest from there on.
pub fn split_at_mark(text: &[u8], mark: Mark) -> (&[u8], &[u8])
    ensures front { result.0.now ≡ front (picks mark) text.now }
    ensures back { result.1.now ≡ back (picks mark) text.now }
    ensures shorter { length result.0.now + length result.1.now ≡ length text.now }
{
    let at = mark_at(text, mark);
    text.split_at(at)
}

/// The bytes before the first mark, and what follows that mark.
pub fn split_round_mark(text: &[u8], mark: Mark) -> (&[u8], &[u8])
    ensures front { result.0.now ≡ front (picks mark) text.now }
    ensures behind { result.1.now ≡ behind (picks mark) text.now }
    ensures shorter { 0 < length text.now → length result.1.now < length text.now }
{
    let (front, back) = split_at_mark(text, mark);
    match back {
        [] => (front, back),
        [_, behind @ ..] => (front, behind),
    }
}

/// The first word, and the text behind it.
pub fn first_word(text: &[u8]) -> Option<(&[u8], &[u8])>
    ensures word { MatchOption result (words_of text.now ≡ []) (λ parts. words_of text.now ≡ parts.0.now ∷ words_of parts.1.now) }
    ensures shorter { IfSome result (λ parts. length parts.1.now < length text.now) }
{
    let mut rest = text;
    while let [first, behind @ ..] = rest {
        if !is_mark(Mark::Blank, *first) {
            return Some(split_at_mark(rest, Mark::Blank));
        }
        rest = behind;
    }
    None
}

/// The text up to the first sign that isn't its first byte, and the rest from there on.
pub fn first_cut(text: &[u8]) -> (&[u8], &[u8])
    requires { 0 < length text.now }
    ensures cut { cut_at is_sign text.now ≡ result.0.now ∷ cut_at is_sign result.1.now }
    ensures shorter { length result.1.now < length text.now }
{
    let (_, behind) = text.split_at(1);
    let at = mark_at(behind, Mark::Sign);
    text.split_at(at + 1)
}
