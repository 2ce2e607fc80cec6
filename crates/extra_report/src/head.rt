// The first line of a report.
ghost use Rattle.std.specs.Prelude.{◌≡◌, ◌++◌, [], IfOk, codes, decimal};
ghost use Rattle.extra_report.specs.ExtraReport.{word_of, amps_word_of, entries_of, head_text};

use extra_modes::Nature;
use iso_text::{NoMemory, Text};
use mode_report::AtomEntries;
use std::alloc::Global;

/// The word of the command for modes.
pub(crate) fn word_of(nature: Nature) -> &'static [u8]
    ensures { result.now ≡ word_of nature }
{
    match nature {
        Nature::Occupation => b"occ",
        Nature::Axial => b"axial",
    }
}

/// The word of the command for amplitudes.
pub(crate) fn amps_word_of(nature: Nature) -> &'static [u8]
    ensures { result.now ≡ amps_word_of nature }
{
    match nature {
        Nature::Occupation => b"occ-amps",
        Nature::Axial => b"axial-amps",
    }
}

/// How many numbers an atom has.
pub(crate) fn entries_of(nature: Nature) -> AtomEntries
    ensures { result ≡ entries_of nature }
{
    match nature {
        Nature::Occupation => AtomEntries::One,
        Nature::Axial => AtomEntries::Three,
    }
}

/// The first line, with the file's format and the word of the command.
pub(crate) fn head(alloc: Global, format: u8, word: &[u8]) -> Result<Text, NoMemory>
    ensures { IfOk result (λ text. text ≡ head_text format word.now) }
{
    let mut text = Text::new(alloc);
    text.push(b"isodist ")?;
    text.push_number(u64::from(format))?;
    text.push(b" ")?;
    text.push(word)?;
    text.push(b"\n")?;
    Ok(text)
}
