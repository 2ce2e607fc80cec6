// The report of pairs, in pieces.
ghost use Rattle.std.specs.Prelude.{◌≡◌, ◌++◌, if◌then◌else◌, IfOk, OnOk, codes, flat_map, length};
ghost use Rattle.apart_report.specs.ApartPieces.{apart_head, pair_lines};
ghost use Rattle.apart_report.specs.ApartReport.{pair_line};
ghost use Rattle.apart_report.specs.FoundPairs.{ArePairsHeld};
ghost use Rattle.apart_report.specs.Held.{AreBelow, told_in};

use crate::found::FoundPairs;
use crate::pairs::pairs_below;
use iso_text::{IrrepText, NoMemory, Text};
use report_buffer::Report;
use std::alloc::Global;

// The first line, with the file's format.
fn head(alloc: Global, format: u8) -> Result<Text, NoMemory>
    ensures { IfOk result (λ text. text ≡ apart_head format) }
{
    let mut text = Text::new(alloc);
    text.push(b"isodist ")?;
    text.push_number(u64::from(format))?;
    text.push(b" apart")?;
    text.push(b"\n")?;
    Ok(text)
}

// The word of an answer.
fn answer_text(apart: bool) -> &'static [u8]
    ensures { result.now ≡ (if apart then codes " yes" else codes " no") }
{
    if apart { b" yes" } else { b" no" }
}

// Adds the line of a pair by the names of its irreps.
fn push_pair(text: &mut Text, name: &[u8], other: &[u8], apart: bool) -> Result<(), NoMemory>
    ensures { OnOk result (text.new ≡ text.old ++ pair_line (record { name = name.now; other = other.now; apart = apart })) }
{
    text.push(b"pair ")?;
    text.push(name)?;
    text.push(b" ")?;
    text.push(other)?;
    text.push(answer_text(apart))?;
    text.push(b"\n")
}

// The lines of pairs, with an answer for each.
fn lines_of(
    alloc: Global,
    irreps: &[IrrepText],
    pairs: &[(usize, usize)],
    answers: &[bool],
) -> Result<Text, NoMemory>
    requires below { AreBelow (length irreps.now) pairs.now }
    requires count { length answers.now ≡ length pairs.now }
    ensures { IfOk result (λ text. text ≡ flat_map pair_line (told_in irreps.now pairs.now answers.now)) }
{
    let mut text = Text::new(alloc);
    for k in 0..answers.len() {
        let i = pairs[k].0;
        let j = pairs[k].1;
        let name = irreps[i].name.as_slice();
        let other = irreps[j].name.as_slice();
        push_pair(&mut text, name, other, answers[k])?;
    }
    Ok(text)
}

// The lines of all pairs.
fn pairs_text(alloc: Global, found: &FoundPairs) -> Result<Text, NoMemory>
    requires { ArePairsHeld found.now }
    ensures { IfOk result (λ text. text ≡ pair_lines found.now) }
{
    let irreps = found.file.divided.document().irreps();
    let pairs = pairs_below(alloc, irreps.len())?;
    lines_of(alloc, irreps, &pairs, &found.answers)
}

/// The report of pairs: the first line, and the lines of all pairs. Condition: there is an answer for
/// each pair. Errors: want of memory.
impl Report for FoundPairs {
    ghost use Rattle.apart_report.specs.ApartPieces.{apart_pieces};
    ghost use Rattle.apart_report.specs.FoundPairs.{ArePairsHeld};

    ghost fits = { ArePairsHeld };

    ghost pieces = { apart_pieces };

    fn count(&self) -> usize {
        2
    }

    fn piece(&self, alloc: Global, number: usize) -> Result<Text, NoMemory> {
        if number == 0 {
            return head(alloc, self.file.divided.document().format());
        }
        pairs_text(alloc, self)
    }
}
