// Reading a file's bytes.
ghost use Rattle.std.specs.Prelude.{◌≡◌, ◌≤◌, ◌<◌, ◌+◌, ◌^◌, length, IfOk, IfErr, OnOk, Some, MatchResult};
ghost use Rattle.iso_text.specs.Draft.{next_of, Refuses};
ghost use Rattle.iso_text.specs.File.{IsFile, HasCause};
ghost use Rattle.iso_text.specs.FileValue.{File};
ghost use Rattle.iso_text.specs.LineKinds.{kind_of};
ghost use Rattle.iso_text.specs.Lines.{lines_of};
ghost use Rattle.iso_text.specs.Ranges.{IsInRange};

use crate::document::Document;
use crate::draft::{Draft, begin, finished};
use crate::line_steps::next;
use crate::line_words::read_line;
use crate::lines::{first_line, is_skipped};
use crate::read_error::ReadError;
use crate::source::MAX_BYTES;
use std::alloc::Global;

// Goes on with the line of this number.
fn take_line(alloc: Global, draft: &mut Draft, number: u32, line: &[u8]) -> Result<(), ReadError>
    ensures ok { OnOk result (next_of draft.old (kind_of number line.now) ≡ Some draft.new) }
    ensures err { IfErr result (λ e. Refuses draft.old number line.now e) }
{
    let kind = match read_line(alloc, number, line) {
        Ok(kind) => kind,
        Err(_) => return Err(ReadError::NoMemory),
    };
    match next(alloc, draft, kind) {
        Ok(true) => Ok(()),
        Ok(false) => Err(ReadError::BadText(number)),
        Err(_) => Err(ReadError::NoMemory),
    }
}

// The document that all lines of the bytes are.
fn read_lines(alloc: Global, bytes: &[u8]) -> Result<Document, ReadError>
    requires { length bytes.now ≤ MAX_BYTES }
    ensures file { IfOk result (λ document. IsFile (lines_of bytes.now) document) }
    ensures cause { IfErr result (λ e. HasCause (lines_of bytes.now) e) }
{
    let mut draft = begin(alloc);
    let mut number = 0u32;
    let mut rest = bytes;
    while !rest.is_empty() {
        let (line, behind) = first_line(rest);
        number += 1;
        rest = behind;
        if is_skipped(line) {
            continue;
        }
        match take_line(alloc, &mut draft, number, line) {
            Ok(()) => {}
            Err(error) => return Err(error),
        }
    }
    match finished(draft) {
        Some(document) => Ok(document),
        None => Err(ReadError::BadText(number + 1)),
    }
}

impl Document {
    /// Reads the bytes of a file, at most 1,048,576 of them. `BadText` has the number of the first
    /// line that can't go on as a file, which is one more than the number of lines where the end is
    /// missing; `NoMemory` is want of memory.
    pub fn read(alloc: Global, bytes: &[u8]) -> Result<Document, ReadError>
        requires { length bytes.now ≤ MAX_BYTES }
        // What is read is a file, with these values.
        ensures file { IfOk result (λ document. IsFile (lines_of bytes.now) document) }
        // All that it says is within the ranges of the format.
        ensures ranges { IfOk result (λ document. IsInRange document) }
        // The number of the first line that can't go on as a file.
        ensures cause { IfErr result (λ e. HasCause (lines_of bytes.now) e) }
        // A file is read, and has these values alone.
        ensures only { (f : File) → IsFile (lines_of bytes.now) f → MatchResult result (λ document. document ≡ f) (λ e. e ≡ ReadError.NoMemory) }
    {
        read_lines(alloc, bytes)
    }
}
