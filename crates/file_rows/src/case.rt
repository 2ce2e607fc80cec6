// One case, and what the reader answers to its file or to each of its files.
use crate::document::push_document;
use crate::template::bytes_of;
use iso_text::{Document, MAX_BYTES, NoMemory, ReadError, Text};
use std::alloc::Global;

// The number of the first bad line, 0 where the file is read.
fn bad_line(alloc: Global, bytes: &[u8]) -> Result<u32, NoMemory> {
    if bytes.len() > MAX_BYTES {
        return Ok(u32::MAX);
    }
    match Document::read(alloc, bytes) {
        Ok(_) => Ok(0),
        Err(ReadError::BadText(number)) => Ok(number),
        Err(ReadError::NoMemory) => Err(NoMemory),
    }
}

fn push_bad(text: &mut Text, number: u32) -> Result<(), NoMemory> {
    text.push(b"bad ")?;
    text.push_number(u64::from(number))?;
    text.push(b"\n")
}

fn push_line(alloc: Global, text: &mut Text, bytes: &[u8]) -> Result<(), NoMemory> {
    match bad_line(alloc, bytes)? {
        0 => text.push(b"read\n"),
        number => push_bad(text, number),
    }
}

fn push_file(alloc: Global, text: &mut Text, bytes: &[u8]) -> Result<(), NoMemory> {
    if bytes.len() > MAX_BYTES {
        return text.push(b"too long\n");
    }
    match Document::read(alloc, bytes) {
        Ok(document) => push_document(text, &document),
        Err(ReadError::BadText(number)) => push_bad(text, number),
        Err(ReadError::NoMemory) => Err(NoMemory),
    }
}

fn push_words(alloc: Global, text: &mut Text, body: &str, words: &str) -> Result<(), NoMemory> {
    for word in words.split(' ') {
        text.push(b"? ")?;
        text.push(word.as_bytes())?;
        text.push(b"\n")?;
        push_file(alloc, text, &bytes_of(alloc, body, word.as_bytes())?)?;
    }
    Ok(())
}

// A number, behind it a line end where it is the last of sixteen.
fn push_cell(text: &mut Text, i: usize, number: u32) -> Result<(), NoMemory> {
    text.push_number(u64::from(number))?;
    text.push(if i % 16 == 15 { b"\n" } else { b" " })
}

fn push_bytes(alloc: Global, text: &mut Text, body: &str) -> Result<(), NoMemory> {
    for byte in 0..=255u8 {
        let number = bad_line(alloc, &bytes_of(alloc, body, &[byte])?)?;
        push_cell(text, usize::from(byte), number)?;
    }
    Ok(())
}

fn push_cuts(alloc: Global, text: &mut Text, bytes: &[u8]) -> Result<(), NoMemory> {
    for cut in 0..=bytes.len() {
        let number = bad_line(alloc, &bytes[..bytes.len() - cut])?;
        push_cell(text, cut, number)?;
    }
    text.push(b"\n")
}

fn push_answer(
    alloc: Global,
    text: &mut Text,
    kind: &str,
    words: &str,
    body: &str,
) -> Result<(), NoMemory> {
    match kind {
        "file" => push_file(alloc, text, &bytes_of(alloc, body, b"?")?),
        "line" => push_line(alloc, text, &bytes_of(alloc, body, b"?")?),
        "words" => push_words(alloc, text, body, words),
        "bytes" => push_bytes(alloc, text, body),
        "cuts" => push_cuts(alloc, text, &bytes_of(alloc, body, b"?")?),
        _ => text.push(b"no case\n"),
    }
}

/// The case's head and its answers.
pub fn answer(alloc: Global, case: &str) -> Result<Text, NoMemory> {
    let (head, body) = case.split_once('\n').unwrap_or((case, ""));
    let (kind, words) = head.split_once(' ').unwrap_or((head, ""));
    let mut text = Text::new(alloc);
    text.push(b"%% ")?;
    text.push(head.as_bytes())?;
    text.push(b"\n")?;
    push_answer(alloc, &mut text, kind, words, body)?;
    Ok(text)
}
