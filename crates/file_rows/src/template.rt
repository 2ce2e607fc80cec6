// The bytes for which the lines of a case stand.
use iso_text::{NoMemory, Text};
use std::alloc::Global;

fn hex_byte(rest: &str) -> Option<(u8, &str)> {
    let (digits, rest) = rest.split_at_checked(2)?;
    let byte = u8::from_str_radix(digits, 16).ok()?;
    Some((byte, rest))
}

// The byte behind a `\`, and the rest.
fn escaped(piece: &str) -> (u8, &str) {
    let named = match piece.split_at_checked(1) {
        Some(("r", rest)) => Some((b'\r', rest)),
        Some(("t", rest)) => Some((b'\t', rest)),
        Some(("n", rest)) => Some((b'\n', rest)),
        Some(("x", rest)) => hex_byte(rest),
        _ => None,
    };
    named.unwrap_or((b'\\', piece))
}

// Text without a `\`, the mark for each `?`.
fn push_plain(bytes: &mut Text, plain: &str, mark: &[u8]) -> Result<(), NoMemory> {
    for (i, part) in plain.split('?').enumerate() {
        if i > 0 {
            bytes.push(mark)?;
        }
        bytes.push(part.as_bytes())?;
    }
    Ok(())
}

fn push_text(bytes: &mut Text, text: &str, mark: &[u8]) -> Result<(), NoMemory> {
    for (i, piece) in text.split('\\').enumerate() {
        if i == 0 {
            push_plain(bytes, piece, mark)?;
        } else {
            let (byte, rest) = escaped(piece);
            bytes.push(&[byte])?;
            push_plain(bytes, rest, mark)?;
        }
    }
    Ok(())
}

fn push_line(bytes: &mut Text, line: &str, mark: &[u8]) -> Result<(), NoMemory> {
    match line.strip_suffix('\\') {
        Some(text) => push_text(bytes, text, mark),
        None => {
            push_text(bytes, line, mark)?;
            bytes.push(b"\n")
        }
    }
}

// How often a line stands, and the line.
fn counted(line: &str) -> (u32, &str) {
    match line.strip_prefix('%').unwrap_or("").split_once(' ') {
        Some((count, line)) => (count.parse().unwrap_or(0), line),
        None => (1, line),
    }
}

/// The bytes of these lines, with the mark for each `?`.
pub fn bytes_of(alloc: Global, lines: &str, mark: &[u8]) -> Result<Vec<u8>, NoMemory> {
    let mut bytes = Text::new(alloc);
    for line in lines.lines() {
        let (count, line) = counted(line);
        for _ in 0..count {
            push_line(&mut bytes, line, mark)?;
        }
    }
    Ok(bytes.as_slice().to_vec(alloc)?)
}
