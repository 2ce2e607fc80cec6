// A row, and the text that is printed of it.
use crate::answers::{push_cyclotomic_answers, push_real, push_real_answers};
use crate::numbers::{cyclotomic, real};
use iso_text::{NoMemory, Text};
use std::alloc::Global;

fn push_one(alloc: Global, text: &mut Text, x: &str) -> Result<(), NoMemory> {
    match real(alloc, x)? {
        Some(x) => push_real(alloc, text, b"x", x),
        None => text.push(b"  no number\n"),
    }
}

fn push_two(alloc: Global, text: &mut Text, x: &str, y: &str) -> Result<(), NoMemory> {
    match (real(alloc, x)?, real(alloc, y)?) {
        (Some(x), Some(y)) => push_real_answers(alloc, text, x, y),
        _ => text.push(b"  no number\n"),
    }
}

fn push_cyclotomic(alloc: Global, text: &mut Text, x: &str, y: &str) -> Result<(), NoMemory> {
    match (cyclotomic(alloc, x)?, cyclotomic(alloc, y)?) {
        (Some(x), Some(y)) => push_cyclotomic_answers(alloc, text, x, y),
        _ => text.push(b"  no number\n"),
    }
}

pub fn answer(alloc: Global, row: &str) -> Result<Text, NoMemory> {
    let mut text = Text::new(alloc);
    text.push(row.as_bytes())?;
    text.push(b"\n")?;
    let (field, numbers) = row.split_once(' ').unwrap_or((row, ""));
    match (field, numbers.split_once(" | ")) {
        ("K24", Some((x, y))) => push_two(alloc, &mut text, x, y)?,
        ("K24", None) => push_one(alloc, &mut text, numbers)?,
        ("Z24", Some((x, y))) => push_cyclotomic(alloc, &mut text, x, y)?,
        _ => text.push(b"  no row\n")?,
    }
    Ok(text)
}
