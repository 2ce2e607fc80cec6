// Demo files.
use crate::words::push_numbers;
use demo_files::demo_file;
use iso_text::{NoMemory, Text};
use std::alloc::Global;

/// What is asked of a demo file.
#[derive(Clone, Copy)]
pub enum DemoAsk {
    Sizes,
    Whole,
}

// The bytes as digits to the base 31, modulo 2^32.
fn checksum(bytes: &[u8]) -> u32 {
    let mut sum: u32 = 0;
    for byte in bytes {
        sum = sum.wrapping_mul(31).wrapping_add(u32::from(*byte));
    }
    sum
}

fn push_sizes(text: &mut Text, file: &[u8]) -> Result<(), NoMemory> {
    let lines = file.iter().filter(|byte| **byte == b'\n').count();
    text.push(b"  lines")?;
    push_numbers(text, &[lines])?;
    text.push(b" bytes")?;
    push_numbers(text, &[file.len()])?;
    text.push(b" checksum ")?;
    text.push_number(u64::from(checksum(file)))?;
    text.push(b"\n")
}

pub fn push_demo(
    alloc: Global,
    text: &mut Text,
    number: &str,
    ask: DemoAsk,
) -> Result<(), NoMemory> {
    let number: u8 = number.parse().unwrap_or(64);
    if number >= 64 {
        return text.push(b"  no number\n");
    }
    let file = demo_file(alloc, number)?;
    match ask {
        DemoAsk::Sizes => push_sizes(text, file.as_slice()),
        DemoAsk::Whole => text.push(file.as_slice()),
    }
}
