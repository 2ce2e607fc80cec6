// What a Hall symbol gives.
use crate::words::push_numbers;
use hall_symbol::{Generators, read};
use iso_text::{NoMemory, Text};
use space_ops::Lattice;
use std::alloc::Global;

fn letter(lattice: Lattice) -> &'static [u8] {
    match lattice {
        Lattice::P => b"P",
        Lattice::A => b"A",
        Lattice::B => b"B",
        Lattice::C => b"C",
        Lattice::I => b"I",
        Lattice::R => b"R",
        Lattice::F => b"F",
    }
}

fn push_generators(
    alloc: Global,
    text: &mut Text,
    generators: &Generators,
) -> Result<(), NoMemory> {
    text.push(b"  ")?;
    text.push(letter(generators.lattice))?;
    for op in generators.ops.as_slice() {
        text.push(b" ")?;
        text.push(op.print(alloc)?.as_slice())?;
    }
    text.push(b"\n")
}

pub fn push_symbol(alloc: Global, text: &mut Text, symbol: &str) -> Result<(), NoMemory> {
    match read(symbol.as_bytes()) {
        Ok(generators) => push_generators(alloc, text, &generators),
        Err(_) => text.push(b"  bad\n"),
    }
}

pub fn push_fronts(text: &mut Text, symbol: &str) -> Result<(), NoMemory> {
    let bytes = symbol.as_bytes();
    text.push(b" ")?;
    for n in 0..=bytes.len() {
        if read(&bytes[..n]).is_ok() {
            push_numbers(text, &[n])?;
        }
    }
    text.push(b"\n")
}
