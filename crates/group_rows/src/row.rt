// A row, and the text that is printed of it.
use crate::cells::{CellAsk, push_cell};
use crate::demos::{DemoAsk, push_demo};
use crate::groups::{push_group, push_lattice};
use crate::stars::{StarAsk, push_star, push_vector};
use crate::symbols::{push_fronts, push_symbol};
use crate::words::three;
use iso_text::{NoMemory, Text};
use std::alloc::Global;

const ESCAPES: [(&str, &str); 4] = [("\\n", "\n"), ("\\r", "\r"), ("\\t", "\t"), ("\\v", "\x0b")];

fn unescaped(alloc: Global, row: &str) -> Result<String, NoMemory> {
    let mut plain = String::from_str(alloc, row)?;
    for (name, byte) in ESCAPES {
        plain = plain.replace(alloc, name, byte)?;
    }
    Ok(plain)
}

fn push_answer(alloc: Global, text: &mut Text, parts: &[&str]) -> Result<(), NoMemory> {
    match parts {
        ["symbol", symbol] => push_symbol(alloc, text, symbol),
        ["fronts", symbol] => push_fronts(text, symbol),
        ["group", symbol] => push_group(alloc, text, symbol),
        ["lattice", symbol, t] => push_lattice(text, symbol, three(t)),
        ["vector", k] => push_vector(text, k),
        ["star", symbol, k] => push_star(alloc, text, symbol, k, StarAsk::Sizes),
        ["arms", symbol, k] => push_star(alloc, text, symbol, k, StarAsk::Arms),
        ["power", symbol, k, t] => push_star(alloc, text, symbol, k, StarAsk::Power(three(t))),
        ["cell", symbol, d] => push_cell(alloc, text, symbol, d, CellAsk::Cell),
        ["order", symbol, d] => push_cell(alloc, text, symbol, d, CellAsk::Order),
        ["quotient", symbol, d] => push_cell(alloc, text, symbol, d, CellAsk::Quotient),
        ["translations", symbol, d] => push_cell(alloc, text, symbol, d, CellAsk::Translations),
        ["demo", number] => push_demo(alloc, text, number, DemoAsk::Sizes),
        ["file", number] => push_demo(alloc, text, number, DemoAsk::Whole),
        _ => text.push(b"  no row\n"),
    }
}

pub fn answer(alloc: Global, row: &str) -> Result<Text, NoMemory> {
    let plain = unescaped(alloc, row)?;
    let parts = plain.split(" | ").collect::<Vec<&str>>(alloc)?;
    let mut text = Text::new(alloc);
    text.push(row.as_bytes())?;
    text.push(b"\n")?;
    push_answer(alloc, &mut text, &parts)?;
    Ok(text)
}
