// Supercells and quotients.
use crate::groups::group_of;
use crate::words::{push_numbers, push_whole, three};
use iso_text::{NoMemory, Text};
use std::alloc::Global;
use super_group::{Quotient, QuotientError, are_denominators, multipliers};

/// What is asked of a supercell.
#[derive(Clone, Copy)]
pub enum CellAsk {
    Cell,
    Order,
    Quotient,
    Translations,
}

fn small(n: i32) -> u8 {
    u8::try_from(n).unwrap_or(0)
}

fn denominators(alloc: Global, text: &str) -> Result<Vec<[u8; 3]>, NoMemory> {
    let mut rows = Vec::new(alloc);
    for row in text.split("; ") {
        let [x, y, z] = three(row);
        if !row.is_empty() {
            match rows.push([small(x), small(y), small(z)]) {
                Ok(()) => {}
                Err(_) => return Err(NoMemory),
            }
        }
    }
    Ok(rows)
}

fn push_multipliers(text: &mut Text, d: [u32; 3]) -> Result<(), NoMemory> {
    text.push(b"  cell")?;
    push_numbers(text, &[d[0] as usize, d[1] as usize, d[2] as usize])
}

fn push_order(text: &mut Text, quotient: &Quotient) -> Result<(), NoMemory> {
    text.push(b" order")?;
    push_numbers(text, &[quotient.order()])?;
    text.push(b"\n")
}

fn push_quotient(text: &mut Text, quotient: &Quotient) -> Result<(), NoMemory> {
    text.push(b"  translations")?;
    push_numbers(text, &[quotient.translations().len()])?;
    text.push(b" generators")?;
    push_numbers(text, quotient.generators().as_slice())?;
    text.push(b"\n")
}

fn push_translations(text: &mut Text, quotient: &Quotient) -> Result<(), NoMemory> {
    for t in quotient.translations() {
        text.push(b" ")?;
        for part in *t {
            text.push(b" ")?;
            push_whole(text, i64::from(part))?;
        }
        text.push(b"\n")?;
    }
    Ok(())
}

fn push_of(text: &mut Text, quotient: &Quotient, ask: CellAsk) -> Result<(), NoMemory> {
    push_order(text, quotient)?;
    match ask {
        CellAsk::Quotient => push_quotient(text, quotient),
        CellAsk::Translations => push_translations(text, quotient),
        _ => Ok(()),
    }
}

pub fn push_cell(
    alloc: Global,
    text: &mut Text,
    symbol: &str,
    dens: &str,
    ask: CellAsk,
) -> Result<(), NoMemory> {
    let dens = denominators(alloc, dens)?;
    let Some(group) = group_of(alloc, symbol)? else {
        return text.push(b"  no group\n");
    };
    if !are_denominators(&dens) {
        return text.push(b"  no denominators\n");
    }
    let d = multipliers(&group, &dens);
    push_multipliers(text, d)?;
    if let CellAsk::Cell = ask {
        return text.push(b"\n");
    }
    match Quotient::new(alloc, group, d) {
        Ok(quotient) => push_of(text, &quotient, ask),
        Err(QuotientError::TooLargeGroup(order)) => {
            text.push(b" too large ")?;
            text.push_number(order)?;
            text.push(b"\n")
        }
        Err(QuotientError::NoMemory) => Err(NoMemory),
    }
}
