// The report of `demo`, in pieces.
ghost use Rattle.std.specs.Prelude.{◌≡◌, ◌<◌, ◌++◌, IfOk, OnOk, Some, flat_map, length, slice_get};
ghost use Rattle.cyclo24.specs.ExactK24.{k24_laws};
ghost use Rattle.cyclo24.specs.K24.{exact24};
ghost use Rattle.class_list.specs.Seen.{directions_of};
ghost use Rattle.demo_report.specs.DemoPieces.{front_of, orbit_pieces};
ghost use Rattle.demo_report.specs.DemoReport.{order_word, orders_of, title_line, size_line, count_line, orders_line};
ghost use Rattle.demo_report.specs.FoundDemo.{IsDemoHeld};

use crate::found::FoundDemo;
use crate::orbit_lines::orbit_piece;
use class_list::Listing;
use cyclo24::K24;
use iso_text::{NoMemory, Text};
use report_buffer::Report;
use std::alloc::Global;

// The line of the file's format and number.
fn title_line(alloc: Global, format: u8, number: u8) -> Result<Text, NoMemory>
    ensures { IfOk result (λ text. text ≡ title_line format number) }
{
    let mut text = Text::new(alloc);
    text.push(b"isodist ")?;
    text.push_number(u64::from(format))?;
    text.push(b" demo ")?;
    text.push_number(u64::from(number))?;
    text.push(b"\n")?;
    Ok(text)
}

// The line of the order of the quotient and the dimension of the real form.
fn size_line(alloc: Global, order: usize, dim: usize) -> Result<Text, NoMemory>
    ensures { IfOk result (λ text. text ≡ size_line order dim) }
{
    let mut text = Text::new(alloc);
    text.push(b"order ")?;
    text.push_number(order as u64)?;
    text.push(b" dim ")?;
    text.push_number(dim as u64)?;
    text.push(b"\n")?;
    Ok(text)
}

// Adds the orders of the stabilisers of directions.
fn push_orders(text: &mut Text, listing: &Listing<K24>) -> Result<(), NoMemory>
    ensures { OnOk result (text.new ≡ text.old ++ flat_map order_word (orders_of (directions_of k24_laws exact24 listing.now))) }
{
    for i in 0..listing.len() {
        text.push(b" ")?;
        text.push_number(listing.get(i).order() as u64)?;
    }
    Ok(())
}

// The line of the count of directions.
fn count_line(alloc: Global, count: usize) -> Result<Text, NoMemory>
    ensures { IfOk result (λ text. text ≡ count_line count) }
{
    let mut text = Text::new(alloc);
    text.push(b"directions ")?;
    text.push_number(count as u64)?;
    text.push(b"\n")?;
    Ok(text)
}

// The line of the orders of their stabilisers.
fn orders_line(alloc: Global, listing: &Listing<K24>) -> Result<Text, NoMemory>
    ensures { IfOk result (λ text. text ≡ orders_line (orders_of (directions_of k24_laws exact24 listing.now))) }
{
    let mut text = Text::new(alloc);
    text.push(b"orders")?;
    push_orders(&mut text, listing)?;
    text.push(b"\n")?;
    Ok(text)
}

// The lines in front of the orbits.
fn front(alloc: Global, found: &FoundDemo) -> Result<Text, NoMemory>
    ensures { IfOk result (λ text. text ≡ front_of found.now) }
{
    let divided = &found.file.divided;
    let mut text = title_line(alloc, divided.document().format(), found.number)?;
    let size = size_line(alloc, divided.quotient().order(), found.dim)?;
    text.push(size.as_slice())?;
    let count = count_line(alloc, found.listing.len())?;
    text.push(count.as_slice())?;
    let orders = orders_line(alloc, &found.listing)?;
    text.push(orders.as_slice())?;
    Ok(text)
}

// The line of orbit i of a generated file.
fn found_piece(alloc: Global, found: &FoundDemo, i: usize) -> Result<Text, NoMemory>
    requires held { IsDemoHeld found.now }
    requires orbit { i < length found.now.modes.modes.items }
    ensures { IfOk result (λ text. slice_get (orbit_pieces found.now) i ≡ Some text) }
{
    orbit_piece(alloc, &found.modes.orbits, &found.modes.modes, i)
}

/// The summary of a generated file: the lines in front of the orbits, and the line of each orbit in the
/// order of the atom lines. Condition: there are modes for each orbit. Errors: want of memory.
impl Report for FoundDemo {
    ghost use Rattle.demo_report.specs.DemoPieces.{demo_pieces};
    ghost use Rattle.demo_report.specs.FoundDemo.{IsDemoHeld};

    ghost fits = { IsDemoHeld };

    ghost pieces = { demo_pieces };

    fn count(&self) -> usize {
        self.modes.modes.len() + 1
    }

    fn piece(&self, alloc: Global, number: usize) -> Result<Text, NoMemory> {
        if number == 0 {
            return front(alloc, self);
        }
        found_piece(alloc, self, number - 1)
    }
}
