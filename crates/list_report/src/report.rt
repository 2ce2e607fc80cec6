// The report of `list`.
ghost use Rattle.std.specs.Prelude.{◌≡◌, ◌<◌, ◌≤◌, ◌+◌, ◌++◌, [], All, Some, IfOk, OnOk, length, flat_map, slice_get, codes, decimal};
ghost use Rattle.std.specs.List.{enumerate_from};
ghost use Rattle.cyclo24.specs.ExactK24.{k24_laws};
ghost use Rattle.cyclo24.specs.K24.{exact24};
ghost use Rattle.class_list.specs.Pages.{directions_at, page};
ghost use Rattle.class_list.specs.Seen.{DirectionView, direction_of, directions_of};
ghost use Rattle.iso_text.specs.Lines.{line};
ghost use Rattle.super_group.specs.Quotient.{order_of};
ghost use Rattle.list_report.specs.FoundListing.{listed_text};
ghost use Rattle.list_report.specs.HeldListings.{IsListingHeld};
ghost use Rattle.list_report.specs.ListReport.{direction_line, direction_head, direction_text, listing_head, listing_text, AreReportable};

use crate::form_text::form_text;
use crate::listed::ListedIrrep;
use crate::stabiliser_text::{push_kept_lines, push_op_lines};
use class_list::{Direction, Listing};
use cyclo24::K24;
use iso_text::{Name, NoMemory, Text};
use std::alloc::Global;
use super_group::Quotient;

// A number, a dimension, an order and an index, as the first line of a direction has them.
fn numbers_line(
    alloc: Global,
    number: u64,
    dim: usize,
    order: usize,
    index: usize,
) -> Result<Text, NoMemory>
    ensures { IfOk result (λ text. text ≡ codes "direction " ++ decimal number ++ codes " dim " ++ decimal dim ++ codes " order " ++ decimal order ++ codes " index " ++ decimal index) }
{
    let mut text = Text::new(alloc);
    text.push(b"direction ")?;
    text.push_number(number)?;
    text.push(b" dim ")?;
    text.push_number(dim as u64)?;
    text.push(b" order ")?;
    text.push_number(order as u64)?;
    text.push(b" index ")?;
    text.push_number(index as u64)?;
    Ok(text)
}

// The first line of a direction.
fn line_of(
    alloc: Global,
    quotient: &Quotient,
    number: u64,
    direction: &Direction<K24>,
) -> Result<Text, NoMemory>
    requires { 0 < length direction.now.stabiliser }
    ensures { IfOk result (λ text. text ≡ direction_line quotient.now direction.now.equations.width number (direction_of k24_laws exact24 direction.now)) }
{
    let order = direction.order();
    numbers_line(
        alloc,
        number,
        direction.dim(),
        order,
        quotient.order() / order,
    )
}

// The lines of a direction in front of those of its stabiliser.
fn head_of(
    alloc: Global,
    quotient: &Quotient,
    number: u64,
    direction: &Direction<K24>,
) -> Result<Text, NoMemory>
    requires few { direction.now.equations.width ≤ 24 }
    requires some { 0 < length direction.now.stabiliser }
    ensures { IfOk result (λ text. text ≡ direction_head quotient.now direction.now.equations.width number (direction_of k24_laws exact24 direction.now)) }
{
    let mut text = line_of(alloc, quotient, number, direction)?;
    text.push(b"\nform")?;
    text.push(form_text(alloc, direction.equations())?.as_slice())?;
    text.push(b"\n")?;
    Ok(text)
}

// Adds the lines of a direction.
fn push_direction(
    alloc: Global,
    text: &mut Text,
    quotient: &Quotient,
    number: u64,
    direction: &Direction<K24>,
) -> Result<(), NoMemory>
    requires few { direction.now.equations.width ≤ 24 }
    requires members { All (λ a. a < order_of quotient.now) direction.now.stabiliser }
    requires some { 0 < length direction.now.stabiliser }
    ensures { OnOk result (text.new ≡ text.old ++ direction_text quotient.now direction.now.equations.width (number, direction_of k24_laws exact24 direction.now)) }
{
    let head = head_of(alloc, quotient, number, direction)?;
    text.push(head.as_slice())?;
    push_kept_lines(alloc, text, quotient, direction.stabiliser())?;
    push_op_lines(alloc, text, quotient, direction.stabiliser())
}

/// Adds the lines of the direction at place i under this number.
pub(crate) fn push_place(
    alloc: Global,
    text: &mut Text,
    quotient: &Quotient,
    dim: usize,
    listing: &Listing<K24>,
    i: usize,
    number: u64,
) -> Result<(), NoMemory>
    requires reportable { AreReportable quotient.now dim listing.now }
    requires few { dim ≤ 24 }
    requires place { i < length listing.now }
    ensures { OnOk result ((d : DirectionView K24) → slice_get listing.now i ≡ Some d → text.new ≡ text.old ++ direction_text quotient.now dim (number, direction_of k24_laws exact24 d)) }
{
    push_direction(alloc, text, quotient, number, listing.get(i))
}

// Adds the lines of the directions from the first place up to the last.
fn push_places(
    alloc: Global,
    text: &mut Text,
    quotient: &Quotient,
    dim: usize,
    listing: &Listing<K24>,
    first: usize,
    last: usize,
) -> Result<(), NoMemory>
    requires reportable { AreReportable quotient.now dim listing.now }
    requires few { dim ≤ 24 }
    requires order { first ≤ last }
    requires place { last ≤ length listing.now }
    ensures { OnOk result (text.new ≡ text.old ++ flat_map (direction_text quotient.now dim) (enumerate_from (first + 1) (directions_of k24_laws exact24 (directions_at listing.now (first, last))))) }
{
    for i in first..last {
        push_place(alloc, text, quotient, dim, listing, i, i as u64 + 1)?;
    }
    Ok(())
}

// The first line, with the file's format.
fn first_line(alloc: Global, format: u8) -> Result<Text, NoMemory>
    ensures { IfOk result (λ text. text ≡ line (codes "isodist " ++ decimal format ++ codes " list") []) }
{
    let mut text = Text::new(alloc);
    text.push(b"isodist ")?;
    text.push_number(u64::from(format))?;
    text.push(b" list\n")?;
    Ok(text)
}

// The second line, without its line feed.
fn irrep_line(alloc: Global, name: &Name, dim: usize, order: usize) -> Result<Text, NoMemory>
    ensures { IfOk result (λ text. text ≡ codes "irrep " ++ name.now ++ codes " dim " ++ decimal dim ++ codes " order " ++ decimal order) }
{
    let mut text = Text::new(alloc);
    text.push(b"irrep ")?;
    text.push(name.as_slice())?;
    text.push(b" dim ")?;
    text.push_number(dim as u64)?;
    text.push(b" order ")?;
    text.push_number(order as u64)?;
    Ok(text)
}

// The first three lines of a report.
pub(crate) fn head_of_report(
    alloc: Global,
    format: u8,
    name: &Name,
    dim: usize,
    order: usize,
    total: usize,
) -> Result<Text, NoMemory>
    ensures { IfOk result (λ text. text ≡ listing_head format name.now dim order total []) }
{
    let mut text = first_line(alloc, format)?;
    text.push(irrep_line(alloc, name, dim, order)?.as_slice())?;
    text.push(b"\ntotal ")?;
    text.push_number(total as u64)?;
    text.push(b"\n")?;
    Ok(text)
}

/// Adds the lines of the directions of the page that skips `after` directions and has at most `count`,
/// or all: each with its form, its kept translations and its operations.
pub fn push_page(
    alloc: Global,
    text: &mut Text,
    quotient: &Quotient,
    dim: usize,
    listing: &Listing<K24>,
    after: u64,
    count: Option<u64>,
) -> Result<(), NoMemory>
    requires reportable { AreReportable quotient.now dim listing.now }
    requires few { dim ≤ 24 }
    ensures { OnOk result (text.new ≡ text.old ++ flat_map (direction_text quotient.now dim) (page after count (directions_of k24_laws exact24 listing.now))) }
{
    let (first, last) = listing.page(after, count);
    push_places(alloc, text, quotient, dim, listing, first, last)
}

// The report on the listing of an irrep of real dimension `dim`, with the directions of the page that
// skips `after` directions and has at most `count`, or all.
fn listing_report(
    alloc: Global,
    format: u8,
    name: &Name,
    quotient: &Quotient,
    dim: usize,
    listing: &Listing<K24>,
    after: u64,
    count: Option<u64>,
) -> Result<Text, NoMemory>
    requires reportable { AreReportable quotient.now dim listing.now }
    requires few { dim ≤ 24 }
    ensures { IfOk result (λ text. text ≡ listing_text format name.now quotient.now dim after count (directions_of k24_laws exact24 listing.now)) }
{
    let order = quotient.order();
    let mut text = head_of_report(alloc, format, name, dim, order, listing.len())?;
    push_page(alloc, &mut text, quotient, dim, listing, after, count)?;
    Ok(text)
}

/// The report of `list` on a listing: the irrep, and each direction of the page with its form, its
/// kept translations and its operations.
pub fn listed_text(alloc: Global, listed: &ListedIrrep) -> Result<Text, NoMemory>
    requires { IsListingHeld listed.now }
    ensures { IfOk result (λ text. text ≡ listed_text listed.now) }
{
    listing_report(
        alloc,
        listed.format,
        &listed.name,
        &listed.quotient,
        listed.dim,
        &listed.listing,
        listed.after,
        listed.count,
    )
}
