// The report of `couple`, in pieces.
ghost use Rattle.std.specs.Prelude.{◌≡◌, ◌<◌, ◌++◌, [], IfOk, Some, codes, decimal, length, slice_get};
ghost use Rattle.iso_text.specs.Lines.{line};
ghost use Rattle.couple_report.specs.CouplePieces.{head_piece, direction_pieces};
ghost use Rattle.couple_report.specs.CoupleReport.{couple_head};
ghost use Rattle.couple_report.specs.FoundCouple.{IsCoupleHeld};

use crate::together::FoundCouple;
use iso_text::{Name, NoMemory, Text};
use list_report::{page_count, page_piece};
use report_buffer::Report;
use std::alloc::Global;

// The first line, with the file's format.
fn first_line(alloc: Global, format: u8) -> Result<Text, NoMemory>
    ensures { IfOk result (λ text. text ≡ line (codes "isodist " ++ decimal format ++ codes " couple") []) }
{
    let mut text = Text::new(alloc);
    text.push(b"isodist ")?;
    text.push_number(u64::from(format))?;
    text.push(b" couple\n")?;
    Ok(text)
}

// The second line, without its line feed.
fn irreps_line(
    alloc: Global,
    name: &Name,
    other: &Name,
    dim: usize,
    other_dim: usize,
    order: usize,
) -> Result<Text, NoMemory>
    ensures { IfOk result (λ text. text ≡ codes "irreps " ++ name.now ++ codes " " ++ other.now ++ codes " dims " ++ decimal dim ++ codes " " ++ decimal other_dim ++ codes " order " ++ decimal order) }
{
    let mut text = Text::new(alloc);
    text.push(b"irreps ")?;
    text.push(name.as_slice())?;
    text.push(b" ")?;
    text.push(other.as_slice())?;
    text.push(b" dims ")?;
    text.push_number(dim as u64)?;
    text.push(b" ")?;
    text.push_number(other_dim as u64)?;
    text.push(b" order ")?;
    text.push_number(order as u64)?;
    Ok(text)
}

// The first three lines, for a group of this order and so many directions.
fn head_by(alloc: Global, found: &FoundCouple, order: usize, total: usize) -> Result<Text, NoMemory>
    ensures { IfOk result (λ text. text ≡ couple_head found.now.format found.now.name found.now.other found.now.dim found.now.other_dim order total []) }
{
    let mut text = first_line(alloc, found.format)?;
    let irreps = irreps_line(
        alloc,
        &found.name,
        &found.other,
        found.dim,
        found.other_dim,
        order,
    )?;
    text.push(irreps.as_slice())?;
    text.push(b"\ntotal ")?;
    text.push_number(total as u64)?;
    text.push(b"\n")?;
    Ok(text)
}

// The first three lines.
fn head_of(alloc: Global, found: &FoundCouple) -> Result<Text, NoMemory>
    ensures { IfOk result (λ text. text ≡ head_piece found.now) }
{
    let order = found.quotient.order();
    let total = found.listing.len();
    head_by(alloc, found, order, total)
}

// The lines of a direction of the page, by its place on it.
fn direction_piece(alloc: Global, found: &FoundCouple, place: usize) -> Result<Text, NoMemory>
    requires held { IsCoupleHeld found.now }
    requires place { place < length (direction_pieces found.now) }
    ensures { IfOk result (λ text. slice_get (direction_pieces found.now) place ≡ Some text) }
{
    page_piece(
        alloc,
        &found.quotient,
        found.dim + found.other_dim,
        &found.listing,
        found.after,
        found.count,
        place,
    )
}

/// The report of `couple` on a listing: the irreps, and each direction of the page with its form, whose
/// letters run through both parts, its kept translations and its operations. Condition: the directions are
/// those of at most 24 dimensions, with stabilisers of elements of the quotient. Errors: want of memory.
impl Report for FoundCouple {
    ghost use Rattle.couple_report.specs.CouplePieces.{couple_pieces};
    ghost use Rattle.couple_report.specs.FoundCouple.{IsCoupleHeld};

    ghost fits = { IsCoupleHeld };

    ghost pieces = { couple_pieces };

    fn count(&self) -> usize {
        page_count(&self.listing, self.after, self.count) + 1
    }

    fn piece(&self, alloc: Global, number: usize) -> Result<Text, NoMemory> {
        if number == 0 {
            return head_of(alloc, self);
        }
        direction_piece(alloc, self, number - 1)
    }
}
