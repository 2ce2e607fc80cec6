// A listing that watchers were told of, and its report in pieces.
ghost use Rattle.std.specs.Prelude.{◌≡◌, ◌<◌, ◌++◌, [], ◌∷◌, IfOk, Some, length, slice_get, List};
ghost use Rattle.list_report.specs.HeldListings.{IsListingHeld};
ghost use Rattle.list_report.specs.ToldPieces.{told_head, told_pieces};

use crate::listed::ListedIrrep;
use crate::page_pieces::{page_count, page_piece};
use crate::report::head_of_report;
use iso_text::{NoMemory, Text};
use report_buffer::Report;
use std::alloc::Global;

/// A listing whose page has the directions that watchers were told of, and the lines behind these.
#[derive(Drop)]
pub struct ToldListing {
    pub listed: ListedIrrep,
    pub tail: Text,
}

// The first three lines.
fn head_piece(alloc: Global, listed: &ListedIrrep) -> Result<Text, NoMemory>
    ensures { IfOk result (λ text. text ≡ told_head listed.now) }
{
    head_of_report(
        alloc,
        listed.format,
        &listed.name,
        listed.dim,
        listed.quotient.order(),
        listed.listing.len(),
    )
}

// The same text in memory of its own.
fn copied(alloc: Global, text: &Text) -> Result<Text, NoMemory>
    ensures { IfOk result (λ copy. copy ≡ text.now) }
{
    let mut copy = Text::new(alloc);
    copy.push(text.as_slice())?;
    Ok(copy)
}

/// The report of `list` on a told listing: the irrep, each direction told, and the lines behind them.
/// Condition: the listing is held. Errors: want of memory.
impl Report for ToldListing {
    ghost use Rattle.list_report.specs.ToldPieces.{IsToldHeld, told_pieces};

    ghost fits = { IsToldHeld };

    ghost pieces = { told_pieces };

    fn count(&self) -> usize {
        page_count(&self.listed.listing, self.listed.after, self.listed.count) + 2
    }

    fn piece(&self, alloc: Global, number: usize) -> Result<Text, NoMemory> {
        let listed = &self.listed;
        if number == 0 {
            return head_piece(alloc, listed);
        }
        if number > page_count(&listed.listing, listed.after, listed.count) {
            return copied(alloc, &self.tail);
        }
        page_piece(
            alloc,
            &listed.quotient,
            listed.dim,
            &listed.listing,
            listed.after,
            listed.count,
            number - 1,
        )
    }
}
