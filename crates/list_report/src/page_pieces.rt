// The directions of a page, one a piece of a report.
ghost use Rattle.std.specs.Prelude.{◌≡◌, ◌<◌, ◌≤◌, ◌^◌, IfOk, Some, length, slice_get};
ghost use Rattle.cyclo24.specs.ExactK24.{k24_laws};
ghost use Rattle.cyclo24.specs.K24.{exact24};
ghost use Rattle.class_list.specs.Pages.{page};
ghost use Rattle.class_list.specs.Seen.{directions_of};
ghost use Rattle.list_report.specs.ListReport.{AreReportable};
ghost use Rattle.list_report.specs.PagePieces.{page_pieces};

use crate::report::push_place;
use class_list::Listing;
use cyclo24::K24;
use iso_text::{NoMemory, Text};
use std::alloc::Global;
use super_group::Quotient;

/// How many directions the page has that skips `after` directions and has at most `count`, or all.
pub fn page_count(listing: &Listing<K24>, after: u64, count: Option<u64>) -> usize
    ensures value { result ≡ length (page after count (directions_of k24_laws exact24 listing.now)) }
    ensures few { result < 2 ^ 63 }
{
    let _len = listing.len();
    let (first, last) = listing.page(after, count);
    last - first
}

/// The lines of a direction of this page, by its place on the page: its form, its kept translations and
/// its operations. Condition: the directions are those of at most 24 dimensions, with stabilisers of
/// elements of the quotient. Errors: want of memory.
pub fn page_piece(
    alloc: Global,
    quotient: &Quotient,
    dim: usize,
    listing: &Listing<K24>,
    after: u64,
    count: Option<u64>,
    number: usize,
) -> Result<Text, NoMemory>
    requires reportable { AreReportable quotient.now dim listing.now }
    requires few { dim ≤ 24 }
    requires place { number < length (page after count (directions_of k24_laws exact24 listing.now)) }
    ensures { IfOk result (λ text. slice_get (page_pieces quotient.now dim after count (directions_of k24_laws exact24 listing.now)) number ≡ Some text) }
{
    let _len = listing.len();
    let (first, _) = listing.page(after, count);
    let place = first + number;
    let mut text = Text::new(alloc);
    push_place(
        alloc,
        &mut text,
        quotient,
        dim,
        listing,
        place,
        place as u64 + 1,
    )?;
    Ok(text)
}
