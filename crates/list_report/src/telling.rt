// Watchers are told of a page of a listing.
ghost use Rattle.std.specs.Prelude.{◌≡◌, ◌⊎◌, ◌<◌, ◌≤◌, ◌+◌, ◌^◌, ◌++◌, [], ◌∷◌, ℕ, IfOk, OnErr, Some, length, map, take, slice_get, flat_map};
ghost use Rattle.std.specs.List.{enumerate_from};
ghost use Rattle.cyclo24.specs.ExactK24.{k24_laws};
ghost use Rattle.cyclo24.specs.K24.{exact24};
ghost use Rattle.class_list.specs.Seen.{DirectionView, direction_of, directions_of};
ghost use Rattle.class_list.specs.Pages.{directions_at};
ghost use Rattle.iso_watch.specs.Watchers.{Told, EndsAfter};
ghost use Rattle.report_steps.specs.Finding.{Finding, report};
ghost use Rattle.report_steps.specs.FoundBy.{FindsBy};
ghost use Rattle.report_steps.specs.HeldFiles.{AreInducedHeld};
ghost use Rattle.report_steps.specs.declared.refusal.Refusal.{Refusal as Why};
ghost use Rattle.report_steps.specs.declared.step.Step.TheVariants as answer;
ghost use Rattle.list_report.specs.HeldListings.{listed_in, IsListingHeld};
ghost use Rattle.list_report.specs.Telling.{notice_of, page_notices, stopped_lines, told_tail, IsTold, IsListTold};
ghost use Rattle.list_report.specs.ToldPieces.{told_text, IsToldHeld};

use crate::listed::ListedIrrep;
use crate::listing::list_found;
use crate::told::ToldListing;
use iso_text::{Name, NoMemory, Text};
use iso_watch::{Notice, Watch, any_enough, lines, tell_page};
use report_steps::{InducedFile, Refusal, Step};
use std::alloc::Global;

// The notice of the direction at place i.
fn notice_at(listed: &ListedIrrep, i: usize) -> Notice
    requires held { IsListingHeld listed.now }
    requires place { i < length listed.now.listing }
    ensures { (d : DirectionView _) → slice_get listed.now.listing i ≡ Some d → result ≡ notice_of listed.now.quotient listed.now.dim (i + 1, direction_of k24_laws exact24 d) }
{
    let direction = listed.listing.get(i);
    let whole = listed.quotient.order();
    let order = direction.order();
    Notice {
        number: i as u32 + 1,
        dim: direction.dim() as u8,
        order: order as u32,
        index: (whole / order) as u32,
    }
}

// The notices of the directions from the first place up to the last.
fn notices_between(
    alloc: Global,
    listed: &ListedIrrep,
    first: usize,
    last: usize,
) -> Result<Vec<Notice>, NoMemory>
    requires held { IsListingHeld listed.now }
    requires order { first ≤ last }
    requires place { last ≤ length listed.now.listing }
    ensures { IfOk result (λ v. v.items ≡ map (notice_of listed.now.quotient listed.now.dim) (enumerate_from (first + 1) (directions_of k24_laws exact24 (directions_at listed.now.listing (first, last))))) }
{
    let mut notices = Vec::new(alloc);
    for i in first..last {
        match notices.push(notice_at(listed, i)) {
            Ok(()) => {}
            Err(_) => return Err(NoMemory),
        }
    }
    Ok(notices)
}

// The notices of the directions of the page.
fn notices(alloc: Global, listed: &ListedIrrep) -> Result<Vec<Notice>, NoMemory>
    requires { IsListingHeld listed.now }
    ensures { IfOk result (λ v. v.items ≡ page_notices listed.now.after listed.now.count (listed_in listed.now)) }
{
    let (first, last) = listed.listing.page(listed.after, listed.count);
    notices_between(alloc, listed, first, last)
}

// The line behind a page of so many directions told, where a watcher has enough.
fn stopped_line(
    alloc: Global,
    after: u64,
    told: usize,
    watchers: &[Box<dyn Watch>],
) -> Result<Text, NoMemory>
    requires { 0 < told → after + told < 2 ^ 64 }
    ensures { IfOk result (λ text. text ≡ stopped_lines after told (map (λ w. watcher w) watchers.now)) }
{
    let mut text = Text::new(alloc);
    if told > 0 && any_enough(watchers) {
        text.push(b"stopped after ")?;
        text.push_number(after + told as u64)?;
        text.push(b"\n")?;
    }
    Ok(text)
}

// The lines behind the directions.
fn tail_of(
    alloc: Global,
    after: u64,
    told: usize,
    tally: bool,
    watchers: &[Box<dyn Watch>],
) -> Result<Text, NoMemory>
    requires { 0 < told → after + told < 2 ^ 64 }
    ensures { IfOk result (λ text. text ≡ told_tail after told tally (map (λ w. watcher w) watchers.now)) }
{
    let mut text = stopped_line(alloc, after, told, watchers)?;
    if tally {
        text.push(lines(alloc, watchers)?.as_slice())?;
    }
    Ok(text)
}

// Watchers are told of the page of a listing, and may end it.
fn tell(
    alloc: Global,
    listed: ListedIrrep,
    tally: bool,
    watchers: &mut [Box<dyn Watch>],
) -> Result<ToldListing, NoMemory>
    requires { IsListingHeld listed }
    ensures told { IfOk result (λ t. IsTold listed.after listed.count tally (map (λ w. watcher w) watchers.old) (map (λ w. watcher w) watchers.new) (listed_in listed) (report (told_text t))) }
    ensures held { IfOk result IsToldHeld }
    ensures memory { OnErr result ((map (λ w. watcher w) watchers.new ≡ map (λ w. watcher w) watchers.old) ⊎ ((f : Finding) × IsTold listed.after listed.count tally (map (λ w. watcher w) watchers.old) (map (λ w. watcher w) watchers.new) (listed_in listed) f)) }
{
    let notices = notices(alloc, &listed)?;
    let told = tell_page(watchers, &notices);
    let tail = tail_of(alloc, listed.after, told, tally, watchers)?;
    let listed = ListedIrrep {
        count: Some(told as u64),
        ..listed
    };
    Ok(ToldListing { listed, tail })
}

/// The listing of the irrep of a name, or of the first of the file where none is named, with the page
/// that the watchers were told of; or why there is none. Each watcher is told of each direction of the
/// page, which ends after the first after which one of them has enough; `tally` asks for their lines.
/// A refusal leaves the watchers as they were. Errors: want of memory.
pub fn list_told(
    alloc: Global,
    file: InducedFile,
    wanted: Option<Name>,
    after: u64,
    count: Option<u64>,
    tally: bool,
    watchers: &mut [Box<dyn Watch>],
) -> Result<Step<ToldListing>, NoMemory>
    requires { AreInducedHeld file }
    ensures found { IfOk result (FindsBy told_text IsToldHeld (IsListTold wanted after count tally (map (λ w. watcher w) watchers.old) (map (λ w. watcher w) watchers.new) file.divided)) }
    ensures memory { OnErr result ((map (λ w. watcher w) watchers.new ≡ map (λ w. watcher w) watchers.old) ⊎ ((f : Finding) × IsListTold wanted after count tally (map (λ w. watcher w) watchers.old) (map (λ w. watcher w) watchers.new) file.divided f)) }
    ensures untouched { IfOk result (λ s. (r : Why) → s ≡ answer.Refused r → watchers.new ≡ watchers.old) }
{
    match list_found(alloc, file, wanted, after, count)? {
        Step::Passed(listed) => Ok(Step::Passed(tell(alloc, listed, tally, watchers)?)),
        Step::Refused(refusal) => Ok(Step::Refused(refusal)),
    }
}
