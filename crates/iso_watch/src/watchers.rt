// A list of watchers, told one after the other.
ghost use Rattle.std.specs.Prelude.{◌≡◌, [], ◌∷◌, IfOk, map, take};
ghost use Rattle.iso_watch.specs.Watchers.{Told, after, is_enough, has_enough, EndsAfter, line_of, watcher_lines};

use crate::{Notice, Watch};
use iso_text::{NoMemory, Text};
use std::alloc::Global;

// Tells one of them.
fn tell_one(each: &mut Box<dyn Watch>, notice: Notice)
    ensures { watcher each.new ≡ after (notice ∷ []) (watcher each.old) }
{
    each.told(notice);
}

/// Tells each of them of one direction, in order.
pub fn tell_each(watchers: &mut [Box<dyn Watch>], notice: Notice)
    ensures { Told (notice ∷ []) (map (λ w. watcher w) watchers.old) (map (λ w. watcher w) watchers.new) }
{
    for each in watchers.iter_mut() {
        tell_one(each, notice);
    }
}

// Whether one of them has enough.
fn has_one_enough(each: &Box<dyn Watch>) -> bool
    ensures { result ≡ is_enough (watcher each.now) }
{
    each.enough()
}

/// Whether any of them has enough.
pub fn any_enough(watchers: &[Box<dyn Watch>]) -> bool
    ensures { result ≡ has_enough (map (λ w. watcher w) watchers.now) }
{
    for each in watchers {
        if has_one_enough(each) {
            return true;
        }
    }
    false
}

// Tells each of them of one direction, and then asks whether any of them has enough.
fn tell_and_ask(watchers: &mut [Box<dyn Watch>], notice: Notice) -> bool
    ensures told { Told (notice ∷ []) (map (λ w. watcher w) watchers.old) (map (λ w. watcher w) watchers.new) }
    ensures enough { result ≡ has_enough (map (λ w. watcher w) watchers.new) }
{
    tell_each(watchers, notice);
    any_enough(watchers)
}

/// Tells them of the directions of a page one after another, and ends after the first after which one of
/// them has enough; says how many directions were told.
pub fn tell_page(watchers: &mut [Box<dyn Watch>], notices: &[Notice]) -> usize
    ensures ends { EndsAfter notices.now (map (λ w. watcher w) watchers.old) result }
    ensures told { Told (take result notices.now) (map (λ w. watcher w) watchers.old) (map (λ w. watcher w) watchers.new) }
{
    let mut count = 0;
    for notice in notices {
        count += 1;
        if tell_and_ask(watchers, *notice) {
            return count;
        }
    }
    count
}

// The line of one of them.
fn line_of(alloc: Global, each: &Box<dyn Watch>) -> Result<Text, NoMemory>
    ensures { IfOk result (λ text. text ≡ line_of (watcher each.now)) }
{
    each.line(alloc)
}

/// The lines of all of them, in order, each with its line feed.
pub fn lines(alloc: Global, watchers: &[Box<dyn Watch>]) -> Result<Text, NoMemory>
    ensures { IfOk result (λ text. text ≡ watcher_lines (map (λ w. watcher w) watchers.now)) }
{
    let mut text = Text::new(alloc);
    for each in watchers {
        text.push(line_of(alloc, each)?.as_slice())?;
        text.push(b"\n")?;
    }
    Ok(text)
}
