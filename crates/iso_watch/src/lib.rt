//! Watchers of a listing: boxed objects that are told of each direction of a page, may say that the page
//! has enough, and give a line of text each.
//!
//! A watcher is seen as a `Watcher`: its mark, a list of whole numbers, with how a notice changes a mark,
//! whether a mark is enough, and the text of a mark. The layer above uses `tell_page`, `any_enough` and
//! `lines`, by `Told` and `EndsAfter`.
#![tactic(auto)]

mod laws;
mod notice;
mod tally;
mod upto;
mod watch;
mod watchers;

pub use laws::law_of_told_pages;
pub use notice::Notice;
pub use tally::Tally;
pub use upto::Upto;
pub use watch::Watch;
pub use watchers::{any_enough, lines, tell_each, tell_page};
