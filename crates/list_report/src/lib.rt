//! What `list` does behind the steps that all jobs share, and its report.
//!
//! An irrep is chosen (`place_of`), its real form found (`form_of`), and the directions of the classes
//! of its fixed subspaces listed (`listed_directions`). Conventions: an order parameter is a column;
//! elements are numbered from 0, directions from 1. The layer above uses `list_found` and
//! `listed_text`, or, with watchers, `list_told` and the report of a `ToldListing` in pieces.
#![tactic(auto)]

mod choice;
mod closing;
mod factor;
mod form_text;
mod laws;
mod letters;
mod listed;
mod listing;
mod page_pieces;
mod realising;
mod report;
mod stabiliser_text;
mod sums;
mod telling;
mod told;

pub use choice::place_of;
pub use closing::{direction_order, listed_directions, subspace_limit};
pub use laws::{
    law_of_kept_lines, law_of_list, law_of_list_told, law_of_listing_steps, law_of_report_pages,
    law_of_told_pieces,
};
pub use listed::{FormedIrrep, ListedIrrep};
pub use listing::list_found;
pub use page_pieces::{page_count, page_piece};
pub use realising::{form_at, form_of};
pub use report::{listed_text, push_page};
pub use telling::list_told;
pub use told::ToldListing;
