// The directions of the classes of fixed subspaces of a real form.
ghost use Rattle.std.specs.Prelude.{◌≡◌, ◌<◌, ◌≤◌, IfOk};
ghost use Rattle.list_report.specs.Closing.{limit_of, order_by, AreFew, RefusesListing};
ghost use Rattle.list_report.specs.HeldListings.{formed_in, IsFormedHeld, AreDirections};
ghost use Rattle.report_steps.specs.Steps.{Answers};

use crate::listed::FormedIrrep;
use class_list::{Listing, Order};
use cyclo24::K24;
use iso_text::NoMemory;
use lin_alg::Steps;
use report_steps::{Refusal, Step};
use short_listing::{ListingError, listing_of};
use std::alloc::Global;
use std::sync::ledger::Ledger;

/// How many fixed subspaces a file of this format may have.
pub fn subspace_limit(format: u8) -> u32
    ensures value { result ≡ limit_of format }
    ensures some { 0 < result }
    ensures few { result ≤ 16384 }
{
    if format == 2 { 16384 } else { 4096 }
}

/// How the directions of a file of this format are ordered.
pub fn direction_order(format: u8) -> Order
    ensures { result ≡ order_by format }
{
    if format == 2 {
        Order::Index
    } else {
        Order::Dimension
    }
}

/// The directions of the classes of fixed subspaces of a real form, in the order of the format, or why
/// there is no listing.
pub fn listed_directions<L: Ledger>(
    alloc: Global,
    formed: &FormedIrrep,
    steps: &mut Steps<L>,
) -> Result<Step<Listing<K24>>, NoMemory>
    requires { IsFormedHeld formed.now }
    ensures { IfOk result (λ step. Answers (RefusesListing (formed_in formed.now)) (λ l. AreFew (formed_in formed.now) (formed_in formed.now) × AreDirections (formed_in formed.now) l) step) }
{
    let _order = formed.quotient.order();
    let limit = subspace_limit(formed.format);
    let order = direction_order(formed.format);
    match listing_of(alloc, &formed.form, limit as usize, order, steps) {
        Ok(listing) => Ok(Step::Passed(listing)),
        Err(ListingError::TooManySubspaces) => Ok(Step::Refused(Refusal::TooManySubspaces(
            formed.name,
            limit,
        ))),
        Err(ListingError::WideSubspace) => Ok(Step::Refused(Refusal::Wide(3))),
        Err(ListingError::WideStabiliser) => Ok(Step::Refused(Refusal::Wide(3))),
        Err(ListingError::WideImage) => Ok(Step::Refused(Refusal::Wide(4))),
        Err(ListingError::NoMemory) => Err(NoMemory),
    }
}
