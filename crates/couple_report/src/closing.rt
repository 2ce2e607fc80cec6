// The directions of the classes of fixed subspaces of an action on pairs.
ghost use Rattle.std.specs.Prelude.{IfOk};
ghost use Rattle.report_steps.specs.Steps.{Answers};
ghost use Rattle.couple_report.specs.CoupleFound.{AreFewCoupled, RefusesCoupledListing};
ghost use Rattle.couple_report.specs.HeldPairs.{coupled_in, IsTogether, AreCoupledDirections};

use crate::together::Together;
use class_list::Listing;
use cyclo24::K24;
use iso_text::NoMemory;
use lin_alg::{Acts, Steps};
use list_report::{direction_order, subspace_limit};
use report_steps::{Refusal, Step};
use short_listing::{ListingError, listing_of};
use std::alloc::Global;
use std::sync::ledger::Ledger;

/// The directions of the classes of fixed subspaces of the action on pairs, in the order of the format, or
/// why there is no listing. Condition: giving a row of the action is never wide.
pub(crate) fn coupled_directions<G: Acts<K24>, L: Ledger>(
    alloc: Global,
    together: &Together,
    acts: &G,
    steps: &mut Steps<L>,
) -> Result<Step<Listing<K24>>, NoMemory>
    requires narrow { G.wide acts.now → ⊥ }
    requires held { IsTogether together.now (G.action acts.now) }
    ensures { IfOk result (λ step. Answers (RefusesCoupledListing (coupled_in together.now (G.action acts.now))) (λ l. AreFewCoupled (coupled_in together.now (G.action acts.now)) (coupled_in together.now (G.action acts.now)) × AreCoupledDirections (coupled_in together.now (G.action acts.now)) l) step) }
{
    let _order = together.quotient.order();
    let limit = subspace_limit(together.format);
    let order = direction_order(together.format);
    match listing_of(alloc, acts, limit as usize, order, steps) {
        Ok(listing) => Ok(Step::Passed(listing)),
        Err(ListingError::TooManySubspaces) => Ok(Step::Refused(Refusal::CoupledSubspaces(
            together.name,
            together.other,
            limit,
        ))),
        Err(ListingError::WideSubspace) => Ok(Step::Refused(Refusal::Wide(3))),
        Err(ListingError::WideStabiliser) => Ok(Step::Refused(Refusal::Wide(3))),
        Err(ListingError::WideImage) => Ok(Step::Refused(Refusal::Wide(4))),
        Err(ListingError::NoMemory) => Err(NoMemory),
    }
}
