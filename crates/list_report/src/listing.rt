// What is found for `list` behind the steps that all jobs share.
ghost use Rattle.std.specs.Prelude.{◌≡◌, ◌<◌, ◌≤◌, ℕ, IfOk, Some, slice_get, length};
ghost use Rattle.iso_text.specs.declared.sections.IrrepText.{IrrepText as Irrep};
ghost use Rattle.real_form.specs.RealForm.{quotient_of, action_of};
ghost use Rattle.list_report.specs.Choice.{chosen_of};
ghost use Rattle.list_report.specs.FoundListing.{FindsListing};
ghost use Rattle.report_steps.specs.HeldFiles.{AreInducedHeld};
ghost use Rattle.list_report.specs.HeldListings.{formed_by, formed_in, listed_in, IsFormedHeld, IsListingHeld, AreDirections};
ghost use Rattle.list_report.specs.Closing.{IsListed, AreFew};
ghost use Rattle.list_report.specs.Listings.{AfterForm, AfterChoice, IsListedThen};

use crate::choice::place_of;
use crate::closing::listed_directions;
use crate::listed::{FormedIrrep, ListedIrrep};
use crate::realising::form_at;
use class_list::Listing;
use cyclo24::K24;
use iso_text::{Name, NoMemory};
use lin_alg::{Acts, Steps};
use real_form::RealForm;
use report_steps::{InducedFile, Refusal, Step};
use std::alloc::Global;
use std::marker::Brand;
use std::sync::ledger::{Blank, Ledger};

// A listing with its irrep, and the page that is told.
fn listed(formed: FormedIrrep, listing: Listing<K24>, after: u64, count: Option<u64>) -> ListedIrrep
    requires held { IsFormedHeld formed }
    requires directions { AreDirections (formed_in formed) listing }
    requires few { AreFew (formed_in formed) (formed_in formed) }
    ensures listed { IsListed (formed_in formed) (listed_in result) }
    ensures held { IsListingHeld result }
    ensures after { result.after ≡ after }
    ensures count { result.count ≡ count }
{
    let FormedIrrep {
        format,
        name,
        quotient,
        form,
    } = formed;
    let dim = form.dim();
    ListedIrrep {
        format,
        name,
        quotient,
        dim,
        listing,
        after,
        count,
    }
}

// What is found behind the real form, with a counter of insertions over a blank ledger.
fn after_form<L: Ledger>(
    alloc: Global,
    formed: FormedIrrep,
    after: u64,
    count: Option<u64>,
    blank: Blank,
) -> Result<Step<ListedIrrep>, NoMemory>
    requires held { IsFormedHeld formed }
    requires name { blank.name ≡ L.name }
    requires parts { blank.parts ≡ L.parts }
    requires some { 0 < blank.parts }
    ensures { IfOk result (FindsListing after count (λ next. AfterForm next (formed_in formed))) }
{
    let mut steps = Steps::<L>::new(blank);
    match listed_directions(alloc, &formed, &mut steps)? {
        Step::Passed(listing) => Ok(Step::Passed(listed(formed, listing, after, count))),
        Step::Refused(refusal) => Ok(Step::Refused(refusal)),
    }
}

// The real form of the irrep at a place, with what the later steps use of the file.
fn formed(file: InducedFile, k: usize, form: RealForm) -> FormedIrrep
    requires place { k < length file.divided.file.irreps }
    requires quotient { quotient_of form ≡ file.divided.quotient }
    requires few { (action_of form).dim ≤ 24 }
    ensures formed { (i : Irrep) → slice_get file.divided.file.irreps k ≡ Some i → formed_in result ≡ formed_by (chosen_of file.divided i) form }
    ensures held { IsFormedHeld result }
{
    let (document, quotient) = file.divided.into_parts();
    FormedIrrep {
        format: document.format(),
        name: document.irreps()[k].name,
        quotient,
        form,
    }
}

// What is found behind the irrep at a place.
fn after_choice(
    alloc: Global,
    file: InducedFile,
    k: usize,
    after: u64,
    count: Option<u64>,
) -> Result<Step<ListedIrrep>, NoMemory>
    requires held { AreInducedHeld file }
    requires place { k < length file.divided.file.irreps }
    ensures { (i : Irrep) → slice_get file.divided.file.irreps k ≡ Some i → IfOk result (FindsListing after count (λ next. AfterChoice next (chosen_of file.divided i))) }
{
    match form_at(alloc, &file, k)? {
        Step::Passed(form) => {
            let formed = formed(file, k, form);
            after_form::<Brand>(alloc, formed, after, count, Blank::new(1))
        }
        Step::Refused(refusal) => Ok(Step::Refused(refusal)),
    }
}

/// The listing of the irrep of a name, or of the first of the file where none is named; or why there
/// is none.
pub fn list_found(
    alloc: Global,
    file: InducedFile,
    wanted: Option<Name>,
    after: u64,
    count: Option<u64>,
) -> Result<Step<ListedIrrep>, NoMemory>
    requires { AreInducedHeld file }
    ensures { IfOk result (FindsListing after count (λ next. IsListedThen wanted next file.divided)) }
{
    match place_of(file.divided.document().irreps(), &wanted) {
        Some(k) => after_choice(alloc, file, k, after, count),
        None => Ok(Step::Refused(Refusal::NoSuchIrrep(wanted))),
    }
}
