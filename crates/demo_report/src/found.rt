// What `demo` finds in a file.
ghost use Rattle.std.specs.Prelude.{◌≡◌, ◌<◌, ◌≤◌, IfOk, None, Some, slice_get, length};
ghost use Rattle.cyclo24.specs.ExactK24.{k24_laws};
ghost use Rattle.cyclo24.specs.K24.{exact24};
ghost use Rattle.iso_text.specs.Ranges.{IsInRange};
ghost use Rattle.iso_text.specs.declared.sections.IrrepText.{IrrepText as Irrep};
ghost use Rattle.class_list.specs.Seen.{directions_of};
ghost use Rattle.list_report.specs.Choice.{chosen_of};
ghost use Rattle.list_report.specs.Contexts.{Listed};
ghost use Rattle.list_report.specs.HeldListings.{formed_in, IsFormedHeld};
ghost use Rattle.report_steps.specs.HeldFiles.{AreInducedHeld};
ghost use Rattle.demo_report.specs.DemoFound.{AfterClasses, AfterForm, AfterChoice, IsDemoFound};
ghost use Rattle.demo_report.specs.FoundDemo.{FindsDemo};

use class_list::Listing;
use cyclo24::K24;
use iso_text::NoMemory;
use lin_alg::{Acts, Steps};
use list_report::{FormedIrrep, form_at, listed_directions, place_of};
use mode_report::{FoundModes, formed_of, modes_found};
use report_steps::{InducedFile, Refusal, Step};
use std::alloc::Global;
use std::marker::Brand;
use std::sync::ledger::{Blank, Ledger};

/// A generated file by its number, with the listing of the directions of its irrep, whose real form
/// has `dim` dimensions, and the modes of its orbits.
#[derive(Drop)]
pub struct FoundDemo {
    pub file: InducedFile,
    pub number: u8,
    pub dim: usize,
    pub listing: Listing<K24>,
    pub modes: FoundModes,
}

// What is found behind the listing.
fn after_classes(
    alloc: Global,
    file: InducedFile,
    number: u8,
    dim: usize,
    listing: Listing<K24>,
) -> Result<Step<FoundDemo>, NoMemory>
    requires file { AreInducedHeld file }
    requires ranges { IsInRange file.divided.file }
    ensures { (l : Listed) → l.dim ≡ dim → l.directions ≡ directions_of k24_laws exact24 listing → IfOk result (FindsDemo (AfterClasses number file.divided l)) }
{
    match modes_found(alloc, &file)? {
        Step::Passed(modes) => Ok(Step::Passed(FoundDemo {
            file,
            number,
            dim,
            listing,
            modes,
        })),
        Step::Refused(refusal) => Ok(Step::Refused(refusal)),
    }
}

// What is found behind the real form, with a counter of insertions over a blank ledger.
fn after_form<L: Ledger>(
    alloc: Global,
    file: InducedFile,
    number: u8,
    formed: FormedIrrep,
    blank: Blank,
) -> Result<Step<FoundDemo>, NoMemory>
    requires file { AreInducedHeld file }
    requires ranges { IsInRange file.divided.file }
    requires held { IsFormedHeld formed }
    requires name { blank.name ≡ L.name }
    requires parts { blank.parts ≡ L.parts }
    requires some { 0 < blank.parts }
    ensures { IfOk result (FindsDemo (AfterForm number file.divided (formed_in formed))) }
{
    let mut steps = Steps::<L>::new(blank);
    match listed_directions(alloc, &formed, &mut steps)? {
        Step::Passed(listing) => after_classes(alloc, file, number, formed.form.dim(), listing),
        Step::Refused(refusal) => Ok(Step::Refused(refusal)),
    }
}

// What is found behind the irrep at a place.
fn after_choice(
    alloc: Global,
    file: InducedFile,
    number: u8,
    k: usize,
) -> Result<Step<FoundDemo>, NoMemory>
    requires file { AreInducedHeld file }
    requires ranges { IsInRange file.divided.file }
    requires place { k < length file.divided.file.irreps }
    ensures { (i : Irrep) → slice_get file.divided.file.irreps k ≡ Some i → IfOk result (FindsDemo (AfterChoice number file.divided (chosen_of file.divided i))) }
{
    match form_at(alloc, &file, k)? {
        Step::Passed(form) => {
            let formed = formed_of(alloc, &file, k, form)?;
            after_form::<Brand>(alloc, file, number, formed, Blank::new(1))
        }
        Step::Refused(refusal) => Ok(Step::Refused(refusal)),
    }
}

/// The listing of the first irrep of a generated file, and the modes of its orbits, under its number;
/// or why there are none. Condition: what the file holds is what its irreps induce, and it is in the
/// ranges of the file grammar. Errors: want of memory.
pub fn demo_found(alloc: Global, file: InducedFile, number: u8) -> Result<Step<FoundDemo>, NoMemory>
    requires induced { AreInducedHeld file }
    requires ranges { IsInRange file.divided.file }
    ensures { IfOk result (FindsDemo (IsDemoFound number file.divided)) }
{
    match place_of(file.divided.document().irreps(), &None) {
        Some(k) => after_choice(alloc, file, number, k),
        None => Ok(Step::Refused(Refusal::NoSuchIrrep(None))),
    }
}
