// What is found for a direction behind the steps that all jobs share.
ghost use Rattle.std.specs.Prelude.{◌≡◌, ◌<◌, ◌+◌, ◌⊎◌, ℕ, IfOk, MatchOption, Some, slice_get, length};
ghost use Rattle.cyclo24.specs.ExactK24.{k24_laws};
ghost use Rattle.cyclo24.specs.K24.{exact24};
ghost use Rattle.iso_text.specs.Ranges.{IsInRange};
ghost use Rattle.iso_text.specs.declared.sections.IrrepText.{IrrepText as Irrep};
ghost use Rattle.class_list.specs.Seen.{directions_of};
ghost use Rattle.list_report.specs.Choice.{chosen_of};
ghost use Rattle.list_report.specs.Contexts.{Listed};
ghost use Rattle.list_report.specs.HeldListings.{formed_in, IsFormedHeld};
ghost use Rattle.report_steps.specs.HeldFiles.{AreInducedHeld};
ghost use Rattle.mode_report.specs.DirectionFound.{AfterClasses, AfterForm, AfterChoice, IsFoundAlong};
ghost use Rattle.mode_report.specs.FoundAlong.{FindsAlong, AreSubgroups};

use crate::along::{ModesAlong, after_direction};
use crate::direction_form::formed_of;
use class_list::Listing;
use cyclo24::K24;
use iso_text::{Name, NoMemory};
use lin_alg::Steps;
use list_report::{FormedIrrep, form_at, listed_directions, place_of};
use report_steps::{InducedFile, Refusal, Step};
use std::alloc::Global;
use std::marker::Brand;
use std::sync::ledger::{Blank, Ledger};

// The place of the direction of this number, from 1, among so many.
fn direction_place(number: u64, len: usize) -> Option<usize>
    ensures { MatchOption result ((number ≡ 0) ⊎ (len < number)) (λ i. (number ≡ i + 1) × (i < len)) }
{
    if number == 0 {
        return None;
    }
    if number > len as u64 {
        return None;
    }
    Some((number - 1) as usize)
}

// What is found behind the listing.
fn after_classes(
    alloc: Global,
    file: InducedFile,
    name: Name,
    number: u64,
    listing: Listing<K24>,
) -> Result<Step<ModesAlong>, NoMemory>
    requires file { AreInducedHeld file }
    requires ranges { IsInRange file.divided.file }
    requires stabilisers { AreSubgroups file.divided.quotient listing }
    ensures { (l : Listed) → l.name ≡ name → l.directions ≡ directions_of k24_laws exact24 listing → IfOk result (FindsAlong (AfterClasses file.divided number l)) }
{
    match direction_place(number, listing.len()) {
        Some(i) => after_direction(alloc, file, name, number, listing.get(i).stabiliser()),
        None => Ok(Step::Refused(Refusal::NoSuchDirection(name, number))),
    }
}

// What is found behind the real form, with a counter of insertions over a blank ledger.
fn after_form<L: Ledger>(
    alloc: Global,
    file: InducedFile,
    formed: FormedIrrep,
    number: u64,
    blank: Blank,
) -> Result<Step<ModesAlong>, NoMemory>
    requires file { AreInducedHeld file }
    requires ranges { IsInRange file.divided.file }
    requires held { IsFormedHeld formed }
    requires quotient { formed.quotient ≡ file.divided.quotient }
    requires name { blank.name ≡ L.name }
    requires parts { blank.parts ≡ L.parts }
    requires some { 0 < blank.parts }
    ensures { IfOk result (FindsAlong (AfterForm file.divided number (formed_in formed))) }
{
    let mut steps = Steps::<L>::new(blank);
    match listed_directions(alloc, &formed, &mut steps)? {
        Step::Passed(listing) => after_classes(alloc, file, formed.name, number, listing),
        Step::Refused(refusal) => Ok(Step::Refused(refusal)),
    }
}

// What is found behind the irrep at a place.
fn after_choice(
    alloc: Global,
    file: InducedFile,
    k: usize,
    number: u64,
) -> Result<Step<ModesAlong>, NoMemory>
    requires file { AreInducedHeld file }
    requires ranges { IsInRange file.divided.file }
    requires place { k < length file.divided.file.irreps }
    ensures { (i : Irrep) → slice_get file.divided.file.irreps k ≡ Some i → IfOk result (FindsAlong (AfterChoice file.divided number (chosen_of file.divided i))) }
{
    match form_at(alloc, &file, k)? {
        Step::Passed(form) => {
            let formed = formed_of(alloc, &file, k, form)?;
            after_form::<Brand>(alloc, file, formed, number, Blank::new(1))
        }
        Step::Refused(refusal) => Ok(Step::Refused(refusal)),
    }
}

/// The modes that the direction of this number, from 1, of the irrep of a name allows, or of the first
/// irrep of the file where none is named; or why there are none. Condition: what the file holds is what
/// its irreps induce, and it is in the ranges of the file grammar. Errors: want of memory.
pub fn modes_along(
    alloc: Global,
    file: InducedFile,
    wanted: Option<Name>,
    number: u64,
) -> Result<Step<ModesAlong>, NoMemory>
    requires induced { AreInducedHeld file }
    requires ranges { IsInRange file.divided.file }
    ensures { IfOk result (FindsAlong (IsFoundAlong wanted number file.divided)) }
{
    match place_of(file.divided.document().irreps(), &wanted) {
        Some(k) => after_choice(alloc, file, k, number),
        None => Ok(Step::Refused(Refusal::NoSuchIrrep(wanted))),
    }
}
