// What is found for `link` behind the steps that all jobs share.
ghost use Rattle.std.specs.Prelude.{◌≡◌, ◌<◌, ℕ, List, All, IfOk, Some, slice_get, length};
ghost use Rattle.iso_text.specs.declared.sections.IrrepText.{IrrepText as Irrep};
ghost use Rattle.induce.specs.InducedView.{IsInducedOf};
ghost use Rattle.report_steps.specs.Held.{IsInducedHeld};
ghost use Rattle.report_steps.specs.HeldFiles.{AreInducedHeld};
ghost use Rattle.report_steps.specs.IrrepSteps.{Each};
ghost use Rattle.report_steps.specs.Steps.{IfPassed};
ghost use Rattle.couple_report.specs.FoundLink.{AnswersLink, AreFewRows, told_by, FindsLink};
ghost use Rattle.couple_report.specs.HeldPairs.{chosen_pair_by, chosen_pair};
ghost use Rattle.couple_report.specs.LinkFound.{AfterLinkedPair, IsLinkFound};

use crate::places::places_of;
use couple::{Link, LinkError, link};
use induce::Induced;
use iso_text::{Name, NoMemory};
use report_steps::{InducedFile, Refusal, Step};
use std::alloc::Global;
use super_group::Quotient;

/// What links two irreps, by their names: with the file's format and the order of the quotient.
#[derive(Drop)]
pub struct FoundLink {
    pub format: u8,
    pub name: Name,
    pub other: Name,
    pub order: usize,
    pub link: Link,
}

// The link of what two irreps induce, or that a number is wide.
fn link_of_both(
    alloc: Global,
    quotient: &Quotient,
    left: &Induced,
    right: &Induced,
) -> Result<Step<Link>, NoMemory>
    requires left { IsInducedOf quotient.now left.now }
    requires right { IsInducedOf quotient.now right.now }
    ensures answer { (format : ℕ) (i j : Irrep) → IsInducedHeld quotient.now i left.now → IsInducedHeld quotient.now j right.now → IfOk result (AnswersLink (chosen_pair_by format quotient.now i j)) }
    ensures few { IfOk result (λ step. IfPassed step AreFewRows) }
{
    let _rows = left.dim();
    match link(alloc, quotient, left, right) {
        Ok(link) => Ok(Step::Passed(link)),
        Err(LinkError::Wide(family)) => Ok(Step::Refused(Refusal::Wide(family))),
        Err(LinkError::NoMemory) => Err(NoMemory),
    }
}

// The link of what two irreps induce, by their places.
fn link_among(
    alloc: Global,
    quotient: &Quotient,
    all: &[Induced],
    k: usize,
    l: usize,
) -> Result<Step<Link>, NoMemory>
    requires of { All (IsInducedOf quotient.now) all.now }
    requires left { k < length all.now }
    requires right { l < length all.now }
    ensures answer { (format : ℕ) (irreps : List Irrep) (i j : Irrep) → Each (IsInducedHeld quotient.now) irreps all.now → slice_get irreps k ≡ Some i → slice_get irreps l ≡ Some j → IfOk result (AnswersLink (chosen_pair_by format quotient.now i j)) }
    ensures few { IfOk result (λ step. IfPassed step AreFewRows) }
{
    link_of_both(alloc, quotient, &all[k], &all[l])
}

// The link of the irreps of a file at two places.
fn link_at(alloc: Global, file: &InducedFile, k: usize, l: usize) -> Result<Step<Link>, NoMemory>
    requires held { AreInducedHeld file.now }
    requires left { k < length file.now.divided.file.irreps }
    requires right { l < length file.now.divided.file.irreps }
    ensures answer { (i j : Irrep) → slice_get file.now.divided.file.irreps k ≡ Some i → slice_get file.now.divided.file.irreps l ≡ Some j → IfOk result (AnswersLink (chosen_pair file.now.divided i j)) }
    ensures few { IfOk result (λ step. IfPassed step AreFewRows) }
{
    link_among(alloc, file.divided.quotient(), &file.irreps, k, l)
}

// A link, with what is told of the irreps at two places.
fn told(file: &InducedFile, k: usize, l: usize, link: Link) -> FoundLink
    requires left { k < length file.now.divided.file.irreps }
    requires right { l < length file.now.divided.file.irreps }
    ensures { (i j : Irrep) → slice_get file.now.divided.file.irreps k ≡ Some i → slice_get file.now.divided.file.irreps l ≡ Some j → result ≡ told_by (chosen_pair file.now.divided i j) link }
{
    let document = file.divided.document();
    FoundLink {
        format: document.format(),
        name: document.irreps()[k].name,
        other: document.irreps()[l].name,
        order: file.divided.quotient().order(),
        link,
    }
}

// What is found behind the two irreps, by their places.
fn after_places(
    alloc: Global,
    file: &InducedFile,
    k: usize,
    l: usize,
) -> Result<Step<FoundLink>, NoMemory>
    requires held { AreInducedHeld file.now }
    requires left { k < length file.now.divided.file.irreps }
    requires right { l < length file.now.divided.file.irreps }
    ensures { (i j : Irrep) → slice_get file.now.divided.file.irreps k ≡ Some i → slice_get file.now.divided.file.irreps l ≡ Some j → IfOk result (FindsLink (AfterLinkedPair (chosen_pair file.now.divided i j))) }
{
    match link_at(alloc, file, k, l)? {
        Step::Passed(link) => Ok(Step::Passed(told(file, k, l, link))),
        Step::Refused(refusal) => Ok(Step::Refused(refusal)),
    }
}

// What is found of the two irreps.
fn after_induced(
    alloc: Global,
    file: &InducedFile,
    wanted: Option<Name>,
    other: Name,
) -> Result<Step<FoundLink>, NoMemory>
    requires { AreInducedHeld file.now }
    ensures { IfOk result (FindsLink (IsLinkFound wanted other file.now.divided)) }
{
    match places_of(file, wanted, other) {
        Step::Passed((k, l)) => after_places(alloc, file, k, l),
        Step::Refused(refusal) => Ok(Step::Refused(refusal)),
    }
}

/// The link of the matrices that two irreps induce: of the irrep of a name, or of the first of the file
/// where none is named, and of that of the other name, which may be the same; or why there is none.
/// Condition: what the file holds is what its irreps induce. Errors: want of memory.
pub fn link_found(
    alloc: Global,
    file: InducedFile,
    wanted: Option<Name>,
    other: Name,
) -> Result<Step<FoundLink>, NoMemory>
    requires { AreInducedHeld file }
    ensures { IfOk result (FindsLink (IsLinkFound wanted other file.divided)) }
{
    after_induced(alloc, &file, wanted, other)
}
