// What is found for `couple` behind the steps that all jobs share.
ghost use Rattle.std.specs.Prelude.{◌≡◌, ◌<◌, ℕ, IfOk, Some, slice_get, length};
ghost use Rattle.couple.specs.declared.errors.CoupleError.TheVariants as couple_error;
ghost use Rattle.report_steps.specs.declared.refusal.Refusal.TheVariants as refusal;
ghost use Rattle.iso_text.specs.declared.sections.IrrepText.{IrrepText as Irrep};
ghost use Rattle.report_steps.specs.HeldFiles.{AreInducedHeld};
ghost use Rattle.couple_report.specs.CoupleFound.{AfterCoupling, AfterForms, AfterPair, IsCoupleFound};
ghost use Rattle.couple_report.specs.FoundCouple.{FindsCouple};
ghost use Rattle.couple_report.specs.HeldPairs.{chosen_pair, formed_in, coupled_in, AreTogether, IsTogether};

use crate::closing::coupled_directions;
use crate::forms::{FormPair, forms_at};
use crate::places::places_of;
use crate::together::{FoundCouple, Together, listed, together_of};
use couple::{CoupleError, Coupled};
use cyclo24::K24;
use iso_text::{Name, NoMemory};
use lin_alg::{Acts, Steps};
use real_form::RealForm;
use report_steps::{InducedFile, Refusal, Step};
use std::alloc::Global;
use std::marker::Brand;
use std::sync::ledger::{Blank, Ledger};

// What is found behind both real forms as one, with a counter of insertions over a blank ledger.
fn after_coupling<G: Acts<K24>, L: Ledger>(
    alloc: Global,
    together: Together,
    acts: &G,
    blank: Blank,
) -> Result<Step<FoundCouple>, NoMemory>
    requires narrow { G.wide acts.now → ⊥ }
    requires held { IsTogether together (G.action acts.now) }
    requires name { blank.name ≡ L.name }
    requires parts { blank.parts ≡ L.parts }
    requires some { 0 < blank.parts }
    ensures { IfOk result (FindsCouple (AfterCoupling together.after together.count (coupled_in together (G.action acts.now)))) }
{
    let mut steps = Steps::<L>::new(blank);
    match coupled_directions(alloc, &together, acts, &mut steps)? {
        Step::Passed(listing) => Ok(Step::Passed(listed(together, listing))),
        Step::Refused(refusal) => Ok(Step::Refused(refusal)),
    }
}

// The refusal of two irreps of too many dimensions together.
fn refusal_of(name: Name, other: Name, error: CoupleError) -> Refusal
    ensures { (n : ℕ) → error ≡ couple_error.TooManyCoupled n → result ≡ refusal.TooManyCoupled name other n }
{
    match error {
        CoupleError::TooManyCoupled(dim) => Refusal::TooManyCoupled(name, other, dim),
    }
}

// What is found behind both real forms.
fn after_forms(
    alloc: Global,
    together: Together,
    forms: FormPair,
) -> Result<Step<FoundCouple>, NoMemory>
    requires { AreTogether together forms }
    ensures { IfOk result (FindsCouple (AfterForms together.after together.count (formed_in together forms))) }
{
    let FormPair { left, right } = forms;
    match Coupled::<K24, RealForm, RealForm>::new(left, right) {
        Ok(acts) => after_coupling::<_, Brand>(alloc, together, &acts, Blank::new(1)),
        Err(error) => Ok(Step::Refused(refusal_of(together.name, together.other, error))),
    }
}

// What is found behind the two irreps, by their places.
fn after_places(
    alloc: Global,
    file: InducedFile,
    k: usize,
    l: usize,
    after: u64,
    count: Option<u64>,
) -> Result<Step<FoundCouple>, NoMemory>
    requires held { AreInducedHeld file }
    requires left { k < length file.divided.file.irreps }
    requires right { l < length file.divided.file.irreps }
    ensures { (i j : Irrep) → slice_get file.divided.file.irreps k ≡ Some i → slice_get file.divided.file.irreps l ≡ Some j → IfOk result (FindsCouple (AfterPair after count (chosen_pair file.divided i j))) }
{
    match forms_at(alloc, &file, k, l)? {
        Step::Passed(forms) => {
            let together = together_of(file, k, l, &forms, after, count);
            after_forms(alloc, together, forms)
        }
        Step::Refused(refusal) => Ok(Step::Refused(refusal)),
    }
}

/// The listing of the directions of pairs of order parameters of two irreps: that of a name, or the first
/// of the file where none is named, and that of the other name, which may be the same; or why there is
/// none. Condition: what the file holds is what its irreps induce. Errors: want of memory.
pub fn couple_found(
    alloc: Global,
    file: InducedFile,
    wanted: Option<Name>,
    other: Name,
    after: u64,
    count: Option<u64>,
) -> Result<Step<FoundCouple>, NoMemory>
    requires { AreInducedHeld file }
    ensures { IfOk result (FindsCouple (IsCoupleFound wanted other after count file.divided)) }
{
    match places_of(&file, wanted, other) {
        Step::Passed((k, l)) => after_places(alloc, file, k, l, after, count),
        Step::Refused(refusal) => Ok(Step::Refused(refusal)),
    }
}
