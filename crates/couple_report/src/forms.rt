// The real forms of two irreps.
ghost use Rattle.std.specs.Prelude.{◌≡◌, ◌<◌, ◌≤◌, IfOk, Some, slice_get, length};
ghost use Rattle.iso_text.specs.declared.sections.IrrepText.{IrrepText as Irrep};
ghost use Rattle.real_form.specs.RealForm.{quotient_of, action_of};
ghost use Rattle.report_steps.specs.HeldFiles.{AreInducedHeld};
ghost use Rattle.report_steps.specs.Steps.{Answers, OrWide, IfPassed};
ghost use Rattle.list_report.specs.Choice.{chosen_of};
ghost use Rattle.list_report.specs.HeldListings.{formed_by};
ghost use Rattle.list_report.specs.RealForms.{RefusesForm, IsWideFormOf, IsFormed};
ghost use Rattle.couple_report.specs.Pairs.{RefusesForms, AreWideForms, AreFormed};
ghost use Rattle.couple_report.specs.HeldPairs.{chosen_pair, formed_pair, IsPairHeld};

use iso_text::NoMemory;
use list_report::form_at;
use real_form::RealForm;
use report_steps::{InducedFile, Step};
use std::alloc::Global;

/// Two real forms of one quotient.
#[derive(Drop)]
pub(crate) struct FormPair {
    pub left: RealForm,
    pub right: RealForm,
}

// A real form, and that of the irrep at a place.
fn with_right(
    alloc: Global,
    file: &InducedFile,
    left: RealForm,
    l: usize,
) -> Result<Step<FormPair>, NoMemory>
    requires held { AreInducedHeld file.now }
    requires place { l < length file.now.divided.file.irreps }
    requires quotient { quotient_of left ≡ file.now.divided.quotient }
    requires few { (action_of left).dim ≤ 24 }
    ensures answer { (j : Irrep) → slice_get file.now.divided.file.irreps l ≡ Some j → IfOk result (λ step. Answers (OrWide RefusesForm IsWideFormOf (chosen_of file.now.divided j)) (λ forms. (forms.left ≡ left) × IsFormed (chosen_of file.now.divided j) (formed_by (chosen_of file.now.divided j) forms.right)) step) }
    ensures held { IfOk result (λ step. IfPassed step (IsPairHeld file.now.divided.quotient)) }
{
    match form_at(alloc, file, l)? {
        Step::Passed(right) => Ok(Step::Passed(FormPair { left, right })),
        Step::Refused(refusal) => Ok(Step::Refused(refusal)),
    }
}

/// The real forms of the irreps of a file at two places, or why there are none.
pub(crate) fn forms_at(
    alloc: Global,
    file: &InducedFile,
    k: usize,
    l: usize,
) -> Result<Step<FormPair>, NoMemory>
    requires held { AreInducedHeld file.now }
    requires left { k < length file.now.divided.file.irreps }
    requires right { l < length file.now.divided.file.irreps }
    ensures answer { (i j : Irrep) → slice_get file.now.divided.file.irreps k ≡ Some i → slice_get file.now.divided.file.irreps l ≡ Some j → IfOk result (λ step. Answers (OrWide RefusesForms AreWideForms (chosen_pair file.now.divided i j)) (λ forms. AreFormed (chosen_pair file.now.divided i j) (formed_pair (chosen_pair file.now.divided i j) forms)) step) }
    ensures held { IfOk result (λ step. IfPassed step (IsPairHeld file.now.divided.quotient)) }
{
    match form_at(alloc, file, k)? {
        Step::Passed(left) => with_right(alloc, file, left, l),
        Step::Refused(refusal) => Ok(Step::Refused(refusal)),
    }
}
