// The real form of an irrep.
ghost use Rattle.std.specs.Prelude.{◌≡◌, ◌<◌, ◌≤◌, ℕ, All, Some, None, IfOk, IfErr, map, length, slice_get};
ghost use Rattle.iso_text.specs.declared.sections.IrrepText.{IrrepText as Irrep};
ghost use Rattle.iso_text.specs.Ranges.{IsVector};
ghost use Rattle.iso_text.specs.WordRanges.{IsNumber};
ghost use Rattle.induce.specs.InducedView.{IsInducedOf};
ghost use Rattle.cyclo24.specs.Terms.{terms_value};
ghost use Rattle.cyclo24.specs.Z24.{exact_z24};
ghost use Rattle.induce.specs.Tables.{dimension_in};
ghost use Rattle.real_form.specs.RealForm.{quotient_of, action_of};
ghost use Rattle.list_report.specs.Choice.{chosen_by, chosen_of};
ghost use Rattle.report_steps.specs.Held.{IsInducedHeld};
ghost use Rattle.report_steps.specs.HeldFiles.{AreInducedHeld};
ghost use Rattle.report_steps.specs.IrrepSteps.{Each};
ghost use Rattle.list_report.specs.HeldForms.{IsFormFound, IsFormCause};
ghost use Rattle.list_report.specs.HeldListings.{formed_by};
ghost use Rattle.list_report.specs.RealForms.{RefusesForm, IsWideFormOf, IsFormed, tried_of};
ghost use Rattle.report_steps.specs.Steps.{Answers, OrWide, IfPassed};

use cyclo24::Z24;
use induce::Induced;
use iso_text::{IrrepText, NoMemory, NumText, VectorText};
use real_form::{FormError, RealForm};
use report_steps::{InducedFile, Refusal, Step, add};
use std::alloc::Global;
use super_group::Quotient;

// Numbers as a file writes them.
fn numbers_of(alloc: Global, texts: &[NumText]) -> Result<Vec<Z24>, NoMemory>
    requires { All IsNumber texts.now }
    ensures { IfOk result (λ numbers. map exact_z24 numbers.items ≡ map terms_value texts.now) }
{
    let mut numbers: Vec<Z24> = Vec::new(alloc);
    for text in texts {
        add(&mut numbers, Z24::from_terms(text.as_slice()))?;
    }
    Ok(numbers)
}

// The real form by a given vector.
fn form_given(
    alloc: Global,
    quotient: &Quotient,
    induced: &Induced,
    vector: &VectorText,
) -> Result<RealForm, FormError>
    requires of { IsInducedOf quotient.now induced.now }
    requires vector { IsVector vector.now }
    requires size { length vector.now.numbers ≡ dimension_in induced.now.tables }
    ensures form { IfOk result (IsFormFound quotient.now induced.now (tried_of (dimension_in induced.now.tables) (Some vector.now))) }
    ensures cause { IfErr result (IsFormCause quotient.now induced.now (tried_of (dimension_in induced.now.tables) (Some vector.now))) }
{
    let Ok(numbers) = numbers_of(alloc, vector.numbers.as_slice()) else {
        return Err(FormError::NoMemory);
    };
    RealForm::new(alloc, quotient, induced, Some(numbers.as_slice()))
}

// The real form by the candidates.
fn form_searched(
    alloc: Global,
    quotient: &Quotient,
    induced: &Induced,
) -> Result<RealForm, FormError>
    requires of { IsInducedOf quotient.now induced.now }
    ensures form { IfOk result (IsFormFound quotient.now induced.now (tried_of (dimension_in induced.now.tables) None)) }
    ensures cause { IfErr result (IsFormCause quotient.now induced.now (tried_of (dimension_in induced.now.tables) None)) }
{
    RealForm::new(alloc, quotient, induced, None)
}

// The real form of what an irrep induces.
fn real_form(
    alloc: Global,
    quotient: &Quotient,
    irrep: &IrrepText,
    induced: &Induced,
) -> Result<RealForm, FormError>
    requires { IsInducedHeld quotient.now irrep.now induced.now }
    ensures form { IfOk result (IsFormFound quotient.now induced.now (tried_of (dimension_in induced.now.tables) irrep.now.vector)) }
    ensures cause { IfErr result (IsFormCause quotient.now induced.now (tried_of (dimension_in induced.now.tables) irrep.now.vector)) }
{
    match &irrep.vector {
        Some(vector) => form_given(alloc, quotient, induced, vector),
        None => form_searched(alloc, quotient, induced),
    }
}

/// The real form of an irrep, or why there is none.
pub fn form_of(
    alloc: Global,
    quotient: &Quotient,
    irrep: &IrrepText,
    induced: &Induced,
) -> Result<Step<RealForm>, NoMemory>
    requires { IsInducedHeld quotient.now irrep.now induced.now }
    ensures answer { IfOk result (λ step. (format : ℕ) → Answers (OrWide RefusesForm IsWideFormOf (chosen_by format quotient.now irrep.now)) (λ form. IsFormed (chosen_by format quotient.now irrep.now) (formed_by (chosen_by format quotient.now irrep.now) form)) step) }
    ensures quotient { IfOk result (λ step. IfPassed step (λ form. quotient_of form ≡ quotient.now)) }
    ensures few { IfOk result (λ step. IfPassed step (λ form. (action_of form).dim ≤ 24)) }
{
    match real_form(alloc, quotient, irrep, induced) {
        Ok(form) => Ok(Step::Passed(form)),
        Err(FormError::NoRealBasis) => Ok(Step::Refused(Refusal::NoRealBasis(irrep.name))),
        Err(FormError::Wide(family)) => Ok(Step::Refused(Refusal::Wide(family))),
        Err(FormError::NoMemory) => Err(NoMemory),
    }
}

// The real form of the irrep at a place.
fn form_among(
    alloc: Global,
    quotient: &Quotient,
    irreps: &[IrrepText],
    all: &[Induced],
    k: usize,
) -> Result<Step<RealForm>, NoMemory>
    requires held { Each (IsInducedHeld quotient.now) irreps.now all.now }
    requires place { k < length irreps.now }
    requires beside { k < length all.now }
    ensures answer { (format : ℕ) (i : Irrep) → slice_get irreps.now k ≡ Some i → IfOk result (λ step. Answers (OrWide RefusesForm IsWideFormOf (chosen_by format quotient.now i)) (λ form. IsFormed (chosen_by format quotient.now i) (formed_by (chosen_by format quotient.now i) form)) step) }
    ensures quotient { IfOk result (λ step. IfPassed step (λ form. quotient_of form ≡ quotient.now)) }
    ensures few { IfOk result (λ step. IfPassed step (λ form. (action_of form).dim ≤ 24)) }
{
    form_of(alloc, quotient, &irreps[k], &all[k])
}

/// The real form of the irrep of a file at a place, or why there is none.
pub fn form_at(alloc: Global, file: &InducedFile, k: usize) -> Result<Step<RealForm>, NoMemory>
    requires held { AreInducedHeld file.now }
    requires place { k < length file.now.divided.file.irreps }
    ensures answer { (i : Irrep) → slice_get file.now.divided.file.irreps k ≡ Some i → IfOk result (λ step. Answers (OrWide RefusesForm IsWideFormOf (chosen_of file.now.divided i)) (λ form. IsFormed (chosen_of file.now.divided i) (formed_by (chosen_of file.now.divided i) form)) step) }
    ensures quotient { IfOk result (λ step. IfPassed step (λ form. quotient_of form ≡ file.now.divided.quotient)) }
    ensures few { IfOk result (λ step. IfPassed step (λ form. (action_of form).dim ≤ 24)) }
{
    let quotient = file.divided.quotient();
    let irreps = file.divided.document().irreps();
    form_among(alloc, quotient, irreps, &file.irreps, k)
}
