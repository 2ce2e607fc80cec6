// The basis of a real form.
ghost use Rattle.std.specs.Prelude.{◌≡◌, ◌≤◌, ◌+◌, ℕ, Err, IfOk, length};
ghost use Rattle.std.specs.Option.{option_copied, ForSome};
ghost use Rattle.cyclo24.specs.K24.{exact24};
ghost use Rattle.cyclo24.specs.ExactK24.{k24_laws};
ghost use Rattle.lin_alg.specs.Rows.{exact_rows};
ghost use Rattle.super_group.specs.Quotient.{order_of};
ghost use Rattle.induce.specs.Kinds.{real_dimension};
ghost use Rattle.induce.specs.Tables.{dimension_in, matrix_in};
ghost use Rattle.induce.specs.InducedView.{IsInducedOf};
ghost use Rattle.induce.specs.declared.kinds.Kind.TheVariants as kind_of;
ghost use Rattle.real_form.specs.declared.errors.FormError.TheVariants as form_error;
ghost use Rattle.real_form.specs.Bases.{unit_rows};
ghost use Rattle.real_form.specs.Candidates.{tried};
ghost use Rattle.real_form.specs.KeptBasis.{IsKeptBasis};
ghost use Rattle.real_form.specs.Orbits.{FirstOf, NoneOf};
ghost use Rattle.real_form.specs.RealBasis.{IsBasisOf, FitsNot, IsRealBasis, IsWideSpans};
ghost use Rattle.real_form.specs.Vectors.{lines_of};

use crate::FormError;
use crate::basis::{form_lines, unit_lines};
use crate::search::fitting_form;
use cyclo24::{K24, Z24};
use induce::{Induced, Kind};
use lin_alg::LinError;
use std::alloc::Global;
use super_group::Quotient;

// The rows of the basis with their pivots: those of the first span that fits for the real kind, else all
// unit vectors.
pub(crate) fn basis_lines(
    alloc: Global,
    quotient: &Quotient,
    induced: &Induced,
    given: Option<&[Z24]>,
) -> Result<Vec<(usize, Vec<K24>)>, FormError>
    requires of { IsInducedOf quotient.now induced.now }
    requires given { ForSome given (λ w. length w.now ≡ (dimension_in induced.now.tables)) }
    ensures basis { IfOk result (λ lines. IsRealBasis induced.now.kind (dimension_in induced.now.tables) (order_of quotient.now) (matrix_in quotient.now induced.now.tables) (tried (dimension_in induced.now.tables) (option_copied given.entry)) (exact_rows k24_laws exact24 (lines_of lines.items))) }
    ensures kept { IfOk result (λ lines. IsKeptBasis (order_of quotient.now) (dimension_in induced.now.tables) (matrix_in quotient.now induced.now.tables) (lines_of lines.items)) }
    ensures count { IfOk result (λ lines. length lines.items ≡ real_dimension induced.now.kind (dimension_in induced.now.tables)) }
    ensures few { IfOk result (λ lines. length lines.items ≤ 24) }
    ensures none { (result ≡ Err form_error.NoRealBasis) → (induced.now.kind ≡ kind_of.Real) × NoneOf (FitsNot (dimension_in induced.now.tables) (order_of quotient.now) (matrix_in quotient.now induced.now.tables)) (tried (dimension_in induced.now.tables) (option_copied given.entry)) }
    ensures wide { (f : ℕ) → (result ≡ Err (form_error.Wide f)) → (f ≡ 1) × (induced.now.kind ≡ kind_of.Real) × IsWideSpans (dimension_in induced.now.tables) (order_of quotient.now) (matrix_in quotient.now induced.now.tables) (tried (dimension_in induced.now.tables) (option_copied given.entry)) }
{
    let _dim = induced.real_dim();
    match induced.kind() {
        Kind::Real => spanned_lines(alloc, quotient, induced, given),
        Kind::Complex => doubled_lines(alloc, quotient, induced),
        Kind::Pseudoreal => doubled_lines(alloc, quotient, induced),
    }
}

// The rows of the first span that fits.
fn spanned_lines(
    alloc: Global,
    quotient: &Quotient,
    induced: &Induced,
    given: Option<&[Z24]>,
) -> Result<Vec<(usize, Vec<K24>)>, FormError>
    requires of { IsInducedOf quotient.now induced.now }
    requires given { ForSome given (λ w. length w.now ≡ (dimension_in induced.now.tables)) }
    ensures basis { IfOk result (λ lines. FirstOf (IsBasisOf (dimension_in induced.now.tables) (order_of quotient.now) (matrix_in quotient.now induced.now.tables) (exact_rows k24_laws exact24 (lines_of lines.items))) (FitsNot (dimension_in induced.now.tables) (order_of quotient.now) (matrix_in quotient.now induced.now.tables)) (tried (dimension_in induced.now.tables) (option_copied given.entry))) }
    ensures kept { IfOk result (λ lines. IsKeptBasis (order_of quotient.now) (dimension_in induced.now.tables) (matrix_in quotient.now induced.now.tables) (lines_of lines.items)) }
    ensures count { IfOk result (λ lines. length lines.items ≡ dimension_in induced.now.tables) }
    ensures none { (result ≡ Err form_error.NoRealBasis) → NoneOf (FitsNot (dimension_in induced.now.tables) (order_of quotient.now) (matrix_in quotient.now induced.now.tables)) (tried (dimension_in induced.now.tables) (option_copied given.entry)) }
    ensures wide { (f : ℕ) → (result ≡ Err (form_error.Wide f)) → (f ≡ 1) × IsWideSpans (dimension_in induced.now.tables) (order_of quotient.now) (matrix_in quotient.now induced.now.tables) (tried (dimension_in induced.now.tables) (option_copied given.entry)) }
{
    let _order = quotient.order();
    let _dim = induced.dim();
    let form = match fitting_form(alloc, quotient, induced, given) {
        Ok(Some(form)) => form,
        Ok(None) => return Err(FormError::NoRealBasis),
        Err(LinError::Wide) => return Err(FormError::Wide(1)),
        Err(LinError::NoMemory) => return Err(FormError::NoMemory),
    };
    match form_lines(alloc, &form) {
        Ok(lines) => Ok(lines),
        Err(_) => Err(FormError::NoMemory),
    }
}

// All unit vectors.
fn doubled_lines(
    alloc: Global,
    quotient: &Quotient,
    induced: &Induced,
) -> Result<Vec<(usize, Vec<K24>)>, FormError>
    requires of { IsInducedOf quotient.now induced.now }
    ensures rows { IfOk result (λ lines. exact_rows k24_laws exact24 (lines_of lines.items) ≡ unit_rows k24_laws 0 ((dimension_in induced.now.tables) + (dimension_in induced.now.tables))) }
    ensures kept { IfOk result (λ lines. IsKeptBasis (order_of quotient.now) (dimension_in induced.now.tables) (matrix_in quotient.now induced.now.tables) (lines_of lines.items)) }
    ensures count { IfOk result (λ lines. length lines.items ≡ dimension_in induced.now.tables + dimension_in induced.now.tables) }
    ensures memory { (e : FormError) → (result ≡ Err e) → e ≡ form_error.NoMemory }
{
    let _order = quotient.order();
    let n = induced.dim();
    match unit_lines(alloc, n + n) {
        Ok(lines) => Ok(lines),
        Err(_) => Err(FormError::NoMemory),
    }
}
