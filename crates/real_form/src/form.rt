// Real forms.
ghost use Rattle.std.specs.Prelude.{◌≡◌, ◌<◌, ℕ, length};
ghost use Rattle.algebra.specs.NumberedGroup.{IsGroup, IsGenerated};
ghost use Rattle.cyclo24.specs.ExactK24.{k24_laws};
ghost use Rattle.lin_alg.specs.Matrices.{unit_entry, AreEqualBelow, IsRepresentation};
ghost use Rattle.super_group.specs.Quotient.{order_of, quotient_group, generators_of};
ghost use Rattle.real_form.specs.Held.{generator_of, entry_in, IsStacked, AreNarrow};

use crate::FormError;
use crate::assembly::factors;
use crate::narrow::check_matrices;
use crate::product::product_row;
use crate::real_basis::basis_lines;
use cyclo24::{K24, Wide, Z24};
use induce::Induced;
use lin_alg::{Acts, LinError, Matrix, zeros};
use std::alloc::Global;
use super_group::Quotient;

/// A representation over the real field, in a basis: the quotient acts by real matrices. Of the
/// matrices those of the lattice translations in the supercell and those of the listed operations are
/// kept, one below the other; A(q) is the product of two.
#[derive(Drop)]
pub struct RealForm {
    quotient: Quotient,
    lines: Vec<(usize, Vec<K24>)>,
    translations: Matrix<K24>,
    rotations: Matrix<K24>,
    pub ghost group: { IsGroup (quotient_group quotient) },
    pub ghost below: { (i : ℕ) → i < length (generators_of quotient) → generator_of quotient i < order_of quotient },
    pub ghost generated: { IsGenerated (quotient_group quotient) (length (generators_of quotient)) (generator_of quotient) },
    pub ghost stacked: { IsStacked quotient (length lines.items) translations rotations },
    pub ghost narrow: { AreNarrow quotient (length lines.items) translations rotations },
    pub ghost identity: { AreEqualBelow (length lines.items) (entry_in quotient (length lines.items) translations rotations 0) (unit_entry k24_laws) },
    pub ghost multiplies: { IsRepresentation k24_laws (quotient_group quotient) (length lines.items) (entry_in quotient (length lines.items) translations rotations) },
}

impl RealForm {
    ghost use Rattle.std.specs.Prelude.{◌≡◌, ◌<◌, ◌≤◌, ◌+◌, ◌⊎◌, ◌∷◌, [], ℕ, Err, IfOk, length, slice_index_or};
    ghost use Rattle.std.specs.Option.{option_copied, ForSome};
    ghost use Rattle.cyclo24.specs.K24.{exact24};
    ghost use Rattle.cyclo24.specs.ExactK24.{Exact24, k24_laws};
    ghost use Rattle.lin_alg.specs.Rows.{exact_rows, HaveWidth};
    ghost use Rattle.lin_alg.specs.Action.{entry_of};
    ghost use Rattle.super_group.specs.Quotient.{order_of};
    ghost use Rattle.induce.specs.Kinds.{real_dimension};
    ghost use Rattle.induce.specs.Tables.{dimension_in, matrix_in};
    ghost use Rattle.induce.specs.InducedView.{IsInducedOf};
    ghost use Rattle.induce.specs.declared.kinds.Kind.TheVariants as kind_of;
    ghost use Rattle.real_form.specs.declared.errors.FormError.TheVariants as form_error;
    ghost use Rattle.real_form.specs.Bases.{AreMatricesIn};
    ghost use Rattle.real_form.specs.Candidates.{tried};
    ghost use Rattle.real_form.specs.Complexes.{z24_parts};
    ghost use Rattle.real_form.specs.Orbits.{NoneOf};
    ghost use Rattle.real_form.specs.RealBasis.{FitsNot, IsRealBasis, IsWideSpans, IsWideMatrices, IsWideForm};
    ghost use Rattle.lin_alg.specs.declared.errors.LinError.TheVariants as lin_error;
    ghost use Rattle.real_form.specs.KeptBasis.{IsKeptBasis};
    ghost use Rattle.real_form.specs.Vectors.{lines_of};
    ghost use Rattle.real_form.specs.RealForm.{quotient_of, basis_of, action_of};

    /// The real form of an induced representation of n complex dimensions. Where its kind isn't real, it
    /// is the space of all 2n real coordinates. Where it is real, it is the real span of the orbit of the
    /// first vector whose span has dimension n: the given vector alone is tried, or, where none is given,
    /// the unit vectors e_i and then e_i + z^a e_j for i < j, by rising i, j and a. Condition: the
    /// representation is of this quotient, and a given vector has n entries.
    pub fn new(
        alloc: Global,
        quotient: &Quotient,
        induced: &Induced,
        given: Option<&[Z24]>,
    ) -> Result<RealForm, FormError>
        requires of { IsInducedOf quotient.now induced.now }
        requires given { ForSome given (λ w. length w.now ≡ (dimension_in induced.now.tables)) }
        ensures basis { IfOk result (λ form. IsRealBasis induced.now.kind (dimension_in induced.now.tables) (order_of quotient.now) (matrix_in quotient.now induced.now.tables) (tried (dimension_in induced.now.tables) (option_copied given.entry)) (exact_rows k24_laws exact24 (basis_of form))) }
        ensures matrices { IfOk result (λ form. AreMatricesIn z24_parts (dimension_in induced.now.tables) (matrix_in quotient.now induced.now.tables) (order_of quotient.now) (exact_rows k24_laws exact24 (basis_of form)) (entry_of k24_laws (action_of form))) }
        ensures quotient { IfOk result (λ form. quotient_of form ≡ quotient.now) }
        ensures width { IfOk result (λ form. HaveWidth (dimension_in induced.now.tables + dimension_in induced.now.tables) (basis_of form)) }
        ensures dim { IfOk result (λ form. (action_of form).dim ≡ real_dimension induced.now.kind (dimension_in induced.now.tables)) }
        ensures few { IfOk result (λ form. (action_of form).dim ≤ 24) }
        ensures none { (result ≡ Err form_error.NoRealBasis) → (induced.now.kind ≡ kind_of.Real) × NoneOf (FitsNot (dimension_in induced.now.tables) (order_of quotient.now) (matrix_in quotient.now induced.now.tables)) (tried (dimension_in induced.now.tables) (option_copied given.entry)) }
        ensures wide { (f : ℕ) → (result ≡ Err (form_error.Wide f)) → ((f ≡ 1) × (induced.now.kind ≡ kind_of.Real) × IsWideSpans (dimension_in induced.now.tables) (order_of quotient.now) (matrix_in quotient.now induced.now.tables) (tried (dimension_in induced.now.tables) (option_copied given.entry))) ⊎ ((f ≡ 2) × IsWideForm induced.now.kind (dimension_in induced.now.tables) (length quotient.now.translations) (length quotient.now.parent.ops) (matrix_in quotient.now induced.now.tables) (tried (dimension_in induced.now.tables) (option_copied given.entry))) }
    {
        let lines = match basis_lines(alloc, quotient, induced, given) {
            Ok(lines) => lines,
            Err(error) => return Err(error),
        };
        match RealForm::with_basis(alloc, quotient, induced, lines) {
            Ok(form) => Ok(form),
            Err(LinError::Wide) => Err(FormError::Wide(2)),
            Err(LinError::NoMemory) => Err(FormError::NoMemory),
        }
    }

    /// Row i of the basis: n real parts and then n imaginary parts.
    pub fn basis(&self, i: usize) -> &[K24]
        requires { i < (action_of self.now).dim }
        ensures { result.now ≡ (slice_index_or (basis_of self.now) i (0, [])).1 }
    {
        &self.lines[i].1
    }

    // The real form in a basis of a space that the quotient keeps.
    fn with_basis(
        alloc: Global,
        quotient: &Quotient,
        induced: &Induced,
        lines: Vec<(usize, Vec<K24>)>,
    ) -> Result<RealForm, LinError>
        requires of { IsInducedOf quotient.now induced.now }
        requires few { length lines.items ≤ 24 }
        requires basis { IsKeptBasis (order_of quotient.now) (dimension_in induced.now.tables) (matrix_in quotient.now induced.now.tables) (lines_of lines.items) }
        ensures lines { IfOk result (λ form. form.lines ≡ lines) }
        ensures matrices { IfOk result (λ form. AreMatricesIn z24_parts (dimension_in induced.now.tables) (matrix_in quotient.now induced.now.tables) (order_of quotient.now) (exact_rows k24_laws exact24 (basis_of form)) (entry_of k24_laws (action_of form))) }
        ensures quotient { IfOk result (λ form. form.quotient ≡ quotient.now) }
        ensures wide { (result ≡ Err lin_error.Wide) → (A : ℕ → ℕ → ℕ → Exact24) × AreMatricesIn z24_parts (dimension_in induced.now.tables) (matrix_in quotient.now induced.now.tables) (order_of quotient.now) (exact_rows k24_laws exact24 (lines_of lines.items)) A × IsWideMatrices (dimension_in induced.now.tables) (length quotient.now.translations) (length quotient.now.parent.ops) (matrix_in quotient.now induced.now.tables) (exact_rows k24_laws exact24 (lines_of lines.items)) A }
    {
        let _order = quotient.order();
        let _dim = induced.dim();
        let factors = match factors(alloc, quotient, induced, &lines) {
            Ok(factors) => factors,
            Err(error) => return Err(error),
        };
        let mut room = zeros(alloc, lines.len())?;
        let listed = quotient.group().len();
        match check_matrices(alloc, &factors.0, &factors.1, listed, &mut room) {
            Ok(()) => {}
            Err(_) => return Err(LinError::Wide),
        }
        let copy = quotient.copy(alloc)?;
        Ok(RealForm::keep(copy, lines, factors.0, factors.1))
    }
}

impl RealForm {
    ghost use Rattle.std.specs.Prelude.{◌≡◌, length};
    ghost use Rattle.real_form.specs.Held.{IsHeld};

    // The real form that keeps these rows and matrices.
    fn keep(
        quotient: Quotient,
        lines: Vec<(usize, Vec<K24>)>,
        translations: Matrix<K24>,
        rotations: Matrix<K24>,
    ) -> RealForm
        requires { IsHeld quotient (length lines.items) translations rotations }
        ensures quotient { result.quotient ≡ quotient }
        ensures lines { result.lines ≡ lines }
        ensures translations { result.translations ≡ translations }
        ensures rotations { result.rotations ≡ rotations }
    {
        let _order = quotient.order();
        let _generators = quotient.generators();
        RealForm {
            quotient,
            lines,
            translations,
            rotations,
        }
    }
}

impl Acts<K24> for RealForm {
    ghost use Rattle.real_form.specs.RealForm.{action_of, action_of-lawful};

    ghost action = { action_of };

    ghost wide = { λ _. ⊥ };

    fn order(&self) -> usize {
        self.quotient.order()
    }

    fn dim(&self) -> usize {
        self.lines.len()
    }

    fn product(&self, a: usize, b: usize) -> usize {
        self.quotient.product(a, b)
    }

    fn inverse(&self, a: usize) -> usize {
        self.quotient.inverse(a)
    }

    fn generators(&self) -> usize {
        self.quotient.generators().len()
    }

    fn generator(&self, i: usize) -> usize {
        self.quotient.generators()[i]
    }

    fn row(&self, q: usize, i: usize, into: &mut [K24]) -> Result<(), Wide> {
        let _order = self.quotient.order();
        let _translations = self.translations.rows();
        let _rotations = self.rotations.rows();
        let d = self.lines.len();
        let count = self.quotient.translations().len();
        let left = (q % count) * d + i;
        let first = (q / count) * d;
        product_row(&self.translations, left, &self.rotations, first, into)
    }

    ghost lawful = { action_of-lawful };
}
