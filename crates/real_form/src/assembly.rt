// Real forms from their bases.
ghost use Rattle.std.specs.Prelude.{◌≡◌, ◌≤◌, Err, IfOk, length};
ghost use Rattle.cyclo24.specs.K24.{exact24};
ghost use Rattle.cyclo24.specs.ExactK24.{k24_laws};
ghost use Rattle.lin_alg.specs.Rows.{exact_rows};
ghost use Rattle.lin_alg.specs.declared.errors.LinError.TheVariants as lin_error;
ghost use Rattle.super_group.specs.Quotient.{order_of};
ghost use Rattle.induce.specs.Tables.{dimension_in, matrix_in};
ghost use Rattle.induce.specs.InducedView.{IsInducedOf};
ghost use Rattle.real_form.specs.KeptBasis.{IsKeptBasis, AreFactorsOf};
ghost use Rattle.real_form.specs.RealBasis.{IsWideFactors};
ghost use Rattle.real_form.specs.Vectors.{lines_of};

use crate::basis::pivots_of;
use crate::lifting::lifted_rows;
use crate::matrices::stacked;
use cyclo24::K24;
use induce::Induced;
use lin_alg::{LinError, Matrix};
use std::alloc::Global;
use super_group::Quotient;

// The matrices of the translations, and those of the listed operations, in a basis: of each the entries
// at the pivots of the images of the rows.
pub(crate) fn factors(
    alloc: Global,
    quotient: &Quotient,
    induced: &Induced,
    lines: &[(usize, Vec<K24>)],
) -> Result<(Matrix<K24>, Matrix<K24>), LinError>
    requires of { IsInducedOf quotient.now induced.now }
    requires few { length lines.now ≤ 24 }
    requires basis { IsKeptBasis (order_of quotient.now) (dimension_in induced.now.tables) (matrix_in quotient.now induced.now.tables) (lines_of lines.now) }
    ensures factors { IfOk result (λ f. AreFactorsOf quotient.now (dimension_in induced.now.tables) (matrix_in quotient.now induced.now.tables) (lines_of lines.now) f.0 f.1) }
    ensures wide { (result ≡ Err lin_error.Wide) → IsWideFactors (dimension_in induced.now.tables) (order_of quotient.now) (matrix_in quotient.now induced.now.tables) (exact_rows k24_laws exact24 (lines_of lines.now)) }
{
    let vectors = match lifted_rows(alloc, lines, induced.dim()) {
        Ok(vectors) => vectors,
        Err(error) => return Err(error),
    };
    let pivots = pivots_of(alloc, lines)?;
    let count = quotient.translations().len();
    let listed = quotient.group().len();
    let _order = quotient.order();
    let translations = match stacked(alloc, &vectors, &pivots, quotient, induced, count, 1) {
        Ok(matrices) => matrices,
        Err(error) => return Err(error),
    };
    match stacked(alloc, &vectors, &pivots, quotient, induced, listed, count) {
        Ok(rotations) => Ok((translations, rotations)),
        Err(error) => Err(error),
    }
}
