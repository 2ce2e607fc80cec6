// Links between induced representations.
ghost use Rattle.std.specs.Prelude.{◌≡◌, ◌≤◌, IfOk, IfErr, IfSome, IfNone};
ghost use Rattle.cyclo24.specs.ExactZ24.{z24_laws};
ghost use Rattle.cyclo24.specs.Z24.{exact_z24};
ghost use Rattle.lin_alg.specs.Matrix.{entry};
ghost use Rattle.induce.specs.InducedView.{IsInducedOf};
ghost use Rattle.couple.specs.Links.{HasOnlyZero, IsLink};
ghost use Rattle.couple.specs.Found.{pair_of, IsWithRank, IsRankCause, IsLinkOf, IsLinkCause};

use crate::LinkError;
use crate::averages::first_average;
use crate::both::Both;
use crate::errors::FAMILY;
use crate::links::Link;
use crate::rank::rank_of;
use cyclo24::Z24;
use induce::Induced;
use lin_alg::{LinError, Matrix, zeros};
use std::alloc::Global;
use super_group::Quotient;

/// The link of two representations: the first average, by (i, j), that isn't zero, of the matrices
/// with a single 1 at (i, j); or nothing, exactly where zero is the only intertwiner. Where its rank is
/// both dimensions the two are equivalent. It stops at the first such average, and forms none but those
/// with i on the first arm. Condition: both are of this quotient. Errors: a number of family 7 that is
/// too wide; want of memory.
pub fn link(
    alloc: Global,
    quotient: &Quotient,
    left: &Induced,
    right: &Induced,
) -> Result<Link, LinkError>
    requires left { IsInducedOf quotient.now left.now }
    requires right { IsInducedOf quotient.now right.now }
    ensures link { IfOk result (λ link. IsLinkOf quotient.now left.now right.now link) }
    ensures cause { IfErr result (λ e. IsLinkCause quotient.now left.now right.now e) }
{
    let _order = quotient.order();
    let _rows = left.dim();
    let _cols = right.dim();
    match found_matrix(alloc, quotient, left, right) {
        Ok(Some(matrix)) => with_rank(alloc, matrix),
        Ok(None) => Ok(Link::Nothing),
        Err(error) => Err(error),
    }
}

// The first average that isn't zero, if there is one.
fn found_matrix(
    alloc: Global,
    quotient: &Quotient,
    left: &Induced,
    right: &Induced,
) -> Result<Option<Matrix<Z24>>, LinkError>
    requires left { IsInducedOf quotient.now left.now }
    requires right { IsInducedOf quotient.now right.now }
    ensures rows { IfOk result (λ found. IfSome found (λ m. m.rows ≡ (pair_of quotient.now left.now right.now).rows)) }
    ensures cols { IfOk result (λ found. IfSome found (λ m. m.cols ≡ (pair_of quotient.now left.now right.now).cols)) }
    ensures found { IfOk result (λ found. IfSome found (λ m. IsLink z24_laws (pair_of quotient.now left.now right.now) (entry z24_laws exact_z24 m))) }
    ensures none { IfOk result (λ found. IfNone found (HasOnlyZero z24_laws (pair_of quotient.now left.now right.now))) }
    ensures cause { IfErr result (λ e. IsLinkCause quotient.now left.now right.now e) }
{
    let _order = quotient.order();
    let n = left.dim();
    let m = right.dim();
    let both = Both {
        quotient,
        left,
        right,
    };
    let mut sums = match Matrix::new(alloc, n, m) {
        Ok(sums) => sums,
        Err(_) => return Err(LinkError::NoMemory),
    };
    let mut row = match zeros(alloc, m) {
        Ok(row) => row,
        Err(_) => return Err(LinkError::NoMemory),
    };
    match first_average(&both, &mut sums, &mut row) {
        Ok(true) => Ok(Some(sums)),
        Ok(false) => Ok(None),
        Err(_) => Err(LinkError::Wide(FAMILY)),
    }
}

// A matrix with its rank.
fn with_rank(alloc: Global, matrix: Matrix<Z24>) -> Result<Link, LinkError>
    requires { matrix.cols ≤ 288 }
    ensures found { IfOk result (λ link. IsWithRank matrix link) }
    ensures cause { IfErr result (λ e. IsRankCause matrix e) }
{
    match rank_of(alloc, &matrix) {
        Ok(rank) => Ok(Link::Found {
            matrix,
            rank: rank as u32,
        }),
        Err(LinError::Wide) => Err(LinkError::Wide(FAMILY)),
        Err(LinError::NoMemory) => Err(LinkError::NoMemory),
    }
}
