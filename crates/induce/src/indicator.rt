// The kind of an induced representation.
ghost use Rattle.std.specs.Prelude.{◌≡◌, ◌≤◌, IfOk, IfErr, OnErr};
ghost use Rattle.cyclo24.specs.Z24.{exact_z24};
ghost use Rattle.super_group.specs.Quotient.{order_of};
ghost use Rattle.induce.specs.Induced.{indicator_sum};
ghost use Rattle.induce.specs.Kinds.{IsKind, real_dimension};
ghost use Rattle.induce.specs.Tables.{AreTablesOf, AreCharacters, size_in, matrices_in, dimension_in};
ghost use Rattle.induce.specs.Wide.{IsWideIndicator, IsInduceCause};

use crate::InduceError;
use crate::characters::sum_of;
use crate::errors::{FAMILY, MAX_DIMENSION};
use crate::kinds::{Kind, kind_of, real_dim_of};
use crate::tables::Tables;
use cyclo24::{Field, Wide, Z24};
use super_group::Quotient;

/// The kind, and the real dimension, which is at most 24.
#[derive(Clone, Copy, Debug, PartialEq, Eq)]
pub struct Judged {
    pub kind: Kind,
    pub real_dim: usize,
}

/// The sum, over all q, of the character of the product of q with itself.
fn indicator(tables: &Tables, quotient: &Quotient, characters: &[Z24]) -> Result<Z24, Wide>
    requires { AreCharacters quotient.now tables.now characters.now (order_of quotient.now) }
    ensures exact { IfOk result (λ r. exact_z24 r ≡ indicator_sum quotient.now tables.now.star (size_in tables.now) (matrices_in tables.now)) }
    ensures wide { OnErr result (IsWideIndicator quotient.now tables.now.star (size_in tables.now) (matrices_in tables.now)) }
{
    let mut sum = Z24::zero();
    for q in 0..quotient.order() {
        sum = sum_of(sum, characters[quotient.square(q)])?;
    }
    Ok(sum)
}

/// The number of rows, at most 288.
pub fn dimension(tables: &Tables) -> usize
    ensures value { result ≡ dimension_in tables.now }
    ensures few { result ≤ 288 }
{
    tables.star.arms() * tables.rep.size()
}

/// The kind and the real dimension, from the characters.
pub fn judge(
    tables: &Tables,
    quotient: &Quotient,
    characters: &[Z24],
) -> Result<Judged, InduceError>
    requires { AreCharacters quotient.now tables.now characters.now (order_of quotient.now) }
    ensures kind { IfOk result (λ r. IsKind r.kind (indicator_sum quotient.now tables.now.star (size_in tables.now) (matrices_in tables.now)) (order_of quotient.now)) }
    ensures real { IfOk result (λ r. r.real_dim ≡ real_dimension r.kind (dimension_in tables.now)) }
    ensures few { IfOk result (λ r. r.real_dim ≤ 24) }
    ensures cause { IfErr result (λ e. IsInduceCause quotient.now tables.now.star (size_in tables.now) (matrices_in tables.now) e) }
{
    let order = quotient.order();
    let sum = match indicator(tables, quotient, characters) {
        Ok(sum) => sum,
        Err(_) => return Err(InduceError::Wide(FAMILY)),
    };
    let kind = kind_of(sum, order as u16);
    let real_dim = real_dim_of(kind, dimension(tables));
    if real_dim > MAX_DIMENSION {
        return Err(InduceError::TooManyDimensions(real_dim as u32));
    }
    Ok(Judged { kind, real_dim })
}
