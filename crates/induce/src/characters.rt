// The characters of induced representations.
ghost use Rattle.std.specs.Prelude.{◌≡◌, ◌<◌, ◌+◌, ◌*◌, IfOk, OnErr, Err, IsTrue, length};
ghost use Rattle.cyclo24.specs.ExactZ24.{z24, z24_laws};
ghost use Rattle.cyclo24.specs.Sums.{total};
ghost use Rattle.cyclo24.specs.Z24.{exact_z24};
ghost use Rattle.lin_alg.specs.declared.errors.LinError.TheVariants as lin_error;
ghost use Rattle.lin_alg.specs.Matrix.{IsWideTrace};
ghost use Rattle.super_group.specs.Quotient.{order_of};
ghost use Rattle.induce.specs.Tables.{AreTablesOf, AreCharacters, size_in, matrices_in, dimension_in, matrix_in, character_in};
ghost use Rattle.induce.specs.Wide.{IsWideCharacter};

use crate::places::place_of;
use crate::tables::Tables;
use cyclo24::{Field, Wide, Z24};
use lin_alg::LinError;
use std::alloc::Global;
use super_group::Quotient;

/// The sum of two numbers; a sum with 0 isn't formed.
pub fn sum_of<F: Field>(sum: F, x: F) -> Result<F, Wide>
    ensures exact { IfOk result (λ r. F.value r ≡ F.field.laws.plus (F.value sum) (F.value x)) }
    ensures wide { OnErr result (IsTrue (F.field.is_wide_sum (F.value sum) (F.value x))) }
{
    if sum.is_zero() {
        return Ok(x);
    }
    if x.is_zero() {
        return Ok(sum);
    }
    let more = sum.add(x)?;
    Ok(more)
}

/// The sum of the diagonal of D(q) up to block i, and this block's: nothing more, unless the block
/// stays on the diagonal.
fn with_block(
    tables: &Tables,
    quotient: &Quotient,
    q: usize,
    i: usize,
    before: Z24,
) -> Result<Z24, Wide>
    requires tables { AreTablesOf quotient.now tables.now }
    requires element { q < order_of quotient.now }
    requires block { i < length tables.now.star.by }
    requires before { exact_z24 before ≡ total z24_laws (i * size_in tables.now) (λ a. matrix_in quotient.now tables.now q a a) }
    ensures exact { IfOk result (λ r. exact_z24 r ≡ total z24_laws ((i + 1) * size_in tables.now) (λ a. matrix_in quotient.now tables.now q a a)) }
    ensures wide { OnErr result (IsWideTrace z24 (dimension_in tables.now) (matrix_in quotient.now tables.now q)) }
{
    let place = place_of(tables, quotient, q, i);
    if place.row != i {
        return Ok(before);
    }
    let mut sum = before;
    for x in 0..tables.rep.size() {
        sum = sum_of(sum, tables.matrices[place.matrix].get(x, x))?;
    }
    Ok(sum)
}

/// The character of D(q): the sum of its diagonal from left to right.
fn character_of(tables: &Tables, quotient: &Quotient, q: usize) -> Result<Z24, Wide>
    requires tables { AreTablesOf quotient.now tables.now }
    requires element { q < order_of quotient.now }
    ensures exact { IfOk result (λ r. exact_z24 r ≡ character_in quotient.now tables.now q) }
    ensures wide { OnErr result (IsWideTrace z24 (dimension_in tables.now) (matrix_in quotient.now tables.now q)) }
{
    let mut sum = Z24::zero();
    for i in 0..tables.star.arms() {
        sum = with_block(tables, quotient, q, i, sum)?;
    }
    Ok(sum)
}

/// The characters of all elements.
pub fn characters(alloc: Global, tables: &Tables, quotient: &Quotient) -> Result<Vec<Z24>, LinError>
    requires { AreTablesOf quotient.now tables.now }
    ensures characters { IfOk result (λ xs. AreCharacters quotient.now tables.now xs.items (order_of quotient.now)) }
    ensures wide { result ≡ Err lin_error.Wide → IsWideCharacter quotient.now tables.now.star (size_in tables.now) (matrices_in tables.now) }
{
    let mut all: Vec<Z24> = Vec::new(alloc);
    for q in 0..quotient.order() {
        let character = match character_of(tables, quotient, q) {
            Ok(character) => character,
            Err(_) => return Err(LinError::Wide),
        };
        match all.push(character) {
            Ok(()) => {}
            Err(_) => return Err(LinError::NoMemory),
        }
    }
    Ok(all)
}
