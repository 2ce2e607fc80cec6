// Images of vectors that are 0 but at two places.
ghost use Rattle.std.specs.Prelude.{◌≡◌, ◌<◌, ◌+◌, ◌/◌, ℕ, IfOk, IfSome, OnOk, OnErr, length};
ghost use Rattle.cyclo24.specs.K24.{exact24};
ghost use Rattle.cyclo24.specs.Z24.{exact_z24};
ghost use Rattle.cyclo24.specs.ExactK24.{k24_laws};
ghost use Rattle.cyclo24.specs.ExactZ24.{z24, z24_laws};
ghost use Rattle.lin_alg.specs.Rows.{vector};
ghost use Rattle.lin_alg.specs.Matrices.{apply};
ghost use Rattle.lin_alg.specs.Matrix.{IsWideDot};
ghost use Rattle.super_group.specs.Quotient.{order_of};
ghost use Rattle.induce.specs.Tables.{dimension_in, matrix_in, size_in};
ghost use Rattle.induce.specs.InducedView.{IsInducedOf, star_in};
ghost use Rattle.real_form.specs.Parts.{orbit};
ghost use Rattle.real_form.specs.Complexes.{z24_parts};
ghost use Rattle.real_form.specs.Sparse.{IsSparse, products};
ghost use Rattle.real_form.specs.Wide.{IsWideImage};

use crate::image::{add_term, fill_image, imag_of, real_of};
use crate::places::Places;
use crate::product::clear;
use cyclo24::{Field, K24, Wide, Z24};
use induce::Induced;
use super_group::Quotient;

// Entry a of D(q) w, where its products are 0 but at the places: a sum of two at most.
fn sparse_entry(
    quotient: &Quotient,
    induced: &Induced,
    w: &[Z24],
    places: Places,
    q: usize,
    a: usize,
) -> Result<Z24, Wide>
    requires of { IsInducedOf quotient.now induced.now }
    requires element { q < order_of quotient.now }
    requires length { length w.now ≡ (dimension_in induced.now.tables) }
    requires sparse { IsSparse z24_laws (dimension_in induced.now.tables) (products z24_laws (matrix_in quotient.now induced.now.tables q a) (vector z24_laws exact_z24 w.now)) places.first places.last }
    requires row { a < (dimension_in induced.now.tables) }
    ensures exact { IfOk result (λ x. exact_z24 x ≡ apply z24_laws (dimension_in induced.now.tables) (matrix_in quotient.now induced.now.tables q) (vector z24_laws exact_z24 w.now) a) }
    ensures wide { OnErr result (IsWideDot z24 (dimension_in induced.now.tables) (matrix_in quotient.now induced.now.tables q a) (vector z24_laws exact_z24 w.now)) }
{
    let x = add_term(quotient, induced, w, q, a, places.first, Z24::zero())?;
    if places.first == places.last {
        return Ok(x);
    }
    add_term(quotient, induced, w, q, a, places.last, x)
}

// Writes entry a of D(q) w: its real part, and n places behind its imaginary part.
fn write_entry(
    row: &mut [K24],
    quotient: &Quotient,
    induced: &Induced,
    w: &[Z24],
    places: Places,
    q: usize,
    a: usize,
) -> Result<(), Wide>
    requires of { IsInducedOf quotient.now induced.now }
    requires element { q < order_of quotient.now }
    requires length { length w.now ≡ (dimension_in induced.now.tables) }
    requires sparse { IsSparse z24_laws (dimension_in induced.now.tables) (products z24_laws (matrix_in quotient.now induced.now.tables q a) (vector z24_laws exact_z24 w.now)) places.first places.last }
    requires row { a < (dimension_in induced.now.tables) }
    requires room { length row.old ≡ (dimension_in induced.now.tables) + (dimension_in induced.now.tables) }
    ensures first { OnOk result (vector k24_laws exact24 row.new a ≡ orbit z24_parts (dimension_in induced.now.tables) (matrix_in quotient.now induced.now.tables) (vector z24_laws exact_z24 w.now) q a) }
    ensures second { OnOk result (vector k24_laws exact24 row.new ((dimension_in induced.now.tables) + a) ≡ orbit z24_parts (dimension_in induced.now.tables) (matrix_in quotient.now induced.now.tables) (vector z24_laws exact_z24 w.now) q ((dimension_in induced.now.tables) + a)) }
    ensures kept { OnOk result ((k : ℕ) → vector k24_laws exact24 row.old k ≡ orbit z24_parts (dimension_in induced.now.tables) (matrix_in quotient.now induced.now.tables) (vector z24_laws exact_z24 w.now) q k → vector k24_laws exact24 row.new k ≡ orbit z24_parts (dimension_in induced.now.tables) (matrix_in quotient.now induced.now.tables) (vector z24_laws exact_z24 w.now) q k) }
    ensures wide { OnErr result (IsWideImage (dimension_in induced.now.tables) (matrix_in quotient.now induced.now.tables) q (vector z24_laws exact_z24 w.now)) }
{
    let x = sparse_entry(quotient, induced, w, places, q, a)?;
    row[a] = real_of(x)?;
    row[w.len() + a] = imag_of(x)?;
    Ok(())
}

// Writes the entries of D(q) w in the rows of an arm, where the products are 0 but at the places.
fn write_arm(
    row: &mut [K24],
    quotient: &Quotient,
    induced: &Induced,
    w: &[Z24],
    places: Places,
    q: usize,
    arm: usize,
) -> Result<(), Wide>
    requires of { IsInducedOf quotient.now induced.now }
    requires element { q < order_of quotient.now }
    requires length { length w.now ≡ (dimension_in induced.now.tables) }
    requires sparse { (a : ℕ) → a < (dimension_in induced.now.tables) → a / size_in induced.now.tables ≡ arm → IsSparse z24_laws (dimension_in induced.now.tables) (products z24_laws (matrix_in quotient.now induced.now.tables q a) (vector z24_laws exact_z24 w.now)) places.first places.last }
    requires arm { arm < length (star_in induced.now).by }
    requires room { length row.old ≡ (dimension_in induced.now.tables) + (dimension_in induced.now.tables) }
    ensures first { OnOk result ((k : ℕ) → k < (dimension_in induced.now.tables) → k / size_in induced.now.tables ≡ arm → vector k24_laws exact24 row.new k ≡ orbit z24_parts (dimension_in induced.now.tables) (matrix_in quotient.now induced.now.tables) (vector z24_laws exact_z24 w.now) q k) }
    ensures second { OnOk result ((k : ℕ) → k < (dimension_in induced.now.tables) → k / size_in induced.now.tables ≡ arm → vector k24_laws exact24 row.new ((dimension_in induced.now.tables) + k) ≡ orbit z24_parts (dimension_in induced.now.tables) (matrix_in quotient.now induced.now.tables) (vector z24_laws exact_z24 w.now) q ((dimension_in induced.now.tables) + k)) }
    ensures kept { OnOk result ((k : ℕ) → vector k24_laws exact24 row.old k ≡ orbit z24_parts (dimension_in induced.now.tables) (matrix_in quotient.now induced.now.tables) (vector z24_laws exact_z24 w.now) q k → vector k24_laws exact24 row.new k ≡ orbit z24_parts (dimension_in induced.now.tables) (matrix_in quotient.now induced.now.tables) (vector z24_laws exact_z24 w.now) q k) }
    ensures wide { OnErr result (IsWideImage (dimension_in induced.now.tables) (matrix_in quotient.now induced.now.tables) q (vector z24_laws exact_z24 w.now)) }
{
    let size = induced.rep().size();
    let _arms = induced.star().arms();
    for a in arm * size..(arm + 1) * size {
        write_entry(row, quotient, induced, w, places, q, a)?;
    }
    Ok(())
}

// Writes D(q) w as a real vector. Only the rows of the arms to which q moves those of the two places
// are computed, each of two arms by its own place; all others are 0.
pub(crate) fn fill_sparse(
    row: &mut [K24],
    quotient: &Quotient,
    induced: &Induced,
    w: &[Z24],
    places: Places,
    q: usize,
) -> Result<(), Wide>
    requires of { IsInducedOf quotient.now induced.now }
    requires element { q < order_of quotient.now }
    requires length { length w.now ≡ (dimension_in induced.now.tables) }
    requires sparse { IsSparse z24_laws (dimension_in induced.now.tables) (vector z24_laws exact_z24 w.now) places.first places.last }
    requires room { length row.old ≡ (dimension_in induced.now.tables) + (dimension_in induced.now.tables) }
    ensures exact { OnOk result (vector k24_laws exact24 row.new ≡ orbit z24_parts (dimension_in induced.now.tables) (matrix_in quotient.now induced.now.tables) (vector z24_laws exact_z24 w.now) q) }
    ensures wide { OnErr result (IsWideImage (dimension_in induced.now.tables) (matrix_in quotient.now induced.now.tables) q (vector z24_laws exact_z24 w.now)) }
{
    let size = induced.rep().size();
    let _arms = induced.star().arms();
    clear(row);
    let arm = induced.moved(quotient, q, places.first / size);
    let other = induced.moved(quotient, q, places.last / size);
    if other == arm {
        write_arm(row, quotient, induced, w, places, q, arm)?;
        return Ok(());
    }
    let first = Places {
        first: places.first,
        last: places.first,
    };
    write_arm(row, quotient, induced, w, first, q, arm)?;
    let last = Places {
        first: places.last,
        last: places.last,
    };
    write_arm(row, quotient, induced, w, last, q, other)?;
    Ok(())
}

// Writes D(q) w as a real vector, by the places where w isn't 0, if they are known.
pub(crate) fn form_image(
    row: &mut [K24],
    quotient: &Quotient,
    induced: &Induced,
    w: &[Z24],
    places: Option<Places>,
    q: usize,
) -> Result<(), Wide>
    requires of { IsInducedOf quotient.now induced.now }
    requires element { q < order_of quotient.now }
    requires length { length w.now ≡ (dimension_in induced.now.tables) }
    requires sparse { IfSome places (λ p. IsSparse z24_laws (dimension_in induced.now.tables) (vector z24_laws exact_z24 w.now) p.first p.last) }
    requires room { length row.old ≡ (dimension_in induced.now.tables) + (dimension_in induced.now.tables) }
    ensures exact { OnOk result (vector k24_laws exact24 row.new ≡ orbit z24_parts (dimension_in induced.now.tables) (matrix_in quotient.now induced.now.tables) (vector z24_laws exact_z24 w.now) q) }
    ensures wide { OnErr result (IsWideImage (dimension_in induced.now.tables) (matrix_in quotient.now induced.now.tables) q (vector z24_laws exact_z24 w.now)) }
{
    match places {
        Some(places) => fill_sparse(row, quotient, induced, w, places, q),
        None => fill_image(row, quotient, induced, w, q),
    }
}
