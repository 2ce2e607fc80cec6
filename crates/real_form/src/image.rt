// Images of complex vectors, as real ones.
ghost use Rattle.std.specs.Prelude.{◌≡◌, ◌<◌, ◌+◌, ℕ, true, IfOk, OnOk, OnErr, IsTrue, length};
ghost use Rattle.cyclo24.specs.K24.{exact24};
ghost use Rattle.cyclo24.specs.Z24.{exact_z24};
ghost use Rattle.cyclo24.specs.ExactK24.{k24, k24_laws};
ghost use Rattle.cyclo24.specs.ExactZ24.{z24, z24_laws, real_part, imag_part, is_wide_real_part, is_wide_imag_part};
ghost use Rattle.cyclo24.specs.Sums.{total};
ghost use Rattle.lin_alg.specs.Rows.{vector};
ghost use Rattle.lin_alg.specs.Matrices.{apply};
ghost use Rattle.lin_alg.specs.Matrix.{IsWideTerm, IsWideDot};
ghost use Rattle.super_group.specs.Quotient.{order_of};
ghost use Rattle.induce.specs.Tables.{dimension_in, matrix_in};
ghost use Rattle.induce.specs.InducedView.{IsInducedOf};
ghost use Rattle.real_form.specs.Parts.{orbit};
ghost use Rattle.real_form.specs.Complexes.{z24_parts};
ghost use Rattle.real_form.specs.Wide.{IsWideImage};

use cyclo24::{Field, K24, Wide, Z24};
use induce::Induced;
use lin_alg::{add_product, are_equal};
use super_group::Quotient;

// Whether the sum is 0 and the factor is 1.
fn is_entry_alone<F: Field>(sum: F, x: F) -> bool
    ensures sum { (result ≡ true) → F.value sum ≡ F.field.laws.nought }
    ensures factor { (result ≡ true) → F.value x ≡ F.field.laws.unit }
{
    if sum.is_zero() {
        return are_equal(x, F::one());
    }
    false
}

// The sum and entry (i, j) of D(q) times w[j]. A first product by 1 isn't formed.
pub(crate) fn add_term(
    quotient: &Quotient,
    induced: &Induced,
    w: &[Z24],
    q: usize,
    i: usize,
    j: usize,
    sum: Z24,
) -> Result<Z24, Wide>
    requires of { IsInducedOf quotient.now induced.now }
    requires element { q < order_of quotient.now }
    requires row { i < (dimension_in induced.now.tables) }
    requires column { j < (dimension_in induced.now.tables) }
    requires length { length w.now ≡ (dimension_in induced.now.tables) }
    ensures exact { IfOk result (λ r. exact_z24 r ≡ z24_laws.plus (exact_z24 sum) (z24_laws.times (matrix_in quotient.now induced.now.tables q i j) (vector z24_laws exact_z24 w.now j))) }
    ensures wide { OnErr result (IsWideTerm z24 (exact_z24 sum) (matrix_in quotient.now induced.now.tables q i j) (vector z24_laws exact_z24 w.now j)) }
{
    let x = w[j];
    if x.is_zero() {
        return Ok(sum);
    }
    let entry = induced.entry(quotient, q, i, j);
    if is_entry_alone(sum, x) {
        return Ok(entry);
    }
    add_product(sum, entry, x)
}

// The real part. That of 0 isn't computed.
pub(crate) fn real_of(x: Z24) -> Result<K24, Wide>
    ensures exact { IfOk result (λ r. exact24 r ≡ real_part (exact_z24 x)) }
    ensures wide { OnErr result (IsTrue (is_wide_real_part (exact_z24 x))) }
{
    if x.is_zero() {
        return Ok(K24::zero());
    }
    let part = x.real_part()?;
    Ok(part)
}

// The imaginary part. That of 0 isn't computed.
pub(crate) fn imag_of(x: Z24) -> Result<K24, Wide>
    ensures exact { IfOk result (λ r. exact24 r ≡ imag_part (exact_z24 x)) }
    ensures wide { OnErr result (IsTrue (is_wide_imag_part (exact_z24 x))) }
{
    if x.is_zero() {
        return Ok(K24::zero());
    }
    let part = x.imag_part()?;
    Ok(part)
}

// Entry i of D(q) w: a sum of products from left to right.
fn image_entry(
    quotient: &Quotient,
    induced: &Induced,
    w: &[Z24],
    q: usize,
    i: usize,
) -> Result<Z24, Wide>
    requires of { IsInducedOf quotient.now induced.now }
    requires element { q < order_of quotient.now }
    requires row { i < (dimension_in induced.now.tables) }
    requires length { length w.now ≡ (dimension_in induced.now.tables) }
    ensures exact { IfOk result (λ x. exact_z24 x ≡ apply z24_laws (dimension_in induced.now.tables) (matrix_in quotient.now induced.now.tables q) (vector z24_laws exact_z24 w.now) i) }
    ensures wide { OnErr result (IsWideDot z24 (dimension_in induced.now.tables) (matrix_in quotient.now induced.now.tables q i) (vector z24_laws exact_z24 w.now)) }
{
    let mut sum = Z24::zero();
    for j in 0..w.len() {
        sum = add_term(quotient, induced, w, q, i, j, sum)?;
    }
    Ok(sum)
}

// Entry p of D(q) w as a real vector: a real part, or behind these an imaginary part.
pub(crate) fn image_part(
    quotient: &Quotient,
    induced: &Induced,
    w: &[Z24],
    q: usize,
    p: usize,
) -> Result<K24, Wide>
    requires of { IsInducedOf quotient.now induced.now }
    requires element { q < order_of quotient.now }
    requires place { p < (dimension_in induced.now.tables) + (dimension_in induced.now.tables) }
    requires length { length w.now ≡ (dimension_in induced.now.tables) }
    ensures exact { IfOk result (λ x. exact24 x ≡ orbit z24_parts (dimension_in induced.now.tables) (matrix_in quotient.now induced.now.tables) (vector z24_laws exact_z24 w.now) q p) }
    ensures wide { OnErr result (IsWideImage (dimension_in induced.now.tables) (matrix_in quotient.now induced.now.tables) q (vector z24_laws exact_z24 w.now)) }
{
    let n = induced.dim();
    if p < n {
        let x = image_entry(quotient, induced, w, q, p)?;
        real_of(x)
    } else {
        let x = image_entry(quotient, induced, w, q, p - n)?;
        imag_of(x)
    }
}

// Writes D(q) w as a real vector.
pub(crate) fn fill_image(
    row: &mut [K24],
    quotient: &Quotient,
    induced: &Induced,
    w: &[Z24],
    q: usize,
) -> Result<(), Wide>
    requires of { IsInducedOf quotient.now induced.now }
    requires element { q < order_of quotient.now }
    requires length { length w.now ≡ (dimension_in induced.now.tables) }
    requires room { length row.old ≡ (dimension_in induced.now.tables) + (dimension_in induced.now.tables) }
    ensures exact { OnOk result (vector k24_laws exact24 row.new ≡ orbit z24_parts (dimension_in induced.now.tables) (matrix_in quotient.now induced.now.tables) (vector z24_laws exact_z24 w.now) q) }
    ensures wide { OnErr result (IsWideImage (dimension_in induced.now.tables) (matrix_in quotient.now induced.now.tables) q (vector z24_laws exact_z24 w.now)) }
{
    let n = w.len();
    for i in 0..n {
        let x = image_entry(quotient, induced, w, q, i)?;
        row[i] = real_of(x)?;
        row[n + i] = imag_of(x)?;
    }
    Ok(())
}
