// The scale of weights: their projection is idempotent but for this factor.
ghost use Rattle.std.specs.Prelude.{◌≡◌, ◌<◌, ◌⊎◌, ℕ, true, false, IfOk, IfSome, length, slice_index_or};
ghost use Rattle.lin_alg.specs.Matrices.{IsClassFunction, convolution};
ghost use Rattle.lin_alg.specs.Rows.{vector};
ghost use Rattle.mode_project.specs.AtomSpace.{IsAtomSpace};
ghost use Rattle.mode_project.specs.Turns.{IsOrbitIn, AreWays};
ghost use Rattle.mode_project.specs.Scaled.{conjugate_of, IsScaledAt, IsScale};

use crate::space::OfSpace;
use cyclo24::{Field, Wide};
use iso_text::NoMemory;
use lin_alg::add_product;
use std::alloc::Global;
use wyckoff::Orbit;

// The product of two elements, by what they do with the first atom.
fn product<S: OfSpace>(orbit: &Orbit, ways: &[(usize, usize)], a: usize, b: usize) -> usize
    requires laws { IsAtomSpace S.space }
    requires orbit { IsOrbitIn S.space orbit.now }
    requires ways { AreWays S.space ways.now S.space.atoms }
    requires free { S.space.atoms ≡ S.space.group.order }
    requires left { a < S.space.group.order }
    requires right { b < S.space.group.order }
    ensures { result ≡ S.space.group.product a b }
{
    ways[orbit.image(a, orbit.image(b, 0))].0
}

// The inverse of an element, by what it does with the first atom.
fn inverse<S: OfSpace>(orbit: &Orbit, ways: &[(usize, usize)], a: usize) -> usize
    requires laws { IsAtomSpace S.space }
    requires orbit { IsOrbitIn S.space orbit.now }
    requires ways { AreWays S.space ways.now S.space.atoms }
    requires free { S.space.atoms ≡ S.space.group.order }
    requires element { a < S.space.group.order }
    ensures { result ≡ S.space.group.inverse a }
{
    ways[orbit.image(a, 0)].1
}

// a q a^-1.
fn conjugate<S: OfSpace>(orbit: &Orbit, ways: &[(usize, usize)], a: usize, q: usize) -> usize
    requires laws { IsAtomSpace S.space }
    requires orbit { IsOrbitIn S.space orbit.now }
    requires ways { AreWays S.space ways.now S.space.atoms }
    requires free { S.space.atoms ≡ S.space.group.order }
    requires by { a < S.space.group.order }
    requires element { q < S.space.group.order }
    ensures { result ≡ conjugate_of S.space.group a q }
{
    let back = inverse::<S>(orbit, ways, a);
    product::<S>(orbit, ways, product::<S>(orbit, ways, a, q), back)
}

// The sum and the term of element a in the convolution of the weights with themselves at element q.
fn add_term<S: OfSpace, F: Field>(
    sum: F,
    orbit: &Orbit,
    ways: &[(usize, usize)],
    weights: &[F],
    q: usize,
    a: usize,
) -> Result<F, Wide>
    requires laws { IsAtomSpace S.space }
    requires orbit { IsOrbitIn S.space orbit.now }
    requires ways { AreWays S.space ways.now S.space.atoms }
    requires free { S.space.atoms ≡ S.space.group.order }
    requires weights { length weights.now ≡ S.space.group.order }
    requires element { q < S.space.group.order }
    requires term { a < S.space.group.order }
    ensures { IfOk result (λ x. F.value x ≡ F.field.laws.plus (F.value sum) (F.field.laws.times (vector F.field.laws F.value weights.now a) (vector F.field.laws F.value weights.now (S.space.group.product (S.space.group.inverse a) q)))) }
{
    if weights[a].is_zero() {
        return Ok(sum);
    }
    let other = product::<S>(orbit, ways, inverse::<S>(orbit, ways, a), q);
    add_product(sum, weights[a], weights[other])
}

// The convolution of the weights with themselves, at element q.
fn squared<S: OfSpace, F: Field>(
    orbit: &Orbit,
    ways: &[(usize, usize)],
    weights: &[F],
    q: usize,
) -> Result<F, Wide>
    requires laws { IsAtomSpace S.space }
    requires orbit { IsOrbitIn S.space orbit.now }
    requires ways { AreWays S.space ways.now S.space.atoms }
    requires free { S.space.atoms ≡ S.space.group.order }
    requires weights { length weights.now ≡ S.space.group.order }
    requires element { q < S.space.group.order }
    ensures { IfOk result (λ x. F.value x ≡ convolution F.field.laws S.space.group (vector F.field.laws F.value weights.now) (vector F.field.laws F.value weights.now) q) }
{
    let mut sum = F::zero();
    for a in 0..weights.len() {
        sum = add_term::<S, F>(sum, orbit, ways, weights, q, a)?;
    }
    Ok(sum)
}

// Whether two numbers are seen to be equal: their difference isn't too wide, and 0.
pub(crate) fn are_equal<F: Field>(x: F, y: F) -> bool
    ensures { (result ≡ true) → F.value x ≡ F.value y }
{
    match x.sub(y) {
        Ok(rest) => rest.is_zero(),
        Err(_) => false,
    }
}

// Whether the convolution at q is seen to be the scale times the weight.
fn is_scaled<S: OfSpace, F: Field>(
    orbit: &Orbit,
    ways: &[(usize, usize)],
    weights: &[F],
    scale: F,
    q: usize,
) -> bool
    requires laws { IsAtomSpace S.space }
    requires orbit { IsOrbitIn S.space orbit.now }
    requires ways { AreWays S.space ways.now S.space.atoms }
    requires free { S.space.atoms ≡ S.space.group.order }
    requires weights { length weights.now ≡ S.space.group.order }
    requires element { q < S.space.group.order }
    ensures { (result ≡ true) → IsScaledAt F.field.laws S.space.group (vector F.field.laws F.value weights.now) (F.value scale) q }
{
    let sum = match squared::<S, F>(orbit, ways, weights, q) {
        Ok(sum) => sum,
        Err(_) => return false,
    };
    match scale.mul(weights[q]) {
        Ok(wanted) => are_equal(sum, wanted),
        Err(_) => false,
    }
}

// No marks.
fn marks(alloc: Global, len: usize) -> Result<Vec<bool>, NoMemory>
    ensures len { IfOk result (λ v. length v.items ≡ len) }
    ensures none { IfOk result (λ v. (i : ℕ) → slice_index_or v.items i false ≡ true → ⊥) }
{
    let mut done = Vec::new(alloc);
    match done.resize(len, false) {
        Ok(()) => Ok(done),
        Err(_) => Err(NoMemory),
    }
}

// Marks the conjugates of q.
fn mark_class<S: OfSpace>(done: &mut [bool], orbit: &Orbit, ways: &[(usize, usize)], q: usize)
    requires laws { IsAtomSpace S.space }
    requires orbit { IsOrbitIn S.space orbit.now }
    requires ways { AreWays S.space ways.now S.space.atoms }
    requires free { S.space.atoms ≡ S.space.group.order }
    requires count { length done.old ≡ S.space.group.order }
    requires element { q < S.space.group.order }
    ensures { (p : ℕ) → slice_index_or done.new p false ≡ true → (slice_index_or done.old p false ≡ true) ⊎ ((a : ℕ) × (a < S.space.group.order) × (p ≡ conjugate_of S.space.group a q)) }
{
    for a in 0..done.len() {
        let p = conjugate::<S>(orbit, ways, a, q);
        done[p] = true;
    }
}

// Whether the class of q is seen to be scaled, or was before. Then it is marked.
fn is_class_scaled<S: OfSpace, F: Field>(
    done: &mut [bool],
    orbit: &Orbit,
    ways: &[(usize, usize)],
    weights: &[F],
    scale: F,
    q: usize,
) -> bool
    requires laws { IsAtomSpace S.space }
    requires orbit { IsOrbitIn S.space orbit.now }
    requires ways { AreWays S.space ways.now S.space.atoms }
    requires free { S.space.atoms ≡ S.space.group.order }
    requires weights { length weights.now ≡ S.space.group.order }
    requires class { IsClassFunction S.space.group (vector F.field.laws F.value weights.now) }
    requires count { length done.old ≡ S.space.group.order }
    requires element { q < S.space.group.order }
    requires known { (p : ℕ) → slice_index_or done.old p false ≡ true → IsScaledAt F.field.laws S.space.group (vector F.field.laws F.value weights.now) (F.value scale) p }
    ensures known { (p : ℕ) → slice_index_or done.new p false ≡ true → IsScaledAt F.field.laws S.space.group (vector F.field.laws F.value weights.now) (F.value scale) p }
    ensures own { (result ≡ true) → IsScaledAt F.field.laws S.space.group (vector F.field.laws F.value weights.now) (F.value scale) q }
{
    if done[q] {
        return true;
    }
    if !is_scaled::<S, F>(orbit, ways, weights, scale, q) {
        return false;
    }
    mark_class::<S>(done, orbit, ways, q);
    true
}

// Whether each class is seen to be scaled.
fn are_scaled<S: OfSpace, F: Field>(
    done: &mut [bool],
    orbit: &Orbit,
    ways: &[(usize, usize)],
    weights: &[F],
    scale: F,
) -> bool
    requires laws { IsAtomSpace S.space }
    requires orbit { IsOrbitIn S.space orbit.now }
    requires ways { AreWays S.space ways.now S.space.atoms }
    requires free { S.space.atoms ≡ S.space.group.order }
    requires weights { length weights.now ≡ S.space.group.order }
    requires class { IsClassFunction S.space.group (vector F.field.laws F.value weights.now) }
    requires count { length done.old ≡ S.space.group.order }
    requires known { (p : ℕ) → slice_index_or done.old p false ≡ true → IsScaledAt F.field.laws S.space.group (vector F.field.laws F.value weights.now) (F.value scale) p }
    ensures { (result ≡ true) → (q : ℕ) → q < S.space.group.order → IsScaledAt F.field.laws S.space.group (vector F.field.laws F.value weights.now) (F.value scale) q }
{
    for q in 0..weights.len() {
        if !is_class_scaled::<S, F>(done, orbit, ways, weights, scale, q) {
            return false;
        }
    }
    true
}

// What the convolution at the identity is of the weight, where that isn't 0.
fn first_scale<S: OfSpace, F: Field>(
    orbit: &Orbit,
    ways: &[(usize, usize)],
    weights: &[F],
) -> Option<F>
    requires laws { IsAtomSpace S.space }
    requires orbit { IsOrbitIn S.space orbit.now }
    requires ways { AreWays S.space ways.now S.space.atoms }
    requires free { S.space.atoms ≡ S.space.group.order }
    requires weights { length weights.now ≡ S.space.group.order }
    ensures { IfSome result (λ x. F.field.laws.is_nought (F.value x) ≡ false) }
{
    let sum = match squared::<S, F>(orbit, ways, weights, 0) {
        Ok(sum) => sum,
        Err(_) => return None,
    };
    if weights[0].is_zero() {
        return None;
    }
    let inverse = match weights[0].inv() {
        Ok(inverse) => inverse,
        Err(_) => return None,
    };
    let scale = match sum.mul(inverse) {
        Ok(scale) => scale,
        Err(_) => return None,
    };
    if scale.is_zero() {
        return None;
    }
    Some(scale)
}

// The scale of the weights. None where it isn't seen: there is none, a number is too wide, or want of
// memory.
pub(crate) fn scale_of<S: OfSpace, F: Field>(
    alloc: Global,
    orbit: &Orbit,
    ways: &[(usize, usize)],
    weights: &[F],
) -> Option<F>
    requires laws { IsAtomSpace S.space }
    requires orbit { IsOrbitIn S.space orbit.now }
    requires ways { AreWays S.space ways.now S.space.atoms }
    requires free { S.space.atoms ≡ S.space.group.order }
    requires weights { length weights.now ≡ S.space.group.order }
    requires class { IsClassFunction S.space.group (vector F.field.laws F.value weights.now) }
    ensures { IfSome result (λ x. IsScale F.field.laws S.space.group (vector F.field.laws F.value weights.now) (F.value x)) }
{
    let scale = match first_scale::<S, F>(orbit, ways, weights) {
        Some(scale) => scale,
        None => return None,
    };
    let mut done = match marks(alloc, weights.len()) {
        Ok(done) => done,
        Err(_) => return None,
    };
    if are_scaled::<S, F>(&mut done, orbit, ways, weights, scale) {
        return Some(scale);
    }
    None
}
