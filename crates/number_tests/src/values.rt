// Values of both fields, and their texts.
use cyclo24::{Field, K24, Wide, Z24};
use std::alloc::Global;

/// The square roots of 2, 3 and 6, which are twice a cosine or a product of two.
pub fn square_roots() -> Result<[K24; 3], Wide> {
    let two = Z24::root(3).add(Z24::root(21))?.real_part()?;
    let three = Z24::root(2).add(Z24::root(22))?.real_part()?;
    Ok([two, three, two.mul(three)?])
}

/// (a + b r2 + c r3 + d r6) times a value.
pub fn number(parts: [i64; 4], factor: K24) -> Result<K24, Wide> {
    let [two, three, six] = square_roots()?;
    let mut sum = K24::zero();
    for (root, part) in [K24::one(), two, three, six].iter().zip(parts) {
        sum = sum.add(root.mul(K24::ratio(part, 1))?)?;
    }
    sum.mul(factor)
}

pub fn has_real_text(alloc: Global, x: K24, want: &str) -> bool {
    match x.print(alloc) {
        Ok(text) => text.as_slice() == want.as_bytes(),
        Err(_) => false,
    }
}

pub fn has_text(alloc: Global, x: Z24, want: &str) -> bool {
    match x.print(alloc) {
        Ok(text) => text.as_slice() == want.as_bytes(),
        Err(_) => false,
    }
}
