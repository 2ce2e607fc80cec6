// The numbers that rows name, `None` where the words are none or a value is wide.
use cyclo24::{Field, K24, Wide, Z24};
use iso_text::NoMemory;
use std::alloc::Global;

fn parts_of(alloc: Global, words: &str) -> Result<Vec<i64>, NoMemory> {
    let mut parts = Vec::new(alloc);
    for word in words.split(' ') {
        match parts.push(word.parse().unwrap_or(0)) {
            Ok(()) => {}
            Err(_) => return Err(NoMemory),
        }
    }
    Ok(parts)
}

// The real part of z to this power and of z to the power 24 less it.
fn twice_cosine(power: u8) -> Result<K24, Wide> {
    let power = power % 24;
    Z24::root(power)
        .add(Z24::root((24 - power) % 24))?
        .real_part()
}

fn real_of(parts: [i64; 4], n: i64) -> Result<K24, Wide> {
    if n <= 0 {
        return Err(Wide);
    }
    let two = twice_cosine(3)?;
    let three = twice_cosine(2)?;
    let six = two.mul(three)?;
    let mut sum = K24::zero();
    for (root, part) in [K24::one(), two, three, six].iter().zip(parts) {
        sum = sum.add(root.mul(K24::ratio(part, n))?)?;
    }
    Ok(sum)
}

pub fn real(alloc: Global, words: &str) -> Result<Option<K24>, NoMemory> {
    let parts = parts_of(alloc, words)?;
    let [a, b, c, d, n] = parts.as_slice() else {
        return Ok(None);
    };
    Ok(real_of([*a, *b, *c, *d], *n).ok())
}

fn cyclotomic_of(parts: &[i64], n: i64) -> Result<Z24, Wide> {
    if n <= 0 {
        return Err(Wide);
    }
    let mut sum = Z24::zero();
    for (power, part) in (0..8u8).zip(parts) {
        let factor = Z24::from_real(K24::ratio(*part, n))?;
        sum = sum.add(Z24::root(power % 24).mul(factor)?)?;
    }
    Ok(sum)
}

pub fn cyclotomic(alloc: Global, words: &str) -> Result<Option<Z24>, NoMemory> {
    let parts = parts_of(alloc, words)?;
    let Some((n, parts)) = parts.split_last() else {
        return Ok(None);
    };
    Ok(cyclotomic_of(parts, *n).ok())
}
