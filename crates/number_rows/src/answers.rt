// The answers to a row, a line each.
use cyclo24::{Field, K24, Wide, Z24};
use iso_text::{NoMemory, Text};
use std::alloc::Global;

const NAMES: [&[u8]; 4] = [b"x+y", b"x-y", b"xy", b"1/x"];

// x + y, x - y, x y and 1 / x.
fn sums<F: Field>(x: F, y: F) -> Result<[F; 4], Wide> {
    if x.is_zero() {
        return Err(Wide);
    }
    Ok([x.add(y)?, x.sub(y)?, x.mul(y)?, x.inv()?])
}

fn push_line(text: &mut Text, name: &[u8], value: &Text) -> Result<(), NoMemory> {
    text.push(b"  ")?;
    text.push(name)?;
    text.push(b" ")?;
    text.push(value.as_slice())?;
    text.push(b"\n")
}

pub fn push_real(alloc: Global, text: &mut Text, name: &[u8], x: K24) -> Result<(), NoMemory> {
    push_line(text, name, &x.print(alloc)?)
}

pub fn push_real_answers(alloc: Global, text: &mut Text, x: K24, y: K24) -> Result<(), NoMemory> {
    let Ok(values) = sums(x, y) else {
        return text.push(b"  wide\n");
    };
    for (name, value) in NAMES.iter().zip(values) {
        push_real(alloc, text, name, value)?;
    }
    Ok(())
}

// The conjugate, and the real and the imaginary part.
fn parts(x: Z24) -> Result<(Z24, K24, K24), Wide> {
    Ok((x.conj()?, x.real_part()?, x.imag_part()?))
}

pub fn push_cyclotomic_answers(
    alloc: Global,
    text: &mut Text,
    x: Z24,
    y: Z24,
) -> Result<(), NoMemory> {
    let (Ok(values), Ok((conjugate, real, imaginary))) = (sums(x, y), parts(x)) else {
        return text.push(b"  wide\n");
    };
    for (name, value) in NAMES.iter().zip(values) {
        push_line(text, name, &value.print(alloc)?)?;
    }
    push_line(text, b"conjugate", &conjugate.print(alloc)?)?;
    push_real(alloc, text, b"real part", real)?;
    push_real(alloc, text, b"imaginary part", imaginary)
}
