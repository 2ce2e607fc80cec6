//! Sums, products and inverses of two fixed values, over and over: `bench/fields.sh` counts their
//! instructions. The words are the field, the kind of the values, the call and how often it is made.
#![tactic(auto)]

use cyclo24::{Field, K24, Wide, Z24};
use std::alloc::Global;
use std::process::ExitCode;

// The call that is counted.
#[derive(Clone, Copy)]
enum Call {
    Nothing,
    Sum,
    Difference,
    Product,
    Inverse,
}

fn call_named(word: &str) -> Call {
    match word {
        "sum" => Call::Sum,
        "difference" => Call::Difference,
        "product" => Call::Product,
        "inverse" => Call::Inverse,
        _ => Call::Nothing,
    }
}

fn called<F: Field>(call: Call, x: F, y: F) -> Result<F, Wide> {
    match call {
        Call::Nothing => Ok(x),
        Call::Sum => x.add(y),
        Call::Difference => x.sub(y),
        Call::Product => x.mul(y),
        Call::Inverse => { if x.is_zero() { Ok(x) } else { x.inv() } }
    }
}

// How many of the results are 0.
fn zeros<F: Field>(call: Call, values: &[F; 2], count: u32) -> Result<u32, Wide> {
    let mut zeros = 0u32;
    for i in 0..count {
        let x = values[(i % 2) as usize];
        let y = values[(1 - i % 2) as usize];
        if called(call, x, y)?.is_zero() {
            zeros = zeros.wrapping_add(1);
        }
    }
    Ok(zeros)
}

// The sum of n x over d for these numbers n, where x goes through these units.
fn sum_over<F: Field>(numerators: &[F], units: &[F], d: F) -> Result<F, Wide> {
    let mut sum = F::zero();
    for (n, x) in numerators.iter().zip(units) {
        sum = sum.add(n.mul(*x)?)?;
    }
    if d.is_zero() {
        Ok(sum)
    } else {
        sum.mul(d.inv()?)
    }
}

// 1, r2, r3 and r6.
fn real_units() -> Result<[K24; 4], Wide> {
    let two = Z24::root(3).add(Z24::root(21))?.real_part()?;
    let three = Z24::root(2).add(Z24::root(22))?.real_part()?;
    Ok([K24::one(), two, three, two.mul(three)?])
}

fn real(numerators: [i64; 4], d: i64) -> Result<K24, Wide> {
    let [a0, a1, a2, a3] = numerators;
    let numbers = [
        K24::ratio(a0, 1),
        K24::ratio(a1, 1),
        K24::ratio(a2, 1),
        K24::ratio(a3, 1),
    ];
    sum_over(&numbers, &real_units()?, K24::ratio(d, 1))
}

// Two values of Q(sqrt 2, sqrt 3).
fn reals(kind: &str) -> Result<[K24; 2], Wide> {
    match kind {
        "rational" => Ok([K24::ratio(-1, 1), K24::ratio(3, 1)]),
        "halves" => Ok([K24::ratio(1, 2), K24::ratio(-3, 4)]),
        "whole" => Ok([real([120, -7, 911, 3], 1)?, real([5, 16, -999, 41], 1)?]),
        "fractions" => Ok([real([120, -7, 911, 3], 12)?, real([5, 16, -999, 41], 8)?]),
        _ => Ok([
            real([1 << 60, -(1 << 59), 1 << 58, (1 << 60) - 1], 1)?,
            real([(1 << 60) - 7, 1 << 57, (1 << 60) + 5, -(1 << 60)], 1)?,
        ]),
    }
}

// 1, z, .., z^7.
fn complex_units() -> [Z24; 8] {
    [
        Z24::root(0),
        Z24::root(1),
        Z24::root(2),
        Z24::root(3),
        Z24::root(4),
        Z24::root(5),
        Z24::root(6),
        Z24::root(7),
    ]
}

fn complex_number(n: i64) -> Result<Z24, Wide> {
    Z24::from_real(K24::ratio(n, 1))
}

fn complex(numerators: &[i64; 8], d: i64) -> Result<Z24, Wide> {
    let mut numbers = [Z24::zero(); 8];
    for i in 0..8 {
        numbers[i] = complex_number(numerators[i])?;
    }
    sum_over(&numbers, &complex_units(), complex_number(d)?)
}

// Two values of the cyclotomic field.
fn complexes(kind: &str) -> Result<[Z24; 2], Wide> {
    let first = [7, -3, 900, 11, 5, -8, 1, 2];
    let second = [5, 31, -9, 17, 2, 999, 4, -6];
    match kind {
        "rational" => Ok([complex_number(-1)?, complex_number(3)?]),
        "halves" => Ok([
            Z24::from_real(K24::ratio(1, 2))?,
            Z24::from_real(K24::ratio(-3, 4))?,
        ]),
        "roots" => Ok([Z24::root(7), Z24::root(18)]),
        "whole" => Ok([complex(&first, 1)?, complex(&second, 1)?]),
        _ => Ok([complex(&first, 12)?, complex(&second, 8)?]),
    }
}

fn counted(words: &[String]) -> Result<u32, Wide> {
    // the program's own name stands first
    if words.len() < 5 {
        return Ok(0);
    }
    let call = call_named(words[3].as_str());
    let count = words[4].as_str().parse::<u32>().unwrap_or(0);
    if words[1].as_str() == "K24" {
        zeros(call, &reals(words[2].as_str())?, count)
    } else {
        zeros(call, &complexes(words[2].as_str())?, count)
    }
}

fn code(rt: &HostRuntime, alloc: Global) -> u8 {
    let Ok(args) = std::env::args(rt) else {
        return 2;
    };
    let Ok(words) = args.collect::<Vec<String>>(alloc) else {
        return 2;
    };
    match counted(&words) {
        Ok(0) => 0,
        _ => 1,
    }
}

fn main(rt: HostRuntime) -> ExitCode {
    let alloc = rt.alloc();
    ExitCode::from(code(&rt, alloc))
}
