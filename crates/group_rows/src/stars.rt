// Wave vectors and their stars.
ghost use Rattle.std.specs.Prelude.{◌≡◌};

use crate::groups::group_of;
use crate::words::{fractions, push_fraction, push_numbers};
use iso_text::{NoMemory, Text};
use kstar::{KVector, Star, StarError};
use space_ops::Group;
use std::alloc::Global;

/// What is asked of a star.
#[derive(Clone, Copy)]
pub enum StarAsk {
    Sizes,
    Arms,
    Power([i32; 3]),
}

pub fn push_vector(text: &mut Text, k: &str) -> Result<(), NoMemory> {
    let k = KVector {
        parts: fractions(k),
    };
    if k.is_wave_vector() {
        text.push(b"  yes\n")
    } else {
        text.push(b"  no\n")
    }
}

fn push_sizes(text: &mut Text, star: &Star) -> Result<(), NoMemory> {
    text.push(b"  arms")?;
    push_numbers(text, &[star.arms()])?;
    text.push(b" little")?;
    push_numbers(text, &[star.little().len()])?;
    text.push(b"\n")
}

fn push_arms(alloc: Global, text: &mut Text, group: &Group, star: &Star) -> Result<(), NoMemory> {
    text.push(b"  little")?;
    push_numbers(text, star.little())?;
    text.push(b"\n")?;
    for i in 0..star.arms() {
        push_arm(text, star.arm(i))?;
        let by = star.by(i);
        if by < group.len() {
            text.push(group.op(by).print(alloc)?.as_slice())?;
        }
        text.push(b"\n")?;
    }
    Ok(())
}

fn push_arm(text: &mut Text, k: KVector) -> Result<(), NoMemory> {
    text.push(b"  arm ")?;
    for part in k.parts {
        push_fraction(text, part)?;
        text.push(b" ")?;
    }
    text.push(b"by ")
}

fn push_power(text: &mut Text, group: &Group, star: &Star, t: [i32; 3]) -> Result<(), NoMemory>
    requires { star.now.lattice ≡ group.now.lattice }
{
    if !group.lattice().contains(t) {
        return text.push(b"  no translation\n");
    }
    text.push(b" ")?;
    push_numbers(text, &[usize::from(star.power(t))])?;
    text.push(b"\n")
}

pub fn push_star(
    alloc: Global,
    text: &mut Text,
    symbol: &str,
    k: &str,
    ask: StarAsk,
) -> Result<(), NoMemory> {
    let Some(group) = group_of(alloc, symbol)? else {
        return text.push(b"  no group\n");
    };
    let k = KVector {
        parts: fractions(k),
    };
    if !k.is_wave_vector() {
        return text.push(b"  no wave vector\n");
    }
    match Star::new(alloc, &group, k) {
        Ok(star) => match ask {
            StarAsk::Sizes => push_sizes(text, &star),
            StarAsk::Arms => push_arms(alloc, text, &group, &star),
            StarAsk::Power(t) => push_power(text, &group, &star, t),
        },
        Err(StarError::BadPhase(phase)) => {
            text.push(b"  bad phase ")?;
            push_fraction(text, phase)?;
            text.push(b"\n")
        }
        Err(StarError::NoMemory) => Err(NoMemory),
    }
}
