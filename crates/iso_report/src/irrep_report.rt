// What `check` tells of the irreps.
ghost use Rattle.std.specs.Prelude.{◌≡◌, ◌<◌, ◌++◌, IfOk, ℤ, codes, flat_map, length, slice_index, []};
ghost use Rattle.iso_text.specs.Lines.{line};
ghost use Rattle.iso_text.specs.Ranges.{IsBlock};
ghost use Rattle.space_ops.specs.Matrix.{Vector};
ghost use Rattle.space_ops.specs.OpText.{text_of};
ghost use Rattle.kstar.specs.Fraction.{part_of, IsLowestRow};
ghost use Rattle.kstar.specs.Star.{IsStarOf};
ghost use Rattle.report_steps.specs.Fractions.{frac_text, row_text};
ghost use Rattle.report_steps.specs.Held.{facts_in, IsInducedHeld};
ghost use Rattle.report_steps.specs.Irreps.{row_of_irrep};
ghost use Rattle.report_steps.specs.IrrepReport.{irrep_head, irrep_tail, arm_line, irrep_text, kind_text};

use induce::{Induced, Kind};
use iso_text::{Frac, IrrepText, NoMemory, Text};
use kstar::{KVector, Star};
use report_steps::fraction_text;
use space_ops::{Group, Op};
use std::alloc::Global;
use super_group::Quotient;

// Three fractions, with a blank between each two.
fn fractions_text(alloc: Global, x: Frac, y: Frac, z: Frac) -> Result<Text, NoMemory>
    ensures { IfOk result (λ text. text ≡ frac_text x ++ codes " " ++ frac_text y ++ codes " " ++ frac_text z) }
{
    let mut text = fraction_text(alloc, x)?;
    text.push(b" ")?;
    text.push(fraction_text(alloc, y)?.as_slice())?;
    text.push(b" ")?;
    text.push(fraction_text(alloc, z)?.as_slice())?;
    Ok(text)
}

// Part i of a wave vector.
fn part(k: KVector, i: usize) -> Frac
    requires { i < 3 }
    ensures { result ≡ part_of k i }
{
    k.parts[i]
}

// The three fractions of a wave vector in lowest terms.
fn wave_text(alloc: Global, k: KVector) -> Result<Text, NoMemory>
    ensures { IfOk result (λ text. (row : Vector ℤ) → IsLowestRow row k → text ≡ row_text row) }
{
    let x = part(k, 0);
    let y = part(k, 1);
    let z = part(k, 2);
    fractions_text(alloc, x, y, z)
}

// The three fractions of the wave vector of an irrep.
fn irrep_wave(alloc: Global, irrep: &IrrepText) -> Result<Text, NoMemory>
    requires { IsBlock irrep.now }
    ensures { IfOk result (λ text. text ≡ row_text (row_of_irrep irrep.now)) }
{
    wave_text(alloc, KVector { parts: irrep.k })
}

// The word of a kind.
fn kind_word(kind: Kind) -> &'static [u8]
    ensures { result.now ≡ kind_text kind }
{
    match kind {
        Kind::Real => b"real",
        Kind::Complex => b"complex",
        Kind::Pseudoreal => b"pseudoreal",
    }
}

// The front of an irrep's line: its name and its wave vector.
fn irrep_head(alloc: Global, irrep: &IrrepText) -> Result<Text, NoMemory>
    requires { IsBlock irrep.now }
    ensures { IfOk result (λ text. text ≡ irrep_head irrep.now) }
{
    let mut text = Text::new(alloc);
    text.push(b"irrep ")?;
    text.push(irrep.name.as_slice())?;
    text.push(b" k ")?;
    text.push(irrep_wave(alloc, irrep)?.as_slice())?;
    Ok(text)
}

// The back of an irrep's line: its numbers and its kind.
fn irrep_tail(alloc: Global, size: u8, induced: &Induced) -> Result<Text, NoMemory>
    ensures { IfOk result (λ text. text ≡ irrep_tail size (facts_in induced.now)) }
{
    let star = induced.star();
    let mut text = Text::new(alloc);
    text.push(b" arms ")?;
    text.push_number(star.arms() as u64)?;
    text.push(b" little ")?;
    text.push_number(star.little().len() as u64)?;
    text.push(b" small ")?;
    text.push_number(u64::from(size))?;
    text.push(b" sum ")?;
    text.push(induced.rep().sum().print(alloc)?.as_slice())?;
    text.push(b" type ")?;
    text.push(kind_word(induced.kind()))?;
    text.push(b" dim ")?;
    text.push_number(induced.real_dim() as u64)?;
    text.push(b"\n")?;
    Ok(text)
}

// The line of an arm, by the text of its wave vector.
fn arm_text(alloc: Global, wave: &Text, op: Op) -> Result<Text, NoMemory>
    ensures { IfOk result (λ text. text ≡ line (codes "arm " ++ wave.now ++ codes " by " ++ text_of op) []) }
{
    let mut text = Text::new(alloc);
    text.push(b"arm ")?;
    text.push(wave.as_slice())?;
    text.push(b" by ")?;
    text.push(op.print(alloc)?.as_slice())?;
    text.push(b"\n")?;
    Ok(text)
}

// The line of arm i of the star of an irrep's wave vector.
fn arm_line(
    alloc: Global,
    group: &Group,
    irrep: &IrrepText,
    star: &Star,
    i: usize,
) -> Result<Text, NoMemory>
    requires star { IsStarOf group.now (row_of_irrep irrep.now) star.now }
    requires place { i < length star.now.by }
    ensures { IfOk result (λ text. text ≡ arm_line group.now irrep.now (slice_index star.now.by i)) }
{
    let wave = wave_text(alloc, star.arm(i))?;
    arm_text(alloc, &wave, group.op(star.by(i)))
}

// The lines of the arms of the star of an irrep's wave vector.
fn arms_text(alloc: Global, group: &Group, irrep: &IrrepText, star: &Star) -> Result<Text, NoMemory>
    requires { IsStarOf group.now (row_of_irrep irrep.now) star.now }
    ensures { IfOk result (λ text. text ≡ flat_map (arm_line group.now irrep.now) star.now.by) }
{
    let mut text = Text::new(alloc);
    for i in 0..star.arms() {
        text.push(arm_line(alloc, group, irrep, star, i)?.as_slice())?;
    }
    Ok(text)
}

/// The lines of an irrep, with its arms.
pub(crate) fn irrep_text(
    alloc: Global,
    quotient: &Quotient,
    irrep: &IrrepText,
    induced: &Induced,
) -> Result<Text, NoMemory>
    requires { IsInducedHeld quotient.now irrep.now induced.now }
    ensures { IfOk result (λ text. text ≡ irrep_text quotient.now.parent irrep.now (facts_in induced.now)) }
{
    let mut text = irrep_head(alloc, irrep)?;
    text.push(irrep_tail(alloc, irrep.size, induced)?.as_slice())?;
    text.push(arms_text(alloc, quotient.group(), irrep, induced.star())?.as_slice())?;
    Ok(text)
}
