// The lines of an orbit.
ghost use Rattle.std.specs.Prelude.{◌≡◌, ◌<◌, ◌+◌, ◌++◌, [], IfOk, OnOk, count_by, flat_map, length, slice_index_or, codes, decimal};
ghost use Rattle.std.specs.List.{enumerate_from};
ghost use Rattle.cyclo24.specs.ExactK24.{k24_laws};
ghost use Rattle.cyclo24.specs.K24.{exact24};
ghost use Rattle.cyclo24.specs.TextK24.{text24};
ghost use Rattle.iso_text.specs.Lines.{line};
ghost use Rattle.mode_project.specs.ModesView.{count_in};
ghost use Rattle.mode_report.specs.AllModes.{name_at};
ghost use Rattle.amp_report.specs.AmpsReport.{amplitude_line, orbit_text};
ghost use Rattle.amp_report.specs.Held.{HasRow, names_of, told_of};

use cyclo24::{Field, K24};
use iso_text::{IrrepText, NoMemory, Text};
use mode_project::Modes;
use std::alloc::Global;
use wyckoff::Orbit;

// The name of irrep j, nothing where there is none.
fn name_of(irreps: &[IrrepText], j: usize) -> &[u8]
    ensures { result.now ≡ name_at irreps.now j }
{
    if j < irreps.len() {
        irreps[j].name.as_slice()
    } else {
        b""
    }
}

// The name of mode m: that of its irrep, or `site`.
fn mode_name<'a>(irreps: &'a [IrrepText], found: &Modes, m: usize) -> &'a [u8]
    requires { m < count_in found.now }
    ensures { result.now ≡ slice_index_or (names_of irreps.now found.now) m [] }
{
    match found.irrep_of(m) {
        Some(j) => name_of(irreps, j),
        None => b"site",
    }
}

// The line of the amplitude of the mode with this number and name.
fn amplitude_text(alloc: Global, number: u64, name: &[u8], a: K24) -> Result<Text, NoMemory>
    ensures { IfOk result (λ text. text ≡ line (codes "amplitude " ++ decimal number ++ codes " " ++ name.now ++ codes " " ++ text24 (exact24 a)) []) }
{
    let mut text = Text::new(alloc);
    text.push(b"amplitude ")?;
    text.push_number(number)?;
    text.push(b" ")?;
    text.push(name)?;
    text.push(b" ")?;
    text.push(a.print(alloc)?.as_slice())?;
    text.push(b"\n")?;
    Ok(text)
}

// Adds the line of an amplitude that isn't 0.
fn push_amplitude(
    alloc: Global,
    text: &mut Text,
    number: u64,
    name: &[u8],
    a: K24,
) -> Result<(), NoMemory>
    ensures { OnOk result (text.new ≡ text.old ++ amplitude_line (number, (name.now, exact24 a))) }
{
    if a.is_zero() {
        return Ok(());
    }
    let line = amplitude_text(alloc, number, name, a)?;
    text.push(line.as_slice())
}

// Adds the lines of the amplitudes that aren't 0.
fn push_amplitudes(
    alloc: Global,
    text: &mut Text,
    irreps: &[IrrepText],
    orbit: &Orbit,
    found: &Modes,
    row: &[K24],
) -> Result<(), NoMemory>
    requires { HasRow found.now row.now }
    ensures { OnOk result (text.new ≡ text.old ++ flat_map amplitude_line (enumerate_from 1 (told_of irreps.now orbit.now found.now row.now).amplitudes)) }
{
    for m in 0..row.len() {
        let name = mode_name(irreps, found, m);
        push_amplitude(alloc, text, m as u64 + 1, name, row[m])?;
    }
    Ok(())
}

// How many amplitudes are 0.
fn zeros_in(row: &[K24]) -> usize
    ensures { result ≡ count_by (λ x. k24_laws.is_nought (exact24 x)) row.now }
{
    let mut zeros = 0;
    for m in 0..row.len() {
        if row[m].is_zero() {
            zeros += 1;
        }
    }
    zeros
}

// Adds the line with an orbit's number and label, and how many modes it has.
fn push_head(text: &mut Text, number: u64, label: &[u8], modes: usize) -> Result<(), NoMemory>
    ensures { OnOk result (text.new ≡ text.old ++ line (codes "orbit " ++ decimal number ++ codes " " ++ label.now ++ codes " modes " ++ decimal modes) []) }
{
    text.push(b"orbit ")?;
    text.push_number(number)?;
    text.push(b" ")?;
    text.push(label)?;
    text.push(b" modes ")?;
    text.push_number(modes as u64)?;
    text.push(b"\n")
}

// Adds the line that says how many amplitudes are 0.
fn push_zeros(text: &mut Text, zeros: usize) -> Result<(), NoMemory>
    ensures { OnOk result (text.new ≡ text.old ++ line (codes "zero " ++ decimal zeros) []) }
{
    text.push(b"zero ")?;
    text.push_number(zeros as u64)?;
    text.push(b"\n")
}

/// Adds the lines of an orbit under its number.
pub(crate) fn push_orbit(
    alloc: Global,
    text: &mut Text,
    irreps: &[IrrepText],
    number: u64,
    orbit: &Orbit,
    found: &Modes,
    row: &[K24],
) -> Result<(), NoMemory>
    requires { HasRow found.now row.now }
    ensures { OnOk result (text.new ≡ text.old ++ orbit_text (number, told_of irreps.now orbit.now found.now row.now)) }
{
    push_head(text, number, orbit.label().as_slice(), row.len())?;
    push_amplitudes(alloc, text, irreps, orbit, found, row)?;
    push_zeros(text, zeros_in(row))
}
