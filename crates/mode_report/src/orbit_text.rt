// The lines of an orbit in front of its modes.
ghost use Rattle.std.specs.Prelude.{◌≡◌, ◌++◌, [], IfOk, OnOk, length, codes, decimal};
ghost use Rattle.iso_text.specs.Lines.{line};
ghost use Rattle.mode_report.specs.ModesReport.{place_lines};
ghost use Rattle.mode_report.specs.Told.{counts_text, count_text};

use crate::place_text::push_places;
use iso_text::{NoMemory, Text};
use std::alloc::Global;
use wyckoff::Orbit;

/// How many modes of an orbit belong to irreps, and how many to none.
pub fn counts_text(alloc: Global, irrep: usize, site: usize) -> Result<Text, NoMemory>
    ensures { IfOk result (λ text. text ≡ counts_text irrep site) }
{
    let mut text = Text::new(alloc);
    text.push(b" irrep ")?;
    text.push_number(irrep as u64)?;
    text.push(b" site ")?;
    text.push_number(site as u64)?;
    Ok(text)
}

/// How many modes of an orbit belong to a direction.
pub fn count_text(alloc: Global, modes: usize) -> Result<Text, NoMemory>
    ensures { IfOk result (λ text. text ≡ count_text modes) }
{
    let mut text = Text::new(alloc);
    text.push(b" modes ")?;
    text.push_number(modes as u64)?;
    Ok(text)
}

/// Adds the line with an orbit's number and label, how many atoms it has, and the words of its
/// counts.
pub fn push_orbit_head(
    text: &mut Text,
    number: u64,
    label: &[u8],
    atoms: usize,
    counts: &Text,
) -> Result<(), NoMemory>
    ensures { OnOk result (text.new ≡ text.old ++ line (codes "orbit " ++ decimal number ++ codes " " ++ label.now ++ codes " atoms " ++ decimal atoms ++ counts.now) []) }
{
    text.push(b"orbit ")?;
    text.push_number(number)?;
    text.push(b" ")?;
    text.push(label)?;
    text.push(b" atoms ")?;
    text.push_number(atoms as u64)?;
    text.push(counts.as_slice())?;
    text.push(b"\n")
}

/// Adds the line of an orbit and those of its places.
pub fn push_orbit_front(
    alloc: Global,
    text: &mut Text,
    number: u64,
    orbit: &Orbit,
    counts: &Text,
) -> Result<(), NoMemory>
    ensures { OnOk result (text.new ≡ text.old ++ (line (codes "orbit " ++ decimal number ++ codes " " ++ orbit.now.label ++ codes " atoms " ++ decimal (length orbit.now.places) ++ counts.now) [] ++ place_lines orbit.now.places)) }
{
    push_orbit_head(
        text,
        number,
        orbit.label().as_slice(),
        orbit.atoms(),
        counts,
    )?;
    push_places(alloc, text, orbit)
}
