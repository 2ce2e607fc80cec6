// The amounts that lines give to the atoms that they name.
ghost use Rattle.std.specs.Prelude.{◌≡◌, ℕ, ◌<◌, ◌≤◌, ◌+◌, IfOk, IfErr, [], length, map, slice_index_or};
ghost use Rattle.std.specs.List.{All};
ghost use Rattle.iso_text.specs.Ranges.{IsSite};
ghost use Rattle.iso_text.specs.declared.sections.AxialText.{AxialText};
ghost use Rattle.iso_text.specs.declared.sections.ValueText.{ValueText};
ghost use Rattle.space_ops.specs.Op.{IsShiftWithin};
ghost use Rattle.extra_modes.specs.declared.amount_lines.AmountLine.{AmountLine};
ghost use Rattle.extra_modes.specs.Amounts.{labelled, AreOrbits, naming_of, AreAmounts, IsGatherCause, value_line, axial_line};
ghost use Rattle.extra_modes.specs.GatherParts.{AreApart, AreNamed, no_numbers, set_numbers, AreGiven};

use crate::amount_lines::{AmountLine, amount_lines};
use crate::amounts::{Amounts, OrbitAmounts};
use crate::errors::ExtraError;
use crate::named_atoms::{AtomNumber, named_atoms};
use iso_text::{AxialText, NoMemory, ValueText};
use std::alloc::Global;
use super_group::Quotient;
use wyckoff::{Orbits, law_of_images};

// Nothing for each atom of these orbits.
fn no_amounts(alloc: Global, orbits: &Orbits) -> Result<Vec<OrbitAmounts>, NoMemory>
    ensures { IfOk result (λ rows. rows.items ≡ no_numbers orbits.now) }
{
    let mut rows = Vec::new(alloc);
    for o in 0..orbits.len() {
        let row = OrbitAmounts::new(alloc, orbits.get(o))?;
        match rows.push(row) {
            Ok(()) => {}
            Err(_) => return Err(NoMemory),
        }
    }
    Ok(rows)
}

// Gives numbers to an atom.
fn give(rows: &mut Vec<OrbitAmounts>, to: AtomNumber, numbers: [i64; 3])
    requires orbit { to.orbit < length rows.old.items }
    requires atom { to.atom < length (slice_index_or rows.old.items to.orbit []) }
    ensures { rows.new.items ≡ set_numbers rows.old.items to.orbit to.atom numbers }
{
    rows[to.orbit].set(to.atom, numbers);
}

// Gives the numbers of each line to the atom that it names.
fn give_all(
    rows: &mut Vec<OrbitAmounts>,
    d: [u32; 3],
    orbits: &Orbits,
    lines: &[AmountLine],
    atoms: &[AtomNumber],
)
    requires apart { AreApart d (map labelled orbits.now) }
    requires named { AreNamed (record { d = d; orbits = map labelled orbits.now; lines = lines.now }) (length lines.now) atoms.now }
    requires given { AreGiven (record { d = d; orbits = map labelled orbits.now; lines = lines.now }) 0 rows.old.items }
    ensures { AreGiven (record { d = d; orbits = map labelled orbits.now; lines = lines.now }) (length lines.now) rows.new.items }
{
    for n in 0..lines.len() {
        give(rows, atoms[n], lines[n].numbers);
    }
}

// The amounts that lines give, so many numbers an atom.
fn gather(
    alloc: Global,
    quotient: &Quotient,
    orbits: &Orbits,
    each: usize,
    lines: &[AmountLine],
) -> Result<Amounts, ExtraError>
    requires orbits { AreOrbits quotient.now orbits.now }
    requires each { each ≤ 3 }
    requires near { All (λ (l : AmountLine). IsShiftWithin 1200000000 l.place) lines.now }
    ensures amounts { IfOk result (AreAmounts (naming_of quotient.now orbits.now lines.now) each) }
    ensures cause { IfErr result (IsGatherCause (naming_of quotient.now orbits.now lines.now)) }
{
    let _ = quotient.order();
    let d = quotient.d();
    let atoms = match named_atoms(alloc, d, orbits, lines) {
        Ok(atoms) => atoms,
        Err(error) => return Err(error),
    };
    let mut rows = match no_amounts(alloc, orbits) {
        Ok(rows) => rows,
        Err(_) => return Err(ExtraError::NoMemory),
    };
    give_all(&mut rows, d, orbits, lines, &atoms);
    Ok(Amounts::from_vec(each, rows))
}

/// The occupations that `value` lines give. A line names the atom of the supercell that has its label
/// and whose place differs from its own by a translation of the supercell. An atom that no line names
/// has 0. The lines are judged in order: whether one names no atom, then whether an earlier line names
/// the same atom. Condition: the orbits are those of accepted atom lines under the quotient; the lines
/// are in the ranges of the file grammar.
pub fn gather_values(
    alloc: Global,
    quotient: &Quotient,
    orbits: &Orbits,
    lines: &[ValueText],
) -> Result<Amounts, ExtraError>
    requires orbits { AreOrbits quotient.now orbits.now }
    requires lines { All (λ (v : ValueText). IsSite v.label v.place) lines.now }
    ensures amounts { IfOk result (AreAmounts (naming_of quotient.now orbits.now (map value_line lines.now)) 1) }
    ensures cause { IfErr result (IsGatherCause (naming_of quotient.now orbits.now (map value_line lines.now))) }
{
    match amount_lines(alloc, lines) {
        Ok(lines) => gather(alloc, quotient, orbits, 1, &lines),
        Err(_) => Err(ExtraError::NoMemory),
    }
}

/// The axial vectors that `axial` lines give, in the same way.
pub fn gather_axials(
    alloc: Global,
    quotient: &Quotient,
    orbits: &Orbits,
    lines: &[AxialText],
) -> Result<Amounts, ExtraError>
    requires orbits { AreOrbits quotient.now orbits.now }
    requires lines { All (λ (v : AxialText). IsSite v.label v.place) lines.now }
    ensures amounts { IfOk result (AreAmounts (naming_of quotient.now orbits.now (map axial_line lines.now)) 3) }
    ensures cause { IfErr result (IsGatherCause (naming_of quotient.now orbits.now (map axial_line lines.now))) }
{
    match amount_lines(alloc, lines) {
        Ok(lines) => gather(alloc, quotient, orbits, 3, &lines),
        Err(_) => Err(ExtraError::NoMemory),
    }
}
