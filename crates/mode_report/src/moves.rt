// The moves of the atoms in a mode.
ghost use Rattle.std.specs.Prelude.{◌≡◌, ◌<◌, ◌*◌, ◌++◌, ℕ, OnOk, IfOk, length};
ghost use Rattle.cyclo24.specs.ExactK24.{k24_laws};
ghost use Rattle.cyclo24.specs.K24.{exact24};
ghost use Rattle.lin_alg.specs.Equations.{unit_vector};
ghost use Rattle.lin_alg.specs.Rows.{vector};
ghost use Rattle.mode_report.specs.ModesReport.{move_lines, number_lines, each_of, moves_by};
ghost use Rattle.mode_report.specs.MoveParts.{are_nought, step_line, step_lines, unit_text, unit_line, entry_line, entry_lines};

use cyclo24::{Field, K24};
use iso_text::{NoMemory, Text};
use std::alloc::Global;

/// How many numbers an atom has in a mode: one, or three along the cell edges.
#[derive(Clone, Copy, Debug, PartialEq, Eq)]
pub enum AtomEntries {
    One,
    Three,
}

// The line of the atom with this number, which moves by x, y and z.
fn step_line(alloc: Global, number: u64, x: K24, y: K24, z: K24) -> Result<Text, NoMemory>
    ensures { IfOk result (λ text. text ≡ step_line number (exact24 x) (exact24 y) (exact24 z)) }
{
    let mut text = Text::new(alloc);
    text.push(b"move ")?;
    text.push_number(number)?;
    text.push(b" ")?;
    text.push(x.print(alloc)?.as_slice())?;
    text.push(b" ")?;
    text.push(y.print(alloc)?.as_slice())?;
    text.push(b" ")?;
    text.push(z.print(alloc)?.as_slice())?;
    text.push(b"\n")?;
    Ok(text)
}

// Whether all three are 0.
fn are_zero(x: K24, y: K24, z: K24) -> bool
    ensures { result ≡ are_nought k24_laws (exact24 x) (exact24 y) (exact24 z) }
{
    x.is_zero() && y.is_zero() && z.is_zero()
}

// Adds the line of an atom where it moves.
fn push_step(
    alloc: Global,
    text: &mut Text,
    number: u64,
    x: K24,
    y: K24,
    z: K24,
) -> Result<(), NoMemory>
    ensures { OnOk result (text.new ≡ text.old ++ step_lines number (exact24 x) (exact24 y) (exact24 z)) }
{
    if are_zero(x, y, z) {
        return Ok(());
    }
    let line = step_line(alloc, number, x, y, z)?;
    text.push(line.as_slice())
}

// Adds the lines of the atoms that move, by the mode's row: three numbers for each atom.
fn push_moves(alloc: Global, text: &mut Text, atoms: usize, row: &[K24]) -> Result<(), NoMemory>
    requires { length row.now ≡ atoms * 3 }
    ensures { OnOk result (text.new ≡ text.old ++ move_lines atoms (vector k24_laws exact24 row.now)) }
{
    for i in 0..atoms {
        let number = i as u64 + 1;
        push_step(
            alloc,
            text,
            number,
            row[i * 3],
            row[i * 3 + 1],
            row[i * 3 + 2],
        )?;
    }
    Ok(())
}

// An entry of a unit vector.
fn unit_text(axis: usize, place: usize) -> &'static [u8]
    ensures { result.now ≡ unit_text axis place }
{
    if place == axis { b"1" } else { b"0" }
}

// The line of the atom with this number, which moves by 1 along this axis.
fn unit_line(alloc: Global, number: u64, axis: usize) -> Result<Text, NoMemory>
    ensures { IfOk result (λ text. text ≡ unit_line number axis) }
{
    let mut text = Text::new(alloc);
    text.push(b"move ")?;
    text.push_number(number)?;
    text.push(b" ")?;
    text.push(unit_text(axis, 0))?;
    text.push(b" ")?;
    text.push(unit_text(axis, 1))?;
    text.push(b" ")?;
    text.push(unit_text(axis, 2))?;
    text.push(b"\n")?;
    Ok(text)
}

// Adds the line of the one atom that moves where the mode is 1 in this column and 0 elsewhere.
fn push_unit_move(alloc: Global, text: &mut Text, column: usize) -> Result<(), NoMemory>
    ensures { OnOk result ((atoms : ℕ) → column < atoms * 3 → text.new ≡ text.old ++ move_lines atoms (unit_vector k24_laws column)) }
{
    let number = (column / 3) as u64 + 1;
    let line = unit_line(alloc, number, column % 3)?;
    text.push(line.as_slice())
}

// The line of the atom with this number, whose own number is x.
fn number_line(alloc: Global, number: u64, x: K24) -> Result<Text, NoMemory>
    ensures { IfOk result (λ text. text ≡ entry_line number (exact24 x)) }
{
    let mut text = Text::new(alloc);
    text.push(b"move ")?;
    text.push_number(number)?;
    text.push(b" ")?;
    text.push(x.print(alloc)?.as_slice())?;
    text.push(b"\n")?;
    Ok(text)
}

// Adds the line of an atom whose number isn't 0.
fn push_number(alloc: Global, text: &mut Text, number: u64, x: K24) -> Result<(), NoMemory>
    ensures { OnOk result (text.new ≡ text.old ++ entry_lines number (exact24 x)) }
{
    if x.is_zero() {
        return Ok(());
    }
    let line = number_line(alloc, number, x)?;
    text.push(line.as_slice())
}

// Adds the lines of the atoms whose numbers aren't 0, by the mode's row: one number for each atom.
fn push_numbers(alloc: Global, text: &mut Text, atoms: usize, row: &[K24]) -> Result<(), NoMemory>
    requires { length row.now ≡ atoms * 1 }
    ensures { OnOk result (text.new ≡ text.old ++ number_lines atoms (vector k24_laws exact24 row.now)) }
{
    for i in 0..atoms {
        push_number(alloc, text, i as u64 + 1, row[i])?;
    }
    Ok(())
}

// Adds the line of the one atom whose number is 1 where the mode is 1 in this column and 0 elsewhere.
fn push_unit_number(
    alloc: Global,
    text: &mut Text,
    atoms: usize,
    column: usize,
) -> Result<(), NoMemory>
    requires { column < atoms * 1 }
    ensures { OnOk result (text.new ≡ text.old ++ number_lines atoms (unit_vector k24_laws column)) }
{
    let line = number_line(alloc, column as u64 + 1, K24::one())?;
    text.push(line.as_slice())
}

/// Adds the lines of the atoms that move, by the mode's row: so many numbers for each atom.
pub fn push_entries(
    alloc: Global,
    text: &mut Text,
    entries: AtomEntries,
    atoms: usize,
    row: &[K24],
) -> Result<(), NoMemory>
    requires { length row.now ≡ atoms * each_of entries }
    ensures { OnOk result (text.new ≡ text.old ++ moves_by entries atoms (vector k24_laws exact24 row.now)) }
{
    match entries {
        AtomEntries::One => push_numbers(alloc, text, atoms, row),
        AtomEntries::Three => push_moves(alloc, text, atoms, row),
    }
}

/// Adds the line of the one atom that moves where the mode is 1 in this column and 0 elsewhere.
pub fn push_unit(
    alloc: Global,
    text: &mut Text,
    entries: AtomEntries,
    atoms: usize,
    column: usize,
) -> Result<(), NoMemory>
    requires { column < atoms * each_of entries }
    ensures { OnOk result (text.new ≡ text.old ++ moves_by entries atoms (unit_vector k24_laws column)) }
{
    match entries {
        AtomEntries::One => push_unit_number(alloc, text, atoms, column),
        AtomEntries::Three => push_unit_move(alloc, text, column),
    }
}
