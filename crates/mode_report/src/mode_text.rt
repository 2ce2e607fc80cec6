// The lines of a mode.
ghost use Rattle.std.specs.Prelude.{◌≡◌, ◌<◌, ◌*◌, ◌++◌, [], OnOk, length, codes, decimal};
ghost use Rattle.cyclo24.specs.ExactK24.{k24_laws};
ghost use Rattle.cyclo24.specs.K24.{exact24};
ghost use Rattle.iso_text.specs.Lines.{line};
ghost use Rattle.lin_alg.specs.Equations.{unit_vector};
ghost use Rattle.lin_alg.specs.Rows.{vector};
ghost use Rattle.mode_report.specs.ModesReport.{each_of, mode_text_by};

use crate::moves::{AtomEntries, push_entries, push_unit};
use cyclo24::K24;
use iso_text::{NoMemory, Text};
use std::alloc::Global;

/// Adds the line with a mode's number and name.
pub fn push_mode_head(text: &mut Text, number: u64, name: &[u8]) -> Result<(), NoMemory>
    ensures { OnOk result (text.new ≡ text.old ++ line (codes "mode " ++ decimal number ++ codes " " ++ name.now) []) }
{
    text.push(b"mode ")?;
    text.push_number(number)?;
    text.push(b" ")?;
    text.push(name)?;
    text.push(b"\n")
}

/// Adds the lines of a mode by its row: so many numbers for each atom.
pub fn push_mode(
    alloc: Global,
    text: &mut Text,
    entries: AtomEntries,
    atoms: usize,
    number: u64,
    name: &[u8],
    row: &[K24],
) -> Result<(), NoMemory>
    requires { length row.now ≡ atoms * each_of entries }
    ensures { OnOk result (text.new ≡ text.old ++ mode_text_by entries atoms (number, (name.now, vector k24_laws exact24 row.now))) }
{
    push_mode_head(text, number, name)?;
    push_entries(alloc, text, entries, atoms, row)
}

/// Adds the lines of the mode of no irrep that is 1 in this column and 0 elsewhere.
pub fn push_site(
    alloc: Global,
    text: &mut Text,
    entries: AtomEntries,
    atoms: usize,
    number: u64,
    column: usize,
) -> Result<(), NoMemory>
    requires { column < atoms * each_of entries }
    ensures { OnOk result (text.new ≡ text.old ++ mode_text_by entries atoms (number, (codes "site", unit_vector k24_laws column))) }
{
    push_mode_head(text, number, b"site")?;
    push_unit(alloc, text, entries, atoms, column)
}
