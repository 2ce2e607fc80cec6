// The report of `check`, in pieces.
ghost use Rattle.std.specs.Prelude.{◌≡◌, ◌++◌, ◌<◌, [], IfOk, OnOk, Some, length, map, flat_map, codes, slice_get};
ghost use Rattle.std.specs.List.{concat};
ghost use Rattle.space_ops.specs.Lattice.{centrings_of};
ghost use Rattle.super_group.specs.Quotient.{order_of};
ghost use Rattle.iso_report.specs.Check.{first_line, lattice_line, supercell_line, check_text, irrep_pieces, check_pieces};
ghost use Rattle.report_steps.specs.OpLines.{listed_line};
ghost use Rattle.report_steps.specs.Held.{facts_in, IsInducedHeld};
ghost use Rattle.report_steps.specs.HeldFiles.{AreInducedHeld};
ghost use Rattle.report_steps.specs.IrrepSteps.{Each};
ghost use Rattle.iso_text.specs.Lines.{line};

use crate::irrep_report::irrep_text;
use induce::Induced;
use iso_text::{IrrepText, NoMemory, Text};
use report_buffer::Report;
use report_steps::{InducedFile, op_line};
use space_ops::{Group, Lattice};
use std::alloc::Global;
use super_group::Quotient;

// The first line, without its line feed.
fn first_line(alloc: Global, format: u8) -> Result<Text, NoMemory>
    ensures { IfOk result (λ text. text ≡ first_line format) }
{
    let mut text = Text::new(alloc);
    text.push(b"isodist ")?;
    text.push_number(u64::from(format))?;
    text.push(b" check")?;
    Ok(text)
}

// The line of the lattice, without its line feed.
fn lattice_text(alloc: Global, lattice: Lattice, rotations: usize) -> Result<Text, NoMemory>
    ensures { IfOk result (λ text. text ≡ lattice_line lattice (length (centrings_of lattice)) rotations) }
{
    let centrings = lattice.centrings().len();
    let mut text = Text::new(alloc);
    text.push(b"lattice ")?;
    text.push(&[lattice.letter()])?;
    text.push(b" centrings ")?;
    text.push_number(centrings as u64)?;
    text.push(b" rotations ")?;
    text.push_number(rotations as u64)?;
    Ok(text)
}

// The line of the supercell.
fn supercell_text(alloc: Global, d: [u32; 3], order: usize) -> Result<Text, NoMemory>
    ensures { IfOk result (λ text. text ≡ supercell_line d order) }
{
    let mut text = Text::new(alloc);
    text.push(b"supercell ")?;
    text.push_number(d[0] as u64)?;
    text.push(b" ")?;
    text.push_number(d[1] as u64)?;
    text.push(b" ")?;
    text.push_number(d[2] as u64)?;
    text.push(b" order ")?;
    text.push_number(order as u64)?;
    text.push(b"\n")?;
    Ok(text)
}

// Adds the lines of the listed operations.
fn push_listed(alloc: Global, text: &mut Text, group: &Group) -> Result<(), NoMemory>
    ensures { OnOk result (text.new ≡ text.old ++ flat_map listed_line group.now.ops) }
{
    for i in 0..group.len() {
        let added = op_line(alloc, group.op(i))?;
        text.push(added.as_slice())?;
    }
    Ok(())
}

// The lines of the file's format and of the lattice.
fn head_text(alloc: Global, format: u8, group: &Group) -> Result<Text, NoMemory>
    ensures { IfOk result (λ text. text ≡ line (first_line format) (line (lattice_line group.now.lattice (length (centrings_of group.now.lattice)) (length group.now.ops)) [])) }
{
    let rotations = group.len();
    let mut text = first_line(alloc, format)?;
    text.push(b"\n")?;
    text.push(lattice_text(alloc, group.lattice(), rotations)?.as_slice())?;
    text.push(b"\n")?;
    Ok(text)
}

// The lines in front of the irreps.
fn front_text(alloc: Global, format: u8, quotient: &Quotient) -> Result<Text, NoMemory>
    ensures { IfOk result (λ text. text ≡ line (first_line format) (line (lattice_line quotient.now.parent.lattice (length (centrings_of quotient.now.parent.lattice)) (length quotient.now.parent.ops))
        (flat_map listed_line quotient.now.parent.ops ++ supercell_line quotient.now.d (order_of quotient.now)))) }
{
    let group = quotient.group();
    let mut text = head_text(alloc, format, group)?;
    push_listed(alloc, &mut text, group)?;
    text.push(supercell_text(alloc, quotient.d(), quotient.order())?.as_slice())?;
    Ok(text)
}

// The lines of irrep i of a list, with its arms.
fn irrep_at(
    alloc: Global,
    quotient: &Quotient,
    irreps: &[IrrepText],
    all: &[Induced],
    i: usize,
) -> Result<Text, NoMemory>
    requires held { Each (IsInducedHeld quotient.now) irreps.now all.now }
    requires place { i < length all.now }
    ensures { IfOk result (λ text. slice_get (irrep_pieces quotient.now.parent irreps.now (map facts_in all.now)) i ≡ Some text) }
{
    irrep_text(alloc, quotient, &irreps[i], &all[i])
}

// The lines of irrep i of a file, with its arms.
fn irrep_piece(alloc: Global, file: &InducedFile, i: usize) -> Result<Text, NoMemory>
    requires held { AreInducedHeld file.now }
    requires place { i < length file.now.irreps.items }
    ensures { IfOk result (λ text. slice_get (irrep_pieces file.now.divided.quotient.parent file.now.divided.file.irreps (map facts_in file.now.irreps.items)) i ≡ Some text) }
{
    let quotient = file.divided.quotient();
    let irreps = file.divided.document().irreps();
    irrep_at(alloc, quotient, irreps, &file.irreps, i)
}

/// What `check` reports of a file: the lattice, the operations, the multipliers of the supercell and the
/// order of the quotient, and each irrep with its arms.
#[derive(Drop)]
pub struct CheckReport {
    pub file: InducedFile,
}

/// The lines in front of the irreps, and each irrep with its arms. Condition: what the file holds is what
/// its irreps induce. Errors: want of memory.
impl Report for CheckReport {
    ghost use Rattle.iso_report.specs.Check.{check_pieces};
    ghost use Rattle.report_steps.specs.HeldFiles.{AreInducedHeld};

    ghost fits = { λ r. AreInducedHeld r.file };

    ghost pieces = { check_pieces };

    fn count(&self) -> usize {
        self.file.irreps.len() + 1
    }

    fn piece(&self, alloc: Global, number: usize) -> Result<Text, NoMemory> {
        if number == 0 {
            let format = self.file.divided.document().format();
            return front_text(alloc, format, self.file.divided.quotient());
        }
        irrep_piece(alloc, &self.file, number - 1)
    }
}

/// The pieces of the report of `check`, one behind the other, are the report.
pub fn law_of_check_pieces()
    ensures { (r : CheckReport) → concat (check_pieces r) ≡ check_text r.file.divided (map facts_in r.file.irreps.items) }
{}
