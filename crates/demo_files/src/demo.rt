// Demo files.
ghost use Rattle.std.specs.Prelude.{◌≡◌, ◌<◌, ◌++◌, ◌*ℤ◌, [], IfOk, OnOk, codes, decimal, flat_map, true, unsigned_abs};
ghost use Rattle.hall_symbol.specs.Grammar.{IsHallSymbol};
ghost use Rattle.iso_text.specs.Lines.{line};
ghost use Rattle.space_ops.specs.Group.{AreGenerators};
ghost use Rattle.space_ops.specs.Matrix.{determinant};
ghost use Rattle.space_ops.specs.Words.{HasTooManyRotations, HasExtraTranslation};
ghost use Rattle.space_ops.specs.OpText.{sign_text};
ghost use Rattle.space_ops.specs.Op.{IsWithin, IsSmallRotation, IsShiftWithin, IsUnimodular, matrix_of};
ghost use Rattle.demo_files.specs.Demo.{symbol_text, wave_text, factor_of, entry_text, entries_text, rows_text, matrix_line, demo_head, perovskite_lines, general_lines, demo_text, IsDemoParent, IsDemoFile};

use hall_symbol::Generators;
use iso_text::{NoMemory, Text};
use space_ops::{Group, GroupError, Op};
use std::alloc::Global;

// The Hall symbol.
#[tactic(auto, unfolding(crate::specs::Demo::symbol_text))]
fn symbol(number: u8) -> &'static [u8]
    ensures { result.now ≡ symbol_text number }
{
    let remainder = number % 4;
    if remainder == 0 {
        b"P 2 2 3"
    } else if remainder == 1 {
        b"-P 2 2 3"
    } else if remainder == 2 {
        b"P 4 2 3"
    } else {
        b"-P 4 2 3"
    }
}

// The wave vector.
#[tactic(auto, unfolding(crate::specs::Demo::wave_text))]
fn wave_vector(number: u8) -> &'static [u8]
    ensures { result.now ≡ wave_text number }
{
    if number / 4 % 2 == 0 {
        b"0 0 0"
    } else {
        b"1/2 1/2 1/2"
    }
}

// The lattice and the generators of the symbol.
fn generators(number: u8) -> Generators
    ensures symbol { IsHallSymbol (symbol_text number) result.lattice result.ops.items }
    ensures fit { AreGenerators result.ops.items }
    ensures few { HasTooManyRotations result.ops.items result.lattice → ⊥ }
    ensures pure { HasExtraTranslation result.ops.items result.lattice → ⊥ }
{
    match hall_symbol::read(symbol(number)) {
        Ok(generators) => generators,
        Err(_) => unreachable!(),
    }
}

// The group of the symbol.
fn parent(alloc: Global, number: u8) -> Result<Group, NoMemory>
    ensures { IfOk result (λ group. IsDemoParent number group) }
{
    let generators = generators(number);
    match Group::close(alloc, generators.ops.as_slice(), generators.lattice) {
        Ok(group) => Ok(group),
        Err(GroupError::TooManyRotations) => unreachable!(),
        Err(GroupError::ExtraTranslation) => unreachable!(),
        Err(GroupError::NoMemory) => Err(NoMemory),
    }
}

// A blank, and a minus sign before what is negative.
fn lead(entry: i32) -> &'static [u8]
    ensures { result.now ≡ codes " " ++ sign_text true entry }
{
    if entry < 0 { b" -" } else { b" " }
}

// Adds a blank and a number.
#[tactic(auto, unfolding(crate::specs::Demo::entry_text))]
fn push_entry(text: &mut Text, entry: i32) -> Result<(), NoMemory>
    ensures { OnOk result (text.new ≡ text.old ++ entry_text entry) }
{
    text.push(lead(entry))?;
    text.push_number(u64::from(entry.unsigned_abs()))
}

// Adds three numbers.
fn push_three(text: &mut Text, first: i32, second: i32, third: i32) -> Result<(), NoMemory>
    ensures { OnOk result (text.new ≡ text.old ++ (entry_text first ++ entry_text second ++ entry_text third)) }
{
    push_entry(text, first)?;
    push_entry(text, second)?;
    push_entry(text, third)
}

// An entry times the factor.
fn scaled(factor: i32, entry: i8) -> i32
    requires factor { IsWithin 1 factor }
    requires entry { IsWithin 3 entry }
    ensures { result ≡ factor *ℤ entry }
{
    factor * i32::from(entry)
}

// Adds three numbers, each times the factor.
fn push_entries(text: &mut Text, factor: i32, row: [i8; 3]) -> Result<(), NoMemory>
    requires factor { IsWithin 1 factor }
    requires row { IsShiftWithin 3 row }
    ensures { OnOk result (text.new ≡ text.old ++ entries_text factor row) }
{
    push_three(
        text,
        scaled(factor, row[0]),
        scaled(factor, row[1]),
        scaled(factor, row[2]),
    )
}

// Adds a matrix times the factor, row by row.
fn push_rows(text: &mut Text, factor: i32, rot: [[i8; 3]; 3]) -> Result<(), NoMemory>
    requires factor { IsWithin 1 factor }
    requires small { IsSmallRotation rot }
    ensures { OnOk result (text.new ≡ text.old ++ rows_text factor rot) }
{
    push_entries(text, factor, rot[0])?;
    push_entries(text, factor, rot[1])?;
    push_entries(text, factor, rot[2])
}

// What the rotation is multiplied by.
#[tactic(auto, unfolding(crate::specs::Demo::factor_of))]
fn factor(number: u8, op: Op) -> i32
    requires small { IsSmallRotation op.rot }
    requires unimodular { IsUnimodular (matrix_of op.rot) }
    ensures value { result ≡ factor_of number op }
    ensures near { IsWithin 1 result }
{
    if number / 8 % 2 == 0 { 1 } else { op.det() }
}

// The line of an operation.
fn matrix_line(alloc: Global, number: u8, op: Op) -> Result<Text, NoMemory>
    requires small { IsSmallRotation op.rot }
    requires unimodular { IsUnimodular (matrix_of op.rot) }
    ensures { IfOk result (λ text. text ≡ matrix_line number op) }
{
    let mut text = Text::new(alloc);
    text.push(b"mat ")?;
    text.push(op.print(alloc)?.as_slice())?;
    push_rows(&mut text, factor(number, op), op.rot)?;
    text.push(b"\n")?;
    Ok(text)
}

// Adds the lines of the listed operations.
fn push_matrices(alloc: Global, text: &mut Text, number: u8, group: &Group) -> Result<(), NoMemory>
    ensures { OnOk result (text.new ≡ text.old ++ flat_map (matrix_line number) group.now.ops) }
{
    for i in 0..group.len() {
        let added = matrix_line(alloc, number, group.op(i))?;
        text.push(added.as_slice())?;
    }
    Ok(())
}

// The lines before those of the operations.
fn head(alloc: Global, number: u8) -> Result<Text, NoMemory>
    ensures { IfOk result (λ text. text ≡ demo_head number) }
{
    let mut text = Text::new(alloc);
    text.push(b"isodist 1\nhall ")?;
    text.push(symbol(number))?;
    text.push(b"\nirrep V 3\nk ")?;
    text.push(wave_vector(number))?;
    text.push(b"\n")?;
    Ok(text)
}

// The lines of the atoms of a perovskite.
#[tactic(auto, unfolding(crate::specs::Demo::perovskite_lines))]
fn perovskite() -> &'static [u8]
    ensures { result.now ≡ perovskite_lines }
{
    b"atom Ti 0 0 0\natom Sr 1/2 1/2 1/2\natom O 1/2 0 0\n"
}

// The lines of the atoms at general places.
#[tactic(auto, unfolding(crate::specs::Demo::general_lines))]
fn general(number: u8) -> &'static [u8]
    requires { number < 64 }
    ensures { result.now ≡ general_lines number }
{
    let count = number / 16;
    if count == 0 {
        b""
    } else if count == 1 {
        b"atom X1 1/24 1/12 1/8\n"
    } else if count == 2 {
        b"atom X1 1/24 1/12 1/8\natom X2 1/24 1/12 1/6\n"
    } else {
        b"atom X1 1/24 1/12 1/8\natom X2 1/24 1/12 1/6\natom X3 1/24 1/12 5/24\n"
    }
}

// The file, by the group of its symbol.
fn text_of(alloc: Global, number: u8, group: &Group) -> Result<Text, NoMemory>
    requires { number < 64 }
    ensures { IfOk result (λ text. text ≡ demo_text number group.now.ops) }
{
    let mut text = head(alloc, number)?;
    push_matrices(alloc, &mut text, number, group)?;
    text.push(perovskite())?;
    text.push(general(number))?;
    text.push(b"end\n")?;
    Ok(text)
}

/// The demo file of a number: a file of format 1, by h = number mod 4, q = number / 4 mod 2,
/// x = number / 8 mod 2 and m = number / 16. Its parent is `P 2 2 3`, `-P 2 2 3`, `P 4 2 3` or
/// `-P 4 2 3`, by h. Its irrep V has k = 0 0 0, or 1/2 1/2 1/2 where q is 1, and the matrices R of
/// the listed operations, or det(R) R where x is 1. Its atoms are Ti, Sr and O of a perovskite, and
/// m further ones at general places. Condition: a number below 64.
pub fn demo_file(alloc: Global, number: u8) -> Result<Text, NoMemory>
    requires { number < 64 }
    ensures { IfOk result (λ text. IsDemoFile number text) }
{
    let group = parent(alloc, number)?;
    text_of(alloc, number, &group)
}
