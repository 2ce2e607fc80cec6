// Why a file is refused.
ghost use Rattle.std.specs.Prelude.{◌≡◌, IfOk};
ghost use Rattle.report_steps.specs.Report.{irrep_words, irreps_words, line_words, line_of, refusal_text};

use crate::fraction::fraction_text;
use crate::place::place_text;
use cyclo24::K24;
use iso_text::{Frac, Name, NoMemory, Text};
use space_ops::Op;
use std::alloc::Global;

/// Why the definitions refuse a file.
#[derive(Clone, Copy, Debug, PartialEq, Eq)]
pub enum Refusal {
    /// The line of this number can't go on as a file.
    BadText(u32),
    /// The text of the line of this number is no Hall symbol.
    BadHall(u32),
    /// The determinant of the operation of the line of this number is neither 1 nor -1.
    BadOperation(u32),
    /// The words over the generators have more than 48 rotations, or one with an entry outside
    /// -3 to 3.
    TooManyRotations,
    /// A word over the generators is a pure translation outside the lattice.
    ExtraTranslation,
    /// A phase of the wave vector of the irrep of this name, which is no multiple of 1/24: the first
    /// k.c over the centring vectors c, in lowest terms.
    BadPhase(Name, Frac),
    /// The order of the group modulo the supercell of the wave vectors, which is past 6,144.
    TooLargeGroup(u64),
    /// The operation of the `mat` line of this number isn't in the little group.
    NotLittle(u32),
    /// An earlier `mat` line of the irrep has the rotation of the line of this number.
    RotationTwice(u32),
    /// The irrep has no matrix for this listed operation, the first such.
    RotationMissing(Name, Op),
    /// The matrix of the identity isn't the unit matrix.
    NotUnit(Name),
    /// The matrices of these two operations don't multiply; the first such pair of the irrep.
    NotMultiplying(Name, Op, Op),
    /// The character sum of the irrep, and the number of rotations of the little group, which it
    /// isn't.
    NotIrreducible(Name, K24, u32),
    /// The real dimension of the irrep, which is past 24.
    TooManyDimensions(Name, u32),
    /// The given vector of the line of this number has so many numbers, and the representation so
    /// many dimensions.
    VectorSize(u32, u32, u32),
    /// The file has no irrep of this name; or it has none at all, and none was named.
    NoSuchIrrep(Option<Name>),
    /// The irrep of this name is of the real kind, and no vector that is tried has an orbit whose span
    /// has its dimension.
    NoRealBasis(Name),
    /// The irrep of this name has more fixed subspaces than this limit.
    TooManySubspaces(Name, u32),
    /// The irrep of this name has no direction of this number.
    NoSuchDirection(Name, u64),
    /// The place of an atom line is on the orbit of an earlier line: the numbers of the earlier line, the
    /// first such, and of the line.
    SameSite(u32, u32),
    /// The orbit of the atom line of this number has so many coordinates, which are past 1,152.
    TooManyAtoms(u32, u32),
    /// The cell of the line of this number is singular, or its columns are no lattice translations of
    /// which those of the supercell are whole combinations.
    BadCell(u32),
    /// The place of the listed line of this number, carried by the cell, is no whole number of units.
    OffGrid(u32),
    /// A place of the listed line of this number matches no atom.
    Unmatched(u32),
    /// A place of the listed line of this number matches two atoms, or one that an earlier place matches.
    Ambiguous(u32),
    /// No listed place matches the atom of this label at this place, in units; the first such atom.
    MissingAtom(Name, [i64; 3]),
    /// The real dimensions of the irreps of these names together, which are past 24.
    TooManyCoupled(Name, Name, u32),
    /// The irreps of these names together have more fixed subspaces than this limit.
    CoupledSubspaces(Name, Name, u32),
    /// A number of this family of numbers passes 126 bits.
    Wide(u8),
}

// The name of an irrep, and what is wrong there.
fn irrep_text(alloc: Global, name: &Name, what: &[u8]) -> Result<Text, NoMemory>
    ensures { IfOk result (λ text. text ≡ irrep_words name.now what.now) }
{
    let mut text = Text::new(alloc);
    text.push(b"irrep ")?;
    text.push(name.as_slice())?;
    text.push(what)?;
    Ok(text)
}

// The names of two irreps, and what is wrong with them together.
fn irreps_text(alloc: Global, name: &Name, other: &Name, what: &[u8]) -> Result<Text, NoMemory>
    ensures { IfOk result (λ text. text ≡ irreps_words name.now other.now what.now) }
{
    let mut text = Text::new(alloc);
    text.push(b"irreps ")?;
    text.push(name.as_slice())?;
    text.push(b" ")?;
    text.push(other.as_slice())?;
    text.push(what)?;
    Ok(text)
}

// The number of a line, and what is wrong there.
fn line_text(alloc: Global, n: u32, what: &[u8]) -> Result<Text, NoMemory>
    ensures { IfOk result (λ text. text ≡ line_words n what.now) }
{
    let mut text = Text::new(alloc);
    text.push(b"line ")?;
    text.push_number(u64::from(n))?;
    text.push(what)?;
    Ok(text)
}

// These bytes.
fn plain_text(alloc: Global, bytes: &[u8]) -> Result<Text, NoMemory>
    ensures { IfOk result (λ text. text ≡ bytes.now) }
{
    let mut text = Text::new(alloc);
    text.push(bytes)?;
    Ok(text)
}

// The text of a phase that is no multiple of 1/24.
fn phase_text(alloc: Global, name: &Name, phase: Frac) -> Result<Text, NoMemory>
    ensures { IfOk result (λ text. text ≡ refusal_text (Refusal.BadPhase name.now phase)) }
{
    let mut text = irrep_text(alloc, name, b": phase ")?;
    text.push(fraction_text(alloc, phase)?.as_slice())?;
    Ok(text)
}

// The text of a group that is too large.
fn large_group_text(alloc: Global, order: u64) -> Result<Text, NoMemory>
    ensures { IfOk result (λ text. text ≡ refusal_text (Refusal.TooLargeGroup order)) }
{
    let mut text = Text::new(alloc);
    text.push(b"group order ")?;
    text.push_number(order)?;
    text.push(b" is past 6144")?;
    Ok(text)
}

// The text of an operation without a matrix.
fn missing_text(alloc: Global, name: &Name, op: Op) -> Result<Text, NoMemory>
    ensures { IfOk result (λ text. text ≡ refusal_text (Refusal.RotationMissing name.now op)) }
{
    let mut text = irrep_text(alloc, name, b": no matrix for ")?;
    text.push(op.print(alloc)?.as_slice())?;
    Ok(text)
}

// The text of a pair of operations whose matrices don't multiply.
fn not_multiplying_text(alloc: Global, name: &Name, a: Op, b: Op) -> Result<Text, NoMemory>
    ensures { IfOk result (λ text. text ≡ refusal_text (Refusal.NotMultiplying name.now a b)) }
{
    let mut text = irrep_text(alloc, name, b": matrices of ")?;
    text.push(a.print(alloc)?.as_slice())?;
    text.push(b" and ")?;
    text.push(b.print(alloc)?.as_slice())?;
    text.push(b" don't multiply")?;
    Ok(text)
}

// The text of a character sum that isn't the number of rotations.
fn sum_text(alloc: Global, name: &Name, sum: K24, count: u32) -> Result<Text, NoMemory>
    ensures { IfOk result (λ text. text ≡ refusal_text (Refusal.NotIrreducible name.now sum count)) }
{
    let mut text = irrep_text(alloc, name, b": character sum ")?;
    text.push(sum.print(alloc)?.as_slice())?;
    text.push(b", not ")?;
    text.push_number(u64::from(count))?;
    Ok(text)
}

// The text of an irrep with too many dimensions.
fn dimensions_text(alloc: Global, name: &Name, n: u32) -> Result<Text, NoMemory>
    ensures { IfOk result (λ text. text ≡ refusal_text (Refusal.TooManyDimensions name.now n)) }
{
    let mut text = irrep_text(alloc, name, b": real dimension ")?;
    text.push_number(u64::from(n))?;
    text.push(b" is past 24")?;
    Ok(text)
}

// The text of a given vector of another size.
fn vector_text(alloc: Global, n: u32, given: u32, dimension: u32) -> Result<Text, NoMemory>
    ensures { IfOk result (λ text. text ≡ refusal_text (Refusal.VectorSize n given dimension)) }
{
    let mut text = line_text(alloc, n, b": vector of ")?;
    text.push_number(u64::from(given))?;
    text.push(b" numbers, not ")?;
    text.push_number(u64::from(dimension))?;
    Ok(text)
}

// The text of a name that no irrep has.
fn no_irrep_text(alloc: Global, wanted: &Option<Name>) -> Result<Text, NoMemory>
    ensures { IfOk result (λ text. text ≡ refusal_text (Refusal.NoSuchIrrep wanted.now)) }
{
    let mut text = plain_text(alloc, b"no irrep")?;
    if let Some(name) = wanted {
        text.push(b" ")?;
        text.push(name.as_slice())?;
    }
    Ok(text)
}

// The text of an irrep with too many fixed subspaces.
fn subspaces_text(alloc: Global, name: &Name, limit: u32) -> Result<Text, NoMemory>
    ensures { IfOk result (λ text. text ≡ refusal_text (Refusal.TooManySubspaces name.now limit)) }
{
    let mut text = irrep_text(alloc, name, b": more than ")?;
    text.push_number(u64::from(limit))?;
    text.push(b" fixed subspaces")?;
    Ok(text)
}

// The text of a direction that an irrep doesn't have.
fn direction_text(alloc: Global, name: &Name, number: u64) -> Result<Text, NoMemory>
    ensures { IfOk result (λ text. text ≡ refusal_text (Refusal.NoSuchDirection name.now number)) }
{
    let mut text = irrep_text(alloc, name, b": no direction ")?;
    text.push_number(number)?;
    Ok(text)
}

// The text of two lines on one orbit.
fn same_site_text(alloc: Global, earlier: u32, line: u32) -> Result<Text, NoMemory>
    ensures { IfOk result (λ text. text ≡ refusal_text (Refusal.SameSite earlier line)) }
{
    let mut text = Text::new(alloc);
    text.push(b"lines ")?;
    text.push_number(u64::from(earlier))?;
    text.push(b" and ")?;
    text.push_number(u64::from(line))?;
    text.push(b": one orbit")?;
    Ok(text)
}

// The text of an orbit with too many coordinates.
fn atoms_text(alloc: Global, line: u32, size: u32) -> Result<Text, NoMemory>
    ensures { IfOk result (λ text. text ≡ refusal_text (Refusal.TooManyAtoms line size)) }
{
    let mut text = line_text(alloc, line, b": orbit of ")?;
    text.push_number(u64::from(size))?;
    text.push(b" coordinates is past 1152")?;
    Ok(text)
}

// The text of an atom that no listed place matches.
fn missing_atom_text(alloc: Global, label: &Name, place: &[i64; 3]) -> Result<Text, NoMemory>
    ensures { IfOk result (λ text. text ≡ refusal_text (Refusal.MissingAtom label.now place.now)) }
{
    let mut text = Text::new(alloc);
    text.push(b"no listed atom for ")?;
    text.push(label.as_slice())?;
    text.push(b" ")?;
    text.push(place_text(alloc, place)?.as_slice())?;
    Ok(text)
}

// The text of two irreps with too many dimensions together.
fn coupled_text(alloc: Global, name: &Name, other: &Name, n: u32) -> Result<Text, NoMemory>
    ensures { IfOk result (λ text. text ≡ refusal_text (Refusal.TooManyCoupled name.now other.now n)) }
{
    let mut text = irreps_text(alloc, name, other, b": real dimension ")?;
    text.push_number(u64::from(n))?;
    text.push(b" is past 24")?;
    Ok(text)
}

// The text of two irreps with too many fixed subspaces together.
fn coupled_subspaces_text(
    alloc: Global,
    name: &Name,
    other: &Name,
    limit: u32,
) -> Result<Text, NoMemory>
    ensures { IfOk result (λ text. text ≡ refusal_text (Refusal.CoupledSubspaces name.now other.now limit)) }
{
    let mut text = irreps_text(alloc, name, other, b": more than ")?;
    text.push_number(u64::from(limit))?;
    text.push(b" fixed subspaces")?;
    Ok(text)
}

// The text of a family of numbers that is wide.
fn wide_text(alloc: Global, family: u8) -> Result<Text, NoMemory>
    ensures { IfOk result (λ text. text ≡ refusal_text (Refusal.Wide family)) }
{
    let mut text = Text::new(alloc);
    text.push(b"number past 126 bits in family ")?;
    text.push_number(u64::from(family))?;
    Ok(text)
}

// The text of a refusal.
fn text_of_refusal(alloc: Global, refusal: &Refusal) -> Result<Text, NoMemory>
    ensures { IfOk result (λ text. text ≡ refusal_text refusal.now) }
{
    match refusal {
        Refusal::BadText(n) => line_text(alloc, *n, b": bad text"),
        Refusal::BadHall(n) => line_text(alloc, *n, b": bad Hall symbol"),
        Refusal::BadOperation(n) => line_text(alloc, *n, b": determinant isn't 1 or -1"),
        Refusal::TooManyRotations => plain_text(alloc, b"too many rotations"),
        Refusal::ExtraTranslation => plain_text(alloc, b"extra translation"),
        Refusal::BadPhase(name, phase) => phase_text(alloc, name, *phase),
        Refusal::TooLargeGroup(order) => large_group_text(alloc, *order),
        Refusal::NotLittle(n) => line_text(alloc, *n, b": not in the little group"),
        Refusal::RotationTwice(n) => line_text(alloc, *n, b": rotation given twice"),
        Refusal::RotationMissing(name, op) => missing_text(alloc, name, *op),
        Refusal::NotUnit(name) => irrep_text(alloc, name, b": identity isn't the unit matrix"),
        Refusal::NotMultiplying(name, a, b) => not_multiplying_text(alloc, name, *a, *b),
        Refusal::NotIrreducible(name, sum, count) => sum_text(alloc, name, *sum, *count),
        Refusal::TooManyDimensions(name, n) => dimensions_text(alloc, name, *n),
        Refusal::VectorSize(n, given, dimension) => vector_text(alloc, *n, *given, *dimension),
        Refusal::NoSuchIrrep(wanted) => no_irrep_text(alloc, wanted),
        Refusal::NoRealBasis(name) => irrep_text(alloc, name, b": no real basis"),
        Refusal::TooManySubspaces(name, limit) => subspaces_text(alloc, name, *limit),
        Refusal::NoSuchDirection(name, number) => direction_text(alloc, name, *number),
        Refusal::SameSite(earlier, line) => same_site_text(alloc, *earlier, *line),
        Refusal::TooManyAtoms(line, size) => atoms_text(alloc, *line, *size),
        Refusal::BadCell(n) => line_text(alloc, *n, b": bad cell"),
        Refusal::OffGrid(n) => line_text(alloc, *n, b": place isn't on the grid"),
        Refusal::Unmatched(n) => line_text(alloc, *n, b": unmatched atom"),
        Refusal::Ambiguous(n) => line_text(alloc, *n, b": ambiguous atom"),
        Refusal::MissingAtom(label, place) => missing_atom_text(alloc, label, place),
        Refusal::TooManyCoupled(name, other, n) => coupled_text(alloc, name, other, *n),
        Refusal::CoupledSubspaces(name, other, limit) => {
            coupled_subspaces_text(alloc, name, other, *limit)
        }
        Refusal::Wide(family) => wide_text(alloc, *family),
    }
}

/// The line on err of a refusal, with its line feed.
pub fn refusal_line(alloc: Global, refusal: &Refusal) -> Result<Text, NoMemory>
    ensures { IfOk result (λ line. line ≡ line_of refusal.now) }
{
    let mut line = Text::new(alloc);
    line.push(b"isodist: refused: ")?;
    line.push(text_of_refusal(alloc, refusal)?.as_slice())?;
    line.push(b"\n")?;
    Ok(line)
}
