// The report of `link`, in pieces.
ghost use Rattle.std.specs.Prelude.{◌≡◌, ◌<◌, ◌≤◌, ◌+◌, ◌++◌, [], Some, IfOk, OnOk, codes, decimal, flat_map, length, slice_get};
ghost use Rattle.cyclo24.specs.ExactZ24.{z24_laws};
ghost use Rattle.cyclo24.specs.Z24.{exact_z24};
ghost use Rattle.lin_alg.specs.Matrix.{entry};
ghost use Rattle.iso_text.specs.Lines.{line};
ghost use Rattle.couple_report.specs.LinkReport.{entry_text, row_line, rank_line, link_head};
ghost use Rattle.couple_report.specs.FoundLink.{row_in, AreFewRows};
ghost use Rattle.couple_report.specs.LinkPieces.{matrix_pieces, line_pieces};

use crate::link::FoundLink;
use couple::Link;
use cyclo24::Z24;
use iso_text::{Name, NoMemory, Text};
use lin_alg::Matrix;
use report_buffer::Report;
use std::alloc::Global;

// Adds the entry in row i and column j behind a space.
fn push_entry(
    alloc: Global,
    text: &mut Text,
    matrix: &Matrix<Z24>,
    i: usize,
    j: usize,
) -> Result<(), NoMemory>
    requires row { i < matrix.now.rows }
    requires column { j < matrix.now.cols }
    ensures { OnOk result (text.new ≡ text.old ++ entry_text (entry z24_laws exact_z24 matrix.now i j)) }
{
    text.push(b" ")?;
    text.push(matrix.get(i, j).print(alloc)?.as_slice())
}

// Adds the entries of row i, each behind a space.
fn push_entries(
    alloc: Global,
    text: &mut Text,
    matrix: &Matrix<Z24>,
    i: usize,
) -> Result<(), NoMemory>
    requires { i < matrix.now.rows }
    ensures { OnOk result (text.new ≡ text.old ++ flat_map entry_text (row_in matrix.now i matrix.now.cols)) }
{
    for j in 0..matrix.cols() {
        push_entry(alloc, text, matrix, i, j)?;
    }
    Ok(())
}

// The line of row i.
fn row_text(alloc: Global, matrix: &Matrix<Z24>, i: usize) -> Result<Text, NoMemory>
    requires { i < matrix.now.rows }
    ensures { IfOk result (λ text. text ≡ row_line (row_in matrix.now i matrix.now.cols)) }
{
    let mut text = Text::new(alloc);
    text.push(b"row")?;
    push_entries(alloc, &mut text, matrix, i)?;
    text.push(b"\n")?;
    Ok(text)
}

// The line of a rank and of both dimensions.
fn rank_line(alloc: Global, rank: u32, rows: usize, cols: usize) -> Result<Text, NoMemory>
    ensures { IfOk result (λ text. text ≡ rank_line rank rows cols) }
{
    let mut text = Text::new(alloc);
    text.push(b"link rank ")?;
    text.push_number(u64::from(rank))?;
    text.push(b" dims ")?;
    text.push_number(rows as u64)?;
    text.push(b" ")?;
    text.push_number(cols as u64)?;
    text.push(b"\n")?;
    Ok(text)
}

// The line of the rank for 0, that of row i - 1 for i.
fn matrix_piece(alloc: Global, matrix: &Matrix<Z24>, rank: u32, i: usize) -> Result<Text, NoMemory>
    requires { i < matrix.now.rows + 1 }
    ensures { IfOk result (λ text. slice_get (matrix_pieces matrix.now rank) i ≡ Some text) }
{
    if i == 0 {
        return rank_line(alloc, rank, matrix.rows(), matrix.cols());
    }
    row_text(alloc, matrix, i - 1)
}

// The line that tells that there is no link.
fn none_line(alloc: Global) -> Result<Text, NoMemory>
    ensures { IfOk result (λ text. text ≡ line (codes "link none") []) }
{
    let mut text = Text::new(alloc);
    text.push(b"link none\n")?;
    Ok(text)
}

// Line i of a link.
fn line_piece(alloc: Global, link: &Link, i: usize) -> Result<Text, NoMemory>
    requires { i < length (line_pieces link.now) }
    ensures { IfOk result (λ text. slice_get (line_pieces link.now) i ≡ Some text) }
{
    match link {
        Link::Nothing => none_line(alloc),
        Link::Found { matrix, rank } => matrix_piece(alloc, matrix, *rank, i),
    }
}

// How many lines a link has.
fn line_count(link: &Link) -> usize
    requires { AreFewRows link.now }
    ensures value { result ≡ length (line_pieces link.now) }
    ensures few { result ≤ 289 }
{
    match link {
        Link::Nothing => 1,
        Link::Found { matrix, rank: _ } => matrix.rows() + 1,
    }
}

// The first line, with the file's format.
fn first_line(alloc: Global, format: u8) -> Result<Text, NoMemory>
    ensures { IfOk result (λ text. text ≡ line (codes "isodist " ++ decimal format ++ codes " link") []) }
{
    let mut text = Text::new(alloc);
    text.push(b"isodist ")?;
    text.push_number(u64::from(format))?;
    text.push(b" link\n")?;
    Ok(text)
}

// The second line, without its line feed.
fn irreps_line(alloc: Global, name: &Name, other: &Name, order: usize) -> Result<Text, NoMemory>
    ensures { IfOk result (λ text. text ≡ codes "irreps " ++ name.now ++ codes " " ++ other.now ++ codes " order " ++ decimal order) }
{
    let mut text = Text::new(alloc);
    text.push(b"irreps ")?;
    text.push(name.as_slice())?;
    text.push(b" ")?;
    text.push(other.as_slice())?;
    text.push(b" order ")?;
    text.push_number(order as u64)?;
    Ok(text)
}

// The first two lines.
fn head_of(alloc: Global, found: &FoundLink) -> Result<Text, NoMemory>
    ensures { IfOk result (λ text. text ≡ link_head found.now.format found.now.name found.now.other found.now.order []) }
{
    let mut text = first_line(alloc, found.format)?;
    let irreps = irreps_line(alloc, &found.name, &found.other, found.order)?;
    text.push(irreps.as_slice())?;
    text.push(b"\n")?;
    Ok(text)
}

/// The report of `link`: the irreps, and the rank of their link with its rows, or that there is none.
/// Errors: want of memory.
impl Report for FoundLink {
    ghost use Rattle.couple_report.specs.LinkPieces.{link_pieces};
    ghost use Rattle.couple_report.specs.FoundLink.{IsLinkHeld};

    ghost fits = { IsLinkHeld };

    ghost pieces = { link_pieces };

    fn count(&self) -> usize {
        line_count(&self.link) + 1
    }

    fn piece(&self, alloc: Global, number: usize) -> Result<Text, NoMemory> {
        if number == 0 {
            return head_of(alloc, self);
        }
        line_piece(alloc, &self.link, number - 1)
    }
}
