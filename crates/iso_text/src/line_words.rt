// Reading the lines of a file.
ghost use Rattle.std.specs.Prelude.{◌≡◌, IfOk};
ghost use Rattle.iso_text.specs.Cuts.{words_of};
ghost use Rattle.iso_text.specs.LineKinds.{head_of, hall_of, lattice_of, op_of, irrep_of, k_of, mat_of, vector_of, atom_of, tolerance_line_of, cell_of, value_of, axial_of, end_of, by_keyword, said_by, kind_of};
ghost use Rattle.iso_text.specs.LineWords.{keyword_of, size_of, few_numbers_of};

use crate::NoMemory;
use crate::cuts::{Mark, first_word, split_at_mark};
use crate::fractions::{place, tolerance};
use crate::line_kinds::{IrrepLine, Keyword, Line};
use crate::lines::{is_skipped, is_text, trimmed, unindented};
use crate::name::Name;
use crate::number_words::number;
use crate::numbers::NumList;
use crate::operation_words::operation;
use crate::sections::{AtomText, AxialText, CellText, MatText, OpLine, ValueText, VectorText};
use crate::text::Text;
use crate::word_lists::{
    is_empty, is_same, one_word, site, three_fractions, three_places, two_words,
};
use std::alloc::Global;

/// The most numbers of a `mat` line: the entries of a matrix of size 6.
pub const MAX_ENTRIES: usize = 36;

/// The most numbers of a `realvector` line.
pub const MAX_VECTOR: usize = 24;

fn find_keyword(word: &[u8]) -> Option<Keyword>
    ensures { result ≡ keyword_of word.now }
{
    if is_same(word, b"mat") {
        Some(Keyword::Mat)
    } else if is_same(word, b"listed") {
        Some(Keyword::Listed)
    } else if is_same(word, b"value") {
        Some(Keyword::Value)
    } else if is_same(word, b"axial") {
        Some(Keyword::Axial)
    } else if is_same(word, b"atom") {
        Some(Keyword::Atom)
    } else if is_same(word, b"k") {
        Some(Keyword::K)
    } else if is_same(word, b"irrep") {
        Some(Keyword::Irrep)
    } else if is_same(word, b"op") {
        Some(Keyword::Op)
    } else if is_same(word, b"realvector") {
        Some(Keyword::RealVector)
    } else if is_same(word, b"isodist") {
        Some(Keyword::Isodist)
    } else if is_same(word, b"hall") {
        Some(Keyword::Hall)
    } else if is_same(word, b"lattice") {
        Some(Keyword::Lattice)
    } else if is_same(word, b"tolerance") {
        Some(Keyword::Tolerance)
    } else if is_same(word, b"cell") {
        Some(Keyword::Cell)
    } else if is_same(word, b"end") {
        Some(Keyword::End)
    } else {
        None
    }
}

fn head(text: &[u8]) -> Option<Line>
    ensures { result ≡ head_of (words_of text.now) }
{
    let word = one_word(text)?;
    if is_same(word, b"1") {
        Some(Line::Head(1))
    } else if is_same(word, b"2") {
        Some(Line::Head(2))
    } else {
        None
    }
}

fn hall(alloc: Global, number: u32, text: &[u8]) -> Result<Option<Line>, NoMemory>
    ensures { IfOk result (λ line. line ≡ hall_of number text.now) }
{
    if text.is_empty() {
        return Ok(None);
    }
    let mut symbol = Text::new(alloc);
    symbol.push(text)?;
    Ok(Some(Line::Hall(number, symbol)))
}

fn lattice(number: u32, text: &[u8]) -> Option<Line>
    ensures { result ≡ lattice_of number (words_of text.now) }
{
    match one_word(text)? {
        [letter] => match *letter {
            b'P' | b'A' | b'B' | b'C' | b'I' | b'R' | b'F' => {
                Some(Line::Lattice(number, *letter))
            }
            _ => None,
        },
        _ => None,
    }
}

fn op(number: u32, text: &[u8]) -> Option<Line>
    ensures { result ≡ op_of number (words_of text.now) }
{
    let word = one_word(text)?;
    let op = operation(word)?;
    Some(Line::Op(OpLine { line: number, op }))
}

fn size(text: &[u8]) -> Option<u8>
    ensures { result ≡ size_of text.now }
{
    match text {
        [digit] => {
            if *digit >= b'1' && *digit <= b'6' {
                Some(*digit - b'0')
            } else {
                None
            }
        }
        _ => None,
    }
}

fn irrep(number: u32, text: &[u8]) -> Option<Line>
    ensures { result ≡ irrep_of number (words_of text.now) }
{
    let (name, dimension) = two_words(text)?;
    let name = Name::parse(name)?;
    let size = size(dimension)?;
    Some(Line::Irrep(IrrepLine {
        line: number,
        name,
        size,
    }))
}

fn k(text: &[u8]) -> Option<Line>
    ensures { result ≡ k_of (words_of text.now) }
{
    let (k, rest) = three_fractions(text)?;
    if is_empty(rest) {
        Some(Line::K(k))
    } else {
        None
    }
}

// The numbers that the words of a text are, at most so many. What stands behind the last of them
// isn't read.
fn numbers(alloc: Global, text: &[u8], most: usize) -> Result<Option<NumList>, NoMemory>
    ensures { IfOk result (λ numbers. numbers ≡ few_numbers_of most (words_of text.now)) }
{
    let mut numbers = Vec::new(alloc);
    let mut rest = text;
    while let Some((word, behind)) = first_word(rest) {
        if numbers.len() == most {
            return Ok(None);
        }
        match number(alloc, word)? {
            None => return Ok(None),
            Some(number) => match numbers.push(number) {
                Ok(()) => {}
                Err(_) => return Err(NoMemory),
            },
        }
        rest = behind;
    }
    Ok(Some(NumList::from_vec(numbers)))
}

fn mat(alloc: Global, number: u32, text: &[u8]) -> Result<Option<Line>, NoMemory>
    ensures { IfOk result (λ line. line ≡ mat_of number (words_of text.now)) }
{
    match first_word(text) {
        None => Ok(None),
        Some((word, rest)) => match operation(word) {
            None => Ok(None),
            Some(op) => match numbers(alloc, rest, MAX_ENTRIES)? {
                None => Ok(None),
                Some(entries) => Ok(Some(Line::Mat(MatText {
                    line: number,
                    op,
                    entries,
                }))),
            },
        },
    }
}

fn vector(alloc: Global, number: u32, text: &[u8]) -> Result<Option<Line>, NoMemory>
    ensures { IfOk result (λ line. line ≡ vector_of number (words_of text.now)) }
{
    if is_empty(text) {
        return Ok(None);
    }
    match numbers(alloc, text, MAX_VECTOR)? {
        None => Ok(None),
        Some(numbers) => Ok(Some(Line::RealVector(VectorText {
            line: number,
            numbers,
        }))),
    }
}

fn atom(number: u32, text: &[u8]) -> Option<AtomText>
    ensures { result ≡ atom_of number (words_of text.now) }
{
    let (label, place, rest) = site(text)?;
    let label = Name::parse(label)?;
    if is_empty(rest) {
        Some(AtomText {
            line: number,
            label,
            place,
        })
    } else {
        None
    }
}

fn tolerance_line(text: &[u8]) -> Option<Line>
    ensures { result ≡ tolerance_line_of (words_of text.now) }
{
    let word = one_word(text)?;
    let units = tolerance(word)?;
    Some(Line::Tolerance(units))
}

fn cell(number: u32, text: &[u8]) -> Option<Line>
    ensures { result ≡ cell_of number (words_of text.now) }
{
    let (a, rest) = three_fractions(text)?;
    let (b, rest) = three_fractions(rest)?;
    let (c, rest) = three_fractions(rest)?;
    let (origin, rest) = three_places(rest)?;
    if is_empty(rest) {
        Some(Line::Cell(CellText {
            line: number,
            rows: [a, b, c],
            origin,
        }))
    } else {
        None
    }
}

fn value(number: u32, text: &[u8]) -> Option<Line>
    ensures { result ≡ value_of number (words_of text.now) }
{
    let (label, at, rest) = site(text)?;
    let label = Name::parse(label)?;
    let word = one_word(rest)?;
    let value = place(word)?;
    Some(Line::Value(ValueText {
        line: number,
        label,
        place: at,
        value,
    }))
}

fn axial(number: u32, text: &[u8]) -> Option<Line>
    ensures { result ≡ axial_of number (words_of text.now) }
{
    let (label, place, rest) = site(text)?;
    let label = Name::parse(label)?;
    let (value, rest) = three_places(rest)?;
    if is_empty(rest) {
        Some(Line::Axial(AxialText {
            line: number,
            label,
            place,
            value,
        }))
    } else {
        None
    }
}

fn end(text: &[u8]) -> Option<Line>
    ensures { result ≡ end_of (words_of text.now) }
{
    if is_empty(text) {
        Some(Line::End)
    } else {
        None
    }
}

// A line by its first word, and the text behind that word.
fn by_keyword(
    alloc: Global,
    number: u32,
    text: &[u8],
    keyword: Keyword,
) -> Result<Option<Line>, NoMemory>
    ensures { IfOk result (λ line. line ≡ by_keyword number text.now keyword) }
{
    match keyword {
        Keyword::Isodist => Ok(head(text)),
        Keyword::Hall => hall(alloc, number, trimmed(text)),
        Keyword::Lattice => Ok(lattice(number, text)),
        Keyword::Op => Ok(op(number, text)),
        Keyword::Irrep => Ok(irrep(number, text)),
        Keyword::K => Ok(k(text)),
        Keyword::Mat => mat(alloc, number, text),
        Keyword::RealVector => vector(alloc, number, text),
        Keyword::Atom => Ok(atom(number, text).map(Line::Atom)),
        Keyword::Tolerance => Ok(tolerance_line(text)),
        Keyword::Cell => Ok(cell(number, text)),
        Keyword::Listed => Ok(atom(number, text).map(Line::Listed)),
        Keyword::Value => Ok(value(number, text)),
        Keyword::Axial => Ok(axial(number, text)),
        Keyword::End => Ok(end(text)),
    }
}

// A line that begins with no blank.
fn said_by(alloc: Global, number: u32, text: &[u8]) -> Result<Option<Line>, NoMemory>
    ensures { IfOk result (λ line. line ≡ said_by number text.now) }
{
    let (word, rest) = split_at_mark(text, Mark::Blank);
    match find_keyword(word) {
        None => Ok(None),
        Some(keyword) => by_keyword(alloc, number, rest, keyword),
    }
}

/// What the line of this number says, with its values.
pub fn read_line(alloc: Global, number: u32, line: &[u8]) -> Result<Line, NoMemory>
    ensures { IfOk result (λ kind. kind ≡ kind_of number line.now) }
{
    if is_skipped(line) {
        return Ok(Line::Skip);
    }
    if !is_text(line) {
        return Ok(Line::Bad);
    }
    match said_by(alloc, number, unindented(line))? {
        None => Ok(Line::Bad),
        Some(kind) => Ok(kind),
    }
}
