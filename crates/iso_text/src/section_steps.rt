// The lines of the sections behind the parent: which of them may stand next.
ghost use Rattle.std.specs.Prelude.{◌≡◌, ◌<◌, ◌==◌, IfOk, IfSome, Some, None, if◌then◌else◌};
ghost use Rattle.std.specs.List.{list_all};
ghost use Rattle.iso_text.specs.Draft.{has_room, section_takes, section_of, with_line, on_section};
ghost use Rattle.iso_text.specs.DraftLines.{on_irrep};
ghost use Rattle.iso_text.specs.File.{is_new};
ghost use Rattle.iso_text.specs.FileLines.{sections};

use crate::NoMemory;
use crate::document::Document;
use crate::draft::{Draft, Stage};
use crate::line_kinds::{IrrepLine, Line};
use crate::name::Name;
use crate::sections::IrrepText;
use crate::word_lists::is_same;

/// A section behind the parent: the most items that it may have, whether it stands in files of
/// format 2 alone, and whether it asks for a tolerance line.
#[derive(Clone, Copy, Debug, PartialEq, Eq)]
pub struct Section {
    pub most: usize,
    pub is_second: bool,
    pub is_matched: bool,
}

/// The sections in their order: irrep blocks, atoms, the tolerance, the cell, listed atoms, amounts,
/// axial vectors.
#[rattlefmt::skip]
pub const SECTIONS: [Section; 7] = [
    Section { most: 8, is_second: false, is_matched: false },
    Section { most: 64, is_second: false, is_matched: false },
    Section { most: 1, is_second: false, is_matched: false },
    Section { most: 1, is_second: true, is_matched: true },
    Section { most: 4096, is_second: false, is_matched: true },
    Section { most: 4096, is_second: true, is_matched: false },
    Section { most: 4096, is_second: true, is_matched: false },
];

fn are_zero(counts: &[usize]) -> bool
    ensures { result ≡ list_all (λ n. n == 0) counts.now }
{
    counts.iter().all(|n| *n == 0)
}

// Whether this section is short of its most items, and those behind it are empty.
fn has_room(document: &Document, section: usize) -> bool
    requires { section < 7 }
    ensures { result ≡ has_room section (sections document.now) }
{
    let counts = document.counts();
    let most = SECTIONS[section].most;
    counts[section] < most && are_zero(&counts[section + 1..])
}

// Whether an item of this section may stand next.
fn takes(document: &Document, section: usize) -> bool
    requires { section < 7 }
    ensures { result ≡ section_takes section document.now }
{
    let rule = SECTIONS[section];
    has_room(document, section)
        && (!rule.is_second || document.format() == 2)
        && (!rule.is_matched || document.has_tolerance())
}

// The number of the section that a line begins or goes on with.
fn section_of(line: &Line) -> Option<usize>
    ensures value { result ≡ section_of line.now }
    ensures below { IfSome result (λ n. n < 7) }
{
    match line {
        Line::Irrep(_) => Some(0),
        Line::Atom(_) => Some(1),
        Line::Tolerance(_) => Some(2),
        Line::Cell(_) => Some(3),
        Line::Listed(_) => Some(4),
        Line::Value(_) => Some(5),
        Line::Axial(_) => Some(6),
        _ => None,
    }
}

fn is_new(name: &Name, irreps: &[IrrepText]) -> bool
    ensures { result ≡ is_new name.now irreps.now }
{
    irreps
        .iter()
        .all(|irrep| !is_same(irrep.name.as_slice(), name.as_slice()))
}

fn on_irrep(line: IrrepLine, draft: &mut Draft) -> bool
    ensures { on_irrep line draft.old.document ≡ (if result then Some draft.new else None) }
{
    if is_new(&line.name, draft.document.irreps()) {
        draft.stage = Stage::Open(line);
        true
    } else {
        false
    }
}

// Adds an item of a section, and says whether it may stand there.
fn with_line(line: &Line, draft: &mut Draft) -> Result<bool, NoMemory>
    requires { draft.old.stage ≡ Stage.Body }
    ensures { IfOk result (λ took. with_line line.now draft.old.document ≡ (if took then Some draft.new else None)) }
{
    let document = &mut draft.document;
    match line {
        Line::Irrep(irrep) => return Ok(on_irrep(*irrep, draft)),
        Line::Atom(atom) => document.push_atom(*atom)?,
        Line::Tolerance(tolerance) => document.set_tolerance(*tolerance),
        Line::Cell(cell) => document.set_cell(*cell),
        Line::Listed(atom) => document.push_listed(*atom)?,
        Line::Value(value) => document.push_value(*value)?,
        Line::Axial(axial) => document.push_axial(*axial)?,
        _ => return Ok(false),
    }
    Ok(true)
}

/// Adds a line that begins or goes on with a section, or ends the file, and says whether it can
/// stand there.
pub fn on_section(line: &Line, draft: &mut Draft) -> Result<bool, NoMemory>
    requires { draft.old.stage ≡ Stage.Body }
    ensures { IfOk result (λ took. on_section line.now draft.old.document ≡ (if took then Some draft.new else None)) }
{
    match line {
        Line::End => {
            draft.stage = Stage::Done;
            Ok(true)
        }
        _ => match section_of(line) {
            None => Ok(false),
            Some(section) => {
                if takes(&draft.document, section) {
                    with_line(line, draft)
                } else {
                    Ok(false)
                }
            }
        },
    }
}
