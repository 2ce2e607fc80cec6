// The draft with one line more.
ghost use Rattle.std.specs.Prelude.{◌≡◌, IfOk, Some, None, true, if◌then◌else◌, option_and_then};
ghost use Rattle.iso_text.specs.Draft.{on_section, next_of};
ghost use Rattle.iso_text.specs.DraftLines.{settled, on_head, on_hall, on_lattice, on_op, on_k, takes_mat, on_mat, on_vector};
ghost use Rattle.iso_text.specs.declared.draft.Draft.{Draft};

use crate::NoMemory;
use crate::document::Document;
use crate::draft::{Draft, Stage, at, begin};
use crate::line_kinds::Line;
use crate::list::TextList;
use crate::numbers::Frac;
use crate::section_steps::on_section;
use crate::sections::{IrrepText, MatText, OpLine, OpsText, VectorText};
use crate::text::Text;
use std::alloc::Global;
use std::mem::replace;

/// The most `mat` lines of an irrep block.
pub const MAX_MATS: usize = 96;

/// The most `op` lines of a file.
pub const MAX_OPS: usize = 5;

// Puts the open parent or block into the document, where a line of another section may follow, and
// says whether one may.
fn settle(draft: &mut Draft) -> Result<bool, NoMemory>
    ensures document { IfOk result (λ may. settled draft.old.stage draft.old.document ≡ (if may then Some draft.new.document else None)) }
    ensures body { IfOk result (λ _. draft.new.stage ≡ Stage.Body) }
{
    if let Stage::Body = draft.stage {
        return Ok(true);
    }
    match replace(&mut draft.stage, Stage::Body) {
        Stage::Lattice(line, generators) => {
            if generators.ops.as_slice().is_empty() {
                return Ok(false);
            }
            draft.document.set_generators(line, generators);
            Ok(true)
        }
        Stage::Block(irrep) => {
            if irrep.mats.as_slice().is_empty() {
                return Ok(false);
            }
            draft.document.push_irrep(irrep)?;
            Ok(true)
        }
        _ => Ok(false),
    }
}

// Goes on with the draft, where there is one, and says whether.
fn go_on(draft: &mut Draft, next: Option<Draft>) -> bool
    ensures { next ≡ (if result then Some draft.new else None) }
{
    match next {
        Some(next) => {
            *draft = next;
            true
        }
        None => false,
    }
}

fn on_head(alloc: Global, format: u8, stage: Stage) -> Option<Draft>
    ensures { result ≡ on_head format stage }
{
    match stage {
        Stage::Begin => at(Stage::Headed, Document::empty(alloc, format)),
        _ => None,
    }
}

fn on_hall(number: u32, text: Text, stage: Stage, document: Document) -> Option<Draft>
    ensures { result ≡ on_hall number text stage document }
{
    let mut document = document;
    match stage {
        Stage::Headed => {
            document.set_hall(number, text);
            at(Stage::Body, document)
        }
        _ => None,
    }
}

fn on_lattice(
    alloc: Global,
    number: u32,
    letter: u8,
    stage: Stage,
    document: Document,
) -> Option<Draft>
    ensures { result ≡ on_lattice number letter stage document }
{
    match stage {
        Stage::Headed => {
            if document.format() != 2 {
                return None;
            }
            let ops = TextList::from_vec(Vec::new(alloc));
            at(Stage::Lattice(number, OpsText { letter, ops }), document)
        }
        _ => None,
    }
}

fn on_op(op: OpLine, stage: Stage, document: Document) -> Result<Option<Draft>, NoMemory>
    ensures { IfOk result (λ next. next ≡ on_op op stage document) }
{
    match stage {
        Stage::Lattice(line, generators) => {
            let mut generators = generators;
            if generators.ops.as_slice().len() >= MAX_OPS {
                return Ok(None);
            }
            generators.ops.push(op)?;
            Ok(at(Stage::Lattice(line, generators), document))
        }
        _ => Ok(None),
    }
}

fn on_k(alloc: Global, k: [Frac; 3], stage: Stage, document: Document) -> Option<Draft>
    ensures { result ≡ on_k k stage document }
{
    let line = match &stage {
        Stage::Open(line) => *line,
        _ => return None,
    };
    let mats = TextList::from_vec(Vec::new(alloc));
    let irrep = IrrepText {
        name: line.name,
        line: line.line,
        size: line.size,
        k,
        mats,
        vector: None,
    };
    at(Stage::Block(irrep), document)
}

fn takes_mat(mat: &MatText, irrep: &IrrepText) -> bool
    ensures { result ≡ takes_mat mat.now irrep.now }
{
    let size = usize::from(irrep.size);
    irrep.vector.is_none()
        && irrep.mats.as_slice().len() < MAX_MATS
        && mat.entries.as_slice().len() == size * size
}

fn on_mat(mat: MatText, stage: Stage, document: Document) -> Result<Option<Draft>, NoMemory>
    ensures { IfOk result (λ next. next ≡ on_mat mat stage document) }
{
    match stage {
        Stage::Block(irrep) => {
            let mut irrep = irrep;
            if !takes_mat(&mat, &irrep) {
                return Ok(None);
            }
            irrep.mats.push(mat)?;
            Ok(at(Stage::Block(irrep), document))
        }
        _ => Ok(None),
    }
}

fn on_vector(vector: VectorText, stage: Stage, document: Document) -> Option<Draft>
    ensures { result ≡ on_vector vector stage document }
{
    match stage {
        Stage::Block(irrep) => {
            let mut irrep = irrep;
            if document.format() != 2
                || irrep.vector.is_some()
                || irrep.mats.as_slice().is_empty()
            {
                return None;
            }
            irrep.vector = Some(vector);
            at(Stage::Block(irrep), document)
        }
        _ => None,
    }
}

// Takes the draft out; nothing read is left in its place.
fn taken(alloc: Global, draft: &mut Draft) -> Draft
    ensures { result ≡ draft.old }
{
    replace(draft, begin(alloc))
}

// Goes on with a line of a section, or the end.
fn go_on_with_section(draft: &mut Draft, line: &Line) -> Result<bool, NoMemory>
    ensures { IfOk result (λ took. option_and_then (on_section line.now) (settled draft.old.stage draft.old.document) ≡ (if took then Some draft.new else None)) }
{
    if !settle(draft)? {
        return Ok(false);
    }
    on_section(line, draft)
}

// Whether a line is one of the sections of single lines.
fn is_of_section(line: &Line) -> bool
    ensures { (d : Draft) → result ≡ true → option_and_then (on_section line.now) (settled d.stage d.document) ≡ next_of d line.now }
{
    matches!(
        line,
        Line::Atom(_) | Line::Listed(_) | Line::Value(_) | Line::Axial(_)
    )
}

// Goes on with any line. Its many drafts stand apart from the lines that are many.
#[inline(never)]
fn go_on_with_any(alloc: Global, draft: &mut Draft, line: Line) -> Result<bool, NoMemory>
    ensures { IfOk result (λ took. next_of draft.old line ≡ (if took then Some draft.new else None)) }
{
    match line {
        Line::Skip => Ok(true),
        Line::Bad => Ok(false),
        Line::Head(format) => {
            let Draft { stage, document: _ } = taken(alloc, draft);
            Ok(go_on(draft, on_head(alloc, format, stage)))
        }
        Line::Hall(number, text) => {
            let Draft { stage, document } = taken(alloc, draft);
            Ok(go_on(draft, on_hall(number, text, stage, document)))
        }
        Line::Lattice(number, letter) => {
            let Draft { stage, document } = taken(alloc, draft);
            Ok(go_on(draft, on_lattice(alloc, number, letter, stage, document)))
        }
        Line::Op(op) => {
            let Draft { stage, document } = taken(alloc, draft);
            Ok(go_on(draft, on_op(op, stage, document)?))
        }
        Line::K(k) => {
            let Draft { stage, document } = taken(alloc, draft);
            Ok(go_on(draft, on_k(alloc, k, stage, document)))
        }
        Line::Mat(mat) => {
            let Draft { stage, document } = taken(alloc, draft);
            Ok(go_on(draft, on_mat(mat, stage, document)?))
        }
        Line::RealVector(vector) => {
            let Draft { stage, document } = taken(alloc, draft);
            Ok(go_on(draft, on_vector(vector, stage, document)))
        }
        other => go_on_with_section(draft, &other),
    }
}

/// Goes on with the line, and says whether it can stand there. A draft that has refused a line, or
/// met want of memory, is of no further use.
pub fn next(alloc: Global, draft: &mut Draft, line: Line) -> Result<bool, NoMemory>
    ensures { IfOk result (λ took. next_of draft.old line ≡ (if took then Some draft.new else None)) }
{
    if is_of_section(&line) {
        go_on_with_section(draft, &line)
    } else {
        go_on_with_any(alloc, draft, line)
    }
}
