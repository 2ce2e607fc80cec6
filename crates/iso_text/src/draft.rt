// Where a reader of lines stands.
ghost use Rattle.std.specs.Prelude.{◌≡◌, Some};
ghost use Rattle.iso_text.specs.Draft.{begin, finished};
ghost use Rattle.iso_text.specs.DraftLines.{draft};

use crate::document::Document;
use crate::line_kinds::IrrepLine;
use crate::sections::{IrrepText, OpsText};
use std::alloc::Global;

/// Where a reader of lines stands.
#[derive(Drop)]
pub enum Stage {
    /// before the first line
    Begin,
    /// behind the line of the format
    Headed,
    /// behind a `lattice` line of this number, or an `op` line behind it
    Lattice(u32, OpsText),
    /// behind the parent or a later section, no block is open
    Body,
    /// behind an `irrep` line
    Open(IrrepLine),
    /// behind a `k`, `mat` or `realvector` line
    Block(IrrepText),
    /// behind `end`
    Done,
}

/// What has been read so far.
#[derive(Drop)]
pub struct Draft {
    pub stage: Stage,
    pub document: Document,
}

/// A draft at a stage.
pub fn at(stage: Stage, document: Document) -> Option<Draft>
    ensures { result ≡ Some (draft stage document) }
{
    Some(Draft { stage, document })
}

/// Nothing is read yet. It takes no memory.
pub fn begin(alloc: Global) -> Draft
    ensures { result ≡ begin }
{
    Draft {
        stage: Stage::Begin,
        document: Document::empty(alloc, 1),
    }
}

/// The document where the end is read.
pub fn finished(draft: Draft) -> Option<Document>
    ensures { result ≡ finished draft }
{
    let Draft { stage, document } = draft;
    match stage {
        Stage::Done => Some(document),
        _ => None,
    }
}
