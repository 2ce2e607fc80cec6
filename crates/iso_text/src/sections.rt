// The sections of a file with their line numbers.
use crate::list::TextList;
use crate::name::Name;
use crate::numbers::{Frac, NumList, OpText};

/// An `op` line: an operation that generates the parent group.
#[derive(Clone, Copy, Debug, PartialEq, Eq)]
pub struct OpLine {
    pub line: u32,
    pub op: OpText,
}

/// The `op` lines of a file, seen as their list.
pub type OpLines = TextList<OpLine>;

/// The parent by its lattice and its generators: the letter of the `lattice` line, and the `op` lines.
#[derive(Drop)]
pub struct OpsText {
    pub letter: u8,
    pub ops: OpLines,
}

/// A `mat` line: the operation, and the entries of its matrix, row by row.
#[derive(Drop)]
pub struct MatText {
    pub line: u32,
    pub op: OpText,
    pub entries: NumList,
}

/// The `mat` lines of an irrep, seen as their list.
pub type MatList = TextList<MatText>;

/// A `realvector` line: 1 to 24 numbers.
#[derive(Drop)]
pub struct VectorText {
    pub line: u32,
    pub numbers: NumList,
}

/// An irrep block: the number of its `irrep` line, the name, the dimension of the small
/// representation, the wave vector in lowest terms, the `mat` lines, and the `realvector` line.
#[derive(Drop)]
pub struct IrrepText {
    pub name: Name,
    pub line: u32,
    pub size: u8,
    pub k: [Frac; 3],
    pub mats: MatList,
    pub vector: Option<VectorText>,
}

/// The irrep blocks of a file, seen as their list.
pub type IrrepList = TextList<IrrepText>;

/// An `atom` or `listed` line: the label, and the place in units of 1/12,000,000 of a cell edge.
#[derive(Clone, Copy, PartialEq, Eq)]
pub struct AtomText {
    pub line: u32,
    pub label: Name,
    pub place: [i64; 3],
}

/// The `atom` or the `listed` lines of a file, seen as their list.
pub type AtomList = TextList<AtomText>;

/// A `cell` line: the matrix of the cell of the listed places, row by row, and its origin in units
/// of 1/12,000,000 of a cell edge of the parent.
#[derive(Clone, Copy, PartialEq, Eq)]
pub struct CellText {
    pub line: u32,
    pub rows: [[Frac; 3]; 3],
    pub origin: [i64; 3],
}

/// A `value` line: the label and the place of an atom, and its amount in units of 1/12,000,000.
#[derive(Clone, Copy, PartialEq, Eq)]
pub struct ValueText {
    pub line: u32,
    pub label: Name,
    pub place: [i64; 3],
    pub value: i64,
}

/// The `value` lines of a file, seen as their list.
pub type ValueList = TextList<ValueText>;

/// An `axial` line: the label and the place of an atom, and its axial vector in units of
/// 1/12,000,000.
#[derive(Clone, Copy, PartialEq, Eq)]
pub struct AxialText {
    pub line: u32,
    pub label: Name,
    pub place: [i64; 3],
    pub value: [i64; 3],
}

/// The `axial` lines of a file, seen as their list.
pub type AxialList = TextList<AxialText>;
