// The kinds of lines of a file.
use crate::name::Name;
use crate::numbers::Frac;
use crate::sections::{AtomText, AxialText, CellText, MatText, OpLine, ValueText, VectorText};
use crate::text::Text;

/// The first word of a line.
#[derive(Clone, Copy, Debug, PartialEq, Eq)]
pub enum Keyword {
    Isodist,
    Hall,
    Lattice,
    Op,
    Irrep,
    K,
    Mat,
    RealVector,
    Atom,
    Tolerance,
    Cell,
    Listed,
    Value,
    Axial,
    End,
}

/// An `irrep` line.
#[derive(Clone, Copy, PartialEq, Eq)]
pub struct IrrepLine {
    pub line: u32,
    pub name: Name,
    pub size: u8,
}

/// What a line says, whatever the format of its file.
#[derive(Drop)]
pub enum Line {
    /// a comment, or nothing but blanks
    Skip,
    /// no line of a file
    Bad,
    /// the format's number
    Head(u8),
    /// the line's number and the text of a Hall symbol
    Hall(u32, Text),
    /// the line's number and the letter of a lattice
    Lattice(u32, u8),
    Op(OpLine),
    Irrep(IrrepLine),
    K([Frac; 3]),
    Mat(MatText),
    RealVector(VectorText),
    Atom(AtomText),
    Tolerance(i64),
    Cell(CellText),
    Listed(AtomText),
    Value(ValueText),
    Axial(AxialText),
    End,
}
