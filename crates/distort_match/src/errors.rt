// Why there are no displacements.
use iso_text::Name;
use thiserror::Error;

/// Why the atoms of the supercell have no displacements. Lines are named by their numbers in the file.
#[derive(Clone, Copy, Debug, PartialEq, Eq, Error)]
pub enum MatchError {
    /// A place of this listed line matches no atom.
    #[error("a listed atom matches no atom")]
    Unmatched(u32),
    /// A place of this listed line matches two atoms, or one that an earlier place matches.
    #[error("a listed atom matches two atoms or one twice")]
    Ambiguous(u32),
    /// No place matches this atom, the first such one: its label, and its place in units of
    /// 1/12,000,000 of a cell edge.
    #[error("no listed atom for an atom")]
    MissingAtom(Name, [i64; 3]),
    /// The cell of this line has the determinant 0, or a column that is no lattice translation of the
    /// parent, or an edge of the supercell is no whole combination of its columns.
    #[error("bad cell")]
    BadCell(u32),
    /// A coordinate of the place of this listed line, carried by the cell, isn't a whole number of units.
    #[error("a listed place off the grid")]
    OffGrid(u32),
    /// Want of memory.
    #[error("out of memory")]
    NoMemory,
}
