// What is told of the atoms.

/// An occupation, one number an atom, or an axial vector, three numbers along the cell edges.
#[derive(Clone, Copy, Debug, PartialEq, Eq)]
pub enum Nature {
    Occupation,
    Axial,
}
