// Numbers as a file's words give them.
use crate::list::TextList;

/// A fraction `num / den`, the denominator above 0.
#[derive(Clone, Copy, Debug, PartialEq, Eq, Default, Hash)]
pub struct Frac {
    pub num: i32,
    pub den: u8,
}

/// What a term of a number is a multiple of.
#[derive(Clone, Copy, Debug, PartialEq, Eq)]
pub enum Unit {
    /// 1
    One,
    /// the power 0 to 23 of z = exp(2 pi i / 24)
    Z(u8),
    /// the imaginary unit, z to the power 6
    I,
    /// the positive square root of 2
    R2,
    /// the positive square root of 3
    R3,
    /// the positive square root of 6
    R6,
}

/// A term `num / den` times a unit. From a file: the numerator is at most 10,000 in absolute value,
/// and the denominator one of 1, 2, 3, 4, 6, 8, 12, 24.
#[derive(Clone, Copy, Debug, PartialEq, Eq)]
pub struct Term {
    pub num: i32,
    pub den: u8,
    pub unit: Unit,
}

/// A number as a file writes it: 1 to 16 terms, seen as the list of its terms.
pub type NumText = TextList<Term>;

/// Numbers, seen as their list; on a `mat` line the entries of a matrix, row by row.
pub type NumList = TextList<NumText>;

/// An operation as a file writes it: the rotation row by row, and the translation in twelfths of a
/// cell edge, not reduced into a cell. Entries are from -3 to 3, shifts from -1440 to 1440.
#[derive(Clone, Copy, Debug, PartialEq, Eq)]
pub struct OpText {
    pub rows: [[i8; 3]; 3],
    pub shift: [i32; 3],
}
