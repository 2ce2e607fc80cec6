// Groups that act by matrices of -1, 0 and 1, as tables. The product of a and b is entry b of row a.

/// Products in the prism's group: the rotations 0, 1, 2, each after an upright mirror 3, 4, 5, and
/// each of these after the level mirror, 6 to 11.
#[rattlefmt::skip]
pub const PRISM_PRODUCT: [usize; 144] = [
    0, 1, 2, 3, 4, 5, 6, 7, 8, 9, 10, 11,
    1, 2, 0, 4, 5, 3, 7, 8, 6, 10, 11, 9,
    2, 0, 1, 5, 3, 4, 8, 6, 7, 11, 9, 10,
    3, 5, 4, 0, 2, 1, 9, 11, 10, 6, 8, 7,
    4, 3, 5, 1, 0, 2, 10, 9, 11, 7, 6, 8,
    5, 4, 3, 2, 1, 0, 11, 10, 9, 8, 7, 6,
    6, 7, 8, 9, 10, 11, 0, 1, 2, 3, 4, 5,
    7, 8, 6, 10, 11, 9, 1, 2, 0, 4, 5, 3,
    8, 6, 7, 11, 9, 10, 2, 0, 1, 5, 3, 4,
    9, 11, 10, 6, 8, 7, 3, 5, 4, 0, 2, 1,
    10, 9, 11, 7, 6, 8, 4, 3, 5, 1, 0, 2,
    11, 10, 9, 8, 7, 6, 5, 4, 3, 2, 1, 0,
];

/// Inverses in the prism's group.
#[rattlefmt::skip]
pub const PRISM_INVERSE: [usize; 12] = [
    0, 2, 1, 3, 4, 5, 6, 8, 7, 9, 10, 11,
];

/// A rotation, an upright mirror and the level mirror generate the prism's group.
#[rattlefmt::skip]
pub const PRISM_GENERATORS: [usize; 3] = [
    1, 3, 6,
];

/// The matrices of the prism's group, row by row: on the plane of the triangle, with two vectors to
/// its corners as basis, and on two more coordinates, whose signs the level mirror changes.
#[rattlefmt::skip]
pub const PRISM_ENTRIES: [i8; 192] = [
    1, 0, 0, 0, 0, 1, 0, 0, 0, 0, 1, 0, 0, 0, 0, 1,
    0, -1, 0, 0, 1, -1, 0, 0, 0, 0, 1, 0, 0, 0, 0, 1,
    -1, 1, 0, 0, -1, 0, 0, 0, 0, 0, 1, 0, 0, 0, 0, 1,
    0, 1, 0, 0, 1, 0, 0, 0, 0, 0, 1, 0, 0, 0, 0, 1,
    -1, 0, 0, 0, -1, 1, 0, 0, 0, 0, 1, 0, 0, 0, 0, 1,
    1, -1, 0, 0, 0, -1, 0, 0, 0, 0, 1, 0, 0, 0, 0, 1,
    1, 0, 0, 0, 0, 1, 0, 0, 0, 0, -1, 0, 0, 0, 0, -1,
    0, -1, 0, 0, 1, -1, 0, 0, 0, 0, -1, 0, 0, 0, 0, -1,
    -1, 1, 0, 0, -1, 0, 0, 0, 0, 0, -1, 0, 0, 0, 0, -1,
    0, 1, 0, 0, 1, 0, 0, 0, 0, 0, -1, 0, 0, 0, 0, -1,
    -1, 0, 0, 0, -1, 1, 0, 0, 0, 0, -1, 0, 0, 0, 0, -1,
    1, -1, 0, 0, 0, -1, 0, 0, 0, 0, -1, 0, 0, 0, 0, -1,
];

/// Products of the tetrahedron's rotations: the identity and the half turns about the axes, 0 to 3, each of
/// these after a third of a turn, 4 to 7, and after two, 8 to 11.
#[rattlefmt::skip]
pub const TETRAHEDRON_PRODUCT: [usize; 144] = [
    0, 1, 2, 3, 4, 5, 6, 7, 8, 9, 10, 11,
    1, 0, 3, 2, 5, 4, 7, 6, 9, 8, 11, 10,
    2, 3, 0, 1, 6, 7, 4, 5, 10, 11, 8, 9,
    3, 2, 1, 0, 7, 6, 5, 4, 11, 10, 9, 8,
    4, 6, 7, 5, 8, 10, 11, 9, 0, 2, 3, 1,
    5, 7, 6, 4, 9, 11, 10, 8, 1, 3, 2, 0,
    6, 4, 5, 7, 10, 8, 9, 11, 2, 0, 1, 3,
    7, 5, 4, 6, 11, 9, 8, 10, 3, 1, 0, 2,
    8, 11, 9, 10, 0, 3, 1, 2, 4, 7, 5, 6,
    9, 10, 8, 11, 1, 2, 0, 3, 5, 6, 4, 7,
    10, 9, 11, 8, 2, 1, 3, 0, 6, 5, 7, 4,
    11, 8, 10, 9, 3, 0, 2, 1, 7, 4, 6, 5,
];

/// Inverses of the tetrahedron's rotations.
#[rattlefmt::skip]
pub const TETRAHEDRON_INVERSE: [usize; 12] = [
    0, 1, 2, 3, 8, 11, 9, 10, 4, 6, 7, 5,
];

/// Half turns about the first and the second axis and a third of a turn generate the rotations.
#[rattlefmt::skip]
pub const TETRAHEDRON_GENERATORS: [usize; 3] = [
    1, 2, 4,
];

/// The matrices of the tetrahedron's rotations on vectors, row by row.
#[rattlefmt::skip]
pub const TETRAHEDRON_ENTRIES: [i8; 108] = [
    1, 0, 0, 0, 1, 0, 0, 0, 1,
    1, 0, 0, 0, -1, 0, 0, 0, -1,
    -1, 0, 0, 0, 1, 0, 0, 0, -1,
    -1, 0, 0, 0, -1, 0, 0, 0, 1,
    0, 0, 1, 1, 0, 0, 0, 1, 0,
    0, 0, 1, -1, 0, 0, 0, -1, 0,
    0, 0, -1, 1, 0, 0, 0, -1, 0,
    0, 0, -1, -1, 0, 0, 0, 1, 0,
    0, 1, 0, 0, 0, 1, 1, 0, 0,
    0, 1, 0, 0, 0, -1, -1, 0, 0,
    0, -1, 0, 0, 0, 1, -1, 0, 0,
    0, -1, 0, 0, 0, -1, 1, 0, 0,
];
