// The sixteen rotations of the Hall symbols, row by row.
//
// S. R. Hall, Acta Cryst. A37 (1981) 517; International Tables for Crystallography B, A1.4.2. `'` and
// `"` name two-fold rotations about the face diagonals a-b and a+b and their like, by the axis of the
// part before; `*` names the three-fold rotation about the body diagonal a+b+c.

#[rattlefmt::skip]
pub const ONE: [[i8; 3]; 3] = [
    [1, 0, 0],
    [0, 1, 0],
    [0, 0, 1],
];

#[rattlefmt::skip]
pub const TWO_Z: [[i8; 3]; 3] = [
    [-1, 0, 0],
    [0, -1, 0],
    [0, 0, 1],
];

#[rattlefmt::skip]
pub const THREE_Z: [[i8; 3]; 3] = [
    [0, -1, 0],
    [1, -1, 0],
    [0, 0, 1],
];

#[rattlefmt::skip]
pub const FOUR_Z: [[i8; 3]; 3] = [
    [0, -1, 0],
    [1, 0, 0],
    [0, 0, 1],
];

#[rattlefmt::skip]
pub const SIX_Z: [[i8; 3]; 3] = [
    [1, -1, 0],
    [1, 0, 0],
    [0, 0, 1],
];

#[rattlefmt::skip]
pub const TWO_X: [[i8; 3]; 3] = [
    [1, 0, 0],
    [0, -1, 0],
    [0, 0, -1],
];

#[rattlefmt::skip]
pub const TWO_Y: [[i8; 3]; 3] = [
    [-1, 0, 0],
    [0, 1, 0],
    [0, 0, -1],
];

#[rattlefmt::skip]
pub const FOUR_X: [[i8; 3]; 3] = [
    [1, 0, 0],
    [0, 0, -1],
    [0, 1, 0],
];

#[rattlefmt::skip]
pub const FOUR_Y: [[i8; 3]; 3] = [
    [0, 0, 1],
    [0, 1, 0],
    [-1, 0, 0],
];

#[rattlefmt::skip]
pub const TWO_PRIME_AFTER_Z: [[i8; 3]; 3] = [
    [0, -1, 0],
    [-1, 0, 0],
    [0, 0, -1],
];

#[rattlefmt::skip]
pub const TWO_DOUBLE_PRIME_AFTER_Z: [[i8; 3]; 3] = [
    [0, 1, 0],
    [1, 0, 0],
    [0, 0, -1],
];

#[rattlefmt::skip]
pub const TWO_PRIME_AFTER_X: [[i8; 3]; 3] = [
    [-1, 0, 0],
    [0, 0, -1],
    [0, -1, 0],
];

#[rattlefmt::skip]
pub const TWO_DOUBLE_PRIME_AFTER_X: [[i8; 3]; 3] = [
    [-1, 0, 0],
    [0, 0, 1],
    [0, 1, 0],
];

#[rattlefmt::skip]
pub const TWO_PRIME_AFTER_Y: [[i8; 3]; 3] = [
    [0, 0, -1],
    [0, -1, 0],
    [-1, 0, 0],
];

#[rattlefmt::skip]
pub const TWO_DOUBLE_PRIME_AFTER_Y: [[i8; 3]; 3] = [
    [0, 0, 1],
    [0, -1, 0],
    [1, 0, 0],
];

#[rattlefmt::skip]
pub const THREE_STAR: [[i8; 3]; 3] = [
    [0, 0, 1],
    [1, 0, 0],
    [0, 1, 0],
];
