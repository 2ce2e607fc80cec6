// What a watcher is told.

/// A direction of a page: its number in the listing, from 1, its dimension, and the order and the index
/// of its stabiliser.
#[derive(Clone, Copy, Debug, PartialEq, Eq)]
pub struct Notice {
    pub number: u32,
    pub dim: u8,
    pub order: u32,
    pub index: u32,
}
