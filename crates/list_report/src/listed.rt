// What the steps of a listing have found.
use class_list::Listing;
use cyclo24::K24;
use iso_text::Name;
use real_form::RealForm;
use super_group::Quotient;

/// An irrep by its name, with its real form; the quotient that acts, and the file's format.
#[derive(Drop)]
pub struct FormedIrrep {
    pub format: u8,
    pub name: Name,
    pub quotient: Quotient,
    pub form: RealForm,
}

/// An irrep by its name and real dimension, with the listing of its directions, and the page that is
/// told: it skips `after` directions and has at most `count`, or all.
#[derive(Drop)]
pub struct ListedIrrep {
    pub format: u8,
    pub name: Name,
    pub quotient: Quotient,
    pub dim: usize,
    pub listing: Listing<K24>,
    pub after: u64,
    pub count: Option<u64>,
}
