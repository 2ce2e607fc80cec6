// The matrices of whole numbers that elements apply to the numbers of an atom.

/// A matrix for each listed operation; element q has that of operation q / T, for T translations. Of each
/// matrix the first rows and columns count, as many as an atom has numbers.
#[derive(Drop)]
pub(crate) struct Turns {
    pub(crate) each: usize,
    pub(crate) translations: usize,
    pub(crate) matrices: Vec<[[i8; 3]; 3]>,
}
