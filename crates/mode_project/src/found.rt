// The modes that were found.
ghost use Rattle.std.specs.Prelude.{◌≡◌, ◌<◌, ◌≤◌, ◌+◌, ◌^◌, ℕ, [], Some, MatchOption, length, slice_index, slice_index_or, slice_get};

use cyclo24::{Field, K24};
use std::marker::Model;

/// The modes of an orbit: first those of irreps, in the order of the irreps, then unit vectors.
#[derive(Drop)]
pub struct Modes {
    size: usize,
    rows: Vec<(usize, Vec<K24>)>,
    sites: Vec<usize>,
}

impl Model for Modes {
    ghost use Rattle.mode_project.specs.ModesView.{ModesView};

    ghost Value = { ModesView };

    ghost use Rattle.mode_project.specs.ModesInside.{view_of, IsHeld};

    ghost view = { view_of };

    ghost invariant = { IsHeld };
}

impl Modes {
    ghost use Rattle.cyclo24.specs.K24.{exact24};
    ghost use Rattle.mode_project.specs.ModesView.{count_in, mode_in};
    ghost use Rattle.mode_project.specs.Joined.{lines_in, AreLong};

    // The modes of irreps, each with the number of its irrep, and the columns of the others.
    pub(crate) fn of_rows(size: usize, rows: Vec<(usize, Vec<K24>)>, sites: Vec<usize>) -> Modes
        requires long { AreLong size (lines_in rows.items) }
        requires inside { (k : ℕ) → k < length sites.items → slice_index sites.items k < size }
        requires few { length rows.items + length sites.items < 2 ^ 64 }
        requires small { size < 2 ^ 16 }
        ensures size { result.size ≡ size }
        ensures rows { result.rows ≡ lines_in rows.items }
        ensures sites { result.sites ≡ sites.items }
    {
        Modes { size, rows, sites }
    }

    // How many numbers a mode has.
    pub(crate) fn size(&self) -> usize
        ensures value { result ≡ self.now.size }
        ensures small { self.now.size < 2 ^ 16 }
    {
        self.size
    }

    // The modes of irreps, each with the number of its irrep.
    pub(crate) fn rows(&self) -> &[(usize, Vec<K24>)]
        ensures rows { lines_in result.now ≡ self.now.rows }
        ensures long { AreLong self.now.size (lines_in result.now) }
    {
        &self.rows
    }

    // The columns of the unit vectors.
    pub(crate) fn sites(&self) -> &[usize]
        ensures { result.now ≡ self.now.sites }
    {
        &self.sites
    }

    /// How many modes there are: as many as columns.
    pub fn len(&self) -> usize
        ensures { result ≡ count_in self.now }
    {
        self.rows.len() + self.sites.len()
    }

    /// How many of them are modes of irreps; these come first.
    pub fn irrep_modes(&self) -> usize
        ensures { result ≡ length self.now.rows }
    {
        self.rows.len()
    }

    /// The number of mode m in a column.
    pub fn vector(&self, m: usize, column: usize) -> K24
        requires mode { m < count_in self.now }
        requires column { column < self.now.size }
        ensures { exact24 result ≡ mode_in self.now m column }
    {
        if m < self.irrep_modes() {
            return self.row(m)[column];
        }
        if column == self.site(m - self.irrep_modes()) {
            return K24::one();
        }
        K24::zero()
    }

    /// The numbers of mode m, one of an irrep, by column.
    pub fn row(&self, m: usize) -> &[K24]
        requires { m < length self.now.rows }
        ensures row { result.now ≡ (slice_index_or self.now.rows m (0, [])).1 }
        ensures long { length result.now ≡ self.now.size }
    {
        &self.rows[m].1
    }

    /// The column of unit vector number s, from 0, of those behind the modes of irreps.
    pub fn site(&self, s: usize) -> usize
        requires { s < length self.now.sites }
        ensures column { slice_get self.now.sites s ≡ Some result }
        ensures below { result < self.now.size }
    {
        self.sites[s]
    }

    /// The number of the irrep of mode m, from 0. None exactly for a unit vector.
    pub fn irrep_of(&self, m: usize) -> Option<usize>
        requires { m < count_in self.now }
        ensures { MatchOption result (length self.now.rows ≤ m) (λ j. (m < length self.now.rows) × (j ≡ (slice_index_or self.now.rows m (0, [])).0)) }
    {
        if m < self.rows.len() {
            return Some(self.rows[m].0);
        }
        None
    }
}
