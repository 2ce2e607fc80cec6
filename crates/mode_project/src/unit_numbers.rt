// Numbers of atoms in units.
ghost use Rattle.std.specs.Prelude.{◌≡◌, ◌<◌, ◌*◌, ◌/◌, ◌%◌, ℕ, ℤ, [], length, slice_index_or};
ghost use Rattle.space_ops.specs.Op.{number_at};
ghost use Rattle.distort_match.specs.Outcomes.{shift_at};

use distort_match::Shifts;

/// Whole numbers of units, 1/12,000,000 of a whole, in the columns of each orbit.
pub trait AtomNumbers {
    /// How many columns an orbit has.
    ghost columns: { Self → ℕ → ℕ };

    /// The number in a column of an orbit.
    ghost number: { Self → ℕ → ℕ → ℤ };

    /// The number in a column of an orbit.
    fn number(&self, orbit: usize, column: usize) -> i64
        requires { column < columns self.now orbit }
        ensures { result ≡ number self.now orbit column };
}

impl AtomNumbers for Shifts {
    ghost columns = { λ shifts o. 3 * length (slice_index_or shifts o []) };

    ghost number = { λ shifts o c. number_at (shift_at shifts o (c / 3)) (c % 3) };

    fn number(&self, orbit: usize, column: usize) -> i64 {
        self.of(orbit, column)
    }
}
