// The displacements of the atoms of a supercell.
use std::marker::Model;

/// The displacements of the atoms of one orbit.
#[derive(Drop)]
pub(crate) struct OrbitShifts {
    shifts: Vec<[i64; 3]>,
}

impl Model for OrbitShifts {
    ghost use Rattle.std.specs.Prelude.{List, ℤ};

    ghost Value = { List (List ℤ) };

    ghost view = { λ s. s.shifts.items };
}

impl OrbitShifts {
    ghost use Rattle.std.specs.Prelude.{◌≡◌, ◌<◌, [], length, slice_index_or};

    // These displacements.
    pub(crate) fn from_vec(shifts: Vec<[i64; 3]>) -> OrbitShifts
        ensures { result ≡ shifts.items }
    {
        OrbitShifts { shifts }
    }

    // How many atoms there are.
    fn len(&self) -> usize
        ensures { result ≡ length self.now }
    {
        self.shifts.len()
    }

    // The displacement of atom i.
    fn get(&self, i: usize) -> [i64; 3]
        requires { i < length self.now }
        ensures { result ≡ slice_index_or self.now i [] }
    {
        self.shifts[i]
    }
}

/// The displacement of each atom of each orbit of a supercell, in units of 1/12,000,000 of a cell edge.
#[derive(Drop)]
pub struct Shifts {
    orbits: Vec<OrbitShifts>,
}

impl Model for Shifts {
    ghost use Rattle.std.specs.Prelude.{List, ℤ};

    ghost Value = { List (List (List ℤ)) };

    ghost view = { λ s. s.orbits.items };
}

impl Shifts {
    ghost use Rattle.std.specs.Prelude.{◌≡◌, ◌<◌, ◌*◌, ◌/◌, ◌%◌, [], length, slice_index_or};
    ghost use Rattle.space_ops.specs.Op.{number_at};
    ghost use Rattle.distort_match.specs.Outcomes.{shift_at};

    // The displacements of these orbits.
    pub(crate) fn from_vec(orbits: Vec<OrbitShifts>) -> Shifts
        ensures { result ≡ orbits.items }
    {
        Shifts { orbits }
    }

    /// How many orbits there are.
    pub fn len(&self) -> usize
        ensures { result ≡ length self.now }
    {
        self.orbits.len()
    }

    /// How many atoms an orbit has.
    pub fn atoms(&self, orbit: usize) -> usize
        requires { orbit < length self.now }
        ensures { result ≡ length (slice_index_or self.now orbit []) }
    {
        self.orbits[orbit].len()
    }

    /// The displacement of an atom of an orbit.
    pub fn shift(&self, orbit: usize, atom: usize) -> [i64; 3]
        requires orbit { orbit < length self.now }
        requires atom { atom < length (slice_index_or self.now orbit []) }
        ensures { result ≡ shift_at self.now orbit atom }
    {
        self.orbits[orbit].get(atom)
    }

    /// Coordinate a of the displacement of atom i of an orbit, for column 3 i + a.
    pub fn of(&self, orbit: usize, column: usize) -> i64
        requires orbit { orbit < length self.now }
        requires column { column < 3 * length (slice_index_or self.now orbit []) }
        ensures { result ≡ number_at (shift_at self.now orbit (column / 3)) (column % 3) }
    {
        self.shift(orbit, column / 3)[column % 3]
    }
}
