// The amounts of the atoms of a supercell.
use iso_text::NoMemory;
use std::alloc::Global;
use std::marker::Model;
use wyckoff::Orbit;

/// The numbers of the atoms of one orbit, three for each.
#[derive(Drop)]
pub(crate) struct OrbitAmounts {
    numbers: Vec<[i64; 3]>,
}

impl Model for OrbitAmounts {
    ghost use Rattle.std.specs.Prelude.{List, ℤ};

    ghost Value = { List (List ℤ) };

    ghost view = { λ a. a.numbers.items };
}

impl OrbitAmounts {
    ghost use Rattle.std.specs.Prelude.{◌≡◌, ◌<◌, [], IfOk, length, map, slice_index_or, slice_set};
    ghost use Rattle.extra_modes.specs.Amounts.{nothing};

    // Nothing for each atom of an orbit.
    pub(crate) fn new(alloc: Global, orbit: &Orbit) -> Result<OrbitAmounts, NoMemory>
        ensures { IfOk result (λ a. a ≡ map (λ place. nothing) orbit.now.places) }
    {
        let mut numbers = Vec::new(alloc);
        for _ in 0..orbit.atoms() {
            match numbers.push([0, 0, 0]) {
                Ok(()) => {}
                Err(_) => return Err(NoMemory),
            }
        }
        Ok(OrbitAmounts { numbers })
    }

    // How many atoms there are.
    fn len(&self) -> usize
        ensures { result ≡ length self.now }
    {
        self.numbers.len()
    }

    // The numbers of atom i.
    fn get(&self, i: usize) -> [i64; 3]
        requires { i < length self.now }
        ensures { result ≡ slice_index_or self.now i [] }
    {
        self.numbers[i]
    }

    // Writes the numbers of atom i.
    pub(crate) fn set(&mut self, i: usize, numbers: [i64; 3])
        requires { i < length self.old }
        ensures { self.new ≡ slice_set self.old i numbers }
    {
        self.numbers[i] = numbers;
    }
}

/// The amounts of the atoms of each orbit of a supercell, in units of 1/12,000,000: one number an atom,
/// or three along the cell edges.
#[derive(Drop)]
pub struct Amounts {
    each: usize,
    orbits: Vec<OrbitAmounts>,
}

impl Model for Amounts {
    ghost use Rattle.extra_modes.specs.Amounts.{AmountsView};

    ghost Value = { AmountsView };

    ghost use Rattle.extra_modes.specs.GatherParts.{view_of, IsHeld};

    ghost view = { view_of };

    ghost invariant = { IsHeld };
}

impl Amounts {
    ghost use Rattle.std.specs.Prelude.{◌≡◌, ◌<◌, ◌≤◌, ◌*◌, [], length, slice_index_or};
    ghost use Rattle.extra_modes.specs.Amounts.{amount_at};

    // The amounts of these orbits, so many numbers an atom.
    pub(crate) fn from_vec(each: usize, orbits: Vec<OrbitAmounts>) -> Amounts
        requires { each ≤ 3 }
        ensures each { result.each ≡ each }
        ensures atoms { result.atoms ≡ orbits.items }
    {
        Amounts { each, orbits }
    }

    /// How many orbits there are.
    pub fn len(&self) -> usize
        ensures { result ≡ length self.now.atoms }
    {
        self.orbits.len()
    }

    /// How many numbers an atom has.
    pub fn each(&self) -> usize
        ensures { result ≡ self.now.each }
    {
        self.each
    }

    /// How many atoms an orbit has.
    pub fn atoms(&self, orbit: usize) -> usize
        requires { orbit < length self.now.atoms }
        ensures { result ≡ length (slice_index_or self.now.atoms orbit []) }
    {
        self.orbits[orbit].len()
    }

    /// The amount in a column of an orbit: number a of atom i in column c i + a, for c numbers an atom.
    pub fn of(&self, orbit: usize, column: usize) -> i64
        requires orbit { orbit < length self.now.atoms }
        requires column { column < length (slice_index_or self.now.atoms orbit []) * self.now.each }
        ensures { result ≡ amount_at self.now orbit column }
    {
        self.orbits[orbit].get(column / self.each)[column % self.each]
    }
}
