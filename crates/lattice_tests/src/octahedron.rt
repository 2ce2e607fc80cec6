// The group of the octahedron as an action.
ghost use Rattle.lattice_tests.specs.Octahedra.{octahedron};
ghost use Rattle.lattice_tests.specs.OctahedronLaws.{octahedron_lawful};
ghost use Rattle.lattice_tests.specs.Tables.{action_of};

use crate::octahedron_tables::{
    OCTAHEDRON_ENTRIES, OCTAHEDRON_GENERATORS, OCTAHEDRON_INVERSE, OCTAHEDRON_PRODUCT,
};
use crate::writing::write_row;
use cyclo24::{Field, Wide};
use lin_alg::Acts;

/// The group of the octahedron, of order 48, on vectors.
#[derive(Clone, Copy)]
pub struct Octahedron;

impl<F: Field> Acts<F> for Octahedron {
    ghost action = { λ _. action_of F.field octahedron };

    ghost wide = { λ _. ⊥ };

    fn order(&self) -> usize {
        48
    }

    fn dim(&self) -> usize {
        3
    }

    fn product(&self, a: usize, b: usize) -> usize {
        OCTAHEDRON_PRODUCT[a * 48 + b]
    }

    fn inverse(&self, a: usize) -> usize {
        OCTAHEDRON_INVERSE[a]
    }

    fn generators(&self) -> usize {
        5
    }

    fn generator(&self, i: usize) -> usize {
        OCTAHEDRON_GENERATORS[i]
    }

    fn row(&self, q: usize, i: usize, into: &mut [F]) -> Result<(), Wide> {
        write_row(&OCTAHEDRON_ENTRIES, (q * 3 + i) * 3, into);
        Ok(())
    }

    ghost lawful = { λ _. octahedron_lawful F.field };
}
