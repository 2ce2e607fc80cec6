// The rotations of the tetrahedron as an action.
ghost use Rattle.lattice_tests.specs.Tetrahedra.{tetrahedron};
ghost use Rattle.lattice_tests.specs.TetrahedronLaws.{tetrahedron_lawful};
ghost use Rattle.lattice_tests.specs.Tables.{action_of};

use crate::tables::{
    TETRAHEDRON_ENTRIES, TETRAHEDRON_GENERATORS, TETRAHEDRON_INVERSE, TETRAHEDRON_PRODUCT,
};
use crate::writing::write_row;
use cyclo24::{Field, Wide};
use lin_alg::Acts;

/// The rotations of the tetrahedron, of order 12, on vectors.
#[derive(Clone, Copy)]
pub struct Tetrahedron;

impl<F: Field> Acts<F> for Tetrahedron {
    ghost action = { λ _. action_of F.field tetrahedron };

    ghost wide = { λ _. ⊥ };

    fn order(&self) -> usize {
        12
    }

    fn dim(&self) -> usize {
        3
    }

    fn product(&self, a: usize, b: usize) -> usize {
        TETRAHEDRON_PRODUCT[a * 12 + b]
    }

    fn inverse(&self, a: usize) -> usize {
        TETRAHEDRON_INVERSE[a]
    }

    fn generators(&self) -> usize {
        3
    }

    fn generator(&self, i: usize) -> usize {
        TETRAHEDRON_GENERATORS[i]
    }

    fn row(&self, q: usize, i: usize, into: &mut [F]) -> Result<(), Wide> {
        write_row(&TETRAHEDRON_ENTRIES, (q * 3 + i) * 3, into);
        Ok(())
    }

    ghost lawful = { λ _. tetrahedron_lawful F.field };
}
