// The group of the triangular prism as an action.
ghost use Rattle.lattice_tests.specs.Prisms.{prism};
ghost use Rattle.lattice_tests.specs.PrismLaws.{prism_lawful};
ghost use Rattle.lattice_tests.specs.Tables.{action_of};

use crate::tables::{PRISM_ENTRIES, PRISM_GENERATORS, PRISM_INVERSE, PRISM_PRODUCT};
use crate::writing::write_row;
use cyclo24::{Field, Wide};
use lin_alg::Acts;

/// The group of the triangular prism, of order 12, on the plane of the triangle and on two more
/// coordinates, whose signs the level mirror changes.
#[derive(Clone, Copy)]
pub struct Prism;

impl<F: Field> Acts<F> for Prism {
    ghost action = { λ _. action_of F.field prism };

    ghost wide = { λ _. ⊥ };

    fn order(&self) -> usize {
        12
    }

    fn dim(&self) -> usize {
        4
    }

    fn product(&self, a: usize, b: usize) -> usize {
        PRISM_PRODUCT[a * 12 + b]
    }

    fn inverse(&self, a: usize) -> usize {
        PRISM_INVERSE[a]
    }

    fn generators(&self) -> usize {
        3
    }

    fn generator(&self, i: usize) -> usize {
        PRISM_GENERATORS[i]
    }

    fn row(&self, q: usize, i: usize, into: &mut [F]) -> Result<(), Wide> {
        write_row(&PRISM_ENTRIES, (q * 4 + i) * 4, into);
        Ok(())
    }

    ghost lawful = { λ _. prism_lawful F.field };
}
