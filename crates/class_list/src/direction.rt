// Order parameter directions.
ghost use Rattle.std.specs.Prelude.{◌≡◌, ◌-◌, ◌≤◌, true, length};

use cyclo24::Field;
use iso_text::Stab;
use lin_alg::Echelon;
use std::marker::Model;

/// A fixed subspace by its equations, with the elements that fix each of its vectors.
#[derive(Drop)]
pub struct Direction<F: Field> {
    equations: Echelon<F>,
    stabiliser: Stab,
}

impl<F: Field> Model for Direction<F> {
    ghost use Rattle.std.specs.Prelude.{◌≡◌, ◌≤◌, true, length};
    ghost use Rattle.class_list.specs.Seen.{DirectionView};

    ghost Value = { DirectionView F };

    ghost view = { λ d. record { equations = d.equations; stabiliser = d.stabiliser } };

    ghost invariant = { λ d. (d.equations.whole ≡ true) × (length d.equations.rows ≤ d.equations.width) };
}

impl<F: Field> Direction<F> {
    /// The direction of these equations and elements.
    pub fn new(equations: Echelon<F>, stabiliser: Stab) -> Direction<F>
        requires whole { equations.whole ≡ true }
        requires few { length equations.rows ≤ equations.width }
        ensures equations { result.equations ≡ equations }
        ensures stabiliser { result.stabiliser ≡ stabiliser }
    {
        Direction {
            equations,
            stabiliser,
        }
    }

    /// How many coordinates are free.
    pub fn dim(&self) -> usize
        ensures { result ≡ self.now.equations.width - length self.now.equations.rows }
    {
        self.equations.width() - self.equations.len()
    }

    /// The order of its stabiliser.
    pub fn order(&self) -> usize
        ensures { result ≡ length self.now.stabiliser }
    {
        self.stabiliser.as_slice().len()
    }

    /// Its equations.
    pub fn equations(&self) -> &Echelon<F>
        ensures equations { result.now ≡ self.now.equations }
        ensures whole { self.now.equations.whole ≡ true }
        ensures few { length self.now.equations.rows ≤ self.now.equations.width }
    {
        &self.equations
    }

    /// The elements that fix each of its vectors, rising.
    pub fn stabiliser(&self) -> &[usize]
        ensures { result.now ≡ self.now.stabiliser }
    {
        self.stabiliser.as_slice()
    }
}
