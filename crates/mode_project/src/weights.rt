// The weights of the irreps.
ghost use Rattle.std.specs.Prelude.{◌≡◌, IfOk, map};
ghost use Rattle.std.specs.List.{All};
ghost use Rattle.super_group.specs.Quotient.{SupercellGroup};
ghost use Rattle.induce.specs.InducedView.{IsInducedOf};
ghost use Rattle.mode_project.specs.Parts.{rows_in};
ghost use Rattle.mode_project.specs.Weights.{AreWeights, weights_in};

use cyclo24::K24;
use induce::Induced;
use iso_text::NoMemory;
use std::alloc::Global;
use std::marker::Model;

/// One list of numbers for each irrep, by element: the character plus its conjugate.
#[derive(Drop)]
pub struct Weights {
    lists: Vec<Vec<K24>>,
}

impl Model for Weights {
    ghost use Rattle.std.specs.Prelude.{List, map};
    ghost use Rattle.cyclo24.specs.declared.k24.K24.{K24};

    ghost Value = { List (List K24) };

    ghost view = { λ w. map (λ v. v.items) w.lists.items };
}

impl Weights {
    /// The weights of these representations in order.
    pub fn new(alloc: Global, induced: &[Induced]) -> Result<Weights, NoMemory>
        ensures lists { IfOk result (λ weights. weights ≡ map weights_in induced.now) }
        ensures of { IfOk result (λ weights. (g : SupercellGroup) → All (IsInducedOf g) induced.now → AreWeights g weights) }
    {
        let mut lists = Vec::new(alloc);
        for one in induced {
            let list = Vec::from_slice(alloc, one.weights())?;
            match lists.push(list) {
                Ok(()) => {}
                Err(_) => return Err(NoMemory),
            }
        }
        Ok(Weights { lists })
    }

    // The lists in order.
    pub(crate) fn lists(&self) -> &[Vec<K24>]
        ensures { rows_in result.now ≡ self.now }
    {
        &self.lists
    }
}
