// The weights of induced representations: characters plus their conjugates.
ghost use Rattle.std.specs.Prelude.{◌≡◌, ◌<◌, ◌+◌, ℕ, IfOk, OnErr, Err, MatchOption, ⊤, true, false, List, length};
ghost use Rattle.cyclo24.specs.ExactZ24.{z24_laws};
ghost use Rattle.cyclo24.specs.K24.{exact24};
ghost use Rattle.cyclo24.specs.Z24.{exact_z24};
ghost use Rattle.lin_alg.specs.declared.errors.LinError.TheVariants as lin_error;
ghost use Rattle.lin_alg.specs.Rows.{vector};
ghost use Rattle.induce.specs.Induced.{weight_of};
ghost use Rattle.induce.specs.Weights.{AreKnown, AreWeights};
ghost use Rattle.induce.specs.Wide.{IsWideWeight};

use cyclo24::{Field, K24, Wide, Z24};
use lin_alg::LinError;
use std::alloc::Global;

/// A character with its weight.
#[derive(Clone, Copy, Debug, PartialEq, Eq)]
pub struct Known {
    pub character: Z24,
    pub weight: K24,
}

/// Weights in the order of the elements, and one pair for each character among them.
#[derive(Drop)]
pub struct Weights {
    pub weights: Vec<K24>,
    pub known: Vec<Known>,
}

/// A number plus its conjugate.
fn weight_of_character(x: Z24) -> Result<K24, Wide>
    ensures exact { IfOk result (λ r. exact24 r ≡ weight_of (exact_z24 x)) }
    ensures wide { OnErr result (IsWideWeight (exact_z24 x)) }
{
    let conjugate = x.conj()?;
    let sum = x.add(conjugate)?;
    let weight = sum.real_part()?;
    Ok(weight)
}

/// Whether two values are equal.
fn are_same<F: Field>(x: &F, y: &F) -> bool
    ensures { result ≡ true → F.value x.now ≡ F.value y.now }
{
    *x == *y
}

/// The weight of a character that is known.
fn known_weight(known: &[Known], x: &Z24) -> Option<K24>
    requires { AreKnown known.now }
    ensures { MatchOption result ⊤ (λ w. exact24 w ≡ weight_of (exact_z24 x.now)) }
{
    for pair in known {
        if are_same(&pair.character, x) {
            return Some(pair.weight);
        }
    }
    None
}

/// The weights with that of one character more.
fn with_weight(held: Weights, characters: &[Z24], d: usize) -> Result<Weights, LinError>
    requires held { AreWeights characters.now held.weights.items d }
    requires known { AreKnown held.known.items }
    requires place { d < length characters.now }
    ensures weights { IfOk result (λ more. AreWeights characters.now more.weights.items (d + 1)) }
    ensures known { IfOk result (λ more. AreKnown more.known.items) }
    ensures wide { result ≡ Err lin_error.Wide → IsWideWeight (vector z24_laws exact_z24 characters.now d) }
{
    let mut weights = held.weights;
    let mut known = held.known;
    if let Some(weight) = known_weight(&known, &characters[d]) {
        return match weights.push(weight) {
            Ok(()) => Ok(Weights { weights, known }),
            Err(_) => Err(LinError::NoMemory),
        };
    }
    let character = characters[d];
    let weight = match weight_of_character(character) {
        Ok(weight) => weight,
        Err(_) => return Err(LinError::Wide),
    };
    match known.push(Known { character, weight }) {
        Ok(()) => {}
        Err(_) => return Err(LinError::NoMemory),
    }
    match weights.push(weight) {
        Ok(()) => Ok(Weights { weights, known }),
        Err(_) => Err(LinError::NoMemory),
    }
}

/// The weights of some characters; each character's is formed once.
pub fn form_weights(alloc: Global, characters: &[Z24]) -> Result<Vec<K24>, LinError>
    ensures weights { IfOk result (λ ws. AreWeights characters.now ws.items (length characters.now)) }
    ensures wide { result ≡ Err lin_error.Wide → (d : ℕ) × (d < length characters.now) × IsWideWeight (vector z24_laws exact_z24 characters.now d) }
{
    let mut held = Weights {
        weights: Vec::new(alloc),
        known: Vec::new(alloc),
    };
    for d in 0..characters.len() {
        match with_weight(held, characters, d) {
            Ok(more) => held = more,
            Err(error) => return Err(error),
        }
    }
    let Weights { weights, known: _ } = held;
    Ok(weights)
}
