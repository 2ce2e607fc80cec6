// A group of two elements that acts on a line by a sign, with its laws in a ghost field.
ghost use Rattle.std.specs.Prelude.{◌≡◌, ◌<◌, ℕ};
ghost use Rattle.cyclo24.specs.ExactField.{Value};
ghost use Rattle.cyclo24.specs.ExactK24.{k24};
ghost use Rattle.lin_alg.specs.Action.{Action, IsAction, IsFixed};
ghost use Rattle.number_tests.specs.SignAction.{sign_action, sign_value};

use cyclo24::{Field, K24, Wide};
use lin_alg::{Acts, law_of_fixed_vectors, law_of_images};
use std::test::Fail;

#[derive(Drop)]
struct SignAction {
    minus: bool,
    ghost lawful: { IsAction k24.laws (sign_action k24 minus) },
}

fn sign(minus: bool) -> SignAction
    ensures { result.minus ≡ minus }
{
    SignAction { minus }
}

// The number by which element q acts.
#[tactic(auto, using(crate::specs::SignActionLaws::sign_first, crate::specs::SignActionLaws::sign_plus, crate::specs::SignActionLaws::sign_minus))]
fn number<F: Field>(minus: bool, q: usize) -> F
    ensures { F.value result ≡ sign_value F.field minus q }
{
    if q == 0 {
        F::one()
    } else if minus {
        F::one().neg()
    } else {
        F::one()
    }
}

impl Acts<K24> for SignAction {
    ghost action = { λ x. sign_action k24 x.minus };

    ghost wide = { λ x. ⊥ };

    fn order(&self) -> usize {
        2
    }

    fn dim(&self) -> usize {
        1
    }

    fn product(&self, a: usize, b: usize) -> usize {
        if a == 0 {
            b
        } else if b == 0 {
            a
        } else {
            0
        }
    }

    fn inverse(&self, a: usize) -> usize {
        a
    }

    fn generators(&self) -> usize {
        1
    }

    fn generator(&self, _i: usize) -> usize {
        1
    }

    fn row(&self, q: usize, _i: usize, into: &mut [K24]) -> Result<(), Wide> {
        into[0] = number(self.minus, q);
        Ok(())
    }

    ghost lawful = { λ x. x.lawful };
}

// What element 1 fixes, each element fixes: a law of all actions, at this one.
fn fixed_by_the_generator(acts: &SignAction)
    ensures { (v : ℕ → Value k24) → IsFixed k24.laws (sign_action k24 acts.now.minus) 1 v → (q : ℕ) → q < 2 → IsFixed k24.laws (sign_action k24 acts.now.minus) q v }
{
    law_of_fixed_vectors(acts)
}

#[test]
fn a_sign_acts_on_a_line(rt: HostRuntime) -> Result<(), Fail> {
    for (minus, number) in [(true, -1), (false, 1)] {
        let acts = sign(minus);
        fixed_by_the_generator(&acts);
        law_of_fixed_vectors(&acts);
        law_of_images(&acts);
        let mut row = [K24::zero()];
        acts.row(1, 0, &mut row)?;
        assert!(rt; row == [K24::ratio(number, 1)]);
        assert_eq!(rt; acts.product(1, 1), 0);
        assert_eq!(rt; acts.inverse(1), acts.generator(0));
    }
    Ok(())
}
