// Two actions of one group as one.
ghost use Rattle.std.specs.Prelude.{◌≡◌, ◌<◌, ◌≤◌, ◌+◌, ℕ, Err, IfOk};
ghost use Rattle.lin_alg.specs.Rows.{vector};
ghost use Rattle.couple.specs.Coupled.{IsOneGroup, coupled};

use crate::CoupleError;
use crate::errors::MAX_DIMENSION;
use cyclo24::{Field, Wide};
use lin_alg::Acts;
use std::marker::PhantomData;

/// Two actions of one group as one: it acts on pairs of vectors, the coordinates of the left one first,
/// by matrices with the blocks of both. Giving a row is wide exactly where it may be for one of them.
#[derive(Drop)]
pub struct Coupled<F: Field, G: Acts<F>, H: Acts<F>> {
    left: G,
    right: H,
    field: PhantomData<F>,
    pub ghost one: { IsOneGroup (G.action left) (H.action right) },
    pub ghost few: { (G.action left).dim + (H.action right).dim ≤ 24 },
}

impl<F: Field, G: Acts<F> + Drop, H: Acts<F> + Drop> Coupled<F, G, H> {
    ghost use Rattle.couple.specs.declared.errors.CoupleError.TheVariants as couple_error;

    /// Both actions as one. It takes no memory. Condition: both have one order, one product, one
    /// inverse and one list of generators, and each dimension is at most 24. Error: the sum of the
    /// dimensions, where it passes 24.
    pub fn new(left: G, right: H) -> Result<Coupled<F, G, H>, CoupleError>
        requires one { IsOneGroup (G.action left) (H.action right) }
        requires left { (G.action left).dim ≤ 24 }
        requires right { (H.action right).dim ≤ 24 }
        ensures action { IfOk result (λ both. ⟦<Coupled<F, G, H> as Acts<F>>⟧.action both ≡ coupled F.field.laws (G.action left) (H.action right)) }
        ensures few { IfOk result (λ _. (G.action left).dim + (H.action right).dim ≤ 24) }
        ensures many { (n : ℕ) → result ≡ Err (couple_error.TooManyCoupled n) → (n ≡ (G.action left).dim + (H.action right).dim) × (24 < n) }
    {
        let dim = left.dim() + right.dim();
        if dim > MAX_DIMENSION {
            return Err(CoupleError::TooManyCoupled(dim as u32));
        }
        Ok(Coupled {
            left,
            right,
            field: PhantomData,
        })
    }
}

impl<F: Field, G: Acts<F>, H: Acts<F>> Acts<F> for Coupled<F, G, H> {
    ghost use Rattle.std.specs.Prelude.{◌⊎◌};
    ghost use Rattle.couple.specs.CoupledLaws.{coupled-lawful};

    ghost action = { λ c. coupled F.field.laws (G.action c.left) (H.action c.right) };

    ghost wide = { λ c. G.wide c.left ⊎ H.wide c.right };

    fn order(&self) -> usize {
        self.left.order()
    }

    fn dim(&self) -> usize {
        self.left.dim() + self.right.dim()
    }

    fn product(&self, a: usize, b: usize) -> usize {
        self.left.product(a, b)
    }

    fn inverse(&self, a: usize) -> usize {
        self.left.inverse(a)
    }

    fn generators(&self) -> usize {
        self.left.generators()
    }

    fn generator(&self, i: usize) -> usize {
        self.left.generator(i)
    }

    fn row(&self, q: usize, i: usize, into: &mut [F]) -> Result<(), Wide> {
        let n = self.left.dim();
        fill_zero(into);
        if i < n {
            self.left.row(q, i, &mut into[..n])
        } else {
            self.right.row(q, i - n, &mut into[n..])
        }
    }

    ghost lawful = { λ c. coupled-lawful F.field (G.action c.left) (H.action c.right) c.one (G.lawful c.left) (H.lawful c.right) };
}

// Makes each entry 0.
fn fill_zero<F: Field>(row: &mut [F])
    ensures { vector F.field.laws F.value row.new ≡ (λ _. F.field.laws.nought) }
{
    for j in 0..row.len() {
        row[j] = F::zero();
    }
}
