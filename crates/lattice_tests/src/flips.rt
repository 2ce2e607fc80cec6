// All sign changes of coordinates as an action, over every field.
ghost use Rattle.std.specs.Prelude.{◌≡◌, ◌<◌, ◌≤◌, ◌^◌, ℕ, length};
ghost use Rattle.std.specs.Int.{bit_at};
ghost use Rattle.lin_alg.specs.Rows.{vector};
ghost use Rattle.lattice_tests.specs.Flips.{flips, flip_entry, flip_sign};
ghost use Rattle.lattice_tests.specs.FlipLaws.{flips_lawful};

use cyclo24::{Field, Wide};
use lin_alg::Acts;

/// All sign changes of that many coordinates.
#[derive(Drop)]
pub struct Flips {
    dim: usize,
    order: usize,
    ghost small: { dim ≤ 12 },
    ghost orders: { order ≡ 2 ^ dim },
}

/// All sign changes of six coordinates.
pub fn flips_of_six() -> Flips
    ensures dim { result.dim ≡ 6 }
    ensures order { 2 ^ result.dim ≡ 64 }
{
    Flips { dim: 6, order: 64 }
}

/// All sign changes of two coordinates.
pub fn flips_of_two() -> Flips
    ensures dim { result.dim ≡ 2 }
    ensures order { 2 ^ result.dim ≡ 4 }
{
    Flips { dim: 2, order: 4 }
}

// The sign by which element q acts on coordinate i.
fn sign<F: Field>(q: usize, i: usize) -> F
    requires { i < 64 }
    ensures { F.value result ≡ flip_sign F.field (bit_at q i) }
{
    if (q >> i) & 1 == 0 {
        F::one()
    } else {
        F::one().neg()
    }
}

// Entry (i, j) of the matrix of q.
fn entry<F: Field>(q: usize, i: usize, j: usize) -> F
    requires { i < 64 }
    ensures { F.value result ≡ flip_entry F.field q i j }
{
    if i == j { sign(q, i) } else { F::zero() }
}

// Writes row i of the matrix of q.
fn write_signs<F: Field>(q: usize, i: usize, into: &mut [F])
    requires { i < 64 }
    ensures { (j : ℕ) → j < length into.old → vector F.field.laws F.value into.new j ≡ flip_entry F.field q i j }
{
    for j in 0..into.len() {
        into[j] = entry(q, i, j);
    }
}

impl<F: Field> Acts<F> for Flips {
    ghost action = { λ x. flips F.field x.dim };

    ghost wide = { λ x. ⊥ };

    fn order(&self) -> usize {
        self.order
    }

    fn dim(&self) -> usize {
        self.dim
    }

    fn product(&self, a: usize, b: usize) -> usize {
        a ^ b
    }

    fn inverse(&self, a: usize) -> usize {
        a
    }

    fn generators(&self) -> usize {
        self.dim
    }

    fn generator(&self, i: usize) -> usize {
        1 << i
    }

    fn row(&self, q: usize, i: usize, into: &mut [F]) -> Result<(), Wide> {
        write_signs(q, i, into);
        Ok(())
    }

    ghost lawful = { λ x. flips_lawful F.field x.dim };
}
