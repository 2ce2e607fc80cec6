// Directions with the two numbers by which they are ordered before their equations.
ghost use Rattle.std.specs.Prelude.{◌≡◌, ◌-◌, ◌⊎◌, Some, Err, IfOk, length, refl};
ghost use Rattle.std.specs.Cmp.{partial_equiv_from_equiv, eq_by_cmp_equiv, po};
ghost use Rattle.std.specs.Ordering.{eq_by_cmp};
ghost use Rattle.lin_alg.specs.Rows.{exact_rows};
ghost use Rattle.fix_lattice.specs.Subspaces.{IsWholeForm};
ghost use Rattle.class_list.specs.declared.errors.ListError.TheVariants as list_error;
ghost use Rattle.class_list.specs.Entries.{IsEntryOf};
ghost use Rattle.class_list.specs.Ranked.{keys_of, ranked_cmp};
ghost use Rattle.class_list.specs.RankedLaws.{ranked_total};
ghost use Rattle.class_list.specs.Wide.{IsWideStabiliser};

use crate::{Direction, ListError, Order, stabiliser};
use cyclo24::Field;
use lin_alg::{Acts, Echelon};
use std::alloc::Global;
use std::cmp::Ordering;

// A direction with the two numbers by which it is ordered before its equations, both rising.
#[derive(Drop)]
pub(crate) struct Ranked<F: Field> {
    pub(crate) first: usize,
    pub(crate) second: usize,
    pub(crate) direction: Direction<F>,
}

impl<F: Field> PartialEq for Ranked<F> {
    ghost eq = { eq_by_cmp (ranked_cmp (λ r. r.first) (λ r. r.second) (λ r. r.direction.equations.rows) F.Ord.cmp) };

    ghost laws = { partial_equiv_from_equiv (eq_by_cmp_equiv (ranked_total (λ r. r.first) (λ r. r.second) (λ r. r.direction.equations.rows) F.Ord.total)) };

    fn eq(&self, other: &Ranked<F>) -> bool {
        self.cmp(other).is_eq()
    }
}

impl<F: Field> Eq for Ranked<F> {
    ghost laws = { eq_by_cmp_equiv (ranked_total (λ r. r.first) (λ r. r.second) (λ r. r.direction.equations.rows) F.Ord.total) };
}

impl<F: Field> PartialOrd for Ranked<F> {
    ghost partial_cmp = { λ a b. Some (ranked_cmp (λ r. r.first) (λ r. r.second) (λ r. r.direction.equations.rows) F.Ord.cmp a b) };

    ghost laws = { po (ranked_total (λ r. r.first) (λ r. r.second) (λ r. r.direction.equations.rows) F.Ord.total) (λ a b. refl) };

    fn partial_cmp(&self, other: &Ranked<F>) -> Option<Ordering> {
        Some(self.cmp(other))
    }
}

impl<F: Field> Ord for Ranked<F> {
    ghost cmp = { ranked_cmp (λ r. r.first) (λ r. r.second) (λ r. r.direction.equations.rows) F.Ord.cmp };

    ghost total = { ranked_total (λ r. r.first) (λ r. r.second) (λ r. r.direction.equations.rows) F.Ord.total };

    ghost matches_partial_cmp = { λ a b. refl };

    ghost matches_eq = { λ a b. refl };

    fn cmp(&self, other: &Ranked<F>) -> Ordering {
        match self.first.cmp(&other.first) {
            Ordering::Equal => match self.second.cmp(&other.second) {
                Ordering::Equal => self.direction.equations().cmp(other.direction.equations()),
                order => order,
            },
            order => order,
        }
    }
}

// The two numbers of a direction of this dimension that so many elements move.
fn keys(order: Order, dim: usize, moved: usize) -> (usize, usize)
    ensures { result ≡ keys_of order dim moved }
{
    match order {
        Order::Dimension => (dim, moved),
        Order::Index => (moved, dim),
    }
}

// The direction of these equations, with its whole stabiliser and its numbers.
pub(crate) fn rank_direction<F: Field, G: Acts<F>>(
    alloc: Global,
    acts: &G,
    equations: &Echelon<F>,
    order: Order,
) -> Result<Ranked<F>, ListError>
    requires { IsWholeForm F.field.laws F.value (G.action acts.now).dim equations.now }
    ensures entry { IfOk result (λ r. IsEntryOf F.field.laws F.value (G.action acts.now) order equations.now.rows (r.first, r.second) r.direction) }
    ensures wide { (result ≡ Err list_error.WideStabiliser) → G.wide acts.now ⊎ IsWideStabiliser F.field (G.action acts.now) (exact_rows F.field.laws F.value equations.now.rows) }
    ensures never { (result ≡ Err list_error.WideImage) → ⊥ }
{
    let stabiliser = match stabiliser(alloc, acts, equations) {
        Ok(stabiliser) => stabiliser,
        Err(error) => return Err(error),
    };
    let moved = acts.order() - stabiliser.as_slice().len();
    let direction = Direction::new(equations.copy(alloc)?, stabiliser);
    let dim = direction.dim();
    let (first, second) = keys(order, dim, moved);
    Ok(Ranked {
        first,
        second,
        direction,
    })
}
