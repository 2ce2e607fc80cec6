// Two induced representations of one quotient.
ghost use Rattle.std.specs.Prelude.{◌≡◌, ◌<◌, ◌≤◌, ◌/◌, ℕ, true, length};
ghost use Rattle.cyclo24.specs.ExactZ24.{z24_laws};
ghost use Rattle.super_group.specs.Quotient.{order_of};
ghost use Rattle.induce.specs.InducedView.{IsInducedOf, star_in};
ghost use Rattle.induce.specs.Tables.{dimension_in, size_in, matrix_in};
ghost use Rattle.couple.specs.Found.{IsArmMoved, ReachesRows};

use crate::pairs::Pairs;
use cyclo24::Z24;
use induce::Induced;
use super_group::Quotient;

// Two induced representations of one quotient.
#[derive(Drop)]
pub(crate) struct Both<'a> {
    pub(crate) quotient: &'a Quotient,
    pub(crate) left: &'a Induced,
    pub(crate) right: &'a Induced,
}

impl<'a> Pairs<Z24> for Both<'a> {
    ghost use Rattle.couple.specs.Listed.{listed};
    ghost use Rattle.couple.specs.Found.{pair_of};

    ghost pair = { λ b. listed (pair_of b.quotient.now b.left.now b.right.now) };

    ghost holds = { λ b. IsInducedOf b.quotient.now b.left.now × IsInducedOf b.quotient.now b.right.now };

    fn order(&self) -> usize {
        self.quotient.order()
    }

    fn rows(&self) -> usize {
        self.left.dim()
    }

    fn cols(&self) -> usize {
        self.right.dim()
    }

    fn first(&self) -> usize {
        first_rows(self.quotient, self.left)
    }

    fn inverse(&self, q: usize) -> usize {
        self.quotient.inverse(q)
    }

    fn left(&self, q: usize, a: usize, i: usize) -> Z24 {
        self.left.entry(self.quotient, q, a, i)
    }

    fn right(&self, q: usize, j: usize, b: usize) -> Z24 {
        self.right.entry(self.quotient, q, j, b)
    }
}

// Whether some element moves the arm to the first one.
fn is_moved(quotient: &Quotient, induced: &Induced, arm: usize) -> bool
    requires of { IsInducedOf quotient.now induced.now }
    requires arm { arm < length (star_in induced.now).by }
    ensures { result ≡ true → IsArmMoved quotient.now induced.now arm }
{
    for q in 0..quotient.order() {
        if induced.moved(quotient, q, arm) == 0 {
            return true;
        }
    }
    false
}

// The rows of the first arm where each arm is moved there, else all rows.
fn first_rows(quotient: &Quotient, induced: &Induced) -> usize
    requires of { IsInducedOf quotient.now induced.now }
    ensures few { result ≤ dimension_in induced.now.tables }
    ensures reached { ReachesRows quotient.now induced.now result }
{
    let _order = quotient.order();
    let n = induced.dim();
    let size = induced.rep().size();
    if size > n {
        return n;
    }
    for arm in 0..induced.star().arms() {
        if !is_moved(quotient, induced, arm) {
            return n;
        }
    }
    size
}
