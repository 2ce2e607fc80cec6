// Two representations of one group by matrices.
ghost use Rattle.std.specs.Prelude.{◌≡◌, ◌<◌, ◌≤◌, ℕ, ℤ, List};
ghost use Rattle.lin_alg.specs.Action.{lift};
ghost use Rattle.couple.specs.Links.{Pair};
ghost use Rattle.couple.specs.Listed.{lifted};
ghost use Rattle.couple.specs.AddedRows.{ReachesFirst};

use cyclo24::Field;

// A group with two representations, each by square matrices over a field: left ones L(q) of some rows
// and columns, and right ones R(q).
pub(crate) trait Pairs<F: Field> {
    // The group and both kinds of matrices, their entries the lists of exact values.
    ghost pair: { Self → Pair (List ℤ) };

    // What the calls rest on.
    ghost holds: { Self → Type 0 };

    // How many elements the group has.
    fn order(&self) -> usize
        requires holds { holds self.now }
        ensures { result ≡ (pair self.now).group.order };

    // The dimension of the left matrices.
    fn rows(&self) -> usize
        requires holds { holds self.now }
        ensures value { result ≡ (pair self.now).rows }
        ensures few { result ≤ 288 };

    // The dimension of the right matrices.
    fn cols(&self) -> usize
        requires holds { holds self.now }
        ensures value { result ≡ (pair self.now).cols }
        ensures few { result ≤ 288 };

    // A number k of first rows such that for each row i some element's left matrix has zeros in column i
    // from row k on.
    fn first(&self) -> usize
        requires holds { holds self.now }
        ensures few { result ≤ (pair self.now).rows }
        ensures reached { (i : ℕ) → i < (pair self.now).rows → ReachesFirst F.field.laws (lifted F.field.laws (pair self.now)) result i };

    // The number of the inverse of q.
    fn inverse(&self, q: usize) -> usize
        requires holds { holds self.now }
        requires element { q < (pair self.now).group.order }
        ensures value { result ≡ (pair self.now).group.inverse q }
        ensures below { result < (pair self.now).group.order };

    // Entry (a, i) of L(q).
    fn left(&self, q: usize, a: usize, i: usize) -> F
        requires holds { holds self.now }
        requires element { q < (pair self.now).group.order }
        requires row { a < (pair self.now).rows }
        requires column { i < (pair self.now).rows }
        ensures { F.value result ≡ lift F.field.laws ((pair self.now).left q a i) };

    // Entry (j, b) of R(q).
    fn right(&self, q: usize, j: usize, b: usize) -> F
        requires holds { holds self.now }
        requires element { q < (pair self.now).group.order }
        requires row { j < (pair self.now).cols }
        requires column { b < (pair self.now).cols }
        ensures { F.value result ≡ lift F.field.laws ((pair self.now).right q j b) };
}
