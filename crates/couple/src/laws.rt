// Laws over the definitions, as contracts of functions that do nothing.
ghost use Rattle.std.specs.Prelude.{◌≡◌, ◌↔◌, ◌<◌, ◌+◌, ℕ, List};
ghost use Rattle.cyclo24.specs.ExactField.{Value};
ghost use Rattle.cyclo24.specs.FieldOn.{ones};
ghost use Rattle.cyclo24.specs.Sums.{total};
ghost use Rattle.algebra.specs.RisingLists.{IsRisingListOf};
ghost use Rattle.lin_alg.specs.Action.{Action, IsAction, IsFixed, image};
ghost use Rattle.lin_alg.specs.Reduced.{IsWithin};
ghost use Rattle.couple.specs.Coupled.{IsOneGroup, coupled, pair, second, IsInBoth, AreInBoth};
ghost use Rattle.couple.specs.Links.{Pair, IsPair, Intertwines, IsZero, HasOnlyZero, average, HasRank, AreEquivalent};

use cyclo24::Field;

/// The coupled matrix of q takes a pair to the pair of both images, and each vector is a pair. So q
/// fixes a pair exactly where it fixes both vectors: the stabiliser of the pair, as a list, is that of
/// the elements in both stabilisers.
pub fn law_of_pairs<F: Field>()
    ensures action { (a b : Action) → IsAction F.field.laws a → IsAction F.field.laws b → IsOneGroup a b → IsAction F.field.laws (coupled F.field.laws a b) }
    ensures image { (a b : Action) (q : ℕ) (v w : ℕ → Value F.field) (i : ℕ) → image F.field.laws (coupled F.field.laws a b) q (pair a v w) i ≡ pair a (image F.field.laws a q v) (image F.field.laws b q w) i }
    ensures each { (a : Action) (u : ℕ → Value F.field) (j : ℕ) → pair a u (second a u) j ≡ u j }
    ensures fixed { (a b : Action) (v w : ℕ → Value F.field) (q : ℕ) → IsFixed F.field.laws (coupled F.field.laws a b) q (pair a v w) ↔ IsInBoth F.field.laws a b v w q }
    ensures stabiliser { (a b : Action) (v w : ℕ → Value F.field) (hs : List ℕ) → IsRisingListOf a.group.order (λ q. IsFixed F.field.laws (coupled F.field.laws a b) q (pair a v w)) hs ↔ AreInBoth F.field.laws a b v w hs }
{}

/// Each average is an intertwiner, and the averages times the entries of an intertwiner X add up to X
/// times the order of the group: so where all averages are zero, zero is the only intertwiner. An
/// intertwiner whose rank is both dimensions has an inverse.
pub fn law_of_links<F: Field>()
    ensures averages { (p : Pair (Value F.field)) → IsPair F.field.laws p → (i j : ℕ) → i < p.rows → j < p.cols → Intertwines F.field.laws p (average F.field.laws p i j) }
    ensures sum { (p : Pair (Value F.field)) → IsPair F.field.laws p → (X : ℕ → ℕ → Value F.field) → Intertwines F.field.laws p X → (a b : ℕ) → a < p.rows → b < p.cols → total F.field.laws p.rows (λ i. total F.field.laws p.cols (λ j. F.field.laws.times (X i j) (average F.field.laws p i j a b))) ≡ F.field.laws.times (ones F.field.laws p.group.order) (X a b) }
    ensures none { (p : Pair (Value F.field)) → IsPair F.field.laws p → ((i j : ℕ) → i < p.rows → j < p.cols → IsZero F.field.laws p (average F.field.laws p i j)) → HasOnlyZero F.field.laws p }
    ensures equivalent { (p : Pair (Value F.field)) (X : ℕ → ℕ → Value F.field) (r : ℕ) → Intertwines F.field.laws p X → HasRank F.field.laws p.rows p.cols X r → r ≡ p.rows → r ≡ p.cols → AreEquivalent F.field.laws p }
{}
