// Laws over the definitions, as contracts of functions that do nothing.
ghost use Rattle.std.specs.Prelude.{◌≡◌, ◌↔◌, ◌<◌, ◌⊎◌, ◌∷◌, ◌+◌, ◌*◌, ◌/◌, ◌%◌, [], ℕ, Bool, List, true, false, length};
ghost use Rattle.cyclo24.specs.Sums.{total};
ghost use Rattle.std.specs.List.{slice_index};
ghost use Rattle.cyclo24.specs.ExactField.{Value};
ghost use Rattle.lin_alg.specs.Spans.{row_vectors, IsInSpan, AreSame};
ghost use Rattle.lin_alg.specs.Reduced.{IsReduced, IsForm, IsWithin, free_columns};
ghost use Rattle.lin_alg.specs.Equations.{dot, free_vector, Vanishes, IsEquationsOf};
ghost use Rattle.lin_alg.specs.Rows.{exact_rows};
ghost use Rattle.lin_alg.specs.Compared.{lines_eq};
ghost use Rattle.lin_alg.specs.Echelon.{EchelonView, IsEchelon, IsSpanned};
ghost use Rattle.lin_alg.specs.Action.{Action, IsAction, IsFixed};
ghost use Rattle.lin_alg.specs.Fixed.{Fix, IsIn, FixesAll, movers, IsFixForm};
ghost use Rattle.lin_alg.specs.Moves.{FixOf, StabOf, moved, AreConjugateBy};
ghost use Rattle.lin_alg.specs.Images.{moves_of, row_images};
ghost use Rattle.algebra.specs.NumberedGroup.{Group, IsGroup};
ghost use Rattle.lin_alg.specs.Matrices.{mul, multiple, trace, AreEqualBelow, IsRepresentation, IsClassFunction};
ghost use Rattle.lin_alg.specs.Blocks.{tested_matrix};

use crate::Acts;
use cyclo24::Field;

/// Two values are equal exactly where their exact values are.
pub fn law_of_equal_values<F: Field>()
    ensures { (x y : F) → (F.PartialEq.eq x y ≡ true) ↔ (F.value x ≡ F.value y) }
{}

/// Two reduced forms of one span are equal, and so are two that vanish on the same vectors, and two
/// that are the equations of one set.
pub fn law_of_unique_forms<F: Field>()
    ensures span { (rs ss : List (ℕ × (ℕ → Value F.field))) → IsReduced F.field.laws rs → IsReduced F.field.laws ss → AreSame (IsInSpan F.field.laws (row_vectors rs)) (IsInSpan F.field.laws (row_vectors ss)) → rs ≡ ss }
    ensures zeros { (w : ℕ) (rs ss : List (ℕ × (ℕ → Value F.field))) → IsForm F.field.laws w rs → IsForm F.field.laws w ss → AreSame (Vanishes F.field.laws w (row_vectors rs)) (Vanishes F.field.laws w (row_vectors ss)) → rs ≡ ss }
    ensures equations { (w : ℕ) (u : (ℕ → Value F.field) → Bool) (rs ss : List (ℕ × (ℕ → Value F.field))) → IsEquationsOf F.field.laws w (λ v. u v ≡ true) rs → IsEquationsOf F.field.laws w (λ v. u v ≡ true) ss → rs ≡ ss }
{}

/// What is no reduced form: a zero row, a pivot that is 2, two pivots in one column, falling pivots.
pub fn law_of_no_forms<F: Field>()
    ensures zero_row { (p : ℕ) (rs : List (ℕ × (ℕ → Value F.field))) → IsReduced F.field.laws ((p, λ _. F.field.laws.nought) ∷ rs) → ⊥ }
    ensures pivot_of_two { (p : ℕ) (v : ℕ → Value F.field) (rs : List (ℕ × (ℕ → Value F.field))) → v p ≡ F.field.laws.plus F.field.laws.unit F.field.laws.unit → IsReduced F.field.laws ((p, v) ∷ rs) → ⊥ }
    ensures one_column { (p : ℕ) (u v : ℕ → Value F.field) (rs : List (ℕ × (ℕ → Value F.field))) → IsReduced F.field.laws ((p, u) ∷ (p, v) ∷ rs) → ⊥ }
    ensures falling { (p q : ℕ) (u v : ℕ → Value F.field) (rs : List (ℕ × (ℕ → Value F.field))) → q < p → IsReduced F.field.laws ((p, u) ∷ (q, v) ∷ rs) → ⊥ }
{}

/// Two whole forms of one width are equal exactly where their exact rows are, and exactly where their
/// spans are.
pub fn law_of_equal_forms<F: Field>()
    ensures rows { (a b : EchelonView F) → IsEchelon F.field.laws F.value a → IsEchelon F.field.laws F.value b → a.whole ≡ true → b.whole ≡ true → a.width ≡ b.width → (lines_eq F.PartialEq.eq a.rows b.rows ≡ true) ↔ (exact_rows F.field.laws F.value a.rows ≡ exact_rows F.field.laws F.value b.rows) }
    ensures spans { (a b : EchelonView F) → IsEchelon F.field.laws F.value a → IsEchelon F.field.laws F.value b → a.whole ≡ true → b.whole ≡ true → a.width ≡ b.width → (lines_eq F.PartialEq.eq a.rows b.rows ≡ true) ↔ AreSame (IsSpanned F.field.laws F.value a) (IsSpanned F.field.laws F.value b) }
{}

/// A form is the equations of the vectors on which its rows vanish, and a row that vanishes on its
/// free basis is in its span.
pub fn law_of_equations<F: Field>()
    ensures equations { (w : ℕ) (rs : List (ℕ × (ℕ → Value F.field))) → IsForm F.field.laws w rs → IsEquationsOf F.field.laws w (Vanishes F.field.laws w (row_vectors rs)) rs }
    ensures free { (w : ℕ) (rs : List (ℕ × (ℕ → Value F.field))) (x : ℕ → Value F.field) → IsForm F.field.laws w rs → IsWithin F.field.laws w x → ((i : ℕ) → i < length (free_columns w rs) → dot F.field.laws w x (free_vector F.field.laws rs (slice_index (free_columns w rs) i)) ≡ F.field.laws.nought) → IsInSpan F.field.laws (row_vectors rs) x }
{}

/// No solution space is a union of finitely many proper subspaces.
pub fn law_of_unions<F: Field>()
    ensures { (w : ℕ) (rs : List (ℕ → Value F.field)) (n : ℕ) (ss : ℕ → List (ℕ → Value F.field)) → ((i : ℕ) → i < n → (u : ℕ → Value F.field) × Vanishes F.field.laws w rs u × (Vanishes F.field.laws w (ss i) u → ⊥)) → (v : ℕ → Value F.field) × Vanishes F.field.laws w rs v × ((i : ℕ) → i < n → Vanishes F.field.laws w (ss i) v → ⊥) }
{}

/// Fixed vectors and stabilisers of an action: more elements fix less; what the generators fix, each
/// element fixes; the form of the rows of A(q) - 1 is the equations of what q fixes, and the equations
/// of Fix(H) are one form; an element fixes all on which a form vanishes, or moves a vector of its free
/// basis; and one vector is fixed by nothing more than all of them are.
pub fn law_of_fixed_vectors<F: Field, A: Acts<F>>(acts: &A)
    ensures antitone { (h k : List ℕ) → ((q : ℕ) → IsIn q h → IsIn q k) → (v : ℕ → Value F.field) → Fix F.field.laws (A.action acts.now) k v → Fix F.field.laws (A.action acts.now) h v }
    ensures closed { (h s : List ℕ) → ((q : ℕ) → IsIn q s → FixesAll (IsFixed F.field.laws (A.action acts.now)) (Fix F.field.laws (A.action acts.now) h) q) → ((q : ℕ) → IsIn q h → IsIn q s) → AreSame (Fix F.field.laws (A.action acts.now) s) (Fix F.field.laws (A.action acts.now) h) }
    ensures generated { (v : ℕ → Value F.field) → ((i : ℕ) → i < (A.action acts.now).generators → IsFixed F.field.laws (A.action acts.now) ((A.action acts.now).generator i) v) → (q : ℕ) → q < (A.action acts.now).group.order → IsFixed F.field.laws (A.action acts.now) q v }
    ensures movers { (q : ℕ) (rs : List (ℕ × (ℕ → Value F.field))) → IsForm F.field.laws (A.action acts.now).dim rs → AreSame (IsInSpan F.field.laws (row_vectors rs)) (IsInSpan F.field.laws (movers F.field.laws (A.action acts.now) q (A.action acts.now).dim)) → IsFixForm F.field.laws (A.action acts.now) (q ∷ []) rs }
    ensures unique { (h : List ℕ) (rs ss : List (ℕ × (ℕ → Value F.field))) → IsFixForm F.field.laws (A.action acts.now) h rs → IsFixForm F.field.laws (A.action acts.now) h ss → rs ≡ ss }
    ensures moved { (rs : List (ℕ × (ℕ → Value F.field))) → IsForm F.field.laws (A.action acts.now).dim rs → (q : ℕ) → ((v : ℕ → Value F.field) → Vanishes F.field.laws (A.action acts.now).dim (row_vectors rs) v → IsFixed F.field.laws (A.action acts.now) q v) ⊎ ((i : ℕ) × (i < length (free_columns (A.action acts.now).dim rs)) × (IsFixed F.field.laws (A.action acts.now) q (free_vector F.field.laws rs (slice_index (free_columns (A.action acts.now).dim rs) i)) → ⊥)) }
    ensures generic { (rs : List (ℕ × (ℕ → Value F.field))) → IsForm F.field.laws (A.action acts.now).dim rs → (v : ℕ → Value F.field) × Vanishes F.field.laws (A.action acts.now).dim (row_vectors rs) v × ((q : ℕ) → q < (A.action acts.now).group.order → FixesAll (IsFixed F.field.laws (A.action acts.now)) (Vanishes F.field.laws (A.action acts.now).dim (row_vectors rs)) q ↔ IsFixed F.field.laws (A.action acts.now) q v) }
{}

/// Images under an action: Fix(q H q^-1) = q Fix(H), Stab(q U) = q Stab(U) q^-1, and the equations of
/// U times A(q^-1) are equations of q U, as many in their reduced form as those of U.
pub fn law_of_images<F: Field, A: Acts<F>>(acts: &A)
    ensures fixed { (q : ℕ) (H K : ℕ → Bool) → q < (A.action acts.now).group.order → AreConjugateBy (moves_of F.field.laws (A.action acts.now)) q (λ a. H a ≡ true) (λ a. K a ≡ true) → AreSame (FixOf (moves_of F.field.laws (A.action acts.now)) (λ a. K a ≡ true)) (moved (moves_of F.field.laws (A.action acts.now)) q (FixOf (moves_of F.field.laws (A.action acts.now)) (λ a. H a ≡ true))) }
    ensures stabiliser { (q : ℕ) (rs : List (ℕ → Value F.field)) → q < (A.action acts.now).group.order → AreConjugateBy (moves_of F.field.laws (A.action acts.now)) q (StabOf (moves_of F.field.laws (A.action acts.now)) (Vanishes F.field.laws (A.action acts.now).dim rs)) (StabOf (moves_of F.field.laws (A.action acts.now)) (moved (moves_of F.field.laws (A.action acts.now)) q (Vanishes F.field.laws (A.action acts.now).dim rs))) }
    ensures equations { (q : ℕ) (rs : List (ℕ → Value F.field)) → AreSame (Vanishes F.field.laws (A.action acts.now).dim (row_images F.field.laws (A.action acts.now) q rs)) (moved (moves_of F.field.laws (A.action acts.now)) q (Vanishes F.field.laws (A.action acts.now).dim rs)) }
    ensures form { (q : ℕ) (rs ss : List (ℕ → Value F.field)) → AreSame (IsInSpan F.field.laws ss) (IsInSpan F.field.laws (row_images F.field.laws (A.action acts.now) q rs)) → AreSame (Vanishes F.field.laws (A.action acts.now).dim ss) (moved (moves_of F.field.laws (A.action acts.now)) q (Vanishes F.field.laws (A.action acts.now).dim rs)) }
    ensures length { (q : ℕ) → q < (A.action acts.now).group.order → (rs ss : List (ℕ × (ℕ → Value F.field))) → IsForm F.field.laws (A.action acts.now).dim rs → IsForm F.field.laws (A.action acts.now).dim ss → AreSame (Vanishes F.field.laws (A.action acts.now).dim (row_vectors ss)) (moved (moves_of F.field.laws (A.action acts.now)) q (Vanishes F.field.laws (A.action acts.now).dim (row_vectors rs))) → length ss ≡ length rs }
{}

/// Matrices over the field: the trace of A B is that of B A, and that of a representation a class
/// function; factors stand before a product; and matrices of blocks multiply as their blocks where each
/// column of blocks of the right factor has one that isn't 0.
pub fn law_of_matrices<F: Field>()
    ensures cyclic { (d : ℕ) (a b : ℕ → ℕ → Value F.field) → trace F.field.laws d (mul F.field.laws d a b) ≡ trace F.field.laws d (mul F.field.laws d b a) }
    ensures class { (g : Group) → IsGroup g → (d : ℕ) (m : ℕ → ℕ → ℕ → Value F.field) → IsRepresentation F.field.laws g d m → IsClassFunction g (λ q. trace F.field.laws d (m q)) }
    ensures factors { (d : ℕ) (x y : Value F.field) (a b : ℕ → ℕ → Value F.field) (i j : ℕ) → mul F.field.laws d (multiple F.field.laws x a) (multiple F.field.laws y b) i j ≡ multiple F.field.laws (F.field.laws.times x y) (mul F.field.laws d a b) i j }
    ensures phases { (n : ℕ) (root : ℕ → Value F.field) → ((a b : ℕ) → F.field.laws.times (root a) (root b) ≡ root ((a + b) % n)) → (d u v c : ℕ) (a b x : ℕ → ℕ → Value F.field) → AreEqualBelow d (mul F.field.laws d a b) (multiple F.field.laws (root c) x) → AreEqualBelow d (mul F.field.laws d (multiple F.field.laws (root u) a) (multiple F.field.laws (root v) b)) (multiple F.field.laws (root (((u + v) % n + c) % n)) x) }
    ensures blocks { (n s : ℕ) (ta tb tab : ℕ → ℕ → Bool) (ga gb gab : ℕ → ℕ → ℕ → ℕ → Value F.field) (p q k : ℕ) → k < n → tb k (q / s) ≡ true → ((m : ℕ) → m < n → (m ≡ k → ⊥) → tb m (q / s) ≡ false) → tab (p / s) (q / s) ≡ ta (p / s) k → (ta (p / s) k ≡ true → gab (p / s) (q / s) (p % s) (q % s) ≡ total F.field.laws s (λ z. F.field.laws.times (ga (p / s) k (p % s) z) (gb k (q / s) z (q % s)))) → mul F.field.laws (n * s) (tested_matrix F.field.laws s ta ga) (tested_matrix F.field.laws s tb gb) p q ≡ tested_matrix F.field.laws s tab gab p q }
{}
