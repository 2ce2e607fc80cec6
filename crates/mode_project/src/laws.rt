// Laws over the definitions, as contracts of functions that do nothing.
ghost use Rattle.std.specs.Prelude.{◌≡◌, ℕ, ◌<◌, ◌≤◌, ◌+◌, List, length, take};
ghost use Rattle.std.specs.List.{All};
ghost use Rattle.cyclo24.specs.ExactField.{Value};
ghost use Rattle.lin_alg.specs.Spans.{row_vectors, IsInSpan, AreSame};
ghost use Rattle.lin_alg.specs.Reduced.{IsWithin};
ghost use Rattle.lin_alg.specs.Matrices.{apply, IsRepresentation, IsClassFunction};
ghost use Rattle.lin_alg.specs.Solving.{AreIndependent, plain_rows};
ghost use Rattle.super_group.specs.Quotient.{SupercellGroup, IsQuotient};
ghost use Rattle.iso_text.specs.declared.sections.AtomText.{AtomText};
ghost use Rattle.wyckoff.specs.Orbit.{OrbitView, IsOrbitOf};
ghost use Rattle.mode_project.specs.AtomSpace.{AtomSpace, IsAtomSpace, IsOrbit, Quantity, IsQuantity, size_of, matrix_of, space_of, displacements};
ghost use Rattle.mode_project.specs.Projection.{projection, IsInRange, IsInSum, column_of};
ghost use Rattle.mode_project.specs.Modes.{AreModes, all_modes, vector_at, before_irrep};
ghost use Rattle.mode_project.specs.Amplitudes.{AreAmplitudes, IsModeBasis};
ghost use Rattle.mode_project.specs.DirectionModes.{AreModesOf};
ghost use Rattle.mode_project.specs.OneBasis.{AreAlike};

use cyclo24::Field;
use wyckoff::{law_of_images, law_of_orbits};

/// What the atoms of an orbit have is moved by the group of the quotient.
pub fn law_of_spaces()
    ensures { (g : SupercellGroup) (o : OrbitView) (k : Quantity) → IsQuotient g → IsOrbit g o → IsQuantity k → IsAtomSpace (space_of g o k) }
{
    law_of_images();
}

/// The displacements of the atoms of an orbit are moved by the group of the quotient.
pub fn law_of_displacements()
    ensures { (g : SupercellGroup) (o : OrbitView) → IsQuotient g → IsOrbit g o → IsAtomSpace (displacements g o) }
{
    law_of_spaces();
}

/// M(a) M(b) = M(a b). P commutes with each M(q), where the weights are a class function. The range of
/// P is the span of its columns.
pub fn law_of_projections<F: Field>()
    ensures multiplies { (s : AtomSpace) → IsAtomSpace s → IsRepresentation F.field.laws s.group (size_of s) (matrix_of F.field.laws s) }
    ensures commutes { (s : AtomSpace) (w : ℕ → Value F.field) → IsAtomSpace s → IsClassFunction s.group w → (q : ℕ) → q < s.group.order → (v : ℕ → Value F.field) (i : ℕ) → i < size_of s → apply F.field.laws (size_of s) (projection F.field.laws s w) (apply F.field.laws (size_of s) (matrix_of F.field.laws s q) v) i ≡ apply F.field.laws (size_of s) (matrix_of F.field.laws s q) (apply F.field.laws (size_of s) (projection F.field.laws s w) v) i }
    ensures range { (d : ℕ) (a : ℕ → ℕ → Value F.field) → AreSame (IsInRange F.field.laws d a) (IsInSpan F.field.laws (plain_rows (column_of F.field.laws d a) d)) }
{}

/// The modes of an orbit are a basis: as many as there are columns, independent, and they span all
/// vectors. Those of the first j irreps span the sum of the ranges of their projections.
pub fn law_of_modes<F: Field>()
    ensures count { (s : AtomSpace) (ws : List (ℕ → Value F.field)) (ms : List (ℕ × (ℕ → Value F.field))) (sites : List ℕ) → AreModes F.field.laws s ws ms sites → length ms + length sites ≡ size_of s }
    ensures independent { (s : AtomSpace) (ws : List (ℕ → Value F.field)) (ms : List (ℕ × (ℕ → Value F.field))) (sites : List ℕ) → AreModes F.field.laws s ws ms sites → AreIndependent F.field.laws (size_of s) (vector_at F.field.laws (all_modes F.field.laws ms sites)) }
    ensures spanning { (s : AtomSpace) (ws : List (ℕ → Value F.field)) (ms : List (ℕ × (ℕ → Value F.field))) (sites : List ℕ) → AreModes F.field.laws s ws ms sites → AreSame (IsInSpan F.field.laws (all_modes F.field.laws ms sites)) (IsWithin F.field.laws (size_of s)) }
    ensures sums { (s : AtomSpace) (ws : List (ℕ → Value F.field)) (ms : List (ℕ × (ℕ → Value F.field))) (sites : List ℕ) → AreModes F.field.laws s ws ms sites → (j : ℕ) → j ≤ length ws → AreSame (IsInSpan F.field.laws (row_vectors (before_irrep j ms))) (IsInSum F.field.laws s (take j ws)) }
{}

/// The modes of an orbit are a basis with rising sites, and a vector has one list of amplitudes in a
/// basis.
pub fn law_of_amplitudes<F: Field>()
    ensures basis { (s : AtomSpace) (ws : List (ℕ → Value F.field)) (ms : List (ℕ × (ℕ → Value F.field))) (sites : List ℕ) → AreModes F.field.laws s ws ms sites → IsModeBasis F.field.laws (size_of s) ms sites }
    ensures one { (d : ℕ) (ms : List (ℕ × (ℕ → Value F.field))) (sites : List ℕ) (v a b : ℕ → Value F.field) → IsModeBasis F.field.laws d ms sites → AreAmplitudes F.field.laws d (vector_at F.field.laws (all_modes F.field.laws ms sites)) d v a → AreAmplitudes F.field.laws d (vector_at F.field.laws (all_modes F.field.laws ms sites)) d v b → (m : ℕ) → m < d → a m ≡ b m }
{}

/// Alike spaces have one list of modes, and one for each irrep and direction.
pub fn law_of_one_basis<F: Field>()
    ensures modes { (s t : AtomSpace) (ws : List (ℕ → Value F.field)) (ms ns : List (ℕ × (ℕ → Value F.field))) (sites columns : List ℕ) → AreAlike s t → AreModes F.field.laws s ws ms sites → AreModes F.field.laws t ws ns columns → (ms ≡ ns) × (sites ≡ columns) }
    ensures direction { (s t : AtomSpace) (w : ℕ → Value F.field) (h : List ℕ) (rs ts : List (ℕ × (ℕ → Value F.field))) → AreAlike s t → All (λ q. q < s.group.order) h → AreModesOf F.field.laws s w h rs → AreModesOf F.field.laws t w h ts → rs ≡ ts }
{}

/// What the atoms have is alike on all orbits of one atom.
pub fn law_of_one_space()
    ensures { (g : SupercellGroup) (atom : AtomText) (o u : OrbitView) (k : Quantity) → IsQuotient g → IsOrbitOf g atom o → IsOrbitOf g atom u → AreAlike (space_of g o k) (space_of g u k) }
{
    law_of_orbits();
}

/// All orbits of one atom have alike displacements.
pub fn law_of_one_orbit()
    ensures { (g : SupercellGroup) (atom : AtomText) (o u : OrbitView) → IsQuotient g → IsOrbitOf g atom o → IsOrbitOf g atom u → AreAlike (displacements g o) (displacements g u) }
{
    law_of_one_space();
}
