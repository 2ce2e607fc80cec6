// Laws over the definitions, as contracts of functions that do nothing.
ghost use Rattle.std.specs.Prelude.{◌≡◌, ℕ, ◌<◌, ◌+◌, ◌*◌, ◌-◌, ◌%◌, ℤ, pos, ◌+ℤ◌, length};
ghost use Rattle.algebra.specs.Multiples.{IsMultiple};
ghost use Rattle.space_ops.specs.Seitz.{inverse_matrix};
ghost use Rattle.space_ops.specs.declared.lattice.Lattice.{Lattice};
ghost use Rattle.algebra.specs.Whole.{whole};
ghost use Rattle.space_ops.specs.Matrix.{Vector, image_under, minus_vector, zero_vector};
ghost use Rattle.space_ops.specs.Words.{op_at, IsLatticeVector};
ghost use Rattle.space_ops.specs.Group.{Parent, IsParentGroup};
ghost use Rattle.space_ops.specs.GroupLaws.{rotation_group};
ghost use Rattle.kstar.specs.WaveVector.{AreEquivalent, HasPhase, HasPhases, row_value, phase_of};
ghost use Rattle.kstar.specs.Star.{WaveStar, IsStarOf, IsLittle, image_at};
ghost use Rattle.kstar.specs.Moves.{AreArmsMoved};

/// Equivalence of wave vectors is an equivalence, on every lattice.
pub fn equivalence_is_equivalence()
    ensures refl { (lattice : Lattice) (k : Vector ℤ) → AreEquivalent lattice k k }
    ensures sym { (lattice : Lattice) (k l : Vector ℤ) → AreEquivalent lattice k l → AreEquivalent lattice l k }
    ensures trans { (lattice : Lattice) (k l m : Vector ℤ) → AreEquivalent lattice k l → AreEquivalent lattice l m → AreEquivalent lattice k m }
{}

/// The image under a product is the image of the image: first the right factor, then the left.
pub fn image_of_a_product()
    ensures { (p : Parent) → IsParentGroup p → (k : Vector ℤ) (a b : ℕ) → a < length p.ops → b < length p.ops → image_at p k ((rotation_group p.ops).product a b) ≡ image_at p (image_at p k b) a }
{}

/// The phase of R t is that of t, for R of the little group.
pub fn phases_of_the_little_group()
    ensures { (p : Parent) → IsParentGroup p → (k t : Vector ℤ) (a : ℕ) → a < length p.ops → HasPhases p.lattice k → IsLatticeVector p.lattice t → IsLittle p k a → phase_of k (image_under whole (op_at p.ops a).rot t) ≡ phase_of k t }
{}

/// Phases of translations: of 0, of -t, of t under an arm k R^-1. A phase is the only number below 24
/// with its turn.
pub fn law_of_phases()
    ensures zero { (k : Vector ℤ) → phase_of k (zero_vector whole) ≡ 0 }
    ensures minus { (k t : Vector ℤ) → HasPhase k t → phase_of k (minus_vector whole t) ≡ (24 - phase_of k t) % 24 }
    ensures arm { (p : Parent) (k t : Vector ℤ) (r : ℕ) → phase_of (image_at p k r) t ≡ phase_of k (image_under whole (inverse_matrix whole (op_at p.ops r).rot) t) }
    ensures only { (k t : Vector ℤ) (q : ℕ) → HasPhase k t → q < 24 → IsMultiple 144 (pos (6 * q) +ℤ row_value k t) → q ≡ phase_of k t }
    ensures every { (lattice : Lattice) (k : Vector ℤ) → HasPhases lattice k → (t : Vector ℤ) → IsLatticeVector lattice t → HasPhase k t }
{}

/// The operations of a group act on the arms of a star: each moves arm i to exactly one arm, the
/// identity keeps arms, and a product moves them as its right factor, then its left. r_j^-1 r r_i, of
/// the representatives, is in the little group exactly where r moves arm i to arm j.
pub fn law_of_moves()
    ensures { (p : Parent) → IsParentGroup p → (k : Vector ℤ) (s : WaveStar) → IsStarOf p k s → AreArmsMoved p k s }
{}
