// Laws over the definitions, as contracts of functions that do nothing.
ghost use Rattle.std.specs.Prelude.{◌≡◌, ℕ, ℤ, ◌<◌, true, List, Contains};
ghost use Rattle.algebra.specs.Whole.{whole};
ghost use Rattle.cyclo24.specs.ExactZ24.{z24_laws};
ghost use Rattle.lin_alg.specs.Matrices.{AreEqualBelow, mul, unit_entry};
ghost use Rattle.space_ops.specs.Matrix.{Vector};
ghost use Rattle.space_ops.specs.Seitz.{Seitz, seitz_product, seitz_identity};
ghost use Rattle.space_ops.specs.Group.{Parent, IsParentGroup};
ghost use Rattle.space_ops.specs.Member.{rotation_of, rest_of};
ghost use Rattle.kstar.specs.WaveVector.{HasPhases, phase_of};
ghost use Rattle.kstar.specs.Star.{WaveStar, IsStarOf};
ghost use Rattle.small_rep.specs.SmallRep.{Matrices, IsLittleOp, is_listed, little_matrix, IsSmallRep};

/// The matrices of a small representation, with the phases of lattice translations, multiply as the
/// operations of the little group, with the unit matrix for the identity. G(h) depends on the
/// rotation of h and the phase of its translation alone.
pub fn law_of_little_matrices()
    ensures product { (p : Parent) → IsParentGroup p → (k : Vector ℤ) (s : WaveStar) → IsStarOf p k s → HasPhases p.lattice k → (n : ℕ) (m : Matrices) → IsSmallRep p s n m → (g h : Seitz ℤ) → IsLittleOp p s g → IsLittleOp p s h → AreEqualBelow n (mul z24_laws n (little_matrix p s m g) (little_matrix p s m h)) (little_matrix p s m (seitz_product whole g h)) }
    ensures identity { (p : Parent) → IsParentGroup p → (k : Vector ℤ) (s : WaveStar) → IsStarOf p k s → (n : ℕ) (m : Matrices) → IsSmallRep p s n m → AreEqualBelow n (little_matrix p s m (seitz_identity whole)) (unit_entry z24_laws) }
    ensures same { (p : Parent) (s : WaveStar) (m : Matrices) (g h : Seitz ℤ) → rotation_of p g ≡ rotation_of p h → phase_of s.row (rest_of p g) ≡ phase_of s.row (rest_of p h) → (x y : ℕ) → little_matrix p s m g x y ≡ little_matrix p s m h x y }
    ensures listed { (xs : List ℕ) (r : ℕ) → is_listed xs r ≡ true → Contains xs r }
    ensures contained { (xs : List ℕ) (r : ℕ) → Contains xs r → is_listed xs r ≡ true }
{}
