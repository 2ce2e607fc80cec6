// Laws over the definitions, as contracts of functions that do nothing.
ghost use Rattle.std.specs.Prelude.{◌≡◌, ℕ, ◌<◌, ℤ, List};
ghost use Rattle.cyclo24.specs.ExactZ24.{z24_laws};
ghost use Rattle.lin_alg.specs.Matrices.{AreEqualBelow, unit_entry, IsRepresentation, IsClassFunction};
ghost use Rattle.space_ops.specs.declared.op.Op.{Op};
ghost use Rattle.space_ops.specs.Matrix.{Vector};
ghost use Rattle.space_ops.specs.Group.{Parent, IsParentGroup};
ghost use Rattle.kstar.specs.declared.wave_vector.KVector.{KVector};
ghost use Rattle.kstar.specs.Fraction.{IsWaveVector, row_of};
ghost use Rattle.kstar.specs.WaveVector.{phase_of};
ghost use Rattle.kstar.specs.Star.{WaveStar, IsStarOf};
ghost use Rattle.super_group.specs.Supercell.{IsCell, IsSupercell};
ghost use Rattle.super_group.specs.Multipliers.{AreMultipliers};
ghost use Rattle.super_group.specs.Quotient.{SupercellGroup, quotient_group};
ghost use Rattle.small_rep.specs.SmallRep.{Matrices};
ghost use Rattle.induce.specs.CellPhase.{IsWholeOn, AreWholeOn, HasDenominators};
ghost use Rattle.induce.specs.Induced.{IsInducible, dimension_of, induced_of, character_at, weight_at};

/// A wave vector is whole on the supercell of multipliers that were made from its denominators, and so
/// is each arm of its star, as `Induced::new` wants it; a translation of such a supercell has the
/// phase 1.
pub fn law_of_cells()
    ensures multipliers { (ops : List Op) (dens : List (List ℕ)) (d : List ℕ) → AreMultipliers ops dens d → (n : ℕ) (k : KVector) → IsWaveVector k → HasDenominators dens n k → IsWholeOn d (row_of k) }
    ensures arms { (p : Parent) → IsParentGroup p → (d : List ℕ) → IsSupercell p.ops d → (k : Vector ℤ) (s : WaveStar) → IsStarOf p k s → IsWholeOn d k → AreWholeOn d s }
    ensures phase { (d : List ℕ) (k t : Vector ℤ) → IsWholeOn d k → IsCell d t → phase_of k t ≡ 0 }
{}

/// The matrices that a small representation induces multiply as the quotient, with the unit matrix for
/// the identity. Characters and weights are the same on q and p q p^-1.
pub fn law_of_induced_matrices()
    ensures product { (q : SupercellGroup) (s : WaveStar) (n : ℕ) (m : Matrices) → IsInducible q s n m → IsRepresentation z24_laws (quotient_group q) (dimension_of s n) (induced_of q s n m) }
    ensures identity { (q : SupercellGroup) (s : WaveStar) (n : ℕ) (m : Matrices) → IsInducible q s n m → AreEqualBelow (dimension_of s n) (induced_of q s n m 0) (unit_entry z24_laws) }
    ensures character { (q : SupercellGroup) (s : WaveStar) (n : ℕ) (m : Matrices) → IsInducible q s n m → IsClassFunction (quotient_group q) (character_at q s n m) }
    ensures weight { (q : SupercellGroup) (s : WaveStar) (n : ℕ) (m : Matrices) → IsInducible q s n m → IsClassFunction (quotient_group q) (weight_at q s n m) }
{}
