// The ranges of what a file says, as clauses of a function that does nothing.
ghost use Rattle.std.specs.Prelude.{ℕ, ℤ, pos, ◌<◌, ◌≤◌, List, [], map, length, slice_index_or};
ghost use Rattle.std.specs.List.{All};
ghost use Rattle.iso_text.specs.File.{IsFile};
ghost use Rattle.iso_text.specs.FileValue.{File};
ghost use Rattle.iso_text.specs.Ranges.{IsBlock, IsInRange};
ghost use Rattle.iso_text.specs.WordRanges.{IsWithin, AreThree, IsDenominator, IsFraction};
ghost use Rattle.iso_text.specs.declared.numbers.Frac.{Frac};
ghost use Rattle.iso_text.specs.declared.sections.IrrepText.{IrrepText};

/// What a file says is in range, and what holds of three values holds of each by its place: the
/// entries of an operation, shifts and places, the parts of a wave vector, and the denominators of
/// the wave vectors of all irrep blocks.
pub fn law_of_ranges()
    ensures files { (lines : List (List ℕ)) (f : File) → IsFile lines f → IsInRange f }
    ensures rotations { (m n : ℕ) (rows : List (List ℤ)) (i j : ℕ) → AreThree (AreThree (IsWithin m)) rows → m ≤ n → i < 3 → j < 3 → IsWithin n (slice_index_or (slice_index_or rows i []) j (pos 0)) }
    ensures vectors { (m n : ℕ) (vector : List ℤ) (i : ℕ) → AreThree (IsWithin m) vector → m ≤ n → i < 3 → IsWithin n (slice_index_or vector i (pos 0)) }
    ensures fractions { (k : List Frac) (i : ℕ) (d : Frac) → AreThree IsFraction k → i < 3 → IsFraction (slice_index_or k i d) }
    ensures blocks { (irreps : List IrrepText) → All IsBlock irreps → All (AreThree IsDenominator) (map (λ i. map (λ v. v.den) i.k) irreps) }
    ensures denominators { (dens : List (List ℕ)) (n j : ℕ) → All (AreThree IsDenominator) dens → n < length dens → j < 3 → IsDenominator (slice_index_or (slice_index_or dens n []) j 1) }
{}
