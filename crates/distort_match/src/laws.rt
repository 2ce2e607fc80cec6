// Laws over the definitions, as contracts of functions that do nothing.
ghost use Rattle.std.specs.Prelude.{◌≡◌, ℕ, ℤ, pos, ◌<ℤ◌};
ghost use Rattle.space_ops.specs.Matrix.{Vector};
ghost use Rattle.super_group.specs.Quotient.{IsQuotient};
ghost use Rattle.distort_match.specs.Matches.{Matching, Matches, MatchesAtom};
ghost use Rattle.distort_match.specs.Outcomes.{IsAccepted};

/// A place displaces an atom in one way. Where all lines are accepted, one place matches an atom at
/// most.
pub fn law_of_matches()
    ensures one { (m : Matching) (n t o i : ℕ) (v w : Vector ℤ) → IsQuotient m.group → m.tolerance <ℤ pos 3000000 → Matches m n t o i v → Matches m n t o i w → v ≡ w }
    ensures once { (m : Matching) (n t k u o i : ℕ) → IsAccepted m → MatchesAtom m n t o i → MatchesAtom m k u o i → (n ≡ k) × (t ≡ u) }
{}
