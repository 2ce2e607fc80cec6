// A law over the definitions, as the contract of a function that does nothing.
ghost use Rattle.std.specs.Prelude.{◌≡◌, ℕ};
ghost use Rattle.extra_modes.specs.declared.errors.ExtraError.{ExtraError};
ghost use Rattle.extra_modes.specs.declared.errors.ExtraError.TheVariants as extra_error;
ghost use Rattle.extra_modes.specs.Amounts.{Naming, AmountsView, AreAmounts, IsGatherCause, amount_at};

/// Lines give one list of amounts, or one of them is refused for one cause, but for want of memory.
pub fn law_of_amounts()
    ensures one { (g : Naming) (each : ℕ) (v w : AmountsView) → AreAmounts g each v → AreAmounts g each w → v ≡ w }
    ensures cause { (g : Naming) (e f : ExtraError) → IsGatherCause g e → IsGatherCause g f → (e ≡ extra_error.NoMemory → ⊥) → (f ≡ extra_error.NoMemory → ⊥) → e ≡ f }
    ensures apart { (g : Naming) (each : ℕ) (v : AmountsView) (e : ExtraError) → AreAmounts g each v → IsGatherCause g e → e ≡ extra_error.NoMemory }
{}
