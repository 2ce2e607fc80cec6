// Laws over the definitions, as contracts of functions that do nothing.
ghost use Rattle.std.specs.Prelude.{◌≡◌, ℕ, ◌<◌, ◌%◌, List};
ghost use Rattle.space_ops.specs.declared.op.Op.{Op};
ghost use Rattle.super_group.specs.Multipliers.{AreMultipliers, IsCommonMultiple};
ghost use Rattle.super_group.specs.Supercell.{multiplier};
ghost use Rattle.super_group.specs.Quotient.{SupercellGroup, IsQuotient};
ghost use Rattle.super_group.specs.Elements.{AreFactored, AreNumbersMultiplied};

/// Element q = r T + t has rotation r, and is {E|t} after operation r of the group's list; its number
/// is the product of theirs. Element 0 is {E|0}. Numbers multiply as the members of the group.
pub fn law_of_elements()
    ensures factored { (s : SupercellGroup) → IsQuotient s → AreFactored s }
    ensures multiplied { (s : SupercellGroup) → IsQuotient s → AreNumbersMultiplied s }
{}

/// A group's operations and denominators have one list of multipliers, and each of them divides every
/// common multiple.
pub fn law_of_multipliers()
    ensures one { (ops : List Op) (dens : List (List ℕ)) (d e : List ℕ) → AreMultipliers ops dens d → AreMultipliers ops dens e → (i : ℕ) → i < 3 → multiplier d i ≡ multiplier e i }
    ensures divides { (ops : List Op) (dens : List (List ℕ)) (d : List ℕ) → AreMultipliers ops dens d → (i m : ℕ) → i < 3 → IsCommonMultiple ops dens i m → m % multiplier d i ≡ 0 }
{}
