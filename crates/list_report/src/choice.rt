// The irrep whose directions are listed.
ghost use Rattle.std.specs.Prelude.{Some, MatchOption};
ghost use Rattle.list_report.specs.Choice.{HasNone};
ghost use Rattle.list_report.specs.HeldListings.{IsPlaceOf};

use iso_text::{IrrepText, Name};

// The place of the first irrep of a name.
fn place_named(irreps: &[IrrepText], name: &Name) -> Option<usize>
    ensures { MatchOption result (HasNone (Some name.now) irreps.now) (IsPlaceOf (Some name.now) irreps.now) }
{
    for i in 0..irreps.len() {
        if irreps[i].name.as_slice() == name.as_slice() {
            return Some(i);
        }
    }
    None
}

/// The place of the irrep of a name; where none is named, of the first.
pub fn place_of(irreps: &[IrrepText], wanted: &Option<Name>) -> Option<usize>
    ensures { MatchOption result (HasNone wanted.now irreps.now) (IsPlaceOf wanted.now irreps.now) }
{
    match wanted {
        Some(name) => place_named(irreps, name),
        None => {
            if irreps.len() > 0 {
                return Some(0);
            }
            None
        }
    }
}
