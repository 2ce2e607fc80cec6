// Laws over the definitions, as contracts of functions that do nothing.
ghost use Rattle.std.specs.Prelude.{◌≡◌, ℕ, List, Option};
ghost use Rattle.std.specs.List.{concat};
ghost use Rattle.super_group.specs.Quotient.{SupercellGroup, IsQuotient};
ghost use Rattle.wyckoff.specs.Orbit.{OrbitView};
ghost use Rattle.mode_project.specs.AtomSpace.{AtomSpace};
ghost use Rattle.report_steps.specs.Contexts.{Divided};
ghost use Rattle.report_steps.specs.StepLaws.{IsSingleAt, FindsOneAt};
ghost use Rattle.mode_report.specs.Atoms.{RefusesAtoms};
ghost use Rattle.mode_report.specs.DirectionFound.{IsFoundAlong};
ghost use Rattle.mode_report.specs.FoundAlong.{along_text};
ghost use Rattle.mode_report.specs.ModesFound.{AreToldOf, AreToldBy};
ghost use Rattle.mode_report.specs.ModesReport.{modes_text};
ghost use Rattle.mode_report.specs.OneWeightLaws.{HaveOneSpace};
ghost use Rattle.mode_report.specs.ReportPieces.{along_pieces, modes_pieces, modes_told};

use crate::along_report::AlongReport;
use crate::report::ModesReport;
use cyclo24::K24;
use list_report::law_of_listing_steps;
use mode_project::{law_of_one_basis, law_of_one_orbit};
use report_steps::law_of_irreps;

/// At most one atom line of a file is refused, for one cause; or what is told of its orbits and modes
/// is one; and not both.
pub fn law_of_modes_found()
    ensures { (d : Divided) → IsQuotient d.quotient → IsSingleAt RefusesAtoms AreToldOf d }
{
    law_of_one_basis::<K24>();
    law_of_one_orbit();
    law_of_irreps();
}

/// What is told of the orbits of a file and of their modes is one, where all orbits of one atom have
/// alike spaces.
pub fn law_of_modes_in_spaces()
    ensures { (space : SupercellGroup → OrbitView → AtomSpace) (d : Divided) → IsQuotient d.quotient → HaveOneSpace space d.quotient → IsSingleAt RefusesAtoms (AreToldBy space) d }
{
    law_of_one_basis::<K24>();
    law_of_irreps();
}

/// What `modes` finds for a direction of a file is one, besides numbers that pass their bound.
pub fn law_of_modes_along()
    ensures { (d : Divided) → IsQuotient d.quotient → (wanted : Option (List ℕ)) (number : ℕ) → FindsOneAt (IsFoundAlong wanted number) d }
{
    law_of_one_basis::<K24>();
    law_of_one_orbit();
    law_of_irreps();
    law_of_listing_steps();
}

/// The pieces of the report of all modes, one behind the other, are the report.
pub fn law_of_modes_pieces()
    ensures { (r : ModesReport) → concat (modes_pieces r) ≡ modes_text r.file.divided.file.format (modes_told r) }
{}

/// The pieces of the report of modes along a direction, one behind the other, are the report.
pub fn law_of_along_pieces()
    ensures { (r : AlongReport) → concat (along_pieces r) ≡ along_text r.along }
{}
