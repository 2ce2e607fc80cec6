// Laws over the definitions, as contracts of functions that do nothing.
ghost use Rattle.std.specs.Prelude.{◌≡◌, pos, ◌<ℤ◌, unwrap_or};
ghost use Rattle.std.specs.List.{concat};
ghost use Rattle.super_group.specs.Quotient.{IsQuotient};
ghost use Rattle.report_steps.specs.Contexts.{Divided};
ghost use Rattle.report_steps.specs.StepLaws.{FindsOneAt};
ghost use Rattle.amp_report.specs.AmpsFound.{AreAmpsFound};
ghost use Rattle.amp_report.specs.AmpsPieces.{amps_pieces};
ghost use Rattle.amp_report.specs.FoundAmps.{amps_of};

use crate::found::FoundAmplitudes;
use cyclo24::K24;
use distort_match::law_of_matches;
use mode_project::{law_of_amplitudes, law_of_one_basis, law_of_one_orbit};
use mode_report::law_of_modes_found;
use report_steps::law_of_irreps;

/// What `amps` finds in a file with a tolerance below a quarter of a cell edge is one, besides numbers
/// that pass their bound.
pub fn law_of_amps_found()
    ensures { (d : Divided) → IsQuotient d.quotient → unwrap_or d.file.tolerance (pos 0) <ℤ pos 3000000 → FindsOneAt AreAmpsFound d }
{
    law_of_amplitudes::<K24>();
    law_of_matches();
    law_of_modes_found();
    law_of_one_basis::<K24>();
    law_of_one_orbit();
    law_of_irreps();
}

/// The pieces of the report of amplitudes, one behind the other, are the report.
pub fn law_of_amps_pieces()
    ensures { (f : FoundAmplitudes) → concat (amps_pieces f) ≡ amps_of f }
{}
