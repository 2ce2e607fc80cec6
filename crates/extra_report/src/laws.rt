// Laws over the definitions, as contracts of functions that do nothing.
ghost use Rattle.std.specs.Prelude.{◌≡◌};
ghost use Rattle.std.specs.List.{concat};
ghost use Rattle.super_group.specs.Quotient.{IsQuotient};
ghost use Rattle.report_steps.specs.Contexts.{Divided};
ghost use Rattle.report_steps.specs.StepLaws.{FindsOneAt};
ghost use Rattle.extra_modes.specs.declared.nature.Nature.{Nature};
ghost use Rattle.extra_report.specs.ExtraFound.{AreExtraFound};
ghost use Rattle.extra_report.specs.ExtraAmpsFound.{AreExtraAmpsFound};
ghost use Rattle.extra_report.specs.ExtraAmpsPieces.{extra_amps_pieces};
ghost use Rattle.extra_report.specs.ExtraPieces.{extra_pieces};
ghost use Rattle.extra_report.specs.FoundExtra.{extra_of};
ghost use Rattle.extra_report.specs.FoundExtraAmps.{extra_amps_of};

use crate::amps_found::FoundExtraAmps;
use crate::report::ExtraReport;
use cyclo24::K24;
use extra_modes::{law_of_amounts, law_of_extra_spaces};
use mode_project::{law_of_amplitudes, law_of_one_basis};
use mode_report::law_of_modes_in_spaces;
use report_steps::law_of_irreps;

/// What `occ` and `axial` find in a file is one, besides numbers that pass their bound.
pub fn law_of_extra_found()
    ensures { (nature : Nature) (d : Divided) → IsQuotient d.quotient → FindsOneAt (AreExtraFound nature) d }
{
    law_of_extra_spaces();
    law_of_modes_in_spaces();
}

/// What `occ-amps` and `axial-amps` find in a file is one, besides numbers that pass their bound.
pub fn law_of_extra_amps_found()
    ensures { (nature : Nature) (d : Divided) → IsQuotient d.quotient → FindsOneAt (AreExtraAmpsFound nature) d }
{
    law_of_extra_spaces();
    law_of_modes_in_spaces();
    law_of_amounts();
    law_of_amplitudes::<K24>();
    law_of_one_basis::<K24>();
    law_of_irreps();
}

/// The pieces of the report of modes, one behind the other, are the report.
pub fn law_of_extra_pieces()
    ensures { (r : ExtraReport) → concat (extra_pieces r) ≡ extra_of r.found }
{}

/// The pieces of the report of amplitudes, one behind the other, are the report.
pub fn law_of_extra_amps_pieces()
    ensures { (f : FoundExtraAmps) → concat (extra_amps_pieces f) ≡ extra_amps_of f }
{}
