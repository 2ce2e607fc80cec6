// Laws over the definitions, as contracts of functions that do nothing.
ghost use Rattle.std.specs.Prelude.{◌≡◌};
ghost use Rattle.std.specs.List.{concat};
ghost use Rattle.super_group.specs.Quotient.{IsQuotient};
ghost use Rattle.report_steps.specs.Contexts.{Divided};
ghost use Rattle.report_steps.specs.StepLaws.{FindsOneAt};
ghost use Rattle.apart_report.specs.ApartFound.{AreApartFound};
ghost use Rattle.apart_report.specs.ApartPieces.{apart_pieces};
ghost use Rattle.apart_report.specs.FoundPairs.{apart_of};

use crate::found::FoundPairs;
use report_steps::law_of_irreps;

/// What `apart` finds in a file is one, besides numbers that pass their bound.
pub fn law_of_apart_found()
    ensures { (d : Divided) → IsQuotient d.quotient → FindsOneAt AreApartFound d }
{
    law_of_irreps();
}

/// The pieces of the report of pairs, one behind the other, are the report.
pub fn law_of_apart_pieces()
    ensures { (f : FoundPairs) → concat (apart_pieces f) ≡ apart_of f }
{}
