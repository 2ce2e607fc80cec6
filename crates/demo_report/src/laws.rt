// Laws over the definitions, as contracts of functions that do nothing.
ghost use Rattle.std.specs.Prelude.{◌≡◌, ℕ};
ghost use Rattle.std.specs.List.{concat};
ghost use Rattle.super_group.specs.Quotient.{IsQuotient};
ghost use Rattle.report_steps.specs.Contexts.{Divided};
ghost use Rattle.report_steps.specs.StepLaws.{FindsOneAt};
ghost use Rattle.demo_report.specs.DemoFound.{IsDemoFound};
ghost use Rattle.demo_report.specs.DemoPieces.{demo_pieces};
ghost use Rattle.demo_report.specs.FoundDemo.{summary_of};

use crate::found::FoundDemo;
use list_report::law_of_listing_steps;
use mode_report::law_of_modes_found;

/// What `demo` finds in a file is one, besides numbers that pass their bound.
pub fn law_of_demo_found()
    ensures { (d : Divided) → IsQuotient d.quotient → (number : ℕ) → FindsOneAt (IsDemoFound number) d }
{
    law_of_modes_found();
    law_of_listing_steps();
}

/// The pieces of the summary of a generated file, one behind the other, are the summary.
pub fn law_of_demo_pieces()
    ensures { (x : FoundDemo) → concat (demo_pieces x) ≡ summary_of x }
{}
