// What the definition of an outcome settles, as the contract of a function that does nothing.
ghost use Rattle.iso_report.specs.OutcomeLaws.{HasOneOutcome};

use crate::job::Job;
use amp_report::law_of_amps_found;
use apart_report::law_of_apart_found;
use couple_report::{law_of_couple_found, law_of_link_found};
use demo_files::law_of_demo_files;
use demo_report::law_of_demo_found;
use extra_report::{law_of_extra_amps_found, law_of_extra_found};
use iso_text::law_of_ranges;
use list_report::law_of_list_told;
use mode_report::{law_of_modes_along, law_of_modes_found};
use report_steps::{law_of_irreps, law_of_steps};

/// Each job finds at most one thing for watchers and the bytes of a source.
pub fn law_of_outcomes()
    ensures { (job : Job) → HasOneOutcome job }
{
    law_of_ranges();
    law_of_steps();
    law_of_irreps();
    law_of_list_told();
    law_of_modes_found();
    law_of_modes_along();
    law_of_amps_found();
    law_of_couple_found();
    law_of_link_found();
    law_of_extra_found();
    law_of_extra_amps_found();
    law_of_apart_found();
    law_of_demo_files();
    law_of_demo_found();
}
