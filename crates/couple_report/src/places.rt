// The two irreps that are taken together.
ghost use Rattle.list_report.specs.HeldListings.{IsPlaceOf};
ghost use Rattle.couple_report.specs.Pairs.{RefusesPair};
ghost use Rattle.couple_report.specs.HeldPairs.{ArePlaces};
ghost use Rattle.report_steps.specs.Steps.{Answers};

use iso_text::Name;
use list_report::place_of;
use report_steps::{InducedFile, Refusal, Step};

// The place of the first irrep, and that of the other name.
fn with_other(
    file: &InducedFile,
    wanted: Option<Name>,
    k: usize,
    other: Name,
) -> Step<(usize, usize)>
    requires { IsPlaceOf wanted file.now.divided.file.irreps k }
    ensures { Answers (RefusesPair wanted other file.now.divided) (ArePlaces wanted other file.now.divided) result }
{
    let with = Some(other);
    match place_of(file.divided.document().irreps(), &with) {
        Some(l) => Step::Passed((k, l)),
        None => Step::Refused(Refusal::NoSuchIrrep(with)),
    }
}

/// The places of two irreps: of the first name, or of the first of the file where it isn't given, and then
/// of the other name.
pub(crate) fn places_of(
    file: &InducedFile,
    wanted: Option<Name>,
    other: Name,
) -> Step<(usize, usize)>
    ensures { Answers (RefusesPair wanted other file.now.divided) (ArePlaces wanted other file.now.divided) result }
{
    match place_of(file.divided.document().irreps(), &wanted) {
        Some(k) => with_other(file, wanted, k, other),
        None => Step::Refused(Refusal::NoSuchIrrep(wanted)),
    }
}
