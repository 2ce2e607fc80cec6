// Laws over the definitions, as contracts of functions that do nothing.
ghost use Rattle.std.specs.Prelude.{◌≡◌, ℕ, Bool, List, Option};
ghost use Rattle.super_group.specs.Quotient.{IsQuotient};
ghost use Rattle.report_steps.specs.Contexts.{Divided};
ghost use Rattle.report_steps.specs.StepLaws.{IsSingleAt, IsSingleFor, FindsOneAt};
ghost use Rattle.list_report.specs.Choice.{RefusesChoice, IsChosen};
ghost use Rattle.list_report.specs.Closing.{RefusesSubspaces, AreFew, IsListed};
ghost use Rattle.list_report.specs.Contexts.{Chosen, Formed, Listed};
ghost use Rattle.list_report.specs.Listings.{IsListFound};
ghost use Rattle.list_report.specs.PageLaws.{PagesJoin};
ghost use Rattle.list_report.specs.RealForms.{RefusesForm, IsFormed};
ghost use Rattle.list_report.specs.StabiliserTextLaws.{KeptRise};
ghost use Rattle.list_report.specs.TwinLaws.{AreTwins};
ghost use Rattle.std.specs.List.{concat};
ghost use Rattle.iso_watch.specs.Watchers.{Watcher};
ghost use Rattle.list_report.specs.TellingLaws.{HasListTold};
ghost use Rattle.list_report.specs.ToldPieces.{told_text, told_pieces};
ghost use Rattle.list_report.specs.declared.told.ToldListing.{ToldListing};

use class_list::{law_of_listings, law_of_pages};
use cyclo24::K24;
use iso_watch::law_of_told_pages;
use report_steps::law_of_irreps;

/// Each step of a listing has one answer: the wanted irrep is one, its real forms agree, and so do
/// what such forms refuse and their listings.
pub fn law_of_listing_steps()
    ensures choice { (wanted : Option (List ℕ)) (d : Divided) → IsSingleAt (RefusesChoice wanted) (IsChosen wanted) d }
    ensures form { (c : Chosen) → IsQuotient c.quotient → IsSingleFor RefusesForm IsFormed c c }
    ensures twins { (c : Chosen) → IsQuotient c.quotient → (x y : Formed) → IsFormed c x → IsFormed c y → AreTwins x y }
    ensures subspaces { (x y : Formed) → AreTwins x y → IsSingleFor RefusesSubspaces AreFew x y }
    ensures directions { (x y : Formed) → AreTwins x y → (l m : Listed) → IsListed x l → IsListed y m → l ≡ m }
{
    law_of_irreps();
    law_of_listings::<K24>();
}

/// What `list` finds for a file is one, besides numbers that pass their bound.
pub fn law_of_list()
    ensures { (d : Divided) → IsQuotient d.quotient → (wanted : Option (List ℕ)) (after : ℕ) (count : Option ℕ) → FindsOneAt (IsListFound wanted after count) d }
{
    law_of_irreps();
    law_of_listings::<K24>();
}

/// What `list` finds for a file and watchers is one, besides numbers that pass their bound.
pub fn law_of_list_told()
    ensures { (d : Divided) → IsQuotient d.quotient → (wanted : Option (List ℕ)) (after : ℕ) (count : Option ℕ) (tally : Bool) (ws : List Watcher) → FindsOneAt (HasListTold wanted after count tally ws) d }
{
    law_of_irreps();
    law_of_listings::<K24>();
    law_of_told_pages();
}

/// The lines of the directions of a page, followed by those of the page behind it, are those of one
/// page.
pub fn law_of_report_pages()
    ensures { PagesJoin }
{
    law_of_pages::<K24>();
}

/// The pieces of the report on a told listing, joined, are its text.
pub fn law_of_told_pieces()
    ensures { (t : ToldListing) → concat (told_pieces t) ≡ told_text t }
{}

/// The translations of the lines `kept` of a direction rise.
pub fn law_of_kept_lines()
    ensures { KeptRise }
{}
