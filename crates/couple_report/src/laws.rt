// Laws over the definitions, as contracts of functions that do nothing.
ghost use Rattle.std.specs.Prelude.{◌≡◌, ℕ, List, Option};
ghost use Rattle.std.specs.List.{concat};
ghost use Rattle.cyclo24.specs.ExactK24.{k24_laws};
ghost use Rattle.super_group.specs.Quotient.{IsQuotient};
ghost use Rattle.report_steps.specs.Contexts.{Divided};
ghost use Rattle.report_steps.specs.StepLaws.{FindsOneAt};
ghost use Rattle.couple_report.specs.CoupleFound.{CoupledForm, CoupledListing, AreCoupled, IsCoupledListing, IsCoupleFound};
ghost use Rattle.couple_report.specs.CouplePieces.{couple_pieces};
ghost use Rattle.couple_report.specs.FoundCouple.{couple_of};
ghost use Rattle.couple_report.specs.FoundLink.{link_of};
ghost use Rattle.couple_report.specs.LinkFound.{IsLinkFound};
ghost use Rattle.couple_report.specs.LinkPieces.{link_pieces};
ghost use Rattle.couple_report.specs.PairListings.{ListsPairs};
ghost use Rattle.couple_report.specs.Pairs.{FormedPair};

use crate::link::FoundLink;
use crate::together::FoundCouple;
use couple::law_of_pairs;
use cyclo24::K24;
use list_report::law_of_listing_steps;
use report_steps::law_of_irreps;

/// For each pair of vectors exactly one direction of a listing of pairs is of the class of the elements
/// that leave both as they are; and the stabiliser of each direction is the whole rising list of such
/// elements for some pair.
pub fn law_of_coupled_listing()
    ensures { (x : FormedPair) (c : CoupledForm) (l : CoupledListing) → AreCoupled x c → IsCoupledListing c l → ListsPairs k24_laws x.left.act x.right.act l.directions }
{
    law_of_pairs::<K24>();
}

/// What `couple` finds for a file is one, besides numbers that pass their bound.
pub fn law_of_couple_found()
    ensures { (d : Divided) → IsQuotient d.quotient → (wanted : Option (List ℕ)) (other : List ℕ) (after : ℕ) (count : Option ℕ) → FindsOneAt (IsCoupleFound wanted other after count) d }
{
    law_of_pairs::<K24>();
    law_of_listing_steps();
}

/// What `link` finds for a file is one, besides numbers that pass their bound.
pub fn law_of_link_found()
    ensures { (d : Divided) → IsQuotient d.quotient → (wanted : Option (List ℕ)) (other : List ℕ) → FindsOneAt (IsLinkFound wanted other) d }
{
    law_of_listing_steps();
    law_of_irreps();
}

/// The pieces of the report of `couple`, one behind the other, are the report.
pub fn law_of_couple_pieces()
    ensures { (c : FoundCouple) → concat (couple_pieces c) ≡ couple_of c }
{}

/// The pieces of the report of `link`, one behind the other, are the report.
pub fn law_of_link_pieces()
    ensures { (l : FoundLink) → concat (link_pieces l) ≡ link_of l }
{}
