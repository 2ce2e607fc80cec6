// What is told of two irreps that are taken together.
ghost use Rattle.std.specs.Prelude.{◌≡◌, ◌<◌, Some, slice_get, length};
ghost use Rattle.iso_text.specs.declared.sections.IrrepText.{IrrepText as Irrep};
ghost use Rattle.couple_report.specs.HeldPairs.{chosen_pair, formed_pair, formed_in, IsPairHeld, AreTogether};
ghost use Rattle.couple_report.specs.FoundCouple.{listed_by};

use crate::forms::FormPair;
use class_list::Listing;
use cyclo24::K24;
use iso_text::Name;
use lin_alg::Acts;
use report_steps::InducedFile;
use std::alloc::Global;
use super_group::Quotient;

/// Two irreps by their names and real dimensions; the quotient that acts, the file's format, and the page
/// that is told: it skips `after` directions and has at most `count`, or all.
#[derive(Drop)]
pub(crate) struct Together {
    pub format: u8,
    pub name: Name,
    pub other: Name,
    pub quotient: Quotient,
    pub dim: usize,
    pub other_dim: usize,
    pub after: u64,
    pub count: Option<u64>,
}

/// Two irreps by their names and real dimensions, with the listing of the directions of pairs of their
/// order parameters, and the page that is told: it skips `after` directions and has at most `count`, or
/// all.
#[derive(Drop)]
pub struct FoundCouple {
    pub format: u8,
    pub name: Name,
    pub other: Name,
    pub quotient: Quotient,
    pub dim: usize,
    pub other_dim: usize,
    pub listing: Listing<K24>,
    pub after: u64,
    pub count: Option<u64>,
}

/// What is told of the irreps of a file at two places, by their real forms.
pub(crate) fn together_of(
    file: InducedFile,
    k: usize,
    l: usize,
    forms: &FormPair,
    after: u64,
    count: Option<u64>,
) -> Together
    requires left { k < length file.divided.file.irreps }
    requires right { l < length file.divided.file.irreps }
    requires held { IsPairHeld file.divided.quotient forms.now }
    ensures formed { (i j : Irrep) → slice_get file.divided.file.irreps k ≡ Some i → slice_get file.divided.file.irreps l ≡ Some j → formed_in result forms.now ≡ formed_pair (chosen_pair file.divided i j) forms.now }
    ensures held { AreTogether result forms.now }
    ensures after { result.after ≡ after }
    ensures count { result.count ≡ count }
{
    let (document, quotient) = file.divided.into_parts();
    Together {
        format: document.format(),
        name: document.irreps()[k].name,
        other: document.irreps()[l].name,
        quotient,
        dim: forms.left.dim(),
        other_dim: forms.right.dim(),
        after,
        count,
    }
}

/// A listing of the directions of pairs, with what is told of both irreps.
pub(crate) fn listed(together: Together, listing: Listing<K24>) -> FoundCouple
    ensures { result ≡ listed_by together listing }
{
    let Together {
        format,
        name,
        other,
        quotient,
        dim,
        other_dim,
        after,
        count,
    } = together;
    FoundCouple {
        format,
        name,
        other,
        quotient,
        dim,
        other_dim,
        listing,
        after,
        count,
    }
}
