// Listings in a short type first, and in `K24` where that is wide.
ghost use Rattle.std.specs.Prelude.{◌≡◌, ◌<◌, ◌≤◌, ◌⊎◌, Err, IfOk, OnOk, length, map};
ghost use Rattle.cyclo24.specs.ExactK24.{k24, k24_laws};
ghost use Rattle.cyclo24.specs.K24.{exact24};
ghost use Rattle.lin_alg.specs.Action.{Action};
ghost use Rattle.fix_lattice.specs.Lattice.{AreMoreFixes};
ghost use Rattle.fix_lattice.specs.Subspaces.{AreWholeForms};
ghost use Rattle.fix_lattice.specs.Wide.{IsWideFixes};
ghost use Rattle.class_list.specs.Directions.{IsListing};
ghost use Rattle.class_list.specs.Seen.{directions_of};
ghost use Rattle.class_list.specs.Wide.{IsWideImages};
ghost use Rattle.short_listing.specs.declared.errors.ListingError.TheVariants as listing_error;

use crate::ListingError;
use crate::acts::ShortActs;
use crate::forms::lengthened_listing;
use class_list::{ListError, Listing, Order, listing};
use cyclo24::{Field, K24, Short, ShortK24, ShortRational};
use fix_lattice::{CloseError, close};
use lin_alg::{Acts, LinError, Steps};
use std::alloc::Global;
use std::sync::ledger::Ledger;

// The listing over a field: the fixed subspaces, and their directions.
fn listing_in<F: Field, G: Acts<F>, L: Ledger>(
    alloc: Global,
    acts: &G,
    limit: usize,
    order: Order,
    steps: &mut Steps<L>,
) -> Result<Listing<F>, ListingError>
    requires some { 0 < limit }
    requires limit { limit ≤ 16384 }
    requires dim { (G.action acts.now).dim ≤ 24 }
    requires order { (G.action acts.now).group.order ≤ 16384 }
    ensures listing { IfOk result (λ l. IsListing F.field.laws F.field.cmp (G.action acts.now) order (directions_of F.field.laws F.value l)) }
    ensures forms { IfOk result (λ l. AreWholeForms F.field.laws F.value (G.action acts.now).dim (map (λ d. d.equations) l)) }
    ensures few { OnOk result (AreMoreFixes F.field.laws (G.action acts.now) limit → ⊥) }
    ensures many { (result ≡ Err listing_error.TooManySubspaces) → AreMoreFixes F.field.laws (G.action acts.now) limit }
    ensures wide_subspace { (result ≡ Err listing_error.WideSubspace) → G.wide acts.now ⊎ IsWideFixes F.field (G.action acts.now) }
    ensures wide_stabiliser { (result ≡ Err listing_error.WideStabiliser) → G.wide acts.now ⊎ IsWideFixes F.field (G.action acts.now) }
    ensures wide_image { (result ≡ Err listing_error.WideImage) → G.wide acts.now ⊎ IsWideImages F.field (G.action acts.now) }
    ensures few_image { (result ≡ Err listing_error.WideImage) → AreMoreFixes F.field.laws (G.action acts.now) limit → ⊥ }
{
    let spaces = match close(alloc, acts, limit, steps) {
        Ok(spaces) => spaces,
        Err(CloseError::TooManySubspaces) => return Err(ListingError::TooManySubspaces),
        Err(CloseError::Wide) => return Err(ListingError::WideSubspace),
        Err(CloseError::NoMemory) => return Err(ListingError::NoMemory),
    };
    match listing(alloc, acts, spaces, order, steps) {
        Ok(listing) => Ok(listing),
        Err(ListError::WideStabiliser) => Err(ListingError::WideStabiliser),
        Err(ListError::WideImage) => Err(ListingError::WideImage),
        Err(ListError::NoMemory) => Err(ListingError::NoMemory),
    }
}

// The listing, found in a short type. It says nothing of where that is wide.
fn listing_in_short<S: Short, G: Acts<K24>, L: Ledger>(
    alloc: Global,
    acts: &G,
    limit: usize,
    order: Order,
    steps: &mut Steps<L>,
) -> Result<Listing<K24>, ListingError>
    requires some { 0 < limit }
    requires limit { limit ≤ 16384 }
    requires dim { (G.action acts.now).dim ≤ 24 }
    requires order { (G.action acts.now).group.order ≤ 16384 }
    ensures listing { IfOk result (λ l. IsListing k24_laws k24.cmp (G.action acts.now) order (directions_of k24_laws exact24 l)) }
    ensures forms { IfOk result (λ l. AreWholeForms k24_laws exact24 (G.action acts.now).dim (map (λ d. d.equations) l)) }
    ensures few { OnOk result (AreMoreFixes k24_laws (G.action acts.now) limit → ⊥) }
    ensures many { (result ≡ Err listing_error.TooManySubspaces) → AreMoreFixes k24_laws (G.action acts.now) limit }
{
    let short = match ShortActs::<S, G>::new(alloc, acts) {
        Ok(short) => short,
        Err(LinError::Wide) => return Err(ListingError::WideSubspace),
        Err(LinError::NoMemory) => return Err(ListingError::NoMemory),
    };
    match listing_in::<S, ShortActs<S, G>, L>(alloc, &short, limit, order, steps) {
        Ok(listing) => match lengthened_listing(alloc, &listing) {
            Ok(listing) => Ok(listing),
            Err(_) => Err(ListingError::NoMemory),
        },
        Err(error) => Err(error),
    }
}

// Whether all entries of the matrix of q are short rational numbers. The lent row is only room.
fn is_rational_at<G: Acts<K24>>(acts: &G, q: usize, row: &mut [K24]) -> bool
    requires element { q < (G.action acts.now).group.order }
    requires room { length row.old ≡ (G.action acts.now).dim }
{
    for i in 0..acts.dim() {
        if acts.row(q, i, row).is_err() {
            return false;
        }
        if !is_rational_row(row) {
            return false;
        }
    }
    true
}

// Whether all entries of a row are short rational numbers.
fn is_rational_row(row: &[K24]) -> bool {
    for entry in row {
        if ShortRational::from_k24(*entry).is_none() {
            return false;
        }
    }
    true
}

// Whether all entries of the generators' matrices are short rational numbers.
fn is_rational<G: Acts<K24>>(acts: &G) -> bool
    requires { (G.action acts.now).dim ≤ 24 }
{
    let mut buffer = [K24::zero(); 24];
    let row = &mut buffer[..acts.dim()];
    for i in 0..acts.generators() {
        if !is_rational_at(acts, acts.generator(i), row) {
            return false;
        }
    }
    true
}

// The listing, found in the shortest type that the generators' matrices allow.
fn first_run<G: Acts<K24>, L: Ledger>(
    alloc: Global,
    acts: &G,
    limit: usize,
    order: Order,
    steps: &mut Steps<L>,
) -> Result<Listing<K24>, ListingError>
    requires some { 0 < limit }
    requires limit { limit ≤ 16384 }
    requires dim { (G.action acts.now).dim ≤ 24 }
    requires order { (G.action acts.now).group.order ≤ 16384 }
    ensures listing { IfOk result (λ l. IsListing k24_laws k24.cmp (G.action acts.now) order (directions_of k24_laws exact24 l)) }
    ensures forms { IfOk result (λ l. AreWholeForms k24_laws exact24 (G.action acts.now).dim (map (λ d. d.equations) l)) }
    ensures few { OnOk result (AreMoreFixes k24_laws (G.action acts.now) limit → ⊥) }
    ensures many { (result ≡ Err listing_error.TooManySubspaces) → AreMoreFixes k24_laws (G.action acts.now) limit }
{
    if is_rational(acts) {
        listing_in_short::<ShortRational, G, L>(alloc, acts, limit, order, steps)
    } else {
        listing_in_short::<ShortK24, G, L>(alloc, acts, limit, order, steps)
    }
}

/// The least direction of each class of isotropy subgroups, in order, each with its whole pointwise
/// stabiliser, where there are at most `limit` fixed subspaces. Short rational numbers are tried first
/// where the generators' matrices have no others, else short numbers; only where they are too wide is
/// it done in `K24`, whose numbers alone are ever too wide for an answer. Each try counts its
/// insertions on.
pub fn listing_of<G: Acts<K24>, L: Ledger>(
    alloc: Global,
    acts: &G,
    limit: usize,
    order: Order,
    steps: &mut Steps<L>,
) -> Result<Listing<K24>, ListingError>
    requires some { 0 < limit }
    requires limit { limit ≤ 16384 }
    requires dim { (G.action acts.now).dim ≤ 24 }
    requires order { (G.action acts.now).group.order ≤ 16384 }
    ensures listing { IfOk result (λ l. IsListing k24_laws k24.cmp (G.action acts.now) order (directions_of k24_laws exact24 l)) }
    ensures forms { IfOk result (λ l. AreWholeForms k24_laws exact24 (G.action acts.now).dim (map (λ d. d.equations) l)) }
    ensures few { OnOk result (AreMoreFixes k24_laws (G.action acts.now) limit → ⊥) }
    ensures many { (result ≡ Err listing_error.TooManySubspaces) → AreMoreFixes k24_laws (G.action acts.now) limit }
    ensures wide_subspace { (result ≡ Err listing_error.WideSubspace) → G.wide acts.now ⊎ IsWideFixes k24 (G.action acts.now) }
    ensures wide_stabiliser { (result ≡ Err listing_error.WideStabiliser) → G.wide acts.now ⊎ IsWideFixes k24 (G.action acts.now) }
    ensures wide_image { (result ≡ Err listing_error.WideImage) → G.wide acts.now ⊎ IsWideImages k24 (G.action acts.now) }
    ensures few_image { (result ≡ Err listing_error.WideImage) → AreMoreFixes k24_laws (G.action acts.now) limit → ⊥ }
{
    match first_run(alloc, acts, limit, order, steps) {
        Ok(listing) => Ok(listing),
        Err(ListingError::TooManySubspaces) => Err(ListingError::TooManySubspaces),
        Err(ListingError::NoMemory) => Err(ListingError::NoMemory),
        Err(_) => listing_in(alloc, acts, limit, order, steps),
    }
}
