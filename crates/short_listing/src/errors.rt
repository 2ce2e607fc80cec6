// Why a listing gave no answer.
ghost use Rattle.std.specs.Prelude.{◌≡◌};
ghost use Rattle.short_listing.specs.declared.errors.ListingError.TheVariants as listing_error;

use iso_text::NoMemory;
use thiserror::Error;

/// Why a listing gave no answer.
#[derive(Clone, Copy, Debug, PartialEq, Eq, Error)]
pub enum ListingError {
    /// There are more fixed subspaces than the limit.
    #[error("too many fixed subspaces")]
    TooManySubspaces,
    /// A number of family 3, of fixed subspaces, reached the bound of the field.
    #[error("a number of a fixed subspace is too wide")]
    WideSubspace,
    /// A number of family 3, of stabilisers, reached the bound of the field.
    #[error("a number of a stabiliser is too wide")]
    WideStabiliser,
    /// A number of family 4, of images of subspaces, reached the bound of the field.
    #[error("a number of an image is too wide")]
    WideImage,
    /// Want of memory.
    #[error("out of memory")]
    NoMemory,
}

impl From<NoMemory> for ListingError {
    ghost from_gives = { λ _ e. e ≡ listing_error.NoMemory };

    fn from(_: NoMemory) -> Self {
        ListingError::NoMemory
    }
}
