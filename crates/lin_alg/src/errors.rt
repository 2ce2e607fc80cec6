// Why a call gave no answer.
ghost use Rattle.std.specs.Prelude.{◌≡◌};
ghost use Rattle.lin_alg.specs.declared.errors.LinError.TheVariants as lin_error;

use cyclo24::Wide;
use iso_text::NoMemory;
use thiserror::Error;

/// Why a call of linear algebra gave no answer.
#[derive(Clone, Copy, Debug, PartialEq, Eq, Error)]
pub enum LinError {
    /// A number that the call had to write reached the bound of the field.
    #[error("a number is too wide")]
    Wide,
    /// Want of memory.
    #[error("out of memory")]
    NoMemory,
}

impl From<Wide> for LinError {
    ghost from_gives = { λ _ e. e ≡ lin_error.Wide };

    fn from(_: Wide) -> Self {
        LinError::Wide
    }
}

impl From<NoMemory> for LinError {
    ghost from_gives = { λ _ e. e ≡ lin_error.NoMemory };

    fn from(_: NoMemory) -> Self {
        LinError::NoMemory
    }
}
