//! Why clients aren't told.

use std::alloc::AllocError;
use thiserror::Error;

/// Why clients aren't told of an event.
#[derive(Clone, Copy, Debug, PartialEq, Eq, Drop, Error)]
pub enum ToldError {
    /// A client is to be told of more places than there are ids. No client was told anything, and nothing has changed.
    #[error("no id is left on a link")]
    Worn,
    /// Memory ran out. A prefix of what is to be told was told; what is kept of it is not said.
    #[error("out of memory")]
    NoMemory,
}

impl From<AllocError> for ToldError {
    ghost use Rattle.std.specs.Prelude.{◌≡◌};
    ghost use Rattle.zr_told.specs.declared.error.ToldError.TheVariants.{NoMemory};

    ghost from_gives = { λ _ e. e ≡ NoMemory };

    fn from(_: AllocError) -> ToldError {
        ToldError::NoMemory
    }
}
