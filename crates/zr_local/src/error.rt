//! Why a client's declaration isn't taken.

use std::alloc::AllocError;
use thiserror::Error;

/// Why a declaration wasn't taken, or not taken back. What is declared is then as before.
#[derive(Clone, Copy, Debug, Error)]
pub enum LocalError {
    /// The client has declared nothing of this kind under the id.
    #[error("nothing is declared under the id")]
    UnknownId,
    /// All declarations would weigh more than the limit: so much is held, without what would be replaced, and so much would come.
    #[error("the declarations would pass their limit")]
    TextLimit { held: u64, more: u64 },
    #[error("out of memory")]
    NoMemory,
}

impl From<AllocError> for LocalError {
    ghost use Rattle.std.specs.Prelude.{◌≡◌};
    ghost use Rattle.zr_local.specs.declared.error.LocalError.TheVariants.{NoMemory};

    ghost from_gives = { λ _ e. e ≡ NoMemory };

    fn from(_: AllocError) -> LocalError {
        LocalError::NoMemory
    }
}
