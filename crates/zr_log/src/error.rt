//! Why a change or a snapshot isn't taken over.

use std::alloc::AllocError;
use thiserror::Error;
use zr_id::zid::Zid;

/// Why a change or a snapshot wasn't taken over. What is known is then as before.
#[derive(Clone, Copy, Debug, Error)]
pub enum KnownError {
    /// A change is missing before this one: the first `has` changes of the log are known, and `came` is a later one than the next.
    #[error("a change of a log came too early")]
    Gap { source: Zid, has: u64, came: u64 },
    /// The set would weigh more than the limit: so much stays of it, and so much would come.
    #[error("the declarations of a router would pass their limit")]
    TextLimit { held: u64, more: u64 },
    /// The own log has as many changes as there are numbers.
    #[error("the own log has had its last number")]
    Worn,
    #[error("out of memory")]
    NoMemory,
}

impl From<AllocError> for KnownError {
    ghost use Rattle.std.specs.Prelude.{◌≡◌};
    ghost use Rattle.zr_log.specs.declared.error.KnownError.TheVariants.{NoMemory};

    ghost from_gives = { λ _ e. e ≡ NoMemory };

    fn from(_: AllocError) -> KnownError {
        KnownError::NoMemory
    }
}
