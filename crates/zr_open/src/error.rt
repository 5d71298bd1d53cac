//! Why an opening comes to nothing.

ghost use Rattle.std.specs.Prelude.{◌≡◌};
ghost use Rattle.zr_open.specs.Reason.{byte_of};

use std::alloc::AllocError;
use thiserror::Error;

/// Why this end closes a session (Zenoh protocol 1.0, "Close").
#[derive(Clone, Copy, Debug, PartialEq, Eq)]
pub enum Reason {
    /// A limit of this end, or a cause that has no number of its own.
    Generic,
    /// The peer's version or role is not spoken here.
    Unsupported,
    /// Bytes that spell nothing, or a message that is out of place.
    Invalid,
    /// No more sessions are taken.
    MaxSessions,
    /// There is a session with this peer already.
    MaxLinks,
    /// Nothing was heard for as long as the peer's lease.
    Expired,
}

impl Reason {
    /// The byte that CLOSE has for it.
    pub fn byte(self) -> u8
        ensures { result ≡ byte_of self }
    {
        match self {
            Reason::Generic => 0,
            Reason::Unsupported => 1,
            Reason::Invalid => 2,
            Reason::MaxSessions => 3,
            Reason::MaxLinks => 4,
            Reason::Expired => 5,
        }
    }
}

/// Why an opening doesn't go on.
#[derive(Clone, Copy, Debug, PartialEq, Eq, Drop, Error)]
pub enum OpenError {
    #[error("this end closes the session: {0:?}")]
    Closed(Reason),
    #[error("the peer has closed the session: reason {0}")]
    Peer(u8),
    #[error("out of memory")]
    NoMemory,
}

impl From<AllocError> for OpenError {
    ghost use Rattle.std.specs.Prelude.{◌≡◌};
    ghost use Rattle.zr_open.specs.declared.error.OpenError.TheVariants.{NoMemory};

    ghost from_gives = { λ _ e. e ≡ NoMemory };

    fn from(_e: AllocError) -> OpenError {
        OpenError::NoMemory
    }
}
