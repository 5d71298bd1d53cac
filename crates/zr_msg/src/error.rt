//! Why a router doesn't handle an event.

use thiserror::Error;
use zr_id::zid::Zid;

/// Why an event wasn't handled. But where memory ran out, router and messages are as before.
#[derive(Clone, Copy, Debug, PartialEq, Eq, Error)]
pub enum NodeError {
    /// An entry of another router's log came before the one that it follows: the router has the first `has` entries, and `came` is a later one than the next.
    #[error("an entry of a log came too early")]
    Gap { router: Zid, has: u64, came: u64 },
    /// A client takes back what it has not declared under this id in this kind.
    #[error("nothing is declared under the id")]
    NotDeclared { id: u32 },
    /// What is declared would weigh more than the limit: so much is held, and so much would come.
    #[error("the declarations would pass their limit")]
    TextLimit { held: u64, more: u64 },
    /// A client asks under a number that is still pending.
    #[error("the number of the request is pending")]
    NumberTaken { id: u32 },
    /// A client asks while it has as many requests pending as it may.
    #[error("too many requests are pending")]
    TooMany { pending: u32 },
    /// A number that the event needs has no room left.
    #[error("a number is at its end")]
    Worn,
    /// Memory ran out at an earlier event.
    #[error("the router is spent")]
    Spent,
    /// Memory ran out. The router is spent from now on.
    #[error("out of memory")]
    NoMemory,
}
