//! Why a call of a port is refused. But where memory ran out, a refused call has changed nothing.

ghost use Rattle.std.specs.Prelude.{◌≡◌};
ghost use Rattle.zr_port.specs.Coming.{is_passed};

use thiserror::Error;
use zr_id::link::LinkNo;
use zr_msg::error::NodeError;
use zr_msg::peer::Role;

/// Why a link doesn't come up.
#[derive(Clone, Copy, Debug, Error)]
pub enum UpError {
    /// So many sessions are up, of them so many to routers: one of the two limits is reached.
    #[error("the router has as many sessions as it may")]
    Full { sessions: u32, routers: u32 },
    /// A link to a peer of that identifier is up, or the identifier is the router's own.
    #[error("the identifier is up already")]
    Twice,
    /// A number that the event needs has no room left.
    #[error("a number is at its end")]
    Worn,
    /// Memory ran out, in this call or before.
    #[error("out of memory")]
    NoMemory,
}

/// Why a message isn't delivered.
#[derive(Clone, Copy, Debug, Error)]
pub enum DeliverError {
    /// The link isn't up.
    #[error("the link is not up")]
    NotUp { link: LinkNo },
    /// A peer of that role may not send such a message.
    #[error("the message is out of place")]
    Misplaced { role: Role },
    /// The rule or the default of this line denies the message to the client that sends it.
    #[error("a rule denies the message")]
    Denied { rule: u32 },
    /// Under rules: the client takes back what isn't declared, since it may have been denied.
    #[error("nothing is declared under the id, which may have been denied")]
    Ignored { id: u32 },
    /// The tables refuse the message.
    #[error("the tables refuse the message: {0}")]
    Node(NodeError),
    /// An earlier event has closed the link, whose ring had too few free slots for its parcels.
    #[error("the ring of the link was full")]
    Full { asked: u64, free: u32 },
    /// A number that the event needs has no room left.
    #[error("a number is at its end")]
    Worn,
    /// Memory ran out, in this call or before.
    #[error("out of memory")]
    NoMemory,
}

impl DeliverError {
    /// Whether the message is passed over, so that those behind it on its link come: a rule denies it, or it takes back what may have been denied.
    pub fn is_passed(&self) -> bool
        ensures { result ≡ is_passed self.now }
    {
        match self {
            DeliverError::Denied { .. } | DeliverError::Ignored { .. } => true,
            DeliverError::NotUp { .. }
            | DeliverError::Misplaced { .. }
            | DeliverError::Node(_)
            | DeliverError::Full { .. }
            | DeliverError::Worn
            | DeliverError::NoMemory => false,
        }
    }
}

/// Why a link doesn't go down.
#[derive(Clone, Copy, Debug, Error)]
pub enum DownError {
    /// The link isn't up.
    #[error("the link is not up")]
    NotUp { link: LinkNo },
    /// A number that the event needs has no room left.
    #[error("a number is at its end")]
    Worn,
    /// Memory ran out, in this call or before.
    #[error("out of memory")]
    NoMemory,
}
