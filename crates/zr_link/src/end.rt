//! How a reader ends.

ghost use Rattle.std.specs.Prelude.{◌≡◌, Some, false};
ghost use Rattle.zr_port.specs.Coming.{is_passed};
ghost use Rattle.zr_link.specs.Ends.{end_of_up, end_of_delivery, reason_of};

use zr_msg::error::NodeError;
use zr_open::Reason;
use zr_port::{DeliverError, UpError};

/// How the reader of a link ended.
#[derive(Clone, Copy, PartialEq, Eq)]
pub enum LinkEnd {
    /// A read failed.
    ReadFault,
    /// A write failed before the writer was started.
    WriteFault,
    /// Nothing is left to read.
    PeerEnded,
    /// This end has closed the session, for this reason.
    Closed(Reason),
    /// The peer has closed the session, with this reason.
    Peer(u8),
    /// A thread of the link could not be started: its writer, or its reader itself.
    CrewRefused,
    /// It has read as often as it may.
    Turns,
    /// Memory ran out.
    NoMemory,
}

impl LinkEnd {
    /// The end of a reader whose link may not come up.
    pub(crate) fn of_up(e: UpError) -> LinkEnd
        ensures { result ≡ end_of_up e }
    {
        match e {
            UpError::Full { .. } => LinkEnd::Closed(Reason::MaxSessions),
            UpError::Twice => LinkEnd::Closed(Reason::MaxLinks),
            UpError::Worn => LinkEnd::Closed(Reason::Generic),
            UpError::NoMemory => LinkEnd::NoMemory,
        }
    }

    /// The end of a reader whose message was refused and not passed over.
    pub(crate) fn of_delivery(e: DeliverError) -> LinkEnd
        requires { is_passed e ≡ false }
        ensures { end_of_delivery e ≡ Some result }
    {
        match e {
            DeliverError::Denied { .. } | DeliverError::Ignored { .. } => unreachable!(),
            DeliverError::NotUp { .. } | DeliverError::Full { .. } | DeliverError::Worn => {
                LinkEnd::Closed(Reason::Generic)
            }
            DeliverError::Misplaced { .. } => LinkEnd::Closed(Reason::Invalid),
            DeliverError::Node(e) => LinkEnd::of_node(e),
            DeliverError::NoMemory => LinkEnd::NoMemory,
        }
    }

    fn of_node(e: NodeError) -> LinkEnd
        ensures { end_of_delivery (DeliverError.Node e) ≡ Some result }
    {
        match e {
            NodeError::Gap { .. } | NodeError::NotDeclared { .. } | NodeError::NumberTaken { .. } =>
                LinkEnd::Closed(Reason::Invalid),
            NodeError::TextLimit { .. }
            | NodeError::TooMany { .. }
            | NodeError::Worn
            | NodeError::Spent => LinkEnd::Closed(Reason::Generic),
            NodeError::NoMemory => LinkEnd::NoMemory,
        }
    }

    /// The reason with which the link goes down: that of this end's CLOSE.
    pub(crate) fn reason(self) -> Option<u8>
        ensures { result ≡ reason_of self }
    {
        match self {
            LinkEnd::Closed(reason) => Some(reason.byte()),
            _ => None,
        }
    }
}
