//! For what this end closes a session, in words for a log.

use std::alloc::{AllocError, Global};
use zr_msg::error::NodeError;
use zr_port::DeliverError;
use zr_session::Session;

/// Why the message was refused, where one was, or for what the session has ended; nothing where that has no more words than its reason.
pub(crate) fn cause(
    alloc: Global,
    session: &Session,
    refused: Option<DeliverError>,
) -> Option<String> {
    match (refused, session.cause()) {
        (Some(e), _) => refusal(alloc, e).ok(),
        (None, Some(words)) => String::from_str(alloc, words).ok(),
        (None, None) => None,
    }
}

fn refusal(alloc: Global, e: DeliverError) -> Result<String, AllocError> {
    match e {
        DeliverError::Misplaced { .. } => {
            String::from_str(alloc, "a peer of its role may not send such a message")
        }
        DeliverError::Full { asked, free } => {
            format!(in alloc; "an event had {asked} parcels for it, and its ring room for {free}")
        }
        DeliverError::Node(e) => node_refusal(alloc, e),
        DeliverError::NotUp { .. }
        | DeliverError::Denied { .. }
        | DeliverError::Ignored { .. }
        | DeliverError::Worn
        | DeliverError::NoMemory => format!(in alloc; "{e}"),
    }
}

fn node_refusal(alloc: Global, e: NodeError) -> Result<String, AllocError> {
    match e {
        NodeError::Gap { router, has, came } => {
            let router = router.text(alloc)?;
            format!(in alloc; "change {came} of router {router} does not follow {has}")
        }
        NodeError::NotDeclared { id } => {
            format!(in alloc; "it takes back {id}, which it has not declared")
        }
        NodeError::TextLimit { held, more } => {
            format!(in alloc;
                "a declaration that weighs {more}, where {held} are held, passes the limit"
            )
        }
        NodeError::NumberTaken { id } => format!(in alloc; "its query {id} is pending already"),
        NodeError::TooMany { pending } => format!(in alloc; "{pending} of its queries are pending"),
        NodeError::Worn | NodeError::Spent | NodeError::NoMemory => format!(in alloc; "{e}"),
    }
}
