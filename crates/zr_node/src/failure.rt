//! Why an event isn't handled, as the parts of the router tell each other.

ghost use Rattle.std.specs.Prelude.{◌≡◌};
ghost use Rattle.std.specs.Option.{option_map};
ghost use Rattle.zr_node_spec.specs.Table.{known_error};
ghost use Rattle.zr_node.specs.Answer.{lacking};

use std::alloc::AllocError;
use zr_graph::base::ChangeError;
use zr_log::error::KnownError;
use zr_msg::error::NodeError;
use zr_query::asking::RequestError;

/// Why an event wasn't handled.
#[derive(Drop)]
pub enum NodeFailure {
    /// It is refused, and nothing has changed.
    Refused(NodeError),
    /// Memory ran out on the way.
    NoMemory,
}

impl From<AllocError> for NodeFailure {
    ghost use Rattle.std.specs.Prelude.{◌≡◌};
    ghost use Rattle.zr_node.specs.declared.failure.NodeFailure.TheVariants.{NoMemory};

    ghost from_gives = { λ _ e. e ≡ NoMemory };

    fn from(_: AllocError) -> NodeFailure {
        NodeFailure::NoMemory
    }
}

impl From<RequestError> for NodeFailure {
    ghost use Rattle.std.specs.Prelude.{◌≡◌};
    ghost use Rattle.zr_node.specs.Answer.{request_failure};

    ghost from_gives = { λ e f. f ≡ request_failure e };

    fn from(error: RequestError) -> NodeFailure {
        match error {
            RequestError::NoNumber => NodeFailure::Refused(NodeError::Worn),
            RequestError::NoMemory => NodeFailure::NoMemory,
        }
    }
}

impl From<ChangeError> for NodeFailure {
    ghost use Rattle.std.specs.Prelude.{◌≡◌};
    ghost use Rattle.zr_node.specs.Answer.{change_failure};

    ghost from_gives = { λ e f. f ≡ change_failure e };

    fn from(error: ChangeError) -> NodeFailure {
        match error {
            ChangeError::Worn => NodeFailure::Refused(NodeError::Worn),
            ChangeError::NoMemory => NodeFailure::NoMemory,
        }
    }
}

impl From<KnownError> for NodeFailure {
    ghost use Rattle.std.specs.Prelude.{◌≡◌};
    ghost use Rattle.zr_node.specs.Answer.{known_failure};

    ghost from_gives = { λ e f. f ≡ known_failure e };

    fn from(error: KnownError) -> NodeFailure {
        match error {
            KnownError::Gap { source, has, came } => NodeFailure::Refused(NodeError::Gap {
                router: source,
                has,
                came,
            }),
            KnownError::TextLimit { held, more } => {
                NodeFailure::Refused(NodeError::TextLimit { held, more })
            }
            KnownError::Worn => NodeFailure::Refused(NodeError::Worn),
            KnownError::NoMemory => NodeFailure::NoMemory,
        }
    }
}

/// Why an event isn't handled where memory ran out: it is refused for what was found without memory, if anything was.
pub fn lacking(found: Option<NodeError>) -> NodeFailure
    ensures { result ≡ lacking found }
{
    match found {
        Some(error) => NodeFailure::Refused(error),
        None => NodeFailure::NoMemory,
    }
}

/// Why a change of another router's log is refused, as the router's own refusal.
pub fn known_as(refused: Option<KnownError>) -> Option<NodeError>
    ensures { result ≡ option_map (λ e. known_error e) refused }
{
    Some(match refused? {
        KnownError::Gap { source, has, came } => NodeError::Gap {
            router: source,
            has,
            came,
        },
        KnownError::TextLimit { held, more } => NodeError::TextLimit { held, more },
        KnownError::Worn => NodeError::Worn,
        KnownError::NoMemory => NodeError::NoMemory,
    })
}
