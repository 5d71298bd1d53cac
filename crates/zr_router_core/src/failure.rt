//! Why an event isn't handled, as the parts tell each other.

use std::alloc::AllocError;
use zr_msg::error::NodeError;

/// Why an event wasn't handled.
#[derive(Drop)]
pub enum HubFailure {
    /// It is refused, and nothing has changed.
    Refused(NodeError),
    /// Memory ran out on the way.
    NoMemory,
}

impl From<AllocError> for HubFailure {
    ghost use Rattle.std.specs.Prelude.{◌≡◌};
    ghost use Rattle.zr_router_core.specs.declared.failure.HubFailure.TheVariants.{NoMemory};

    ghost from_gives = { λ _ e. e ≡ NoMemory };

    fn from(_: AllocError) -> HubFailure {
        HubFailure::NoMemory
    }
}
