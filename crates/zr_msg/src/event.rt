//! The events of which a router hears.

ghost use Rattle.std.specs.Prelude.{◌≡◌, IfOk};

use crate::msg::Msg;
use crate::peer::Peer;
use std::alloc::{AllocError, Global};
use zr_id::link::LinkNo;

/// What one router hears of in one atomic step.
#[derive(Drop)]
pub enum Event {
    /// A link has come up.
    Up { link: LinkNo, peer: Peer },
    /// A link has gone down.
    Down { link: LinkNo },
    /// A message has come over a link.
    From { link: LinkNo, msg: Msg },
}

impl Event {
    /// The same event again.
    pub fn copy(&self, alloc: Global) -> Result<Event, AllocError>
        ensures { IfOk result (λ e. e ≡ self.now) }
    {
        Ok(match self {
            Event::Up { link, peer } => Event::Up {
                link: *link,
                peer: *peer,
            },
            Event::Down { link } => Event::Down { link: *link },
            Event::From { link, msg } => Event::From {
                link: *link,
                msg: msg.copy(alloc)?,
            },
        })
    }
}
