//! What a session gives.

ghost use Rattle.std.specs.Prelude.{◌≡◌, [], IfErr};

use crate::stop::ReadStop;
use std::alloc::Global;
use zr_frame::Outbox;
use zr_msg::msg::Msg;
use zr_msg::peer::Peer;

/// What happens in a session, in the order of the stream.
#[derive(Drop)]
pub enum SessionEvent {
    /// Both ends are open. This end sends by the outbox.
    Opened(Peer, Outbox),
    /// The peer sent a message that its role may send.
    Message(Msg),
}

/// Where calls append what they give.
#[derive(Drop)]
pub struct Fed {
    pub events: Vec<SessionEvent>,
    /// What is to be written to the link, batches behind their lengths.
    pub bytes: Vec<u8>,
}

impl Fed {
    ghost use Rattle.zr_session.specs.declared.phase.Phase.{Phase};
    ghost use Rattle.zr_session.specs.Course.{gives};
    ghost use Rattle.zr_session.specs.Done.{Keeps, Steps};
    ghost use Rattle.zr_session.specs.declared.stop.ReadStop.TheVariants.{NoMemory};

    /// Nothing was given yet.
    pub fn new(alloc: Global) -> Fed
        ensures events { result.events.items ≡ [] }
        ensures bytes { result.bytes.items ≡ [] }
    {
        Fed {
            events: Vec::new(alloc),
            bytes: Vec::new(alloc),
        }
    }

    /// Gives one more event.
    pub(crate) fn give(&mut self, event: SessionEvent) -> Result<(), ReadStop>
        ensures steps { (phase : Phase) → Steps result (gives phase event) phase self.old self.new }
        ensures memory { IfErr result (λ e. (e ≡ NoMemory) × Keeps self.old self.new) }
    {
        match self.events.push(event) {
            Ok(()) => Ok(()),
            Err(failed) => {
                drop(failed);
                Err(ReadStop::NoMemory)
            }
        }
    }
}
