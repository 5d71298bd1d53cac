//! What may stand beside a message's body.

ghost use Rattle.std.specs.Prelude.{◌≡◌, IfOk, Some, None};
ghost use Rattle.zr_msg.specs.Extras.{no_extras};

use std::alloc::{AllocError, Global};
use zr_bytes::ByteString;

/// The extensions that a message passes on as they were read (Zenoh protocol 1.0, "Extensions").
#[derive(Debug, Drop)]
pub struct Extras {
    /// The quality of service, id 1: bits 0 to 2 are the priority, 0x08 asks not to drop the message, 0x10 to send it at once.
    pub qos: Option<u64>,
    /// The timestamp, id 2, as its bytes.
    pub stamp: Option<ByteString>,
    /// Of a request: how many replies it takes, id 5.
    pub budget: Option<u64>,
    /// Of a request: how long it waits, in milliseconds, id 6.
    pub timeout: Option<u64>,
    /// Of a response: who made it, id 3, as its bytes.
    pub responder: Option<ByteString>,
    /// The bit of value 2^k is set exactly where the message has one of these extensions, or a target, of id k that was marked mandatory.
    pub marks: u8,
}

impl Extras {
    /// No extension.
    pub fn none() -> Extras
        ensures { result ≡ no_extras }
    {
        Extras {
            qos: None,
            stamp: None,
            budget: None,
            timeout: None,
            responder: None,
            marks: 0,
        }
    }

    /// The same extensions again.
    pub fn copy(&self, alloc: Global) -> Result<Extras, AllocError>
        ensures { IfOk result (λ e. e ≡ self.now) }
    {
        Ok(Extras {
            qos: self.qos,
            stamp: copied(alloc, &self.stamp)?,
            budget: self.budget,
            timeout: self.timeout,
            responder: copied(alloc, &self.responder)?,
            marks: self.marks,
        })
    }
}

fn copied(alloc: Global, bytes: &Option<ByteString>) -> Result<Option<ByteString>, AllocError>
    ensures { IfOk result (λ b. b ≡ bytes.now) }
{
    Ok(match bytes {
        Some(bytes) => Some(bytes.copy(alloc)?),
        None => None,
    })
}
