//! Memory that is used again from message to message.

ghost use Rattle.std.specs.Prelude.{◌≡◌, IfOk, OnOk, length};
ghost use Rattle.zr_net.specs.Writing.{writes_front};

use std::alloc::{AllocError, Global};
use zr_frame_pack::FEW_BYTES;
use zr_msg::msg::Msg;
use zr_net::write_front;
use zr_ring::MOST_HEAD;

/// The most bytes of a front that a parcel takes in its head: the header, the id and the number of a message have no more.
pub(crate) const MOST_FRONT: usize = 9;

/// What stands before a message in its frame, and what stands before its extensions. What they hold from before doesn't matter.
#[derive(Drop)]
pub(crate) struct Scratch {
    pub head: Vec<u8>,
    pub front: Vec<u8>,
}

impl Scratch {
    pub fn new(alloc: Global) -> Result<Scratch, AllocError> {
        Ok(Scratch {
            head: Vec::with_capacity(alloc, MOST_HEAD)?,
            front: Vec::with_capacity(alloc, FEW_BYTES)?,
        })
    }

    /// Writes what stands before the extensions of a message with a number for its key. The answer is how many bytes stand there where the key is whole.
    pub fn number(&mut self, msg: &Msg, number: u16) -> Result<usize, AllocError>
        ensures front { OnOk result (self.new.front.items ≡ writes_front msg.now number) }
        ensures whole { IfOk result (λ n. n ≡ length (writes_front msg.now 0)) }
    {
        self.front.clear();
        write_front(&mut self.front, msg, 0)?;
        let whole = self.front.len();
        self.front.clear();
        write_front(&mut self.front, msg, number)?;
        Ok(whole)
    }
}
