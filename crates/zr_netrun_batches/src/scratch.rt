//! Memory that one message after another uses.

use std::alloc::Global;
use zr_session::Fed;

/// How much memory for a message is kept, in bytes: as much as a batch may have.
const MOST_KEPT: usize = 65_535;

/// What stands before a message in its frame, its bytes, and what a session gave. Nothing is known of it between two messages.
#[derive(Drop)]
pub struct Scratch {
    pub head: Vec<u8>,
    pub message: Vec<u8>,
    pub fed: Fed,
}

impl Scratch {
    /// No memory yet.
    pub fn new(alloc: Global) -> Scratch {
        Scratch {
            head: Vec::new(alloc),
            message: Vec::new(alloc),
            fed: Fed::new(alloc),
        }
    }

    /// The memory of a long message is given back.
    pub fn let_go(&mut self, alloc: Global) {
        if self.message.capacity() > MOST_KEPT {
            self.message = Vec::new(alloc);
        }
    }
}
