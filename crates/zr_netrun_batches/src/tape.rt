//! Bytes on a wire: batches come behind them, and they are read from the front.

ghost use Rattle.std.specs.Prelude.{◌≡◌, ◌<◌, ◌≤◌, ◌^◌, ◌++◌, ◌==◌, [], drop, take, length, OnOk};
ghost use Rattle.std.specs.List.{AllByRecursion, flat_map};
ghost use Rattle.zr_frame_batch.specs.Framing.{framed};

use std::alloc::{AllocError, Global};
use std::marker::Model;
use zr_bytes::ByteString;
use zr_frame_batch::{put_batch, put_parts};

/// Contracts see the bytes that were not read.
#[derive(Drop)]
pub struct Tape {
    bytes: Vec<u8>,
    // so many of them were read
    read: usize,
}

impl Model for Tape {
    ghost use Rattle.std.specs.Prelude.{◌≤◌, List, ℕ, drop, length};

    ghost Value = { List ℕ };

    ghost view = { λ t. drop t.read t.bytes.items };

    ghost invariant = { λ t. t.read ≤ length t.bytes.items };
}

impl Tape {
    /// No bytes.
    pub fn new(alloc: Global) -> Tape
        ensures { result ≡ [] }
    {
        Tape {
            bytes: Vec::new(alloc),
            read: 0,
        }
    }

    /// Whether all bytes were read.
    pub fn is_empty(&self) -> bool
        ensures { result ≡ (length self.now == 0) }
    {
        self.bytes.len() == self.read
    }

    /// Batches come behind the bytes, each behind its length.
    pub fn put(&mut self, batches: &[ByteString]) -> Result<(), AllocError>
        requires { AllByRecursion (λ batch. length batch < 2 ^ 16) batches.now }
        ensures { OnOk result (self.new ≡ self.old ++ flat_map (λ batch. framed batch) batches.now) }
    {
        self.let_go();
        put_batches(&mut self.bytes, batches)
    }

    /// A batch comes behind them, behind its length, whose parts are these.
    pub fn put_frame(&mut self, head: &[u8], message: &[u8]) -> Result<(), AllocError>
        requires { length (head.now ++ message.now) < 2 ^ 16 }
        ensures { OnOk result (self.new ≡ self.old ++ framed (head.now ++ message.now)) }
    {
        self.let_go();
        put_parts(&mut self.bytes, head, message)
    }

    // The memory of bytes that were read is used again, once they are no fewer than the others. So no more bytes are ever moved than were read.
    fn let_go(&mut self)
        ensures { self.new ≡ self.old }
    {
        let left = self.bytes.len() - self.read;
        if self.read < left {
            return;
        }
        self.bytes.copy_within(self.read.., 0);
        self.bytes.truncate(left);
        self.read = 0;
    }

    /// All bytes that were not read.
    pub fn left(&self) -> &[u8]
        ensures { result.now ≡ self.now }
    {
        &self.bytes[self.read..]
    }

    /// The next bytes, so many at most.
    pub fn front(&self, most: usize) -> &[u8]
        ensures { result.now ≡ take most self.now }
    {
        let left = &self.bytes[self.read..];
        if most < left.len() {
            &left[..most]
        } else {
            left
        }
    }

    /// So many bytes were read.
    pub fn pass(&mut self, count: usize)
        requires { count ≤ length self.old }
        ensures { self.new ≡ drop count self.old }
    {
        self.read += count;
    }
}

// Batches come behind bytes. Where memory runs out some of them may have.
fn put_batches(bytes: &mut Vec<u8>, batches: &[ByteString]) -> Result<(), AllocError>
    requires { AllByRecursion (λ batch. length batch < 2 ^ 16) batches.now }
    ensures put { OnOk result (bytes.new.items ≡ bytes.old.items ++ flat_map (λ batch. framed batch) batches.now) }
    ensures kept { length bytes.old.items ≤ length bytes.new.items }
{
    for batch in batches {
        put_batch(bytes, batch.as_slice())?;
    }
    Ok(())
}
