//! What an end of a session sends by: how long a batch may be, and which number its next frame has.

ghost use Rattle.std.specs.Prelude.{◌≡◌, ◌+◌, ◌++◌, ◌<◌, ◌≤◌, ℕ, List, [], ◌∷◌, Some, None, is_some, true, length, nat_le, if◌then◌else◌, map, IfOk, OnOk, OnErr};
ghost use Rattle.zr_trans.specs.Writing.{writes_trans};
ghost use Rattle.zr_trans.specs.declared.trans.Trans.TheVariants.{Frame};
ghost use Rattle.zr_frame.specs.Turn.{modulus_of};
ghost use Rattle.zr_frame.specs.Outbox.{IsOutbox, advanced, with_names};
ghost use Rattle.zr_frame.specs.Packing.{one_parcel, parcels};

use crate::counter::modulus;
use crate::packer::Packer;
use std::alloc::{AllocError, Global};
use std::marker::Model;
use zr_bytes::ByteString;
use zr_trans::{Trans, write_trans};

/// The least that a batch may hold, in bytes. Each end refuses less as a session opens.
pub const LEAST_BATCH: u16 = 64;

/// What both ends have agreed on as a session opened, for one direction of it, and where its frame numbers stand.
#[derive(Clone, Copy, Debug)]
pub struct Outbox {
    batch: u16,
    bits: u8,
    next: u64,
    // whether this end gives numbers to the texts of keys; as the session opens none has one
    names: bool,
}

impl Model for Outbox {
    ghost use Rattle.std.specs.Prelude.{◌<◌, ◌≤◌, is_some};
    ghost use Rattle.zr_frame.specs.Names.{first_names, first_names_tell};
    ghost use Rattle.zr_frame.specs.Turn.{modulus_of};
    ghost use Rattle.zr_frame.specs.Outbox.{OutboxState};

    ghost Value = { OutboxState };

    ghost view = { λ o. record { batch = o.batch; bits = o.bits; next = o.next; names = first_names o.names } };

    ghost invariant = { λ o. (64 ≤ o.batch) × (o.bits < 4) × (o.next < modulus_of o.bits) };

    ghost inverse = { λ o. record { batch = o.batch; bits = o.bits; next = o.next; names = is_some o.names } };

    ghost inverse_ok = { λ o h i. record { batch = o.batch; bits = o.bits; next = o.next; names = first_names_tell o.names i } };
}

impl Outbox {
    /// The most bytes of a batch, the two bits of the resolution of frame numbers, and the number of the first frame. Keys go as whole text.
    pub fn new(batch: u16, bits: u8, next: u64) -> Outbox
        requires large { 64 ≤ batch }
        requires two_bits { bits < 4 }
        requires in_range { next < modulus_of bits }
        ensures { result ≡ record { batch = batch; bits = bits; next = next; names = None } }
    {
        Outbox {
            batch,
            bits,
            next,
            names: false,
        }
    }

    /// The same, by which this end gives numbers to the texts of keys. None has one yet.
    pub fn with_names(self) -> Outbox
        ensures { result ≡ with_names self (Some []) }
    {
        Outbox {
            names: true,
            ..self
        }
    }

    /// Whether this end gives numbers to the texts of keys.
    pub fn has_names(&self) -> bool
        ensures { result ≡ is_some self.now.names }
    {
        self.names
    }

    /// The most bytes of a batch.
    pub fn batch(&self) -> u16
        ensures value { result ≡ self.now.batch }
        ensures valid { IsOutbox self.now }
    {
        self.batch
    }

    /// The two bits of the resolution of frame numbers.
    pub fn bits(&self) -> u8
        ensures { result ≡ self.now.bits }
    {
        self.bits
    }

    /// The number of the next frame.
    pub fn next(&self) -> u64
        ensures { result ≡ self.now.next }
    {
        self.next
    }

    /// One frame or fragment was sent.
    pub(crate) fn advance(&mut self)
        ensures { self.new ≡ advanced self.old }
    {
        self.next = (self.next + 1) % modulus(self.bits);
    }

    /// Writes what stands before one message of `count` bytes in a frame of its own, in place of what `head` held. Where both
    /// fit into a batch, head and message are the one batch of this message, and the frame was sent.
    #[tactic(auto, using(crate::proofs::Alone::goes_alone, crate::proofs::Heads::length_frame_head))]
    pub fn head(&mut self, count: usize, head: &mut Vec<u8>) -> Result<bool, AllocError>
        ensures value { OnOk result (head.new.items ≡ writes_trans (Frame true self.old.next)) }
        ensures short { OnOk result (length head.new.items ≤ 10) }
        ensures fits { IfOk result (λ fits. fits ≡ nat_le (length head.new.items + count) self.old.batch) }
        ensures outbox { IfOk result (λ fits. self.new ≡ (if fits then advanced self.old else self.old)) }
        ensures alone { IfOk result (λ fits. fits ≡ true → (m : List ℕ) → length m ≡ count → parcels self.old (m ∷ []) ≡ one_parcel self.old (head.new.items ++ m)) }
        ensures err { OnErr result (self.new ≡ self.old) }
    {
        head.clear();
        let number = self.next;
        write_trans(
            head,
            &Trans::Frame {
                reliable: true,
                number,
            },
        )?;
        let most = usize::from(self.batch);
        if head.len() > most || count > most - head.len() {
            return Ok(false);
        }
        self.advance();
        Ok(true)
    }

    /// Appends the batches of messages that are written. A frame takes the next message while it fits; one that doesn't fit
    /// a frame of its own goes in fragments. Where memory runs out nothing is appended, and the numbers stay.
    pub fn pieces(
        &mut self,
        alloc: Global,
        messages: &[ByteString],
        out: &mut Vec<ByteString>,
    ) -> Result<(), AllocError>
        ensures batches { OnOk result (out.new.items ≡ out.old.items ++ (parcels self.old messages.now).batches) }
        ensures outbox { OnOk result (self.new ≡ (parcels self.old messages.now).outbox) }
        ensures err { OnErr result ((out.new.items ≡ out.old.items) × (self.new ≡ self.old)) }
    {
        let mut packer = Packer::new(alloc, *self);
        packer.add_all(alloc, messages)?;
        *self = packer.finish(out)?;
        Ok(())
    }
}
