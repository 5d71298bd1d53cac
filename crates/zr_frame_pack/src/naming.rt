//! An outbox that gives numbers to the texts of keys.

ghost use Rattle.std.specs.Prelude.{◌≡◌, ◌+◌, ◌<◌, ◌≤◌, ◌++◌, ◌∷◌, ℕ, List, [], true, false, OnOk, OnErr, IfOk, is_some, length, nat_le, if◌then◌else◌};
ghost use Rattle.zr_trans.specs.Writing.{writes_trans};
ghost use Rattle.zr_trans.specs.declared.trans.Trans.TheVariants.{Frame};
ghost use Rattle.zr_frame.specs.Outbox.{IsOutbox, advanced, with_names};
ghost use Rattle.zr_frame.specs.Packing.{one_parcel, parcels};
ghost use Rattle.zr_frame_pack.specs.Marks.{at_mark, IsMarkOf, IsLater};
ghost use Rattle.zr_frame_pack.specs.Packing.{gets_number, numbered_in, written_one};
ghost use Rattle.zr_wire.specs.Writable.{IsWritable};
ghost use Rattle.zr_wire.specs.Writing.{text_of, writes_numbered};
ghost use Rattle.zr_wirekey.specs.Writing.{writes_name};

use crate::message::{message_bytes, name_bytes, numbered_bytes};
use std::alloc::{AllocError, Global};
use std::marker::Model;
use zr_bytes::ByteString;
use zr_frame::Outbox;
use zr_msg::msg::Msg;
use zr_wire::key_in;
use zr_wirekey::Names;

/// What an end of a session sends by, with the texts to which it has given numbers. Contracts see one outbox.
#[derive(Drop)]
pub struct NamingOutbox {
    outbox: Outbox,
    // empty where this end gives no numbers
    names: Names,
}

impl Model for NamingOutbox {
    ghost use Rattle.zr_frame.specs.Outbox.{OutboxState, with_names};
    ghost use Rattle.zr_frame_pack.specs.Packing.{names_in};

    ghost Value = { OutboxState };

    ghost view = { λ o. with_names o.outbox (names_in o.outbox.names o.names) };
}

/// Where an outbox stood at a moment.
#[derive(Clone, Copy)]
pub struct Mark {
    outbox: Outbox,
    count: usize,
}

impl Model for Mark {
    ghost use Rattle.zr_frame_pack.specs.Marks.{MarkState};

    ghost Value = { MarkState };

    ghost view = { λ m. record { outbox = m.outbox; count = m.count } };

    ghost inverse = { λ m. record { outbox = m.outbox; count = m.count } };
}

impl Mark {
    /// The most bytes of a batch.
    pub fn batch(&self) -> u16
        ensures { result ≡ self.now.outbox.batch }
    {
        self.outbox.batch()
    }
}

impl NamingOutbox {
    /// The outbox of a session that has opened.
    pub fn new(alloc: Global, outbox: Outbox) -> NamingOutbox
        ensures { result ≡ outbox }
    {
        NamingOutbox {
            outbox,
            names: Names::new(alloc),
        }
    }

    /// Where it stands.
    pub fn mark(&self) -> Mark
        ensures outbox { at_mark self.now result ≡ self.now }
        ensures mark { IsMarkOf self.now.names result }
    {
        Mark {
            outbox: self.outbox,
            count: self.names.count(),
        }
    }

    /// Goes back to where it stood: what was packed since was not sent. It takes no memory.
    pub fn return_to(&mut self, mark: Mark)
        requires { is_some self.old.names ≡ is_some mark.outbox.names }
        ensures { self.new ≡ at_mark self.old mark }
    {
        self.outbox = mark.outbox;
        self.names.keep_first(mark.count);
    }

    /// The most bytes of a batch.
    pub fn batch(&self) -> u16
        ensures value { result ≡ self.now.batch }
        ensures valid { IsOutbox self.now }
    {
        self.outbox.batch()
    }

    /// Whether this end gives numbers to the texts of keys.
    pub fn has_names(&self) -> bool
        ensures { result ≡ is_some self.now.names }
    {
        self.outbox.has_names()
    }

    /// What stands before one message in a frame of its own, as `Outbox::head`.
    pub fn head(&mut self, count: usize, head: &mut Vec<u8>) -> Result<bool, AllocError>
        ensures value { OnOk result (head.new.items ≡ writes_trans (Frame true self.old.next)) }
        ensures short { OnOk result (length head.new.items ≤ 10) }
        ensures fits { IfOk result (λ fits. fits ≡ nat_le (length head.new.items + count) self.old.batch) }
        ensures outbox { IfOk result (λ fits. self.new ≡ (if fits then advanced self.old else self.old)) }
        ensures alone { IfOk result (λ fits. fits ≡ true → (m : List ℕ) → length m ≡ count → parcels self.old (m ∷ []) ≡ one_parcel self.old (head.new.items ++ m)) }
        ensures err { OnErr result (self.new ≡ self.old) }
    {
        self.outbox.head(count, head)
    }

    /// The number that stands for the key of a message, if it has one.
    #[tactic(auto, using(crate::proofs::Outboxes::no_names, crate::proofs::Outboxes::some_number, crate::proofs::Outboxes::no_text))]
    pub fn number(&self, msg: &Msg) -> Option<u16>
        ensures { result ≡ numbered_in self.now.names (text_of msg.now) }
    {
        if !self.outbox.has_names() {
            return None;
        }
        self.names.number(key_in(msg)?.text().as_bytes())
    }

    /// Whether the key of a message has no number and gets one.
    #[tactic(auto, using(crate::proofs::Outboxes::no_text_gets, crate::proofs::Outboxes::gets_by))]
    pub fn gives_number(&self, msg: &Msg) -> bool
        ensures { result ≡ gets_number self.now.names (text_of msg.now) }
    {
        let Some(key) = key_in(msg) else {
            return false;
        };
        let text = key.text().as_bytes();
        self.outbox.has_names() && self.names.number(text).is_none() && self.names.has_room(text)
    }

    /// Appends what is written of a message: its bytes, behind the declaration of a number where its key gets one. Where memory runs out the declaration may
    /// stand there without the message, so the caller returns to a mark.
    pub fn put(
        &mut self,
        alloc: Global,
        msg: &Msg,
        messages: &mut Vec<ByteString>,
    ) -> Result<(), AllocError>
        requires { IsWritable msg.now }
        ensures messages { OnOk result (messages.new.items ≡ messages.old.items ++ (written_one self.old.names msg.now).messages) }
        ensures names { OnOk result (self.new ≡ with_names self.old (written_one self.old.names msg.now).names) }
        ensures later { IsLater self.old.names self.new.names }
    {
        if self.gives_number(msg) {
            return self.put_first(alloc, msg, messages);
        }
        messages.push(self.bytes(alloc, msg)?)?;
        Ok(())
    }

    // A message whose key gets no number: under the one that it has, or whole.
    #[tactic(auto, using(crate::proofs::NamesGiven::written_given, crate::proofs::NamesGiven::written_whole))]
    fn bytes(&self, alloc: Global, msg: &Msg) -> Result<ByteString, AllocError>
        requires writable { IsWritable msg.now }
        requires old { gets_number self.now.names (text_of msg.now) ≡ false }
        ensures { IfOk result (λ b. written_one self.now.names msg.now ≡ record { messages = b ∷ []; names = self.now.names }) }
    {
        match self.number(msg) {
            Some(number) => numbered_bytes(alloc, msg, number),
            None => message_bytes(alloc, msg),
        }
    }

    // Appends a message whose key gets a number, behind its declaration.
    fn put_first(
        &mut self,
        alloc: Global,
        msg: &Msg,
        messages: &mut Vec<ByteString>,
    ) -> Result<(), AllocError>
        requires writable { IsWritable msg.now }
        requires new { gets_number self.old.names (text_of msg.now) ≡ true }
        ensures messages { OnOk result (messages.new.items ≡ messages.old.items ++ (written_one self.old.names msg.now).messages) }
        ensures names { OnOk result (self.new ≡ with_names self.old (written_one self.old.names msg.now).names) }
        ensures later { IsLater self.old.names self.new.names }
    {
        let Some(key) = key_in(msg) else {
            return Ok(());
        };
        let text = key.text().as_bytes();
        let number = self.names.give(text)?;
        push_both(alloc, number, text, msg, messages)
    }

    /// Appends the batches of messages that are written.
    pub fn pieces(
        &mut self,
        alloc: Global,
        messages: &[ByteString],
        out: &mut Vec<ByteString>,
    ) -> Result<(), AllocError>
        ensures batches { OnOk result (out.new.items ≡ out.old.items ++ (parcels self.old messages.now).batches) }
        ensures outbox { OnOk result (self.new ≡ (parcels self.old messages.now).outbox) }
        ensures names { self.new.names ≡ self.old.names }
        ensures err { OnErr result ((out.new.items ≡ out.old.items) × (self.new ≡ self.old)) }
    {
        self.outbox.pieces(alloc, messages, out)
    }
}

// Appends the declaration of a number, and the message that goes under it.
fn push_both(
    alloc: Global,
    number: u16,
    text: &[u8],
    msg: &Msg,
    messages: &mut Vec<ByteString>,
) -> Result<(), AllocError>
    requires writable { IsWritable msg.now }
    requires number { 0 < number }
    requires text { length text.now ≤ 2048 }
    ensures { OnOk result (messages.new.items ≡ messages.old.items ++ writes_name number text.now ∷ writes_numbered msg.now number ∷ []) }
{
    messages.push(name_bytes(alloc, number, text)?)?;
    messages.push(numbered_bytes(alloc, msg, number)?)?;
    Ok(())
}
