//! Batches as they are packed.

ghost use Rattle.std.specs.Prelude.{◌≡◌, ◌++◌, ◌≤◌, ℕ, List, [], ◌∷◌, true, None, length, nat_le, if◌then◌else◌, IfOk, OnOk, OnErr};
ghost use Rattle.std.specs.Option.{option_copied};
ghost use Rattle.zr_trans.specs.Writing.{writes_trans, Fits};
ghost use Rattle.zr_trans.specs.declared.trans.Trans.TheVariants.{Frame, Fragment};
ghost use Rattle.zr_frame.specs.Packing.{closed, fragments};
ghost use Rattle.zr_frame.specs.Packer.{with_batch, behind, on_the_way, Extends, Joins, Cuts};

use crate::outbox::Outbox;
use std::alloc::{AllocError, Global};
use std::marker::Model;
use zr_bytes::ByteString;
use zr_trans::{Trans, write_trans};

/// Contracts see the batches that are whole, the outbox behind them, and the frame that has begun.
#[derive(Drop)]
pub(crate) struct Packer {
    outbox: Outbox,
    frame: Option<ByteString>,
    batches: Vec<ByteString>,
}

impl Model for Packer {
    ghost use Rattle.std.specs.Prelude.{◌≡◌};
    ghost use Rattle.zr_frame.specs.Packer.{PackerState};

    ghost Value = { PackerState };

    ghost view = { λ p. record { outbox = p.outbox; frame = p.frame; batches = p.batches.items } };
}

impl Packer {
    pub(crate) fn new(alloc: Global, outbox: Outbox) -> Packer
        ensures { result ≡ record { outbox = outbox; frame = None; batches = [] } }
    {
        Packer {
            outbox,
            frame: None,
            batches: Vec::new(alloc),
        }
    }

    /// Takes messages in order.
    pub(crate) fn add_all(
        &mut self,
        alloc: Global,
        messages: &[ByteString],
    ) -> Result<(), AllocError>
        ensures { OnOk result (on_the_way self.new [] ≡ on_the_way self.old messages.now) }
    {
        for message in messages {
            self.add(alloc, message.as_slice())?;
        }
        Ok(())
    }

    /// Takes one message, whatever follows it.
    fn add(&mut self, alloc: Global, message: &[u8]) -> Result<(), AllocError>
        ensures { OnOk result ((rest : List (List ℕ)) → on_the_way self.new rest ≡ on_the_way self.old (message.now ∷ rest)) }
    {
        if self.join(alloc, message)? {
            return Ok(());
        }
        self.close()?;
        if self.join(alloc, message)? {
            return Ok(());
        }
        self.split(alloc, message)
    }

    /// Puts a message into the frame that has begun, or into a new one, where it fits.
    fn join(&mut self, alloc: Global, message: &[u8]) -> Result<bool, AllocError>
        ensures { IfOk result (λ fit. Joins fit message.now self.old self.new) }
    {
        join(alloc, &self.outbox, &mut self.frame, message)
    }

    /// Ends the frame that has begun, if one has.
    fn close(&mut self) -> Result<(), AllocError>
        ensures { OnOk result (self.new ≡ behind self.old (closed self.old.outbox self.old.frame)) }
    {
        match self.frame.take() {
            Some(frame) => self.put(frame),
            None => Ok(()),
        }
    }

    /// Sends a message that fits no frame in fragments.
    fn split(&mut self, alloc: Global, message: &[u8]) -> Result<(), AllocError>
        requires { self.old.frame ≡ None }
        ensures { OnOk result (self.new ≡ behind self.old (fragments (length message.now) self.old.outbox message.now)) }
    {
        let mut rest = Some(message);
        'pieces: while let Some(bytes) = rest {
            rest = self.cut(alloc, bytes)?;
        }
        Ok(())
    }

    /// Sends one fragment, and gives what it has no room for.
    fn cut<'a>(&mut self, alloc: Global, message: &'a [u8]) -> Result<Option<&'a [u8]>, AllocError>
        ensures { IfOk result (λ rest. Cuts (option_copied rest) message.now self.old self.new) }
    {
        let number = self.outbox.next();
        let parcel = fragment_head(alloc, true, number)?;
        let room = usize::from(self.outbox.batch()) - parcel.as_slice().len();
        if message.len() <= room {
            let last = fragment_head(alloc, false, number)?;
            self.put_fragment(last, message)?;
            return Ok(None);
        }
        let (piece, rest) = message.split_at(room);
        self.put_fragment(parcel, piece)?;
        Ok(Some(rest))
    }

    fn put_fragment(&mut self, mut head: ByteString, piece: &[u8]) -> Result<(), AllocError>
        ensures { OnOk result (self.new ≡ with_batch self.old (head ++ piece.now)) }
    {
        head.append(piece)?;
        self.put(head)
    }

    /// A batch is whole.
    fn put(&mut self, batch: ByteString) -> Result<(), AllocError>
        ensures { OnOk result (self.new ≡ with_batch self.old batch) }
    {
        self.batches.push(batch)?;
        self.outbox.advance();
        Ok(())
    }

    /// Ends the frame that has begun and hands all batches out, with the outbox behind them.
    #[tactic(auto, unfolding(crate::specs::Packing::packed))]
    pub(crate) fn finish(mut self, out: &mut Vec<ByteString>) -> Result<Outbox, AllocError>
        ensures outbox { IfOk result (λ o. o ≡ (on_the_way self []).outbox) }
        ensures batches { OnOk result (out.new.items ≡ out.old.items ++ (on_the_way self []).batches) }
        ensures err { OnErr result (out.new.items ≡ out.old.items) }
    {
        self.close()?;
        out.append(&mut self.batches)?;
        Ok(self.outbox)
    }
}

fn join(
    alloc: Global,
    outbox: &Outbox,
    frame: &mut Option<ByteString>,
    message: &[u8],
) -> Result<bool, AllocError>
    ensures { IfOk result (λ fit. Extends fit outbox.now message.now frame.old frame.new) }
{
    let most = usize::from(outbox.batch());
    match frame {
        Some(bytes) => put_within(bytes, message, most),
        None => {
            let mut bytes = written(
                alloc,
                &Trans::Frame {
                    reliable: true,
                    number: outbox.next(),
                },
            )?;
            let fit = put_within(&mut bytes, message, most)?;
            if fit {
                *frame = Some(bytes);
            }
            Ok(fit)
        }
    }
}

/// Appends a message where there is room for it in so many bytes.
fn put_within(bytes: &mut ByteString, message: &[u8], most: usize) -> Result<bool, AllocError>
    ensures fit { IfOk result (λ fit. fit ≡ nat_le (length (bytes.old ++ message.now)) most) }
    ensures value { IfOk result (λ fit. bytes.new ≡ (if fit then bytes.old ++ message.now else bytes.old)) }
{
    let held = bytes.as_slice().len();
    if held > most || message.len() > most - held {
        return Ok(false);
    }
    bytes.append(message)?;
    Ok(true)
}

/// A fragment without its piece, which stands behind.
fn fragment_head(alloc: Global, more: bool, number: u64) -> Result<ByteString, AllocError>
    ensures value { IfOk result (λ b. b ≡ writes_trans (Fragment true more number [])) }
    ensures short { IfOk result (λ b. length b ≤ 10) }
{
    let piece = ByteString::new(Vec::new(alloc));
    written(
        alloc,
        &Trans::Fragment {
            reliable: true,
            more,
            number,
            piece,
        },
    )
}

fn written(alloc: Global, t: &Trans) -> Result<ByteString, AllocError>
    requires { Fits t.now }
    ensures { IfOk result (λ b. b ≡ writes_trans t.now) }
{
    let mut bytes = Vec::new(alloc);
    write_trans(&mut bytes, t)?;
    Ok(ByteString::new(bytes))
}
