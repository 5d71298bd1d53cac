//! Packing: what an event sends on a link, as the batches that its writer takes.

ghost use Rattle.std.specs.Prelude.{◌≡◌, ◌≤◌, ◌++◌, ◌∷◌, [], List, None, length, drop, All, IfOk, IfSome, OnOk};
ghost use Rattle.std.specs.List.{AllByRecursion};
ghost use Rattle.zr_node_spec.specs.Event.{on_link};
ghost use Rattle.zr_msg.specs.declared.msg.Msg.{Msg};
ghost use Rattle.zr_frame.specs.Outbox.{advanced, with_names};
ghost use Rattle.zr_frame.specs.Packing.{one_parcel, parcels};
ghost use Rattle.zr_frame_pack.specs.Marks.{IsLater};
ghost use Rattle.zr_frame_pack.specs.Packing as packing;
ghost use Rattle.zr_frame_pack.specs.Packing.{parcels_of, written_one};
ghost use Rattle.zr_wire.specs.Writable.{IsWritable};
ghost use Rattle.zr_wire.specs.Writing.{writes_message};
ghost use Rattle.zr_router_queue.specs.Batches.{batches_in, bytes_on, written_of};

use crate::link_batches::Batches;
use crate::scratch::{MOST_FRONT, Scratch};
use std::alloc::{AllocError, Global};
use zr_bytes::ByteString;
use zr_frame_pack::NamingOutbox;
use zr_id::link::LinkNo;
use zr_msg::msg::Msg;
use zr_msg::shared::Shared;
use zr_ring::Bytes;

/// Packs the messages for one link among all that were sent and what was written of them. No batch is longer than a parcel may be.
#[tactic(auto, using(crate::proofs::Plans::short_packed))]
pub(crate) fn pack(
    alloc: Global,
    sent: &[(LinkNo, Msg)],
    written: &[(LinkNo, Shared<ByteString>)],
    link: LinkNo,
    outbox: &mut NamingOutbox,
    scratch: &mut Scratch,
) -> Result<Batches, AllocError>
    requires writable { All (λ x. IsWritable x.1) sent.now }
    requires written { written.now ≡ written_of sent.now }
    ensures batches { IfOk result (λ b. batches_in b ≡ (parcels_of outbox.old (on_link link sent.now)).batches) }
    ensures outbox { OnOk result (outbox.new ≡ (parcels_of outbox.old (on_link link sent.now)).outbox) }
    ensures later { IsLater outbox.old.names outbox.new.names }
    ensures short { IfOk result (λ b. AllByRecursion (λ b. length b ≤ 65535) (batches_in b)) }
{
    let _batch = outbox.batch(); // no batch is longer than this, which is less than a parcel may be
    match only(sent, written, link) {
        Some((msg, bytes)) => pack_one(alloc, msg, bytes, outbox, scratch),
        None => pack_all(alloc, sent, written, link, outbox),
    }
}

// The message for a link that has one alone, and its bytes.
#[tactic(auto, using(crate::proofs::Plans::alone_on))]
fn only<'a>(
    sent: &'a [(LinkNo, Msg)],
    written: &'a [(LinkNo, Shared<ByteString>)],
    link: LinkNo,
) -> Option<(&'a Msg, &'a Shared<ByteString>)>
    requires writable { All (λ x. IsWritable x.1) sent.now }
    requires written { written.now ≡ written_of sent.now }
    ensures message { IfSome result (λ x. on_link link sent.now ≡ x.0.now ∷ []) }
    ensures bytes { IfSome result (λ x. x.1.now ≡ writes_message x.0.now) }
    ensures writable { IfSome result (λ x. IsWritable x.0.now) }
{
    let bytes = only_bytes(written, link)?;
    let msg = first(sent, link)?;
    Some((msg, bytes))
}

fn only_bytes(written: &[(LinkNo, Shared<ByteString>)], link: LinkNo) -> Option<&Shared<ByteString>>
    ensures { IfSome result (λ m. bytes_on link written.now ≡ m.now ∷ []) }
{
    let mut only = None;
    for (to, bytes) in written {
        if to.0 == link.0 {
            if only.is_some() {
                return None;
            }
            only = Some(bytes);
        }
    }
    only
}

// The first message for a link.
fn first(sent: &[(LinkNo, Msg)], link: LinkNo) -> Option<&Msg>
    ensures { IfSome result (λ m. (more : List Msg) × (on_link link sent.now ≡ m.now ∷ more)) }
{
    for (to, msg) in sent {
        if to.0 == link.0 {
            return Some(msg);
        }
    }
    None
}

// Packs one message: its bytes are shared where it fits a frame of its own and declares no number.
#[tactic(auto, using(zr_frame_pack::proofs::NamesGiven::later_same))]
fn pack_one(
    alloc: Global,
    msg: &Msg,
    bytes: &Shared<ByteString>,
    outbox: &mut NamingOutbox,
    scratch: &mut Scratch,
) -> Result<Batches, AllocError>
    requires writable { IsWritable msg.now }
    requires bytes { bytes.now ≡ writes_message msg.now }
    ensures batches { IfOk result (λ b. batches_in b ≡ (parcels_of outbox.old (msg.now ∷ [])).batches) }
    ensures outbox { OnOk result (outbox.new ≡ (parcels_of outbox.old (msg.now ∷ [])).outbox) }
    ensures later { IsLater outbox.old.names outbox.new.names }
{
    match in_frame(msg, bytes, outbox, scratch)? {
        Some(batch) => Ok(Batches::One(batch)),
        None => pack_apart(alloc, msg, bytes, outbox),
    }
}

// One message in a frame of its own that shares its bytes, or the end of them where its key has a number. There is none where it fits no frame, and where
// its key gets a number.
fn in_frame(
    msg: &Msg,
    bytes: &Shared<ByteString>,
    outbox: &mut NamingOutbox,
    scratch: &mut Scratch,
) -> Result<Option<Bytes>, AllocError>
    requires { bytes.now ≡ writes_message msg.now }
    ensures some { IfOk result (λ r. IfSome r (λ b. parcels_of outbox.old (msg.now ∷ []) ≡ one_parcel outbox.old b)) }
    ensures outbox { IfOk result (λ r. IfSome r (λ b. outbox.new ≡ advanced outbox.old)) }
    ensures none { IfOk result (λ r. r ≡ None → outbox.new ≡ outbox.old) }
    ensures names { outbox.new.names ≡ outbox.old.names }
{
    match outbox.number(msg) {
        Some(number) => {
            let from = scratch.number(msg, number)?;
            behind_head(bytes, from, outbox, scratch)
        }
        None => {
            if outbox.gives_number(msg) {
                return Ok(None);
            }
            scratch.front.clear();
            behind_head(bytes, 0, outbox, scratch)
        }
    }
}

// What stands in front, and behind it the end of the shared bytes, as the only message of a frame.
#[tactic(auto, using(crate::proofs::Fronts::one_behind))]
fn behind_head(
    bytes: &Shared<ByteString>,
    from: usize,
    outbox: &mut NamingOutbox,
    scratch: &mut Scratch,
) -> Result<Option<Bytes>, AllocError>
    requires { from ≤ length bytes.now }
    ensures some { IfOk result (λ r. IfSome r (λ b. parcels outbox.old ((scratch.old.front.items ++ drop from bytes.now) ∷ []) ≡ one_parcel outbox.old b)) }
    ensures outbox { IfOk result (λ r. IfSome r (λ b. outbox.new ≡ advanced outbox.old)) }
    ensures none { IfOk result (λ r. r ≡ None → outbox.new ≡ outbox.old) }
    ensures names { outbox.new.names ≡ outbox.old.names }
{
    let front = scratch.front.len();
    let count = front + (bytes.get().as_slice().len() - from);
    if front > MOST_FRONT {
        return Ok(None);
    }
    if !outbox.head(count, &mut scratch.head)? {
        return Ok(None);
    }
    scratch.head.extend_from_slice(scratch.front.as_slice())?;
    let bytes = bytes.copy()?;
    Ok(Some(Bytes::before(scratch.head.as_slice(), bytes, from)))
}

// Packs one message of whose key a number is declared, or that fits no frame.
fn pack_apart(
    alloc: Global,
    msg: &Msg,
    bytes: &Shared<ByteString>,
    outbox: &mut NamingOutbox,
) -> Result<Batches, AllocError>
    requires writable { IsWritable msg.now }
    requires bytes { bytes.now ≡ writes_message msg.now }
    ensures batches { IfOk result (λ b. batches_in b ≡ (parcels_of outbox.old (msg.now ∷ [])).batches) }
    ensures outbox { OnOk result (outbox.new ≡ (parcels_of outbox.old (msg.now ∷ [])).outbox) }
    ensures later { IsLater outbox.old.names outbox.new.names }
{
    let mut messages = Vec::new(alloc);
    put(alloc, msg, bytes, outbox, &mut messages)?;
    in_batches(alloc, &messages, outbox)
}

// Appends what is written of a message: its bytes where its key goes whole, and else those of the message under a number.
#[tactic(auto, using(zr_frame_pack::proofs::NamesGiven::later_same))]
fn put(
    alloc: Global,
    msg: &Msg,
    bytes: &Shared<ByteString>,
    outbox: &mut NamingOutbox,
    messages: &mut Vec<ByteString>,
) -> Result<(), AllocError>
    requires writable { IsWritable msg.now }
    requires bytes { bytes.now ≡ writes_message msg.now }
    ensures messages { OnOk result (messages.new.items ≡ messages.old.items ++ (written_one outbox.old.names msg.now).messages) }
    ensures names { OnOk result (outbox.new ≡ with_names outbox.old (written_one outbox.old.names msg.now).names) }
    ensures later { IsLater outbox.old.names outbox.new.names }
{
    if outbox.number(msg).is_some() || outbox.gives_number(msg) {
        return outbox.put(alloc, msg, messages);
    }
    messages.push(bytes.get().copy(alloc)?)?;
    Ok(())
}

fn pack_all(
    alloc: Global,
    sent: &[(LinkNo, Msg)],
    written: &[(LinkNo, Shared<ByteString>)],
    link: LinkNo,
    outbox: &mut NamingOutbox,
) -> Result<Batches, AllocError>
    requires writable { All (λ x. IsWritable x.1) sent.now }
    requires written { written.now ≡ written_of sent.now }
    ensures batches { IfOk result (λ b. batches_in b ≡ (parcels_of outbox.old (on_link link sent.now)).batches) }
    ensures outbox { OnOk result (outbox.new ≡ (parcels_of outbox.old (on_link link sent.now)).outbox) }
    ensures later { IsLater outbox.old.names outbox.new.names }
{
    let messages = messages(alloc, sent, written, link, outbox)?;
    in_batches(alloc, &messages, outbox)
}

fn in_batches(
    alloc: Global,
    messages: &[ByteString],
    outbox: &mut NamingOutbox,
) -> Result<Batches, AllocError>
    ensures batches { IfOk result (λ b. batches_in b ≡ (parcels outbox.old messages.now).batches) }
    ensures outbox { OnOk result (outbox.new ≡ (parcels outbox.old messages.now).outbox) }
    ensures names { outbox.new.names ≡ outbox.old.names }
{
    let mut batches = Vec::new(alloc);
    outbox.pieces(alloc, messages, &mut batches)?;
    Ok(Batches::Several(whole(alloc, batches)?))
}

fn whole(alloc: Global, batches: Vec<ByteString>) -> Result<Vec<Bytes>, AllocError>
    ensures { IfOk result (λ all. all.items ≡ batches.items) }
{
    let mut all = Vec::with_capacity(alloc, batches.len())?;
    for batch in batches {
        all.push(Bytes::whole(Shared::new(alloc, batch)?))?;
    }
    Ok(all)
}

// What is written for one link: with numbers and their declarations, where this end gives them.
#[tactic(auto, using(crate::proofs::Plans::copied))]
fn messages(
    alloc: Global,
    sent: &[(LinkNo, Msg)],
    written: &[(LinkNo, Shared<ByteString>)],
    link: LinkNo,
    outbox: &mut NamingOutbox,
) -> Result<Vec<ByteString>, AllocError>
    requires writable { All (λ x. IsWritable x.1) sent.now }
    requires written { written.now ≡ written_of sent.now }
    ensures messages { IfOk result (λ w. w.items ≡ (packing.written outbox.old.names (on_link link sent.now)).messages) }
    ensures names { OnOk result (outbox.new ≡ with_names outbox.old (packing.written outbox.old.names (on_link link sent.now)).names) }
    ensures later { IsLater outbox.old.names outbox.new.names }
{
    if outbox.has_names() {
        return named(alloc, sent, written, link, outbox);
    }
    copies(alloc, written, link)
}

// The messages for one link, with numbers and their declarations.
fn named(
    alloc: Global,
    sent: &[(LinkNo, Msg)],
    written: &[(LinkNo, Shared<ByteString>)],
    link: LinkNo,
    outbox: &mut NamingOutbox,
) -> Result<Vec<ByteString>, AllocError>
    requires writable { All (λ x. IsWritable x.1) sent.now }
    requires written { written.now ≡ written_of sent.now }
    ensures messages { IfOk result (λ w. w.items ≡ (packing.written outbox.old.names (on_link link sent.now)).messages) }
    ensures names { OnOk result (outbox.new ≡ with_names outbox.old (packing.written outbox.old.names (on_link link sent.now)).names) }
    ensures later { IsLater outbox.old.names outbox.new.names }
{
    let mut messages = Vec::new(alloc);
    for (place, (to, msg)) in sent.iter().enumerate() {
        if to.0 == link.0 {
            put(alloc, msg, &written[place].1, outbox, &mut messages)?;
        }
    }
    Ok(messages)
}

// The messages for one link, with whole keys.
fn copies(
    alloc: Global,
    written: &[(LinkNo, Shared<ByteString>)],
    link: LinkNo,
) -> Result<Vec<ByteString>, AllocError>
    ensures { IfOk result (λ c. c.items ≡ bytes_on link written.now) }
{
    let mut messages = Vec::new(alloc);
    for (to, message) in written {
        if to.0 == link.0 {
            messages.push(message.get().copy(alloc)?)?;
        }
    }
    Ok(messages)
}
