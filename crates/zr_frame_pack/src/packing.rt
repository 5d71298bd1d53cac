//! Messages as batches.

ghost use Rattle.std.specs.Prelude.{◌≡◌, ◌++◌, All, IfOk, OnOk, OnErr};
ghost use Rattle.zr_frame.specs.Outbox.{with_names};
ghost use Rattle.zr_frame_pack.specs.Marks.{IsLater};
ghost use Rattle.zr_frame_pack.specs.Packing.{parcels_of, written};
ghost use Rattle.zr_wire.specs.Writable.{IsWritable};

use crate::naming::NamingOutbox;
use std::alloc::{AllocError, Global};
use zr_bytes::ByteString;
use zr_msg::msg::Msg;

/// Appends the batches of messages in their order (Zenoh protocol 1.0, "Frame" and "Fragment"). A frame takes the next message while it fits; one that
/// doesn't fit a frame of its own goes in fragments. Between routers the text of a key gets a number before its first use. Where memory runs out nothing is
/// appended, and the outbox stays as it was.
pub fn pack(
    alloc: Global,
    messages: &[Msg],
    outbox: &mut NamingOutbox,
    parcels: &mut Vec<ByteString>,
) -> Result<(), AllocError>
    requires { All IsWritable messages.now }
    ensures batches { OnOk result (parcels.new.items ≡ parcels.old.items ++ (parcels_of outbox.old messages.now).batches) }
    ensures outbox { OnOk result (outbox.new ≡ (parcels_of outbox.old messages.now).outbox) }
    ensures err { OnErr result ((parcels.new.items ≡ parcels.old.items) × (outbox.new ≡ outbox.old)) }
{
    let mark = outbox.mark();
    match put_batches(alloc, messages, outbox, parcels) {
        Ok(()) => Ok(()),
        Err(e) => {
            outbox.return_to(mark);
            Err(e)
        }
    }
}

fn put_batches(
    alloc: Global,
    messages: &[Msg],
    outbox: &mut NamingOutbox,
    parcels: &mut Vec<ByteString>,
) -> Result<(), AllocError>
    requires { All IsWritable messages.now }
    ensures batches { OnOk result (parcels.new.items ≡ parcels.old.items ++ (parcels_of outbox.old messages.now).batches) }
    ensures outbox { OnOk result (outbox.new ≡ (parcels_of outbox.old messages.now).outbox) }
    ensures later { IsLater outbox.old.names outbox.new.names }
    ensures err { OnErr result (parcels.new.items ≡ parcels.old.items) }
{
    let written = written(alloc, messages, outbox)?;
    outbox.pieces(alloc, &written, parcels)
}

fn written(
    alloc: Global,
    messages: &[Msg],
    outbox: &mut NamingOutbox,
) -> Result<Vec<ByteString>, AllocError>
    requires { All IsWritable messages.now }
    ensures messages { IfOk result (λ w. w.items ≡ (written outbox.old.names messages.now).messages) }
    ensures names { OnOk result (outbox.new ≡ with_names outbox.old (written outbox.old.names messages.now).names) }
    ensures later { IsLater outbox.old.names outbox.new.names }
{
    let mut written = Vec::with_capacity(alloc, messages.len())?;
    for msg in messages {
        outbox.put(alloc, msg, &mut written)?;
    }
    Ok(written)
}
