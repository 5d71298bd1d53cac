//! What an event sends, written once for all links.

ghost use Rattle.std.specs.Prelude.{◌≡◌, All, IfOk};
ghost use Rattle.zr_router_queue.specs.Batches.{written_of};
ghost use Rattle.zr_wire.specs.Writable.{IsWritable};
ghost use Rattle.zr_wire.specs.Writing.{writes_message};

use crate::same_sample::is_same_sample;
use std::alloc::{AllocError, Global};
use zr_bytes::ByteString;
use zr_frame_pack::message_bytes;
use zr_id::link::LinkNo;
use zr_msg::msg::Msg;
use zr_msg::shared::Shared;

/// Each message with its link, as its bytes. Messages that are one sample in one form share them.
pub(crate) fn written(
    alloc: Global,
    sent: &[(LinkNo, Msg)],
) -> Result<Vec<(LinkNo, Shared<ByteString>)>, AllocError>
    requires { All (λ x. IsWritable x.1) sent.now }
    ensures { IfOk result (λ w. w.items ≡ written_of sent.now) }
{
    let mut written = Vec::with_capacity(alloc, sent.len())?;
    let mut latest = Latest {
        to_client: None,
        to_router: None,
    };
    for (to, msg) in sent {
        written.push((*to, latest.bytes(alloc, msg)?))?;
    }
    Ok(written)
}

// A message and its bytes.
#[derive(Drop)]
struct Known<'a> {
    msg: &'a Msg,
    bytes: Shared<ByteString>,
    ghost written: { bytes ≡ writes_message msg.now },
}

// The latest message in each form: without a tree, as samples go to clients, and with one, as they go to routers.
#[derive(Drop)]
struct Latest<'a> {
    to_client: Option<Known<'a>>,
    to_router: Option<Known<'a>>,
}

impl<'a> Latest<'a> {
    fn bytes(&mut self, alloc: Global, msg: &'a Msg) -> Result<Shared<ByteString>, AllocError>
        requires { IsWritable msg.now }
        ensures { IfOk result (λ b. b ≡ writes_message msg.now) }
    {
        if has_tree(msg) {
            bytes_behind(alloc, &mut self.to_router, msg)
        } else {
            bytes_behind(alloc, &mut self.to_client, msg)
        }
    }
}

fn has_tree(msg: &Msg) -> bool {
    matches!(msg, Msg::Push { tree: Some(_), .. })
}

// The bytes of a message, which are those of the latest one where both are one sample. It is the latest one then.
fn bytes_behind<'a>(
    alloc: Global,
    latest: &mut Option<Known<'a>>,
    msg: &'a Msg,
) -> Result<Shared<ByteString>, AllocError>
    requires { IsWritable msg.now }
    ensures { IfOk result (λ b. b ≡ writes_message msg.now) }
{
    if let Some(known) = latest {
        if is_same_sample(known.msg, msg) {
            return known.bytes.copy();
        }
    }
    let bytes = Shared::new(alloc, message_bytes(alloc, msg)?)?;
    *latest = Some(Known {
        msg,
        bytes: bytes.copy()?,
    });
    Ok(bytes)
}
