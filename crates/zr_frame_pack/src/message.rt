//! A message as its bytes.

ghost use Rattle.std.specs.Prelude.{◌≡◌, ◌<◌, ◌≤◌, IfOk, length};
ghost use Rattle.zr_wire.specs.Writable.{IsSourced, IsWritable};
ghost use Rattle.zr_wire.specs.Writing.{writes_message, writes_numbered};
ghost use Rattle.zr_wirekey.specs.Writing.{writes_name};

use std::alloc::{AllocError, Global};
use zr_bytes::ByteString;
use zr_msg::msg::Msg;
use zr_wire::{NO_NUMBER, write_numbered};
use zr_wirekey::write_name;

/// Room for most small messages, so that writing one takes memory once.
pub const FEW_BYTES: usize = 128;

/// The bytes of a message that may be written, with its whole key.
pub fn message_bytes(alloc: Global, msg: &Msg) -> Result<ByteString, AllocError>
    requires { IsWritable msg.now }
    ensures { IfOk result (λ b. b ≡ writes_message msg.now) }
{
    numbered_bytes(alloc, msg, NO_NUMBER)
}

/// The bytes of a message that may be written, with a number that was declared for its key (0: with the whole key).
#[tactic(auto, using(zr_wire::proofs::Snapshots::writable_spelled))]
pub fn numbered_bytes(alloc: Global, msg: &Msg, number: u16) -> Result<ByteString, AllocError>
    requires { IsWritable msg.now }
    ensures { IfOk result (λ b. b ≡ writes_numbered msg.now number) }
{
    is_sourced(msg);
    let mut bytes = Vec::with_capacity(alloc, FEW_BYTES)?;
    write_numbered(&mut bytes, msg, number)?;
    Ok(ByteString::new(bytes))
}

/// The declaration of a number.
pub(crate) fn name_bytes(alloc: Global, number: u16, text: &[u8]) -> Result<ByteString, AllocError>
    requires number { 0 < number }
    requires text { length text.now ≤ 2048 }
    ensures { IfOk result (λ b. b ≡ writes_name number text.now) }
{
    let mut bytes = Vec::with_capacity(alloc, FEW_BYTES)?;
    write_name(&mut bytes, number, text)?;
    Ok(ByteString::new(bytes))
}

// The source of a snapshot is an identifier, as its type keeps it.
fn is_sourced(msg: &Msg)
    ensures { IsSourced msg.now }
{
    if let Msg::Snap { source, .. } = msg {
        let _ = source.bytes();
    }
}
