//! A message as the batches of its sender.

ghost use Rattle.std.specs.Prelude.{◌≡◌, ◌<◌, ◌^◌, ◌++◌, ◌∷◌, [], if◌then◌else◌, true, length, IfOk, IfSome, OnOk};
ghost use Rattle.zr_frame.specs.Outbox.{advanced};
ghost use Rattle.zr_frame.specs.Packing.{one_parcel};
ghost use Rattle.zr_frame_pack.specs.Packing.{parcels_of, written_one};
ghost use Rattle.zr_wire.specs.Writing.{IsSpelled, writes_numbered};
ghost use Rattle.zr_netrun_batches.specs.Coming.{ComesOn};

use crate::scratch::Scratch;
use crate::tape::Tape;
use std::alloc::{AllocError, Global};
use std::slice;
use zr_frame::parcels_are_short;
use zr_frame_pack::{NamingOutbox, pack};
use zr_msg::msg::Msg;
use zr_session::packed_messages_are_read_back;
use zr_wire::{NO_NUMBER, write_numbered};

/// A message that who sends may send comes onto the wire. A session at its other end gives it behind all others.
pub fn write(
    alloc: Global,
    outbox: &mut NamingOutbox,
    wire: &mut Tape,
    scratch: &mut Scratch,
    msg: &Msg,
) -> Result<(), AllocError>
    requires { IsSpelled msg.now }
    ensures { OnOk result (ComesOn outbox.old wire.old msg.now outbox.new wire.new) }
{
    // A law: it does nothing, and brings its clause.
    packed_messages_are_read_back();
    let fits = in_frame(outbox, scratch, msg)?;
    if fits {
        return wire.put_frame(scratch.head.as_slice(), scratch.message.as_slice());
    }
    scratch.let_go(alloc);
    write_apart(alloc, outbox, wire, msg)
}

// Writes a message and what stands before it in a frame of its own, where it fits one and its key gets no number now.
fn in_frame(outbox: &mut NamingOutbox, scratch: &mut Scratch, msg: &Msg) -> Result<bool, AllocError>
    requires { IsSpelled msg.now }
    ensures parcel { IfOk result (λ fits. fits ≡ true → parcels_of outbox.old (msg.now ∷ []) ≡ one_parcel outbox.old (scratch.new.head.items ++ scratch.new.message.items)) }
    ensures short { IfOk result (λ fits. fits ≡ true → length (scratch.new.head.items ++ scratch.new.message.items) < 2 ^ 16) }
    ensures outbox { IfOk result (λ fits. outbox.new ≡ (if fits then advanced outbox.old else outbox.old)) }
{
    // Read, so that the proof knows how long its batches are.
    let _batch = outbox.batch();
    let Some(number) = number_for(outbox, msg) else {
        return Ok(false);
    };
    scratch.message.clear();
    write_numbered(&mut scratch.message, msg, number)?;
    outbox.head(scratch.message.len(), &mut scratch.head)
}

// The number under which a message goes, 0 with its whole key. None where its key gets one now.
#[tactic(auto, using(zr_frame_pack::proofs::NamesGiven::written_given, zr_frame_pack::proofs::NamesGiven::written_whole))]
fn number_for(outbox: &NamingOutbox, msg: &Msg) -> Option<u16>
    ensures { IfSome result (λ n. written_one outbox.now.names msg.now ≡ record { messages = writes_numbered msg.now n ∷ []; names = outbox.now.names }) }
{
    match outbox.number(msg) {
        Some(number) => Some(number),
        None => {
            if outbox.gives_number(msg) {
                return None;
            }
            Some(NO_NUMBER)
        }
    }
}

// Writes a message that fits no frame, or whose key gets a number.
fn write_apart(
    alloc: Global,
    outbox: &mut NamingOutbox,
    wire: &mut Tape,
    msg: &Msg,
) -> Result<(), AllocError>
    requires { IsSpelled msg.now }
    ensures { OnOk result (ComesOn outbox.old wire.old msg.now outbox.new wire.new) }
{
    // Laws: each does nothing, and brings its clause.
    packed_messages_are_read_back();
    parcels_are_short();
    // Read, so that the proof knows that it is one.
    let _batch = outbox.batch();
    let mut batches = Vec::new(alloc);
    pack(alloc, slice::from_ref(msg), outbox, &mut batches)?;
    wire.put(&batches)
}
