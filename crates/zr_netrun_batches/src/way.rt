//! One direction of a link, with the tags of its messages, which no bytes tell.

ghost use Rattle.std.specs.Prelude.{◌≡◌, ◌++◌, ◌∷◌, [], is_some, map, slice_get, IfOk, OnOk, OnErr};
ghost use Rattle.std.specs.Option.{option_zip};
ghost use Rattle.zr_wire.specs.Sending.{MayBeSent};
ghost use Rattle.zr_carrier.specs.Wire.{emptied, with_message, without_oldest};
ghost use Rattle.zr_netrun_batches.specs.Coming.{IsLeftOf};
ghost use Rattle.zr_netrun_batches.specs.Line.{with_sent};
ghost use Rattle.zr_netrun_batches.specs.Way.{wire_of};

use crate::line::Line;
use crate::scratch::Scratch;
use std::alloc::{AllocError, Global};
use std::collections::VecDeque;
use std::marker::Model;
use zr_msg::msg::Msg;

/// Contracts see a wire.
#[derive(Drop)]
pub struct Way {
    line: Line,
    tags: VecDeque<u64>,
}

impl Model for Way {
    ghost use Rattle.std.specs.Prelude.{◌≡◌, length};
    ghost use Rattle.zr_carrier.specs.Wire.{Wire};
    ghost use Rattle.zr_netrun_batches.specs.Way.{wire_of};

    ghost Value = { Wire };

    ghost view = { λ w. wire_of w.line w.tags.items };

    ghost invariant = { λ w. length w.tags.items ≡ length w.line.messages };
}

impl Way {
    /// Nothing was sent on the line.
    pub fn new(alloc: Global, line: Line) -> Way
        requires { line.messages ≡ [] }
        ensures { result ≡ wire_of line [] }
    {
        Way {
            line,
            tags: VecDeque::new(alloc),
        }
    }

    /// A message is sent with its tag. Where memory runs out, what was on the wire is lost.
    pub fn send(&mut self, scratch: &mut Scratch, msg: &Msg, tag: u64) -> Result<(), AllocError>
        requires { MayBeSent self.old.role msg.now }
        ensures sent { OnOk result (self.new ≡ with_message self.old msg.now tag) }
        ensures err { OnErr result (self.new ≡ emptied self.old) }
    {
        let sent = send(&mut self.line, &mut self.tags, scratch, msg, tag);
        if sent.is_err() {
            self.line.lose();
            self.tags.clear();
        }
        sent
    }

    /// The oldest message is received, with its tag. Where memory runs out, what was on the wire is lost.
    pub fn receive(&mut self, scratch: &mut Scratch) -> Result<Option<(Msg, u64)>, AllocError>
        ensures value { IfOk result (λ x. x ≡ slice_get self.old.waiting 0) }
        ensures rest { OnOk result (self.new ≡ without_oldest self.old) }
        ensures err { OnErr result (self.new ≡ emptied self.old) }
    {
        match self.line.receive(scratch) {
            Ok(received) => Ok(tagged(received, self.tags.pop_front())),
            Err(AllocError) => {
                self.tags.clear();
                Err(AllocError)
            }
        }
    }

    /// The bytes on the wire, to which its messages come.
    pub fn bytes(&self) -> &[u8]
        ensures { IsLeftOf self.now.role (map (λ x. x.0) self.now.waiting) result.now }
    {
        self.line.bytes()
    }

    /// Whether a message is on the wire.
    pub fn waits(&self) -> bool
        ensures { result ≡ is_some (slice_get self.now.waiting 0) }
    {
        !self.tags.is_empty()
    }
}

// A message is sent on a line, and its tag is kept.
fn send(
    line: &mut Line,
    tags: &mut VecDeque<u64>,
    scratch: &mut Scratch,
    msg: &Msg,
    tag: u64,
) -> Result<(), AllocError>
    requires { MayBeSent line.old.role msg.now }
    ensures line { OnOk result (line.new ≡ with_sent line.old msg.now) }
    ensures tags { OnOk result (tags.new.items ≡ tags.old.items ++ tag ∷ []) }
    ensures role { line.new.role ≡ line.old.role }
{
    line.send(scratch, msg)?;
    tags.push_back(tag)?;
    Ok(())
}

// A message with its tag.
fn tagged(received: Option<Msg>, tag: Option<u64>) -> Option<(Msg, u64)>
    ensures { result ≡ option_zip received tag }
{
    match (received, tag) {
        (Some(msg), Some(tag)) => Some((msg, tag)),
        _ => None,
    }
}
