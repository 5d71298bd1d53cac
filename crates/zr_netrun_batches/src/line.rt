//! One direction of a link: what its sender writes, the bytes on the wire, and the session that reads them.

ghost use Rattle.std.specs.Prelude.{◌≡◌, [], slice_get, IfOk, OnOk, OnErr};
ghost use Rattle.zr_wire.specs.Sending.{MayBeSent};
ghost use Rattle.zr_netrun_batches.specs.Coming.{IsLeftOf, Leads};
ghost use Rattle.zr_netrun_batches.specs.Line.{new_line, with_sent, without_first};

use crate::reading::read_on;
use crate::scratch::Scratch;
use crate::tape::Tape;
use crate::writing::write;
use std::alloc::{AllocError, Global};
use std::collections::VecDeque;
use std::marker::Model;
use zr_frame::Outbox;
use zr_frame_pack::NamingOutbox;
use zr_msg::msg::Msg;
use zr_msg::peer::Role;
use zr_session::Session;

/// Contracts see the messages that were sent and not received. Where memory runs out these are lost, and none comes from then on.
#[derive(Drop)]
pub struct Line {
    alloc: Global,
    role: Role,
    outbox: NamingOutbox,
    wire: Tape,
    session: Session,
    // messages that the session has given
    ready: VecDeque<Msg>,
    // how long the last piece was that it was fed
    last: usize,
    spent: bool,
}

impl Model for Line {
    ghost use Rattle.std.specs.Prelude.{◌≡◌, false};
    ghost use Rattle.zr_netrun_batches.specs.Coming.{CameLast, Leads, coming};
    ghost use Rattle.zr_netrun_batches.specs.Line.{LineState, line_of};

    ghost Value = { LineState };

    ghost view = { λ l. line_of l.role l.spent l.ready.items (coming l.session l.wire) };

    ghost invariant = { λ l. l.spent ≡ false → Leads l.role l.outbox l.session l.wire × CameLast l.session l.ready.items };
}

impl Line {
    /// The session has opened for a peer of this role, which sends by the outbox.
    pub fn new(alloc: Global, role: Role, outbox: Outbox, session: Session) -> Line
        requires { Leads role outbox session [] }
        ensures { result ≡ new_line role }
    {
        Line {
            alloc,
            role,
            outbox: NamingOutbox::new(alloc, outbox),
            wire: Tape::new(alloc),
            session,
            ready: VecDeque::new(alloc),
            last: 0,
            spent: false,
        }
    }

    /// A message is sent.
    pub fn send(&mut self, scratch: &mut Scratch, msg: &Msg) -> Result<(), AllocError>
        requires { MayBeSent self.old.role msg.now }
        ensures sent { OnOk result (self.new ≡ with_sent self.old msg.now) }
        ensures err { OnErr result (self.new ≡ new_line self.old.role) }
    {
        if self.spent {
            return Err(AllocError);
        }
        let sent = write(self.alloc, &mut self.outbox, &mut self.wire, scratch, msg);
        if sent.is_err() {
            self.spent = true;
        }
        sent
    }

    /// The oldest message is received.
    pub fn receive(&mut self, scratch: &mut Scratch) -> Result<Option<Msg>, AllocError>
        ensures value { IfOk result (λ m. m ≡ slice_get self.old.messages 0) }
        ensures rest { OnOk result (self.new ≡ without_first self.old) }
        ensures err { OnErr result (self.new ≡ new_line self.old.role) }
    {
        if self.spent {
            return Ok(None);
        }
        let read = read_on(
            &mut self.session,
            &mut self.wire,
            &mut scratch.fed,
            &mut self.ready,
            &mut self.last,
        );
        if read.is_err() {
            self.spent = true;
            return Err(AllocError);
        }
        Ok(self.ready.pop_front())
    }

    /// The bytes on the wire. The messages that are left are some that the session gave with the last bytes that it was fed, and what these come to.
    pub fn bytes(&self) -> &[u8]
        ensures { IsLeftOf self.now.role self.now.messages result.now }
    {
        if self.spent {
            return &[];
        }
        self.wire.left()
    }

    /// All that was sent is lost, and no message comes from then on.
    pub fn lose(&mut self)
        ensures { self.new ≡ new_line self.old.role }
    {
        self.spent = true;
    }
}
