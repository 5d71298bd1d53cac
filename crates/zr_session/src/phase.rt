//! An established session, and what each message makes of it.

ghost use Rattle.std.specs.Prelude.{◌≡◌, ◌<◌, IfOk};
ghost use Rattle.zr_frame.specs.Turn.{modulus_of};
ghost use Rattle.zr_wire.specs.Limits.{most_of};
ghost use Rattle.zr_frame.specs.Channel.{frame, fragment};
ghost use Rattle.zr_frame.specs.Channels.{one_of, on_one};
ghost use Rattle.zr_open.specs.Table.{AnswerFits};
ghost use Rattle.zr_wirekey.specs.Scopes.{declared, undeclared};
ghost use Rattle.zr_session.specs.Carried.{carried_of};

use crate::carried::{Carried, read_carried};
use crate::event::{Fed, SessionEvent};
use crate::fate::End;
use crate::stop::{INVALID, ReadStop, stop_of_channel, stop_of_read};
use crate::write::written;
use std::alloc::{AllocError, Global};
use zr_bytes::{ByteString, Cursor};
use zr_decl::Declared;
use zr_frame::Channels;
use zr_msg::msg::Msg;
use zr_msg::peer::Role;
use zr_open::{Expected, Opened, Reason};
use zr_trans::Trans;
use zr_wire::admits;
use zr_wirekey::{ScopeError, Scopes};

/// How long a peer may be silent until it has told, in milliseconds.
const LEASE: u64 = 10_000;

/// How far a session has come.
#[derive(Drop)]
pub enum Phase {
    /// This message is expected.
    Opening(Expected),
    Established(Established),
}

/// A session that is open at both ends.
#[derive(Drop)]
pub struct Established {
    /// What the peer is.
    pub role: Role,
    /// How long the peer may be silent, in milliseconds.
    pub lease: u64,
    /// The answer to OPEN as a batch behind its length, at the accepting end.
    pub answer: ByteString,
    pub channels: Channels,
    /// The texts that the peer has numbered.
    pub keys: Scopes,
}

impl Established {
    ghost use Rattle.zr_session.specs.declared.phase.Phase.TheVariants as phase;
    ghost use Rattle.zr_session.specs.Step.{established, given, numbered, on_carried, on_frame, on_fragment, on_whole, on_established, ignored, between_routers};
    ghost use Rattle.zr_wire.specs.Roles.{admits};
    ghost use Rattle.zr_session.specs.Done.{Steps};

    /// What is known once both ends are open.
    pub(crate) fn new(alloc: Global, opened: &Opened) -> Result<Established, AllocError>
        requires first { opened.now.first < modulus_of opened.now.outbox.bits }
        requires answer { AnswerFits opened.now.answer }
        ensures { IfOk result (λ s. s ≡ established opened.now) }
    {
        Ok(Established {
            role: opened.peer.role,
            lease: opened.lease,
            answer: written(alloc, &opened.answer)?,
            channels: Channels::new(opened.outbox.bits(), opened.first),
            keys: Scopes::new(alloc),
        })
    }

    /// A transport message came.
    pub(crate) fn on_trans(
        &mut self,
        alloc: Global,
        t: Trans,
        out: &mut Fed,
    ) -> Result<(), ReadStop>
        ensures { Steps result (on_established self.old t) (phase.Established self.new) out.old out.new }
    {
        match t {
            Trans::KeepAlive => Ok(()),
            Trans::Close { reason, .. } => Err(ReadStop::Ended(End::Peer(reason))),
            Trans::Frame { reliable, number } => self.on_frame(reliable, number),
            Trans::Fragment {
                reliable,
                more,
                number,
                piece,
            } => self.on_fragment(alloc, reliable, more, number, piece.as_slice(), out),
            Trans::Init { .. } | Trans::Open { .. } => Err(INVALID),
        }
    }

    fn on_frame(&mut self, reliable: bool, number: u64) -> Result<(), ReadStop>
        ensures { (out : Fed) → Steps result (on_frame self.old (on_one self.old.channels reliable (frame (one_of self.old.channels reliable) number))) (phase.Established self.new) out out }
    {
        match self.channels.frame(reliable, number) {
            Ok(()) => Ok(()),
            Err(e) => Err(stop_of_channel(e)),
        }
    }

    fn on_fragment(
        &mut self,
        alloc: Global,
        reliable: bool,
        more: bool,
        number: u64,
        piece: &[u8],
        out: &mut Fed,
    ) -> Result<(), ReadStop>
        ensures { Steps result (on_fragment self.old (on_one self.old.channels reliable (fragment (most_of self.old.role) (one_of self.old.channels reliable) more number piece.now))) (phase.Established self.new) out.old out.new }
    {
        let whole = self
            .channels
            .fragment(alloc, self.role, reliable, more, number, piece);
        match whole {
            Ok(None) => Ok(()),
            Ok(Some(bytes)) => self.on_whole(alloc, bytes.as_slice(), out),
            Err(e) => Err(stop_of_channel(e)),
        }
    }

    /// The pieces of a message are joined. It is one network message, with nothing behind it.
    fn on_whole(&mut self, alloc: Global, bytes: &[u8], out: &mut Fed) -> Result<(), ReadStop>
        ensures { Steps result (on_whole self.old (carried_of self.old.role self.old.keys bytes.now)) (phase.Established self.new) out.old out.new }
    {
        let mut c = Cursor::new(bytes);
        let message = match read_carried(alloc, &mut c, self.role, &self.keys) {
            Ok(message) => message,
            Err(e) => return Err(stop_of_read(e)),
        };
        if c.left() == 0 {
            self.on_carried(message, out)
        } else {
            drop(message);
            Err(INVALID)
        }
    }

    /// A network message came.
    pub(crate) fn on_carried(&mut self, message: Carried, out: &mut Fed) -> Result<(), ReadStop>
        ensures { Steps result (on_carried self.old message) (phase.Established self.new) out.old out.new }
    {
        match message {
            Carried::Network(declared) => self.on_network(declared, out),
            Carried::BetweenRouters(None) => Ok(()),
            Carried::BetweenRouters(Some(msg)) => self.on_oam(msg, out),
        }
    }

    fn on_network(&mut self, message: Declared, out: &mut Fed) -> Result<(), ReadStop>
        ensures { Steps result (on_carried self.old (Carried.Network message)) (phase.Established self.new) out.old out.new }
    {
        match message {
            Declared::Told(msg) => self.give(msg, out),
            Declared::Number(number, text) => self.number(number, text.as_slice()),
            Declared::Unnumber(number) => {
                self.keys.undeclare(number);
                Ok(())
            }
            Declared::Ignored => self.ignore(),
        }
    }

    /// A message between routers, which a client's session ignores.
    fn on_oam(&self, msg: Msg, out: &mut Fed) -> Result<(), ReadStop>
        ensures { Steps result (between_routers self.now.role self.now msg) (phase.Established self.now) out.old out.new }
    {
        match self.role {
            Role::Client => {
                drop(msg);
                Ok(())
            }
            Role::Router => self.give(msg, out),
        }
    }

    /// A message is given where the peer may send it.
    fn give(&self, msg: Msg, out: &mut Fed) -> Result<(), ReadStop>
        ensures { Steps result (given (admits self.now.role msg) self.now msg) (phase.Established self.now) out.old out.new }
    {
        if admits(self.role, &msg) {
            out.give(SessionEvent::Message(msg))
        } else {
            drop(msg);
            Err(INVALID)
        }
    }

    /// The peer numbers a text, in the place of an earlier one of that number.
    fn number(&mut self, number: u16, text: &[u8]) -> Result<(), ReadStop>
        ensures { (out : Fed) → Steps result (numbered self.old (declared self.old.keys number text.now)) (phase.Established self.new) out out }
    {
        match self.keys.declare(number, text) {
            Ok(()) => Ok(()),
            Err(ScopeError::Limit) => Err(ReadStop::Ended(End::Closed(Reason::Generic))),
            Err(ScopeError::NoMemory) => Err(ReadStop::NoMemory),
        }
    }

    /// The end of what an interest asked for.
    fn ignore(&self) -> Result<(), ReadStop>
        ensures { (out : Fed) → Steps result (ignored self.now.role self.now) (phase.Established self.now) out out }
    {
        match self.role {
            Role::Client => Ok(()),
            Role::Router => Err(INVALID),
        }
    }
}

impl Phase {
    ghost use Rattle.zr_session.specs.Course.{owed_in};
    ghost use Rattle.zr_session.specs.Session.{lease_in, is_late};

    /// The answer to OPEN, where it is owed.
    pub(crate) fn into_owed(self, alloc: Global) -> ByteString
        ensures { result ≡ owed_in self }
    {
        match self {
            Phase::Opening(_) => ByteString::new(Vec::new(alloc)),
            Phase::Established(session) => session.answer,
        }
    }

    pub(crate) fn owed(&self) -> &[u8]
        ensures { result.now ≡ owed_in self.now }
    {
        match self {
            Phase::Opening(_) => &[],
            Phase::Established(session) => session.answer.as_slice(),
        }
    }

    /// Whether the lease has passed since bytes came last.
    pub(crate) fn is_late(&self, heard: u64, now: u64) -> bool
        ensures { result ≡ is_late self.now heard now }
    {
        now.saturating_sub(heard) >= self.lease()
    }

    /// How long the peer may be silent, in milliseconds.
    fn lease(&self) -> u64
        ensures { result ≡ lease_in self.now }
    {
        match self {
            Phase::Opening(_) => LEASE,
            Phase::Established(session) => session.lease,
        }
    }
}
