//! A session: bytes in any pieces, to events and answers.

ghost use Rattle.std.specs.Prelude.{◌≡◌, ◌++◌, ◌<◌, [], if◌then◌else◌, true, false, is_ok, OnOk, OnErr, IfOk};
ghost use Rattle.zr_frame_batch.specs.Framing.{lacks};
ghost use Rattle.zr_open.specs.declared.expected.Expected.TheVariants as expects;
ghost use Rattle.zr_open.specs.declared.error.Reason.TheVariants.{Expired};
ghost use Rattle.zr_session.specs.Session.{close_of, heard_with};

use crate::event::Fed;
use crate::fate::{End, Fate};
use crate::phase::Phase;
use crate::piece::take_piece;
use crate::state::State;
use crate::stop::ReadStop;
use crate::write::put_message;
use std::alloc::{AllocError, Global};
use std::marker::Model;
use std::mem;
use zr_frame_batch::{Incoming, MOST_IDLE};
use zr_open::{Expected, Opening, Reason};
use zr_trans::Trans;

/// The most memory that the answer to OPEN takes: 13 bytes, in a list that has grown to them.
const MOST_ANSWER: usize = 32;

/// The memory of a session that is open and idle is below this: its fields, what is kept taken of the last batch, and the answer
/// to OPEN. No message is in part then, and a peer that has numbered no text has none.
const MOST_OF_IDLE: usize = 2048;

const _: () = prove!(size_of::<Session>() + MOST_IDLE + MOST_ANSWER < MOST_OF_IDLE);

/// One end of a session over a link. Each call appends what it gives and answers how the session stands.
pub struct Session {
    alloc: Global,
    opening: Opening,
    state: State,
    /// What came of the next batch, with its length.
    kept: Incoming,
    /// The answer to OPEN was written.
    confirmed: bool,
    /// When bytes came last, in milliseconds.
    heard: u64,
    /// For a log: for what this end has closed the session. Contracts don't see it.
    cause: Option<String>,
}

// Written out, so that it is proved here, and not by each crate that lets one go.
impl Drop for Session {
    fn drop(self) {
        let Self {
            alloc: _alloc,
            opening: _opening,
            state: _state,
            kept: _kept,
            confirmed: _confirmed,
            heard: _heard,
            cause: _cause,
        } = self;
    }
}

impl Model for Session {
    ghost use Rattle.std.specs.Prelude.{◌<◌};
    ghost use Rattle.zr_frame_batch.specs.Framing.{lacks};
    ghost use Rattle.zr_session.specs.Session.{SessionState};

    ghost Value = { SessionState };

    ghost view = { λ s. record { opening = s.opening; state = s.state; kept = s.kept; confirmed = s.confirmed; heard = s.heard } };

    ghost invariant = { λ s. 0 < lacks s.kept };
}

impl Session {
    ghost use Rattle.zr_session.specs.Course.{going, owed_in};
    ghost use Rattle.zr_session.specs.Done.{Keeps};
    ghost use Rattle.zr_session.specs.Session.{begun, greeting_bytes, IsAt, Answers, Feeds, Stalls, Idles, is_running, with_confirmed, owed_by, owed_bytes, ticked, tick_bytes, is_late, ended, fate_of};

    /// A session on a link that was accepted. The moment is in milliseconds, of any clock that doesn't go back.
    pub fn accepting(alloc: Global, opening: Opening, now: u64) -> Session
        ensures value { result ≡ begun expects.Init opening now }
        ensures at { IsAt expects.Init result [] (going (Phase.Opening expects.Init)) }
    {
        Session::begin(alloc, opening, Expected::Init, now)
    }

    /// A session on a link that this end has dialled. Appends its INIT.
    pub fn dialling(
        alloc: Global,
        opening: Opening,
        now: u64,
        out: &mut Vec<u8>,
    ) -> Result<Session, AllocError>
        ensures value { IfOk result (λ s. s ≡ begun expects.InitAnswer opening now) }
        ensures at { IfOk result (λ s. IsAt expects.InitAnswer s [] (going (Phase.Opening expects.InitAnswer))) }
        ensures bytes { OnOk result (out.new.items ≡ out.old.items ++ greeting_bytes opening) }
        ensures err { OnErr result (out.new.items ≡ out.old.items) }
    {
        put_message(alloc, &opening.greeting(), out)?;
        Ok(Session::begin(alloc, opening, Expected::InitAnswer, now))
    }

    fn begin(alloc: Global, opening: Opening, first: Expected, now: u64) -> Session
        ensures value { result ≡ begun first opening now }
        ensures at { IsAt first result [] (going (Phase.Opening first)) }
    {
        Session {
            alloc,
            opening,
            state: State::Running(Phase::Opening(first)),
            kept: Incoming::new(alloc),
            confirmed: false,
            heard: now,
            cause: None,
        }
    }

    /// Reads a piece of the link's bytes, which came at this moment: appends events and answers up to the first fault, and a
    /// CLOSE last where this call ends the session for a reason of this end. A session that has ended reads nothing and answers
    /// the same. Out of memory it appends no CLOSE, and each later call answers so too.
    pub fn feed(&mut self, piece: &[u8], now: u64, out: &mut Fed) -> Result<Fate, AllocError>
        ensures stream { OnOk result (Feeds self.old self.new piece.now out.old out.new) }
        ensures fate { IfOk result (λ fate. Answers self.new.state fate) }
        ensures spent { OnErr result (self.new.state ≡ State.Spent) }
        ensures memory { OnErr result (Stalls self.old piece.now out.old out.new) }
        ensures heard { is_running self.old.state ≡ true → self.new.heard ≡ heard_with piece.now self.old.heard now }
        ensures idle { Idles self.old.state result self.old self.new }
        ensures quiet { is_running self.old.state ≡ false → Keeps out.old out.new }
    {
        let phase = match &mut self.state {
            State::Running(phase) => phase,
            State::Ended { how, .. } => return Ok(how.fate()),
            State::Spent => return Err(AllocError),
        };
        self.heard = heard_with(piece, self.heard, now);
        match take_piece(
            self.alloc,
            &self.opening,
            phase,
            &mut self.kept,
            piece,
            out,
            &mut self.cause,
        ) {
            Ok(()) => Ok(Fate::Going),
            Err(ReadStop::Ended(how)) => self.stop(how, &mut out.bytes),
            Err(ReadStop::NoMemory) => {
                self.state = State::Spent;
                Err(AllocError)
            }
        }
    }

    /// For what this end has closed the session, in words for a log: the rule that the last message breaks, and for a key that
    /// is none the key. Nothing where it was no message, or where the reason tells it.
    pub fn cause(&self) -> Option<&str> {
        match &self.cause {
            Some(words) => Some(words.as_str()),
            None => None,
        }
    }

    /// The peer was taken: appends the answer to OPEN where it is owed, which is once, at an accepting end that has given
    /// `Opened`. It does so too where the session has ended since.
    pub fn confirm(&mut self, out: &mut Vec<u8>) -> Result<(), AllocError>
        ensures ok { OnOk result ((self.new ≡ with_confirmed self.old) × (out.new.items ≡ out.old.items ++ owed_bytes self.old)) }
        ensures memory { OnErr result ((self.new.state ≡ State.Spent) × (out.new.items ≡ out.old.items)) }
    {
        if self.confirmed || self.owed().is_empty() {
            return Ok(());
        }
        if out.extend_from_slice(self.owed()).is_err() {
            self.state = State::Spent;
            return Err(AllocError);
        }
        self.confirmed = true;
        Ok(())
    }

    /// Time has passed: closes the session exactly where the peer's lease has passed since bytes came last, and else leaves all
    /// as it was. Out of memory each later call answers so too.
    pub fn tick(&mut self, now: u64, out: &mut Vec<u8>) -> Result<Fate, AllocError>
        ensures ok { OnOk result (self.new ≡ ticked self.old.state self.old now) }
        ensures bytes { OnOk result (out.new.items ≡ out.old.items ++ tick_bytes self.old.state self.old now) }
        ensures fate { IfOk result (λ fate. Answers self.new.state fate) }
        ensures memory { OnErr result ((self.new.state ≡ State.Spent) × (out.new.items ≡ out.old.items)) }
        ensures idle { Idles self.old.state result self.old self.new }
    {
        let phase = match mem::replace(&mut self.state, State::Spent) {
            State::Running(phase) => phase,
            State::Ended { how, owed } => {
                self.state = State::Ended { how, owed };
                return Ok(how.fate());
            }
            State::Spent => return Err(AllocError),
        };
        if !phase.is_late(self.heard, now) {
            self.state = State::Running(phase);
            return Ok(Fate::Going);
        }
        self.end(End::Closed(Reason::Expired), phase, out)
    }

    /// Ends a session that goes on, as `end`.
    fn stop(&mut self, how: End, out: &mut Vec<u8>) -> Result<Fate, AllocError>
        requires { is_running self.old.state ≡ true }
        ensures ok { OnOk result ((self.new ≡ ended self.old how (owed_by self.old.state)) × (out.new.items ≡ out.old.items ++ close_of how)) }
        ensures fate { IfOk result (λ fate. fate ≡ fate_of how) }
        ensures memory { OnErr result ((self.new.state ≡ State.Spent) × (self.new.heard ≡ self.old.heard) × (out.new.items ≡ out.old.items)) }
    {
        match mem::replace(&mut self.state, State::Spent) {
            State::Running(phase) => self.end(how, phase, out),
            State::Ended { .. } | State::Spent => unreachable!(),
        }
    }

    /// Ends a session, with a CLOSE for a reason of this end.
    fn end(&mut self, how: End, phase: Phase, out: &mut Vec<u8>) -> Result<Fate, AllocError>
        requires { self.old.state ≡ State.Spent }
        ensures ok { OnOk result ((self.new ≡ ended self.old how (owed_in phase)) × (out.new.items ≡ out.old.items ++ close_of how)) }
        ensures fate { IfOk result (λ fate. fate ≡ fate_of how) }
        ensures memory { OnErr result ((self.new.state ≡ State.Spent) × (self.new.heard ≡ self.old.heard) × (out.new.items ≡ out.old.items)) }
    {
        self.kept.clear();
        put_close(self.alloc, how, out)?;
        let owed = phase.into_owed(self.alloc);
        self.state = State::Ended { how, owed };
        Ok(how.fate())
    }

    /// The answer to OPEN, whether it was written or not.
    fn owed(&self) -> &[u8]
        ensures { result.now ≡ owed_by self.now.state }
    {
        match &self.state {
            State::Running(phase) => phase.owed(),
            State::Ended { owed, .. } => owed.as_slice(),
            State::Spent => &[],
        }
    }
}

/// When bytes came last: now, where there are any.
fn heard_with(piece: &[u8], before: u64, now: u64) -> u64
    ensures { result ≡ heard_with piece.now before now }
{
    match piece {
        [] => before,
        [_, ..] => now,
    }
}

/// Appends the CLOSE of the whole session with a reason of this end. A peer's CLOSE is not answered.
fn put_close(alloc: Global, how: End, out: &mut Vec<u8>) -> Result<(), AllocError>
    ensures ok { OnOk result (out.new.items ≡ out.old.items ++ close_of how) }
    ensures err { OnErr result (out.new.items ≡ out.old.items) }
{
    match how {
        End::Closed(reason) => {
            let close = Trans::Close {
                session: true,
                reason: reason.byte(),
            };
            put_message(alloc, &close, out)
        }
        End::Peer(_) => Ok(()),
    }
}
