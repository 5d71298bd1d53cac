//! What each message makes of an opening.

ghost use Rattle.std.specs.Prelude.{◌≡◌, ◌<◌, ◌≤◌, IfOk, None, Some, true};
ghost use Rattle.zr_trans.specs.Writing.{Fits, CookieFits};
ghost use Rattle.zr_frame.specs.Turn.{modulus_of};
ghost use Rattle.zr_open.specs.Table.{outbox_of, may_open, milliseconds, opened, unexpected, speaks_to, init_answer, on_init, on_open, dialled, on_init_answer, on_open_answer, received, LeadsTo, AnswerFits, IsSound};

use crate::error::{OpenError, Reason};
use crate::expected::{Expected, Opened, Progress};
use crate::greeting::peer_in;
use crate::opening::{Opening, ROUTER, SPEAKS, VERSION};
use crate::sizes::{agreed, frame_bits, is_within, offered, told};
use std::alloc::{AllocError, Global};
use zr_bytes::ByteString;
use zr_frame::{Outbox, modulus};
use zr_msg::peer::{Peer, Role};
use zr_trans::{Sizes, Trans};

/// The lease that this end asks for, in seconds.
const LEASE: u64 = 10;
/// How many milliseconds a second has.
const MILLISECONDS: u64 = 1000;

/// A message that is out of place, or says what can't be.
const INVALID: OpenError = OpenError::Closed(Reason::Invalid);

impl Opening {
    /// What a message makes of this opening, where one message is expected (Zenoh protocol 1.0, "Session establishment").
    /// The message is one that can be spelled, as each that was read is. A CLOSE ends the opening with the peer's reason,
    /// and every message that isn't expected ends it as out of place.
    pub fn receive(
        &self,
        alloc: Global,
        expected: Expected,
        t: &Trans,
    ) -> Result<Progress, OpenError>
        requires { Fits t.now }
        ensures table { LeadsTo result (received self.now expected t.now) }
        ensures sound { IfOk result (λ p. IsSound p) }
    {
        match expected {
            Expected::Init => self.on_init(alloc, t),
            Expected::Open { peer, outbox } => self.on_open(peer, outbox, t),
            Expected::InitAnswer => self.on_init_answer(alloc, t),
            Expected::OpenAnswer { peer, outbox } => on_open_answer(peer, outbox, t),
        }
    }

    fn on_init(&self, alloc: Global, t: &Trans) -> Result<Progress, OpenError>
        ensures table { LeadsTo result (on_init self.now t.now) }
        ensures sound { IfOk result (λ p. IsSound p) }
    {
        let Trans::Init {
            answer: false,
            version,
            role,
            id,
            sizes,
            speaks,
            ..
        } = t
        else {
            return Err(unexpected(t));
        };
        let sizes = agreed(offered(*sizes));
        let peer = match peer_in(*version, *role, *speaks, *id, sizes.batch, self.weight) {
            Ok(peer) => peer,
            Err(e) => return Err(e),
        };
        Ok(Progress::Answers {
            expected: Expected::Open {
                peer,
                outbox: self.outbox(peer.role, sizes),
            },
            answer: self.init_answer(alloc, peer, sizes)?,
        })
    }

    fn init_answer(&self, alloc: Global, peer: Peer, sizes: Sizes) -> Result<Trans, AllocError>
        requires { sizes.bits < 16 }
        ensures value { IfOk result (λ t. t ≡ init_answer self.now peer sizes) }
        ensures fits { IfOk result (λ t. Fits t) }
    {
        Ok(Trans::Init {
            answer: true,
            version: VERSION,
            role: ROUTER,
            id: self.me,
            sizes: told(sizes),
            cookie: Some(ByteString::from_slice(alloc, self.cookie(peer.id).as_slice())?),
            speaks: speaks_to(peer.role),
        })
    }

    /// What this end sends by, once it is open.
    fn outbox(&self, role: Role, sizes: Sizes) -> Outbox
        requires { 64 ≤ sizes.batch }
        ensures { result ≡ outbox_of self.now role sizes }
    {
        let bits = frame_bits(sizes);
        let outbox = Outbox::new(sizes.batch, bits, self.word % modulus(bits));
        match role {
            Role::Client => outbox,
            Role::Router => outbox.with_names(),
        }
    }

    fn on_open(&self, peer: Peer, outbox: Outbox, t: &Trans) -> Result<Progress, OpenError>
        ensures table { LeadsTo result (on_open self.now peer outbox t.now) }
        ensures sound { IfOk result (λ p. IsSound p) }
    {
        let Trans::Open {
            answer: false,
            seconds,
            lease,
            number,
            cookie,
        } = t
        else {
            return Err(unexpected(t));
        };
        if !self.is_cookie(peer.id, cookie) {
            return Err(INVALID);
        }
        let answer = Trans::Open {
            answer: true,
            seconds: true,
            lease: LEASE,
            number: outbox.next(),
            cookie: None,
        };
        opened(peer, outbox, *seconds, *lease, *number, Some(answer))
    }

    fn on_init_answer(&self, alloc: Global, t: &Trans) -> Result<Progress, OpenError>
        requires { Fits t.now }
        ensures table { LeadsTo result (on_init_answer self.now t.now) }
        ensures sound { IfOk result (λ p. IsSound p) }
    {
        let Trans::Init {
            answer: true,
            version,
            role,
            id,
            sizes,
            cookie,
            speaks,
        } = t
        else {
            return Err(unexpected(t));
        };
        let sizes = offered(*sizes);
        match peer_in(*version, *role, *speaks, *id, sizes.batch, self.weight) {
            Ok(peer) => self.dialled(peer, sizes, copied(alloc, cookie)?),
            Err(e) => Err(e),
        }
    }

    /// A peer that answers is sent OPEN, with the cookie that it gave.
    fn dialled(
        &self,
        peer: Peer,
        sizes: Sizes,
        cookie: Option<ByteString>,
    ) -> Result<Progress, OpenError>
        requires large { 64 ≤ sizes.batch }
        requires cookie { CookieFits true cookie }
        ensures table { LeadsTo result (dialled self.now sizes cookie (Ok peer)) }
        ensures sound { IfOk result (λ p. IsSound p) }
    {
        if !is_within(sizes) {
            return Err(INVALID);
        }
        let outbox = self.outbox(peer.role, sizes);
        Ok(Progress::Answers {
            expected: Expected::OpenAnswer { peer, outbox },
            answer: Trans::Open {
                answer: false,
                seconds: true,
                lease: LEASE,
                number: outbox.next(),
                cookie,
            },
        })
    }
}

/// Another copy of a cookie.
fn copied(alloc: Global, cookie: &Option<ByteString>) -> Result<Option<ByteString>, AllocError>
    ensures { IfOk result (λ k. k ≡ cookie.now) }
{
    match cookie {
        Some(bytes) => Ok(Some(bytes.copy(alloc)?)),
        None => Ok(None),
    }
}

fn on_open_answer(peer: Peer, outbox: Outbox, t: &Trans) -> Result<Progress, OpenError>
    ensures table { LeadsTo result (on_open_answer peer outbox t.now) }
    ensures sound { IfOk result (λ p. IsSound p) }
{
    match t {
        Trans::Open {
            answer: true,
            seconds,
            lease,
            number,
            ..
        } => opened(peer, outbox, *seconds, *lease, *number, None),
        _ => Err(unexpected(t)),
    }
}

/// The session is open, where lease and number may be.
fn opened(
    peer: Peer,
    outbox: Outbox,
    seconds: bool,
    lease: u64,
    first: u64,
    answer: Option<Trans>,
) -> Result<Progress, OpenError>
    requires { AnswerFits answer }
    ensures table { LeadsTo result (opened peer outbox seconds lease first answer) }
    ensures sound { IfOk result (λ p. IsSound p) }
{
    if !may_open(outbox, lease, first) {
        return Err(INVALID);
    }
    Ok(Progress::Opened(Opened {
        peer,
        outbox,
        first,
        lease: milliseconds(seconds, lease),
        answer,
    }))
}

fn may_open(outbox: Outbox, lease: u64, first: u64) -> bool
    ensures { result ≡ may_open outbox lease first }
{
    lease > 0 && first < modulus(outbox.bits())
}

fn milliseconds(seconds: bool, lease: u64) -> u64
    ensures { result ≡ milliseconds seconds lease }
{
    if seconds {
        lease.saturating_mul(MILLISECONDS)
    } else {
        lease
    }
}

fn speaks_to(role: Role) -> Option<u64>
    ensures { result ≡ speaks_to role }
{
    match role {
        Role::Client => None,
        Role::Router => Some(SPEAKS),
    }
}

fn unexpected(t: &Trans) -> OpenError
    ensures { result ≡ unexpected t.now }
{
    match t {
        Trans::Close { reason, .. } => OpenError::Peer(*reason),
        Trans::Init { .. }
        | Trans::Open { .. }
        | Trans::KeepAlive
        | Trans::Frame { .. }
        | Trans::Fragment { .. } => INVALID,
    }
}
