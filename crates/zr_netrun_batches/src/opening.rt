//! Links whose sessions have opened.

ghost use Rattle.std.specs.Prelude.{◌≡◌, ◌≤◌, ◌-◌, ◌^◌, ◌∷◌, [], ℕ, List, true, drop, length, IfOk, IfSome, OnOk, Some};
ghost use Rattle.zr_frame_batch.specs.Framing.{framed};
ghost use Rattle.zr_session.specs.declared.event.SessionEvent.{SessionEvent};
ghost use Rattle.zr_id.specs.Zid.{is_zid};
ghost use Rattle.zr_trans.specs.Writing.{Fits, writes_trans};
ghost use Rattle.zr_netrun_batches.specs.Line.{new_line};
ghost use Rattle.zr_netrun_batches.specs.Opening.{AreOpened, IsCookieIn, IsOpenedFor, OpensBy, TakesBatch, Tells, told_cookie};

use crate::line::Line;
use crate::reading::NOW;
use std::alloc::{AllocError, Global};
use std::mem;
use zr_bytes::{ByteString, Cursor};
use zr_frame::Outbox;
use zr_frame_batch::put_batch;
use zr_id::zid::Zid;
use zr_msg::peer::Role;
use zr_open::Opening;
use zr_session::{Fate, Fed, Session, SessionEvent, packed_messages_are_read_back};
use zr_trans::{Trans, read_trans, write_trans, written_messages_are_read};

/// The secret of the cookies. Nobody who might guess it takes part in a script.
const SECRET: [u8; 32] = [0; 32];

/// The version byte of Zenoh protocol 1.0, and the role bits of a client in INIT.
const VERSION: u8 = 0x09;

const CLIENT: u8 = 2;

/// The lease that a client asks for, in seconds, and the number of its first frame.
const LEASE: u64 = 10;

const FIRST: u64 = 0;

/// What a client sends by: it offers no sizes, so the usual ones hold.
const MOST_BATCH: u16 = 65_535;

const BITS_32: u8 = 2;

/// How many bytes tell the length of a batch.
const LENGTH_BYTES: usize = 2;

/// The lines between two routers that were opened with each other: to the one that accepts, and to the one that dials.
pub fn between_routers(
    alloc: Global,
    accepting: Zid,
    dialling: Zid,
) -> Result<(Line, Line), AllocError>
    ensures to_accepting { IfOk result (λ x. x.0 ≡ new_line Role.Router) }
    ensures to_dialling { IfOk result (λ x. x.1 ≡ new_line Role.Router) }
{
    // A law: it does nothing, and brings its clause.
    packed_messages_are_read_back();
    let mut init = Vec::new(alloc);
    let mut dialler = Session::dialling(alloc, opening(dialling), NOW, &mut init)?;
    let mut acceptor = Session::accepting(alloc, opening(accepting), NOW);
    let (accepts_by, dials_by) = open_both(alloc, &mut acceptor, &mut dialler, &init)?;
    Ok((
        Line::new(alloc, Role::Router, dials_by, acceptor),
        Line::new(alloc, Role::Router, accepts_by, dialler),
    ))
}

/// The line from a client to a router.
pub fn from_client(alloc: Global, router: Zid, client: Zid) -> Result<Line, AllocError>
    ensures { IfOk result (λ l. l ≡ new_line Role.Client) }
{
    // A law: it does nothing, and brings its clause.
    packed_messages_are_read_back();
    let mut acceptor = Session::accepting(alloc, opening(router), NOW);
    greet(alloc, &mut acceptor, client)?;
    let outbox = Outbox::new(MOST_BATCH, BITS_32, FIRST);
    Ok(Line::new(alloc, Role::Client, outbox, acceptor))
}

// What a router brings to an opening.
fn opening(me: Zid) -> Opening
    ensures me { result.me ≡ me }
    ensures named { is_zid result.me ≡ true }
{
    // Read, so that the proof knows that it is an identifier.
    let _named = me.bytes();
    Opening::new(me, &SECRET, 0, 0, 1)
}

// Two sessions open with each other, of which one has sent its INIT: what the accepting one sends by, and what the dialling one does.
fn open_both(
    alloc: Global,
    acceptor: &mut Session,
    dialler: &mut Session,
    init: &[u8],
) -> Result<(Outbox, Outbox), AllocError>
    ensures { IfOk result (λ x. AreOpened acceptor.old acceptor.new dialler.old dialler.new init.now x.0 x.1) }
{
    let init_answer = answer_to(alloc, acceptor, init)?;
    let open = answer_to(alloc, dialler, &init_answer)?;
    let accepts_by = opened_by(alloc, acceptor, &open)?;
    let mut open_answer = Vec::new(alloc);
    acceptor.confirm(&mut open_answer)?;
    let dials_by = opened_by(alloc, dialler, &open_answer)?;
    Ok((accepts_by, dials_by))
}

// A client opens its session with the one that accepts it.
fn greet(alloc: Global, acceptor: &mut Session, client: Zid) -> Result<(), AllocError>
    ensures { OnOk result (IsOpenedFor client acceptor.old acceptor.new) }
{
    // Read, so that the proof knows that it is an identifier.
    let _named = client.bytes();
    let init = Trans::Init {
        answer: false,
        version: VERSION,
        role: CLIENT,
        id: client,
        sizes: None,
        cookie: None,
        speaks: None,
    };
    let init_answer = answer_to(alloc, acceptor, &batch_of(alloc, &init)?)?;
    let open = Trans::Open {
        answer: false,
        seconds: true,
        lease: LEASE,
        number: FIRST,
        cookie: Some(cookie_in(alloc, &init_answer)?),
    };
    answer_to(alloc, acceptor, &batch_of(alloc, &open)?)?;
    Ok(())
}

// A message as a batch behind its length. None of an opening is too long for a batch.
fn batch_of(alloc: Global, t: &Trans) -> Result<Vec<u8>, AllocError>
    requires { Fits t.now }
    ensures { IfOk result (λ b. b.items ≡ framed (writes_trans t.now)) }
{
    let mut batch = Vec::new(alloc);
    write_trans(&mut batch, t)?;
    if batch.len() > usize::from(MOST_BATCH) {
        return Err(AllocError);
    }
    let mut framed = Vec::new(alloc);
    put_batch(&mut framed, &batch)?;
    Ok(framed)
}

// The cookie in the answer to a client's INIT.
fn cookie_in(alloc: Global, bytes: &[u8]) -> Result<ByteString, AllocError>
    ensures cookie { IfOk result (λ k. IsCookieIn bytes.now k) }
    ensures short { IfOk result (λ k. length k ≤ 2 ^ 16 - 1) }
{
    // A law: it does nothing, and brings its clause.
    written_messages_are_read();
    let mut c = Cursor::new(behind_length(bytes));
    match read_trans(alloc, &mut c) {
        Ok(t) => into_cookie(t).ok_or(AllocError),
        Err(_) => Err(AllocError),
    }
}

// A batch that stands behind its length.
fn behind_length(bytes: &[u8]) -> &[u8]
    ensures { result.now ≡ drop 2 bytes.now }
{
    if bytes.len() < LENGTH_BYTES {
        &[]
    } else {
        &bytes[LENGTH_BYTES..]
    }
}

// The cookie that an answer to INIT brings.
fn into_cookie(t: Trans) -> Option<ByteString>
    requires { Fits t }
    ensures cookie { IfSome result (λ k. told_cookie t ≡ Some k) }
    ensures short { IfSome result (λ k. length k ≤ 2 ^ 16 - 1) }
{
    match t {
        Trans::Init {
            answer: true,
            cookie,
            ..
        } => cookie,
        Trans::Init { answer: false, .. }
        | Trans::Open { .. }
        | Trans::Close { .. }
        | Trans::KeepAlive
        | Trans::Frame { .. }
        | Trans::Fragment { .. } => None,
    }
}

// What a session answers to a batch.
fn answer_to(alloc: Global, session: &mut Session, batch: &[u8]) -> Result<Vec<u8>, AllocError>
    ensures { IfOk result (λ b. (events : List SessionEvent) × TakesBatch session.old session.new batch.now events b.items) }
{
    let mut fed = take(alloc, session, batch)?;
    Ok(mem::replace(&mut fed.bytes, Vec::new(alloc)))
}

// What a session sends by, which a batch has opened.
fn opened_by(alloc: Global, session: &mut Session, batch: &[u8]) -> Result<Outbox, AllocError>
    ensures { IfOk result (λ box. OpensBy session.old session.new batch.now box) }
{
    let fed = take(alloc, session, batch)?;
    outbox_in(&fed.events).ok_or(AllocError)
}

// A session takes a batch. None of an opening ends it.
fn take(alloc: Global, session: &mut Session, batch: &[u8]) -> Result<Fed, AllocError>
    ensures { IfOk result (λ fed. TakesBatch session.old session.new batch.now fed.events.items fed.bytes.items) }
{
    // A law: it does nothing, and brings its clause.
    written_messages_are_read();
    let mut fed = Fed::new(alloc);
    match session.feed(batch, NOW, &mut fed)? {
        Fate::Going => Ok(fed),
        Fate::Closed(_) | Fate::Peer(_) => Err(AllocError),
    }
}

// What this end sends by, where the session has just opened.
fn outbox_in(events: &[SessionEvent]) -> Option<Outbox>
    ensures { IfSome result (λ box. Tells events.now box) }
{
    match events {
        [SessionEvent::Opened(_, outbox)] => Some(*outbox),
        _ => None,
    }
}
