//! A session through the reader of a link and its writer, byte for byte.
ghost use Rattle.std.specs.Prelude.{◌≡◌, [], IfOk};
ghost use Rattle.zr_hist.specs.Words.{kept_name, list_of, name, pass_name};
ghost use Rattle.zr_link.specs.Heard.{IsBegun};

use crate::shared_sink::{SharedSink, hold, no_bytes};
use std::alloc::{AllocError, Global};
use std::marker::Brand;
use std::sync::{Arc, Mutex, Wait};
use std::test::Fail;
use std::thread::Threads;
use zr_access::Policy;
use zr_hist::{History, Kept, Pass};
use zr_id::link::LinkNo;
use zr_id::zid::Zid;
use zr_link::{LinkEnd, LinkLog, Outward, Reader, Stage};
use zr_msg::shared::Shared;
use zr_open::Opening;
use zr_outside_crew::Crew;
use zr_outside_mem::mem_clock::MemClock;
use zr_outside_mem::mem_log::MemLog;
use zr_outside_mem::mem_source::MemSource;
use zr_port::{Entry, Naming};
use zr_router::Router;
use zr_session::Session;

/// How often the reader reads and the writer asks its ring at most.
const MOST_TURNS: u64 = 1_000_000;

const SECRET: [u8; 32] = [7; 32];

/// The link's number.
const NUMBER: u64 = 3;

/// SHA-256 of 32 bytes 07, of link number 3 as eight bytes, the low one first, and of `01 0A`.
const COOKIE: [u8; 32] = [
    0x0C, 0xA4, 0xFB, 0xED, 0xFB, 0x36, 0x48, 0x4F, 0x6E, 0xFC, 0x82, 0xF5, 0xFE, 0x1D, 0x99, 0xC8,
    0xEA, 0x20, 0x2C, 0x82, 0x00, 0xFC, 0x7C, 0x4B, 0xFF, 0x2F, 0xE2, 0x1D, 0xB3, 0x49, 0x36, 0x21,
];

/// The INIT of client 0A, and its OPEN with first number 5, up to the cookie.
const OPENING: [u8; 12] = [
    0x04, 0x00, 0x01, 0x09, 0x02, 0x0A, 0x24, 0x00, 0x42, 0x0A, 0x05, 0x20,
];

/// What it sends once it is open: interest 1 in subscribers of `a/**`, now and later, key 1 for `a/b`, subscriber 1 on `a/b/*`; `hi` on key 1; query 1 on key 1; CLOSE.
const FRAMES: [u8; 50] = [
    0x1A, 0x00, 0x25, 0x05, 0x79, 0x01, 0x32, 0x00, 0x04, 0x61, 0x2F, 0x2A, 0x2A, 0x1E, 0x20, 0x01,
    0x00, 0x03, 0x61, 0x2F, 0x62, 0x1E, 0x62, 0x01, 0x01, 0x02, 0x2F, 0x2A, 0x08, 0x00, 0x25, 0x06,
    0x5D, 0x01, 0x01, 0x02, 0x68, 0x69, 0x06, 0x00, 0x25, 0x07, 0x5C, 0x01, 0x01, 0x03, 0x02, 0x00,
    0x23, 0x00,
];

/// What it is answered: to INIT, up to the cookie, to OPEN, to the interest, since nobody else subscribes, that all was told, and to the query, which nobody
/// else can answer, its final. Nothing is answered to its CLOSE.
const INIT_ANSWER: [u8; 7] = [0x25, 0x00, 0x21, 0x09, 0x00, 0x01, 0x20];

const OPEN_ANSWER: [u8; 5] = [0x03, 0x00, 0x62, 0x0A, 0x00];

const TOLD_END: [u8; 7] = [0x05, 0x00, 0x25, 0x00, 0x3E, 0x01, 0x1A];

const FINAL: [u8; 6] = [0x04, 0x00, 0x25, 0x01, 0x1A, 0x01];

fn joined(alloc: Global, parts: &[&[u8]]) -> Result<Vec<u8>, AllocError> {
    let mut bytes = Vec::new(alloc);
    for part in parts {
        bytes.extend_from_slice(part)?;
    }
    Ok(bytes)
}

// What the client sends, so many bytes a read at most.
fn client(alloc: Global, most: usize) -> Result<MemSource, AllocError> {
    let bytes = joined(alloc, &[&OPENING, &COOKIE, &FRAMES])?;
    Ok(MemSource::new(bytes, most, Vec::new(alloc), Vec::new(alloc)))
}

#[tactic(auto, using(zr_link::proofs::Beginning::accepting_begun))]
fn session(alloc: Global, me: Zid) -> Session
    ensures { IsBegun result [] }
{
    Session::accepting(alloc, Opening::new(me, &SECRET, NUMBER, 0, 1), 0)
}

// What the link's two threads share or hand on, where what is written goes to these bytes.
fn outward<B: Naming, R: Wait + Copy + Drop>(
    rt: R,
    alloc: Global,
    router: Router<B, R, SharedSink<R>>,
    bytes: &Arc<Mutex<Vec<u8>>>,
) -> Result<Outward<SharedSink<R>, Router<B, R, SharedSink<R>>, MemClock, MemLog>, AllocError> {
    let port = Arc::new(alloc, router)?;
    let sink = SharedSink::new(rt, bytes)?;
    Ok(Outward {
        sink,
        port,
        clock: MemClock::new(0, 100),
        turns: MOST_TURNS,
        log: Some(MemLog::new(alloc)),
    })
}

// How the reader ends.
fn ended<
    B: Naming + Send + Sync + 'static,
    R: Threads + Wait + Copy + Send + Sync + Drop + 'static,
>(
    alloc: Global,
    me: Zid,
    source: &mut MemSource,
    out: Outward<SharedSink<R>, Router<B, R, SharedSink<R>>, MemClock, MemLog>,
    crew: &mut Crew<R, LinkNo>,
    pass: &mut Pass<Entry>,
) -> LinkEnd
    requires { pass_name pass.old ≡ B.history }
{
    let session = session(alloc, me);
    let mut clock = MemClock::new(0, 100);
    let mut log = LinkLog::new(alloc, Some(MemLog::new(alloc)), Stage::Unopened);
    let (end, _) = Reader::run(
        alloc,
        source,
        out,
        &[],
        session,
        &mut clock,
        crew,
        pass,
        &mut log,
    );
    end
}

// Whether the client's end comes, and all threads have ended then.
fn is_left<
    B: Naming + Send + Sync + 'static,
    R: Threads + Wait + Copy + Send + Sync + Drop + 'static,
>(
    rt: R,
    alloc: Global,
    me: Zid,
    source: &mut MemSource,
    out: Outward<SharedSink<R>, Router<B, R, SharedSink<R>>, MemClock, MemLog>,
    pass: &mut Pass<Entry>,
) -> Result<bool, AllocError>
    requires { pass_name pass.old ≡ B.history }
{
    let mut crew: Crew<R, LinkNo> = Crew::new(rt, alloc)?;
    let end = ended(alloc, me, source, out, &mut crew, pass);
    crew.wait();
    Ok(end == LinkEnd::Peer(0))
}

// Whether the client's end comes with just these bytes before it, where it sends so many bytes a read at most.
fn is_answered_at<
    B: Naming + Send + Sync + 'static,
    R: Threads + Wait + Copy + Send + Sync + Drop + 'static,
>(
    rt: R,
    alloc: Global,
    me: Zid,
    policy: Shared<Policy>,
    history: History<Entry>,
    kept: Kept<Entry>,
    pass: Pass<Entry>,
    source: &mut MemSource,
    want: &[u8],
) -> Result<bool, AllocError>
    requires history { name history ≡ B.history }
    requires kept { (kept_name kept ≡ B.history) × (list_of kept ≡ []) }
    requires pass { pass_name pass ≡ B.history }
    requires own { me ≡ B.me }
    requires ruled { policy ≡ B.policy }
{
    let mut pass = pass;
    let bytes = no_bytes(alloc)?;
    let router = Router::<B, R, SharedSink<R>>::new(rt, alloc, me, policy, history, kept)?;
    let out = outward(rt, alloc, router, &bytes)?;
    let is_left = is_left(rt, alloc, me, source, out, &mut pass)?;
    Ok(is_left && hold(&rt, &bytes, want))
}

// The same at a new router 01.
fn is_answered<R: Threads + Wait + Copy + Send + Sync + Drop + 'static>(
    rt: R,
    alloc: Global,
    most: usize,
    want: &[u8],
) -> Result<bool, AllocError> {
    let Ok(me) = Zid::from_bytes(&[1]) else {
        return Err(AllocError);
    };
    let mut source = client(alloc, most)?;
    let policy = Shared::new(alloc, Policy::open(alloc))?;
    let (history, kept, pass) = History::<Entry>::new(alloc)?;
    is_answered_at::<Brand, R>(
        rt,
        alloc,
        me,
        policy,
        history,
        kept,
        pass,
        &mut source,
        want,
    )
}

#[test]
fn a_usual_client_is_answered(rt: HostRuntime) -> Result<(), Fail> {
    let alloc = rt.alloc();
    let answers = joined(
        alloc,
        &[&INIT_ANSWER, &COOKIE, &OPEN_ANSWER, &TOLD_END, &FINAL],
    )?;
    let at_once = is_answered(rt, alloc, 65_536, &answers)?;
    let bytewise = is_answered(rt, alloc, 1, &answers)?;
    assert!(rt; at_once && bytewise);
    Ok(())
}
