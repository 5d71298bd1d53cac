//! A link in memory at a router, whose reader a crew starts.

ghost use Rattle.std.specs.Prelude.{◌≡◌, [], true, IfOk};
ghost use Rattle.std.specs.Arc.{arc_value};
ghost use Rattle.zr_hist.specs.Words.{kept_name, list_of, name, pass_name};

use crate::link_sink::LinkSink;
use crate::moving_clock::MovingClock;
use crate::seen::Seen;
use crate::wire::SECRET;
use std::alloc::{AllocError, Global};
use std::sync::{Arc, Wait};
use std::thread::Threads;
use zr_access::Policy;
use zr_hist::{History, Kept, Pass};
use zr_id::link::LinkNo;
use zr_id::zid::Zid;
use zr_link_job::{LinkJob, LinkStart, Reading, ServeJob, Side, hand_over};
use zr_msg::peer::Weight;
use zr_msg::shared::Shared;
use zr_outside::source::Source;
use zr_outside_brief::BriefSink;
use zr_outside_crew::Crew;
use zr_port::{Entry, Naming, Port};
use zr_port_outlet::Outlets;
use zr_router::Router;

/// A router as its links reach it, its identifier, the rules by which it judges them, and a pass of its history.
#[derive(Drop)]
pub struct Desk<P: Port + Drop, R: Wait + Copy + Drop> {
    pub rt: R,
    pub alloc: Global,
    pub me: Zid,
    pub port: Arc<P>,
    pub policy: Shared<Policy>,
    pub pass: Pass<Entry>,
    ghost ours: { pass_name pass ≡ P.history (arc_value port) },
    ghost named: { me ≡ P.router (arc_value port) },
    ghost ruled: { policy ≡ P.policy (arc_value port) },
}

/// A new router under a name.
pub fn desk_named<
    B: Naming + Send + Sync + 'static,
    R: Threads + Wait + Copy + Send + Sync + Drop + 'static,
>(
    rt: R,
    alloc: Global,
    me: Zid,
    policy: Shared<Policy>,
    history: History<Entry>,
    kept: Kept<Entry>,
    pass: Pass<Entry>,
) -> Result<Desk<Router<B, R, LinkSink<R>>, R>, AllocError>
    requires history { name history ≡ B.history }
    requires kept { (kept_name kept ≡ B.history) × (list_of kept ≡ []) }
    requires pass { pass_name pass ≡ B.history }
    requires own { me ≡ B.me }
    requires ruled { policy ≡ B.policy }
{
    let judged = policy.copy()?;
    let router = Router::<B, R, LinkSink<R>>::new(rt, alloc, me, judged, history, kept)?;
    let port = Arc::new(alloc, router)?;
    Ok(Desk {
        rt,
        alloc,
        me,
        port,
        policy,
        pass,
    })
}

/// What a link begins with: which end of it the router is, its number, how often its reader reads at most, and by how many milliseconds its clocks move on as
/// they are asked.
#[derive(Clone, Copy)]
pub struct Begin {
    pub side: Side,
    pub number: u64,
    pub turns: u64,
    pub step: u64,
}

/// The identifier of the router, and that of another one.
pub const OWN: u8 = 1;

pub const OTHER: u8 = 2;

pub fn identifier(byte: u8) -> Result<Zid, AllocError> {
    match Zid::from_bytes(&[byte]) {
        Ok(id) => Ok(id),
        Err(_) => Err(AllocError),
    }
}

/// A link as a test sees it: the crew that starts its reader, and what its threads leave.
#[derive(Drop)]
pub struct Watched<R: Threads + Drop> {
    pub crew: Crew<R, ServeJob>,
    pub seen: Seen,
}

impl<R: Threads + Drop> Watched<R> {
    pub fn new(rt: R, alloc: Global) -> Result<Watched<R>, AllocError> {
        let seen = Seen::new(alloc, &[])?;
        Ok(Watched {
            crew: Crew::new(rt, alloc)?,
            seen,
        })
    }
}

fn start(me: Zid, begin: Begin) -> LinkStart
    ensures log { result.log ≡ true }
    ensures own { result.me ≡ me }
{
    LinkStart {
        side: begin.side,
        number: begin.number,
        me,
        secret: SECRET,
        word: 0,
        weight: Weight::one(),
        turns: begin.turns,
        log: true,
    }
}

// The port and the rules once more.
fn shared<P: Port + Drop, R: Threads + Wait + Copy + Drop>(
    desk: &Desk<P, R>,
) -> Result<(Arc<P>, Shared<Policy>), AllocError>
    ensures port { IfOk result (λ r. arc_value r.0 ≡ arc_value desk.now.port) }
    ensures policy { IfOk result (λ r. r.1 ≡ desk.now.policy) }
{
    let policy = desk.policy.copy()?;
    let port = Arc::try_clone(&desk.port)?;
    Ok((port, policy))
}

/// Hands a link over: the one crew starts its reader, and the other its writer.
pub fn hand<
    S: Source + Send + Drop + 'static,
    K: BriefSink + Send + Drop + 'static,
    P: Outlets<Out = K> + Send + Sync + Drop + 'static,
    R: Threads + Wait + Copy + Send + Sync + Drop + 'static,
>(
    desk: &mut Desk<P, R>,
    crew: &mut Crew<R, ServeJob>,
    writers: Crew<R, LinkNo>,
    begin: Begin,
    seen: &Seen,
    source: S,
    sink: K,
) -> Result<(), AllocError>
where
    P::Note: Send + 'static,
{
    let start = start(desk.me, begin);
    let log = seen.reader_log(desk.rt)?;
    let writer_log = seen.writer_log(desk.rt)?;
    let (port, policy) = shared(desk)?;
    let clock = MovingClock::new(begin.step);
    let reading = Reading {
        alloc: desk.alloc,
        job: LinkJob { start, policy },
        source,
        sink,
        clock,
        writer_clock: clock,
        log: Some(log),
        writer_log: Some(writer_log),
        port,
        pass: desk.port.split(&mut desk.pass),
        crew: writers,
    };
    drop(hand_over(crew, reading)); // a reader that can't be started has told its peer so
    Ok(())
}

/// Whether neither of the first two links is up.
pub fn are_left<P: Port + Drop, R: Threads + Wait + Copy + Drop>(desk: &mut Desk<P, R>) -> bool {
    is_left(desk, 0) && is_left(desk, 1)
}

fn is_left<P: Port + Drop, R: Threads + Wait + Copy + Drop>(
    desk: &mut Desk<P, R>,
    link: u32,
) -> bool {
    desk.port.down(&mut desk.pass, LinkNo(link), None).is_err()
}
