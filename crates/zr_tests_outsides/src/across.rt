//! Two routers that a link in memory joins, each with a client.
ghost use Rattle.std.specs.Prelude.{◌≡◌, []};
ghost use Rattle.zr_hist.specs.Words.{kept_name, list_of, name, pass_name};

use crate::link_sink::{LinkSink, To};
use crate::links::{Begin, Desk, OTHER, Watched, are_left, desk_named, hand, identifier};
use crate::pipe::Pipe;
use crate::seen::Want;
use crate::talking::{TURNS, Talk, goes_between};
use std::alloc::{AllocError, Global};
use std::marker::Brand;
use std::sync::Wait;
use std::thread::Threads;
use zr_access::Policy;
use zr_hist::{History, Kept, Pass};
use zr_id::zid::Zid;
use zr_link_job::Side;
use zr_msg::shared::Shared;
use zr_outside_crew::Crew;
use zr_port::{Entry, Naming};
use zr_router::Router;

/// The number of the link between the routers at each of them: its clients have lower ones.
const NUMBER: u64 = 2;

/// What is seen of that link at router 01, and at router 02. What it carries isn't compared: what is joined in one batch is a matter of time.
const AT_FIRST: Want = Want {
    reader: "up, router 02\nend, router 02: the peer hung up\n",
    writer: "writer end, router 02: all is written\n",
    written: &[],
};

const AT_SECOND: Want = Want {
    reader: "up, router 01\nend, router 01: the peer hung up\n",
    writer: "writer end, router 01: all is written\n",
    written: &[],
};

// Hands over this router's end of the link.
fn begin<
    B: Naming + Send + Sync + 'static,
    R: Threads + Wait + Copy + Send + Sync + Drop + 'static,
>(
    desk: &mut Desk<Router<B, R, LinkSink<R>>, R>,
    side: Side,
    from: &Pipe,
    to: &Pipe,
    end: &mut Watched<R>,
) -> Result<(), AllocError> {
    let begin = Begin {
        side,
        number: NUMBER,
        turns: TURNS,
        step: 0,
    };
    let writers = Crew::new(desk.rt, desk.alloc)?;
    let source = from.source(desk.rt)?;
    let sink = LinkSink::new(To::Pipe(to.sink(desk.rt)?));
    hand(desk, &mut end.crew, writers, begin, &end.seen, source, sink)
}

// Whether a talk of their clients goes as it says over these routers, whose link comes up before it and ends behind it.
fn goes_linked<
    B: Naming + Send + Sync + 'static,
    D: Naming + Send + Sync + 'static,
    R: Threads + Wait + Copy + Send + Sync + Drop + 'static,
>(
    desk: &mut Desk<Router<B, R, LinkSink<R>>, R>,
    other: &mut Desk<Router<D, R, LinkSink<R>>, R>,
    talk: &Talk,
    first: &mut Watched<R>,
    second: &mut Watched<R>,
) -> Result<bool, AllocError> {
    let there = Pipe::new(desk.alloc)?;
    let back = Pipe::new(desk.alloc)?;
    begin(desk, Side::Accepting, &there, &back, first)?;
    begin(other, Side::Dialling, &back, &there, second)?;
    let is_so = goes_between(desk, other, talk)?;
    there.close();
    back.close();
    Ok(is_so)
}

// The same, and both ends of the link leave what they should.
fn goes_over<
    B: Naming + Send + Sync + 'static,
    D: Naming + Send + Sync + 'static,
    R: Threads + Wait + Copy + Send + Sync + Drop + 'static,
>(
    desk: &mut Desk<Router<B, R, LinkSink<R>>, R>,
    other: &mut Desk<Router<D, R, LinkSink<R>>, R>,
    talk: &Talk,
) -> Result<bool, AllocError> {
    let rt = desk.rt;
    let alloc = desk.alloc;
    let mut first = Watched::new(rt, alloc)?;
    let mut second = Watched::new(rt, alloc)?;
    let is_so = goes_linked(desk, other, talk, &mut first, &mut second)?;
    first.crew.wait();
    second.crew.wait();
    let is_first = first.seen.is(&rt, alloc, &AT_FIRST)?;
    let is_second = second.seen.is(&rt, alloc, &AT_SECOND)?;
    Ok(is_so && is_first && is_second && are_left(other))
}

// The same, where the second router is a new one under this name.
fn goes_named<
    B: Naming + Send + Sync + 'static,
    D: Naming + Send + Sync + 'static,
    R: Threads + Wait + Copy + Send + Sync + Drop + 'static,
>(
    desk: &mut Desk<Router<B, R, LinkSink<R>>, R>,
    talk: &Talk,
    me: Zid,
    policy: Shared<Policy>,
    history: History<Entry>,
    kept: Kept<Entry>,
    pass: Pass<Entry>,
) -> Result<bool, AllocError>
    requires history { name history ≡ D.history }
    requires kept { (kept_name kept ≡ D.history) × (list_of kept ≡ []) }
    requires pass { pass_name pass ≡ D.history }
    requires own { me ≡ D.me }
    requires ruled { policy ≡ D.policy }
{
    let mut other = desk_named::<D, R>(desk.rt, desk.alloc, me, policy, history, kept, pass)?;
    goes_over(desk, &mut other, talk)
}

/// Whether a talk of a client of this router and one of router 02 goes as it says.
pub fn goes_so<
    B: Naming + Send + Sync + 'static,
    R: Threads + Wait + Copy + Send + Sync + Drop + 'static,
>(desk: &mut Desk<Router<B, R, LinkSink<R>>, R>, talk: &Talk) -> Result<bool, AllocError> {
    let alloc = desk.alloc;
    let me = identifier(OTHER)?;
    let policy = Shared::new(alloc, Policy::open(alloc))?;
    let (history, kept, pass) = History::<Entry>::new(alloc)?;
    goes_named::<B, Brand, R>(desk, talk, me, policy, history, kept, pass)
}
