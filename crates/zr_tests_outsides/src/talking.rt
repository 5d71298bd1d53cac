//! Two clients, whose threads run at once: what each sends waits for what was written before.

use crate::link_sink::{LinkSink, To};
use crate::links::{Begin, Desk, Watched, hand};
use crate::seen::Want;
use crate::wire::{
    CLOSE, COOKIE_A_1, COOKIE_B_0, INIT_A, INIT_ANSWER, INIT_ANSWER_2, INIT_B, INTEREST, OPEN,
    OPEN_ANSWER, PUT, QUERY, joined,
};
use std::alloc::{AllocError, Global};
use std::sync::Wait;
use std::thread::Threads;
use zr_link_job::Side;
use zr_outside::sink::Sink;
use zr_outside_crew::Crew;
use zr_outside_mem::gate::{Gate, GateSink, GateSource, Part};
use zr_outside_mem::mem_sink::MemSink;
use zr_port::Naming;
use zr_router::Router;

/// How often each reader reads at most.
pub const TURNS: u64 = 100_000_000;

/// What a client sends, each part once so many bytes were written to both clients together, and what is seen of its link.
struct Talker {
    parts: &'static [(u64, &'static [&'static [u8]])],
    want: Want,
}

/// Two clients. The first hangs up once the second has gone, behind one byte more.
pub struct Talk {
    first: Talker,
    second: Talker,
}

/// Client 0B declares subscriber 1 on `a/b` and queryable 1 on `a/**`, and asks by interest 9 which subscribers there are now: by the answer all before it is
/// read.
const DECLARES: [u8; 24] = [
    0x16, 0x00, 0x25, 0x05, 0x1E, 0x22, 0x01, 0x00, 0x03, 0x61, 0x2F, 0x62, 0x1E, 0x24, 0x01, 0x00,
    0x04, 0x61, 0x2F, 0x2A, 0x2A, 0x39, 0x09, 0x02,
];

const ALL_READ: [u8; 7] = [0x05, 0x00, 0x25, 0x00, 0x3E, 0x09, 0x1A];

/// Subscriber 1 on `a/b` is told for interest 1, and that these are all.
const TOLD: [u8; 16] = [
    0x0E, 0x00, 0x25, 0x00, 0x3E, 0x01, 0x22, 0x01, 0x00, 0x03, 0x61, 0x2F, 0x62, 0x3E, 0x01, 0x1A,
];

/// The sample and the query as they come to 0B.
const SAMPLE: [u8; 14] = [
    0x0C, 0x00, 0x25, 0x01, 0x3D, 0x00, 0x03, 0x61, 0x2F, 0x62, 0x01, 0x02, 0x68, 0x69,
];

const REQUEST: [u8; 12] = [
    0x0A, 0x00, 0x25, 0x02, 0x3C, 0x01, 0x00, 0x03, 0x61, 0x2F, 0x62, 0x03,
];

/// The reply `5` and the final of 0B, and both as they come to 0A.
const REPLIES: [u8; 17] = [
    0x0F, 0x00, 0x25, 0x06, 0x3B, 0x01, 0x00, 0x03, 0x61, 0x2F, 0x62, 0x04, 0x01, 0x01, 0x35, 0x1A,
    0x01,
];

const REPLY: [u8; 15] = [
    0x0D, 0x00, 0x25, 0x01, 0x3B, 0x01, 0x00, 0x03, 0x61, 0x2F, 0x62, 0x04, 0x01, 0x01, 0x35,
];

const FINAL: [u8; 6] = [0x04, 0x00, 0x25, 0x02, 0x1A, 0x01];

/// A usual client, and one that has declared what it asks for.
static USUAL: Talk = Talk {
    first: Talker {
        parts: &[
            (0, &[&INIT_B, &OPEN, &COOKIE_B_0, &DECLARES]),
            (137, &[&REPLIES]),
            (159, &[]),
        ],
        want: Want {
            reader: "up, client 0b\nend, client 0b: the peer hung up\n",
            writer: "writer end, client 0b: all is written\n",
            written: &[
                &INIT_ANSWER,
                &COOKIE_B_0,
                &OPEN_ANSWER,
                &ALL_READ,
                &SAMPLE,
                &REQUEST,
            ],
        },
    },
    second: Talker {
        parts: &[
            (51, &[&INIT_A]),
            (90, &[&OPEN, &COOKIE_A_1]),
            (95, &[&INTEREST]),
            (111, &[&PUT]),
            (125, &[&QUERY]),
            (158, &[&CLOSE]),
        ],
        want: Want {
            reader: "up, client 0a\nend, client 0a: closed by the peer, reason 0\n",
            writer: "writer end, client 0a: all is written\n",
            written: &[
                &INIT_ANSWER,
                &COOKIE_A_1,
                &OPEN_ANSWER,
                &TOLD,
                &REPLY,
                &FINAL,
            ],
        },
    },
};

/// Client 0B subscribes to `a`.
const SUBSCRIBES: [u8; 10] = [0x08, 0x00, 0x25, 0x05, 0x1E, 0x22, 0x01, 0x00, 0x01, 0x61];

/// Interest 1 of client 0A in subscribers of `a` from now on, and interest 9 as above.
const LATER: [u8; 13] = [
    0x0B, 0x00, 0x25, 0x05, 0x59, 0x01, 0x32, 0x00, 0x01, 0x61, 0x39, 0x09, 0x02,
];

const TOLD_LATER: [u8; 10] = [0x08, 0x00, 0x25, 0x01, 0x1E, 0x22, 0x01, 0x00, 0x01, 0x61];

/// `hi` on `a`, and as it comes to 0B.
const PUT_A: [u8; 12] = [
    0x0A, 0x00, 0x25, 0x06, 0x3D, 0x00, 0x01, 0x61, 0x01, 0x02, 0x68, 0x69,
];

const SAMPLE_A: [u8; 12] = [
    0x0A, 0x00, 0x25, 0x00, 0x3D, 0x00, 0x01, 0x61, 0x01, 0x02, 0x68, 0x69,
];

/// Each of two sessions waits for the other, so neither ends where one runs behind the other.
static AT_ONCE: Talk = Talk {
    first: Talker {
        parts: &[
            (0, &[&INIT_B, &OPEN, &COOKIE_B_0]),
            (95, &[&SUBSCRIBES]),
            (118, &[]),
        ],
        want: Want {
            reader: "up, client 0b\nend, client 0b: the peer hung up\n",
            writer: "writer end, client 0b: all is written\n",
            written: &[&INIT_ANSWER, &COOKIE_B_0, &OPEN_ANSWER, &SAMPLE_A],
        },
    },
    second: Talker {
        parts: &[
            (0, &[&INIT_A, &OPEN, &COOKIE_A_1, &LATER]),
            (105, &[&PUT_A]),
        ],
        want: Want {
            reader: "up, client 0a\nend, client 0a: the peer hung up\n",
            writer: "writer end, client 0a: all is written\n",
            written: &[
                &INIT_ANSWER,
                &COOKIE_A_1,
                &OPEN_ANSWER,
                &ALL_READ,
                &TOLD_LATER,
            ],
        },
    },
};

/// What client 0A of router 02 asks for comes to it from client 0B of router 01, and the other way round.
static ACROSS: Talk = Talk {
    first: Talker {
        parts: &[
            (0, &[&INIT_B, &OPEN, &COOKIE_B_0]),
            (95, &[&SUBSCRIBES]),
            (118, &[]),
        ],
        want: Want {
            reader: "up, client 0b\nend, client 0b: the peer hung up\n",
            writer: "writer end, client 0b: all is written\n",
            written: &[&INIT_ANSWER, &COOKIE_B_0, &OPEN_ANSWER, &SAMPLE_A],
        },
    },
    second: Talker {
        parts: &[
            (0, &[&INIT_A, &OPEN, &COOKIE_A_1, &LATER]),
            (105, &[&PUT_A]),
        ],
        want: Want {
            reader: "up, client 0a\nend, client 0a: the peer hung up\n",
            writer: "writer end, client 0a: all is written\n",
            written: &[
                &INIT_ANSWER_2,
                &COOKIE_A_1,
                &OPEN_ANSWER,
                &ALL_READ,
                &TOLD_LATER,
            ],
        },
    },
};

/// The talks, of clients of one router and of two. A proof writes out a static at each step of a function that names it, so these take few.
pub fn usual() -> &'static Talk {
    &USUAL
}

pub fn at_once() -> &'static Talk {
    &AT_ONCE
}

pub fn across() -> &'static Talk {
    &ACROSS
}

fn source(alloc: Global, gate: &Gate, talker: &Talker) -> Result<GateSource, AllocError> {
    let mut parts = Vec::new(alloc);
    for (after, bytes) in talker.parts {
        parts.push(Part {
            after: *after,
            bytes: joined(alloc, bytes)?,
        })?;
    }
    Ok(GateSource::new(gate.share()?, parts))
}

// Hands over the link of one of two clients. Its clocks stand still.
fn begin<
    B: Naming + Send + Sync + 'static,
    R: Threads + Wait + Copy + Send + Sync + Drop + 'static,
>(
    desk: &mut Desk<Router<B, R, LinkSink<R>>, R>,
    number: u64,
    gate: &Gate,
    talker: &Talker,
    client: &mut Watched<R>,
) -> Result<(), AllocError> {
    let begin = Begin {
        side: Side::Accepting,
        number,
        turns: TURNS,
        step: 0,
    };
    let writers = Crew::new(desk.rt, desk.alloc)?;
    let source = source(desk.alloc, gate, talker)?;
    let sink = GateSink::new(client.seen.sink(desk.rt)?, gate.share()?);
    let sink = LinkSink::new(To::Gate(sink));
    hand(
        desk,
        &mut client.crew,
        writers,
        begin,
        &client.seen,
        source,
        sink,
    )
}

// One byte more goes through the gate.
fn let_go(alloc: Global, gate: &Gate) -> Result<(), AllocError> {
    let mut sink = GateSink::new(MemSink::new(alloc, Vec::new(alloc)), gate.share()?);
    let _ = sink.write(&[0]);
    Ok(())
}

// Whether two clients that have begun are written what the talk says.
fn end_so<R: Threads + Wait + Drop>(
    rt: &R,
    alloc: Global,
    gate: &Gate,
    talk: &Talk,
    stays: &Watched<R>,
    goes: &Watched<R>,
) -> Result<bool, AllocError> {
    goes.crew.wait();
    let_go(alloc, gate)?;
    stays.crew.wait();
    let is_first = stays.seen.is(rt, alloc, &talk.first.want)?;
    Ok(is_first && goes.seen.is(rt, alloc, &talk.second.want)?)
}

/// Whether both clients of this router are written what the talk says.
pub fn goes_so<
    B: Naming + Send + Sync + 'static,
    R: Threads + Wait + Copy + Send + Sync + Drop + 'static,
>(desk: &mut Desk<Router<B, R, LinkSink<R>>, R>, talk: &Talk) -> Result<bool, AllocError> {
    let gate = Gate::new(desk.alloc)?;
    let mut stays = Watched::new(desk.rt, desk.alloc)?;
    let mut goes = Watched::new(desk.rt, desk.alloc)?;
    begin(desk, 0, &gate, &talk.first, &mut stays)?;
    begin(desk, 1, &gate, &talk.second, &mut goes)?;
    end_so(&desk.rt, desk.alloc, &gate, talk, &stays, &goes)
}

/// Whether a client of each of two routers is written what the talk says.
pub fn goes_between<
    B: Naming + Send + Sync + 'static,
    D: Naming + Send + Sync + 'static,
    R: Threads + Wait + Copy + Send + Sync + Drop + 'static,
>(
    desk: &mut Desk<Router<B, R, LinkSink<R>>, R>,
    other: &mut Desk<Router<D, R, LinkSink<R>>, R>,
    talk: &Talk,
) -> Result<bool, AllocError> {
    let gate = Gate::new(desk.alloc)?;
    let mut stays = Watched::new(desk.rt, desk.alloc)?;
    let mut goes = Watched::new(desk.rt, desk.alloc)?;
    begin(desk, 0, &gate, &talk.first, &mut stays)?;
    begin(other, 1, &gate, &talk.second, &mut goes)?;
    end_so(&desk.rt, desk.alloc, &gate, talk, &stays, &goes)
}
