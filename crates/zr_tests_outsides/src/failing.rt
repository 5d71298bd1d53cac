//! A link whose reads, writes or threads fail, and one that falls silent: how it ends, and what it was written.

use crate::link_sink::{LinkSink, To};
use crate::links::{Begin, Desk, hand};
use crate::seen::{Seen, Want};
use crate::silent::SilentSource;
use crate::wire::{
    CLOSE, CLOSE_EXPIRED, COOKIE_A_0, INIT_A, INIT_ANSWER, INTEREST, KEEP_ALIVE, OPEN, OPEN_ANSWER,
    PUT, QUERY, joined,
};
use std::alloc::{AllocError, Global};
use std::sync::Wait;
use std::thread::Threads;
use zr_link_job::{ServeJob, Side};
use zr_outside_crew::Crew;
use zr_outside_mem::mem_source::MemSource;
use zr_port::Naming;
use zr_router::Router;

/// How many bytes a read gives at most: more than come, or just INIT.
const AT_ONCE: Comes = Comes::AtMost(65_536);

const INIT_ALONE: Comes = Comes::AtMost(6);

/// More reads than a link makes that doesn't fall silent.
const MANY: u64 = 1_000_000;

/// When the lease of a silent client ends, in milliseconds: 10 s after it was heard last.
const EXPIRES: u64 = 26_000;

/// How what a client sends comes: so many bytes a read at most, or as from one that falls silent.
#[derive(Clone, Copy)]
enum Comes {
    AtMost(usize),
    Silently,
}

/// What client 0A sends and how that comes, how often it is read at most, what fails, and what is seen then.
pub struct Failing {
    sends: &'static [&'static [u8]],
    comes: Comes,
    turns: u64,
    // the numbers of the reads and writes, and of the starts of the reader and the writer, that fail
    reads: &'static [u64],
    writes: &'static [u64],
    readers: &'static [u64],
    writers: &'static [u64],
    want: Want,
}

const OPENED: [&[u8]; 3] = [&INIT_ANSWER, &COOKIE_A_0, &OPEN_ANSWER];

/// Nobody else subscribes, so all is told of interest 1; and nobody else can answer query 1.
const TOLD_END: [u8; 7] = [0x05, 0x00, 0x25, 0x00, 0x3E, 0x01, 0x1A];

const FINAL: [u8; 6] = [0x04, 0x00, 0x25, 0x01, 0x1A, 0x01];

static ROWS: [Failing; 8] = [
    // a read behind the Up: what came before it is answered
    Failing {
        sends: &[&INIT_A, &OPEN, &COOKIE_A_0, &INTEREST, &PUT, &QUERY],
        comes: AT_ONCE,
        turns: MANY,
        reads: &[1],
        writes: &[],
        readers: &[],
        writers: &[],
        want: Want {
            reader: "up, client 0a\nend, client 0a: a read failed\n",
            writer: "writer end, client 0a: all is written\n",
            written: &[&INIT_ANSWER, &COOKIE_A_0, &OPEN_ANSWER, &TOLD_END, &FINAL],
        },
    },
    // the first write of an accepting end: the link doesn't come up
    Failing {
        sends: &[&INIT_A, &OPEN, &COOKIE_A_0],
        comes: INIT_ALONE,
        turns: MANY,
        reads: &[],
        writes: &[0],
        readers: &[],
        writers: &[],
        want: Want {
            reader: "end, unopened: a write failed\n",
            writer: "",
            written: &[],
        },
    },
    // the answer to OPEN: the link has come up, and goes down
    Failing {
        sends: &[&INIT_A, &OPEN, &COOKIE_A_0],
        comes: AT_ONCE,
        turns: MANY,
        reads: &[],
        writes: &[0],
        readers: &[],
        writers: &[],
        want: Want {
            reader: "up, client 0a\nend, client 0a: a write failed\n",
            writer: "",
            written: &[],
        },
    },
    // a write of the writer: the reader goes on
    Failing {
        sends: &[&INIT_A, &OPEN, &COOKIE_A_0, &INTEREST, &PUT, &QUERY, &CLOSE],
        comes: AT_ONCE,
        turns: MANY,
        reads: &[],
        writes: &[1],
        readers: &[],
        writers: &[],
        want: Want {
            reader: "up, client 0a\nend, client 0a: closed by the peer, reason 0\n",
            writer: "writer end, client 0a: a write failed\n",
            written: &OPENED,
        },
    },
    // nothing: before the lease has ended, and as it ends
    Failing {
        sends: &[&INIT_A, &OPEN, &COOKIE_A_0, &KEEP_ALIVE, &KEEP_ALIVE],
        comes: Comes::Silently,
        turns: EXPIRES - 1,
        reads: &[],
        writes: &[],
        readers: &[],
        writers: &[],
        want: Want {
            reader: "up, client 0a\nend, client 0a: it was read as often as may be\n",
            writer: "writer end, client 0a: all is written\n",
            written: &OPENED,
        },
    },
    Failing {
        sends: &[&INIT_A, &OPEN, &COOKIE_A_0, &KEEP_ALIVE, &KEEP_ALIVE],
        comes: Comes::Silently,
        turns: EXPIRES,
        reads: &[],
        writes: &[],
        readers: &[],
        writers: &[],
        want: Want {
            reader: "up, client 0a\nend, client 0a: closed here, its lease expired\n",
            writer: "writer end, client 0a: closed here, reason 5\n",
            written: &[&INIT_ANSWER, &COOKIE_A_0, &OPEN_ANSWER, &CLOSE_EXPIRED],
        },
    },
    // the crew, asked for the writer
    Failing {
        sends: &[&INIT_A, &OPEN, &COOKIE_A_0, &INTEREST],
        comes: AT_ONCE,
        turns: MANY,
        reads: &[],
        writes: &[],
        readers: &[],
        writers: &[0],
        want: Want {
            reader: "up, client 0a\nend, client 0a: no thread could be started for it\n",
            writer: "",
            written: &[&INIT_ANSWER, &COOKIE_A_0, &OPEN_ANSWER, &CLOSE],
        },
    },
    // the crew, asked for the reader
    Failing {
        sends: &[&INIT_A, &OPEN, &COOKIE_A_0],
        comes: AT_ONCE,
        turns: MANY,
        reads: &[],
        writes: &[],
        readers: &[0],
        writers: &[],
        want: Want {
            reader: "end, unopened: no thread could be started for it\n",
            writer: "",
            written: &[&CLOSE],
        },
    },
];

/// The rows. A proof writes out a static at each step of a function that names it, so this one takes few.
pub fn rows() -> &'static [Failing] {
    &ROWS
}

// Hands over the link of a row.
fn begin<
    B: Naming + Send + Sync + 'static,
    R: Threads + Wait + Copy + Send + Sync + Drop + 'static,
>(
    desk: &mut Desk<Router<B, R, LinkSink<R>>, R>,
    crew: &mut Crew<R, ServeJob>,
    row: &Failing,
    seen: &Seen,
) -> Result<(), AllocError> {
    let begin = Begin {
        side: Side::Accepting,
        number: 0,
        turns: row.turns,
        step: 1,
    };
    let writers = Crew::telling(desk.rt, desk.alloc, row.writers.to_vec(desk.alloc)?)?;
    let failing = row.reads.to_vec(desk.alloc)?;
    let bytes = joined(desk.alloc, row.sends)?;
    let sink = LinkSink::new(To::Seen(seen.sink(desk.rt)?));
    match row.comes {
        Comes::AtMost(most) => {
            let source = MemSource::new(bytes, most, failing, Vec::new(desk.alloc));
            hand(desk, crew, writers, begin, seen, source, sink)
        }
        Comes::Silently => {
            let source = SilentSource::new(bytes);
            hand(desk, crew, writers, begin, seen, source, sink)
        }
    }
}

/// Whether a link of this router ends as the row says.
pub fn ends_so<
    B: Naming + Send + Sync + 'static,
    R: Threads + Wait + Copy + Send + Sync + Drop + 'static,
>(desk: &mut Desk<Router<B, R, LinkSink<R>>, R>, row: &Failing) -> Result<bool, AllocError> {
    let rt = desk.rt;
    let alloc = desk.alloc;
    let seen = Seen::new(alloc, row.writes)?;
    let mut crew = Crew::telling(rt, alloc, row.readers.to_vec(alloc)?)?;
    begin(desk, &mut crew, row, &seen)?;
    crew.wait();
    seen.is(&rt, alloc, &row.want)
}
