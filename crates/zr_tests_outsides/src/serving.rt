//! A router that is served where an accept fails, or the thread of a link's reader.

use crate::links::{OWN, identifier};
use crate::seen::{Seen, SeenSink};
use crate::wire::{CLOSE, INIT_A, INIT_ANSWER, OPEN, joined};
use rand_chacha::ChaCha20Rng;
use rand_core::SeedableRng;
use std::alloc::{AllocError, Global};
use std::sync::Wait;
use std::thread::Threads;
use zr_access::Policy;
use zr_link_job::ServeJob;
use zr_outside_crew::Crew;
use zr_outside_mem::mem_clock::MemClock;
use zr_outside_mem::mem_host::MemHost;
use zr_outside_mem::mem_sink::MemSink;
use zr_outside_mem::mem_source::MemSource;
use zr_serve::{ServeEnd, ServePlan};
use zr_serve_router::serving::serve_router;

type SeenHost<R> = MemHost<MemSource, SeenSink<R>, ChaCha20Rng>;

/// Which accepts and which starts of readers fail, how serving ends, what it tells of that, and what the two links are written over which client 0A opens a
/// session.
pub struct Serves {
    accepts: &'static [u64],
    starts: &'static [u64],
    end: ServeEnd,
    told: &'static str,
    first: &'static [&'static [u8]],
    second: &'static [&'static [u8]],
}

/// SHA-256 of the first 32 bytes of ChaCha under 32 bytes 07, of link number 1 as eight bytes, and of `01 0A`.
const COOKIE: [u8; 32] = [
    0x7B, 0x80, 0xB4, 0xD8, 0xB2, 0xFD, 0x7F, 0x80, 0xD8, 0xE0, 0x53, 0x03, 0xC6, 0x1A, 0x04, 0x53,
    0x11, 0x09, 0xFB, 0xCB, 0x9F, 0xC8, 0xEC, 0x85, 0x95, 0x83, 0x81, 0x98, 0xAB, 0x8A, 0x7F, 0x63,
];

/// The answer to OPEN. Its first number is the low 28 bits of the sixth word of eight bytes that ChaCha gives, whose low byte is the first: the secret takes
/// four words, and each link one.
const OPENED: [u8; 8] = [0x06, 0x00, 0x62, 0x0A, 0xAB, 0x8B, 0xF6, 0x02];

static ROWS: [Serves; 2] = [
    // the crew, asked for the first reader: that link is told so, and serving goes on: a session opens on the second one
    Serves {
        accepts: &[],
        starts: &[0],
        end: ServeEnd::Done,
        told: "",
        first: &[&CLOSE],
        second: &[&INIT_ANSWER, &COOKIE, &OPENED],
    },
    // the first accept
    Serves {
        accepts: &[0],
        starts: &[],
        end: ServeEnd::HostFault,
        told: "accept failed\n",
        first: &[],
        second: &[],
    },
];

/// The rows. A proof writes out a static at each step of a function that names it, so this one takes few.
pub fn rows() -> &'static [Serves] {
    &ROWS
}

fn plan(alloc: Global) -> Result<ServePlan, AllocError> {
    let listen = String::from_str(alloc, "here")?;
    Ok(ServePlan {
        id: identifier(OWN)?,
        listen,
        dials: Vec::new(alloc),
        log: false,
        admin: false,
    })
}

// One more link comes, over which client 0A opens a session, as the second link of all.
fn accepts<R: Wait + Drop>(
    rt: R,
    alloc: Global,
    host: &mut SeenHost<R>,
    seen: &Seen,
) -> Result<(), AllocError> {
    let bytes = joined(alloc, &[&INIT_A, &OPEN, &COOKIE])?;
    let source = MemSource::new(bytes, INIT_A.len(), Vec::new(alloc), Vec::new(alloc));
    let sink = seen.sink(rt)?;
    host.accepts(source, sink)
}

// A host over which the links of a row come.
fn host<R: Wait + Copy + Drop>(
    rt: R,
    alloc: Global,
    row: &Serves,
    first: &Seen,
    second: &Seen,
) -> Result<SeenHost<R>, AllocError> {
    let failing = row.accepts.to_vec(alloc)?;
    let words = ChaCha20Rng::from_seed([7; 32]);
    let mut host = MemHost::new(alloc, MemClock::new(0, 0), words);
    accepts(rt, alloc, &mut host, first)?;
    accepts(rt, alloc, &mut host, second)?;
    Ok(host.troubled(failing, Vec::new(alloc)))
}

// Whether serving ends as the row says, and tells that.
fn ends_so<R: Threads + Wait + Copy + Send + Sync + Drop + 'static>(
    rt: R,
    alloc: Global,
    row: &Serves,
    plan: &ServePlan,
    host: &mut SeenHost<R>,
    crew: &mut Crew<R, ServeJob>,
) -> bool {
    let mut out = MemSink::new(alloc, Vec::new(alloc));
    let mut err = MemSink::new(alloc, Vec::new(alloc));
    let policy = Policy::open(alloc);
    let end = serve_router(rt, alloc, plan, policy, &mut out, &mut err, host, crew);
    end == row.end && out.bytes() == "serving 01\n".as_bytes() && err.bytes() == row.told.as_bytes()
}

// Whether a row is so.
fn is_so<R: Threads + Wait + Copy + Send + Sync + Drop + 'static>(
    rt: R,
    alloc: Global,
    row: &Serves,
) -> Result<bool, AllocError> {
    let plan = plan(alloc)?;
    let first = Seen::new(alloc, &[])?;
    let second = Seen::new(alloc, &[])?;
    let mut host = host(rt, alloc, row, &first, &second)?;
    let mut crew = Crew::telling(rt, alloc, row.starts.to_vec(alloc)?)?;
    let ends = ends_so(rt, alloc, row, &plan, &mut host, &mut crew);
    crew.wait();
    let is_first = first.is_written(&rt, alloc, row.first)?;
    Ok(ends && is_first && second.is_written(&rt, alloc, row.second)?)
}

/// The number of the first row that isn't so; that of all where there is none.
pub fn first_wrong<R: Threads + Wait + Copy + Send + Sync + Drop + 'static>(
    rt: R,
    alloc: Global,
    rows: &[Serves],
) -> Result<usize, AllocError> {
    for i in 0..rows.len() {
        if !is_so(rt, alloc, &rows[i])? {
            return Ok(i);
        }
    }
    Ok(rows.len())
}
