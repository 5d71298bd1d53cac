//! A router that is served over a host in memory: which links become jobs of the crew, what they are written, and how it ends where the host fails.

use crate::hosts::{TestHost, host, no_host, sink, source};
use crate::shared_sink::{SharedSink, hold, no_bytes};
use rand_chacha::ChaCha20Rng;
use std::alloc::{AllocError, Global};
use std::sync::{Arc, Mutex, Wait};
use std::test::Fail;
use std::thread::Threads;
use zr_access::Policy;
use zr_dial::{Dial, read_dial};
use zr_id::zid::Zid;
use zr_link_job::{LinkJob, ServeJob, Side};
use zr_outside::host::Host;
use zr_outside_brief::BriefSink;
use zr_outside_crew::Crew;
use zr_outside_mem::mem_host::MemHost;
use zr_outside_mem::mem_sink::MemSink;
use zr_outside_mem::mem_source::MemSource;
use zr_serve::{ServeEnd, ServePlan};
use zr_serve_router::serving::serve_router;

/// Which addresses are dialled and whether links have logs, whether the host can listen, which of its accepts and which writes of the error output fail, and
/// what it comes to: the end, both outputs, and for each job that the crew started a letter, a capital one where it has a log, and its weight. Where a line is one write, the
/// failure of the second breaks none.
type Row = (
    &'static [&'static str],
    bool,
    bool,
    &'static [u64],
    &'static [u64],
    ServeEnd,
    &'static str,
    &'static str,
    &'static str,
);

static ROWS: [Row; 4] = [
    (
        &["there", "nowhere"],
        false,
        true,
        &[],
        &[1],
        ServeEnd::Done,
        "serving 01\n",
        "dial nowhere failed\n",
        "d1a1a1",
    ),
    (
        &["there,9", "nowhere,2"],
        true,
        true,
        &[],
        &[],
        ServeEnd::Done,
        "serving 01\n",
        "dial nowhere failed\n",
        "D9A1A1",
    ),
    (
        &[],
        false,
        false,
        &[],
        &[],
        ServeEnd::HostFault,
        "",
        "listen here failed\n",
        "",
    ),
    (
        &[],
        false,
        true,
        &[0],
        &[1],
        ServeEnd::HostFault,
        "serving 01\n",
        "accept failed\n",
        "",
    ),
];

/// Whether the router has dialled a link, what comes over it before the peer hangs up, and what it is written.
type Opening = (bool, &'static [u8], &'static [u8]);

// A link that was dialled is written the INIT of router 01, which says that it is one, and one that was accepted nothing but the answer to the INIT of
// client 0A. The cookie in that is SHA-256 of the first 32 bytes of ChaCha under 32 bytes 07, of link number 0 as eight bytes, and of `01 0A`.
static OPENINGS: [Opening; 3] = [
    (true, &[], &[0x06, 0x00, 0x81, 0x09, 0x00, 0x01, 0x29, 0x02]),
    (false, &[], &[]),
    (
        false,
        &[0x04, 0x00, 0x01, 0x09, 0x02, 0x0A],
        &[
            0x25, 0x00, 0x21, 0x09, 0x00, 0x01, 0x20, 0xFC, 0x3A, 0x8F, 0x77, 0x29, 0x56, 0xBD,
            0x11, 0xDC, 0x97, 0x4F, 0x7A, 0x88, 0x7B, 0xDA, 0x04, 0xB3, 0xB8, 0x9A, 0x54, 0xD1,
            0x8A, 0x42, 0xE0, 0xEF, 0x5D, 0x74, 0xF1, 0x7A, 0x79, 0x73, 0x27,
        ],
    ),
];

fn host_of(alloc: Global, can_listen: bool, failing: &[u64]) -> Result<TestHost, AllocError> {
    let host = host(alloc, failing, &[])?;
    Ok(if can_listen { host } else { host.deaf() })
}

fn failing_sink(alloc: Global, failing: &[u64]) -> Result<MemSink, AllocError> {
    let failing = failing.to_vec(alloc)?;
    Ok(MemSink::new(alloc, failing))
}

fn dials_of(alloc: Global, words: &[&str]) -> Result<Vec<Dial>, AllocError> {
    let mut dials = Vec::new(alloc);
    for word in words {
        if let Some(dial) = read_dial(alloc, word)? {
            dials.push(dial)?;
        }
    }
    Ok(dials)
}

fn plan(alloc: Global, dials: &[&str], log: bool) -> Result<ServePlan, AllocError> {
    let Ok(id) = Zid::from_bytes(&[1]) else {
        return Err(AllocError);
    };
    let listen = String::from_str(alloc, "here")?;
    let dials = dials_of(alloc, dials)?;
    Ok(ServePlan {
        id,
        listen,
        dials,
        log,
        admin: false,
    })
}

// Whether a job has that letter, and that weight under rules that allow everything.
fn is_job(job: &ServeJob, letter_of_job: u8, weight: u16) -> bool {
    match job {
        ServeJob::Link { job } => {
            letter(job) == letter_of_job
                && job.start.weight.get() == weight
                && job.policy.get().is_open()
        }
        ServeJob::Inner => letter_of_job == b'i',
    }
}

fn letter(job: &LinkJob) -> u8 {
    match (job.start.side, job.start.log) {
        (Side::Accepting, false) => b'a',
        (Side::Accepting, true) => b'A',
        (Side::Dialling, false) => b'd',
        (Side::Dialling, true) => b'D',
    }
}

// Whether these are the jobs of a text, which has two bytes for each.
fn are_jobs(jobs: &[ServeJob], text: &[u8]) -> bool {
    let mut rest = text;
    for job in jobs {
        let [letter_of_job, weight, behind @ ..] = rest else {
            return false;
        };
        if !is_job(job, *letter_of_job, u16::from(weight.saturating_sub(b'0'))) {
            return false;
        }
        rest = behind;
    }
    rest.is_empty()
}

// How serving ended.
fn ended<H: Host, R: Threads + Wait + Copy + Send + Sync + Drop + 'static>(
    rt: R,
    alloc: Global,
    plan: &ServePlan,
    out: &mut MemSink,
    err: &mut MemSink,
    host: &mut H,
    crew: &mut Crew<R, ServeJob>,
) -> ServeEnd
where
    H::In: 'static,
    H::Out: BriefSink + 'static,
    H::Time: 'static,
    H::Log: 'static,
{
    serve_router(rt, alloc, plan, Policy::open(alloc), out, err, host, crew)
}

// Whether serving comes to what the row says.
fn serves<R: Threads + Wait + Copy + Send + Sync + Drop + 'static>(
    rt: R,
    alloc: Global,
    plan: &ServePlan,
    err: &mut MemSink,
    host: &mut TestHost,
    crew: &mut Crew<R, ServeJob>,
    row: &Row,
) -> bool {
    let (_, _, _, _, _, end, out_text, err_text, jobs) = *row;
    let mut out = sink(alloc);
    let told = ended(rt, alloc, plan, &mut out, err, host, crew);
    crew.wait();
    told == end
        && out.bytes() == out_text.as_bytes()
        && err.bytes() == err_text.as_bytes()
        && are_jobs(crew.told().unwrap_or(&[]), jobs.as_bytes())
}

// Whether a row is so.
fn is_so<R: Threads + Wait + Copy + Send + Sync + Drop + 'static>(
    rt: R,
    alloc: Global,
    row: &Row,
) -> Result<bool, AllocError> {
    let plan = plan(alloc, row.0, row.1)?;
    let mut host = host_of(alloc, row.2, row.3)?;
    let mut err = failing_sink(alloc, row.4)?;
    let mut crew = Crew::telling(rt, alloc, Vec::new(alloc))?;
    Ok(serves(rt, alloc, &plan, &mut err, &mut host, &mut crew, row))
}

// The number of the first row that isn't so; that of all where there is none.
fn first_wrong<R: Threads + Wait + Copy + Send + Sync + Drop + 'static>(
    rt: R,
    alloc: Global,
    rows: &[Row],
) -> Result<usize, AllocError> {
    for i in 0..rows.len() {
        if !is_so(rt, alloc, &rows[i])? {
            return Ok(i);
        }
    }
    Ok(rows.len())
}

#[test]
fn each_link_is_a_job_and_a_host_that_fails_ends_it(rt: HostRuntime) -> Result<(), Fail> {
    let wrong = first_wrong(rt, rt.alloc(), &ROWS)?;
    assert!(rt; wrong == ROWS.len(), "row {wrong}");
    Ok(())
}

type SharedHost<R> = MemHost<MemSource, SharedSink<R>, ChaCha20Rng>;

// A host with the link of a row, which writes to these bytes.
fn host_with<R: Wait + Drop>(
    rt: R,
    alloc: Global,
    row: &Opening,
    bytes: &Arc<Mutex<Vec<u8>>>,
) -> Result<SharedHost<R>, AllocError> {
    let source = source(alloc, row.1.to_vec(alloc)?);
    let sink = SharedSink::new(rt, bytes)?;
    let mut host = no_host(alloc);
    if row.0 {
        host.dials(source, sink)?;
    } else {
        host.accepts(source, sink)?;
    }
    Ok(host)
}

// Serves until no more links come and each link's threads have ended.
fn serve_links<R: Threads + Wait + Copy + Send + Sync + Drop + 'static>(
    rt: R,
    alloc: Global,
    plan: &ServePlan,
    host: &mut SharedHost<R>,
    crew: &mut Crew<R, ServeJob>,
) {
    let mut out = sink(alloc);
    let mut err = sink(alloc);
    let _ = ended(rt, alloc, plan, &mut out, &mut err, host, crew);
    crew.wait();
}

// Whether the link of a row is written what the row says.
fn is_written<R: Threads + Wait + Copy + Send + Sync + Drop + 'static>(
    rt: R,
    alloc: Global,
    row: &Opening,
) -> Result<bool, AllocError> {
    let plan = plan(alloc, &["there"], false)?;
    let bytes = no_bytes(alloc)?;
    let mut host = host_with(rt, alloc, row, &bytes)?;
    let mut crew = Crew::new(rt, alloc)?;
    serve_links(rt, alloc, &plan, &mut host, &mut crew);
    Ok(hold(&rt, &bytes, row.2))
}

// The number of the first link that is written anything else; that of all where there is none.
fn first_unlike<R: Threads + Wait + Copy + Send + Sync + Drop + 'static>(
    rt: R,
    alloc: Global,
    rows: &[Opening],
) -> Result<usize, AllocError> {
    for i in 0..rows.len() {
        if !is_written(rt, alloc, &rows[i])? {
            return Ok(i);
        }
    }
    Ok(rows.len())
}

#[test]
fn each_link_opens_by_its_side(rt: HostRuntime) -> Result<(), Fail> {
    let wrong = first_unlike(rt, rt.alloc(), &OPENINGS)?;
    assert!(rt; wrong == OPENINGS.len(), "row {wrong}");
    Ok(())
}
