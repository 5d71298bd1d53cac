//! A script of three routers in a row, where one read or one write fails, each in turn.

use std::alloc::{AllocError, Global};
use std::thread::Threads;
use zr_netrun::netrun::run_script;
use zr_netrun::options::NetOptions;
use zr_netrun::status::Status;
use zr_outside_mem::mem_sink::MemSink;
use zr_outside_mem::mem_source::MemSource;
use zr_world_gang::one_by_one::OneByOne;

const SCRIPT: &[u8] = b"router 01
router 02
router 03
link 01 02
link 02 03
up 01 02
up 02 01
up 02 03
up 03 02
client c1 01
client c3 03
sub c3 1 a
able c3 2 a
run 1000
mark
put c1 a x
get c1 7 a all
put c1 a y
run 100
reply c3 1 a z
end c3 1
run 100
";

/// What is reported from the mark on.
const BEHIND_MARK: &[u8] = b"mark #15
01 < c1: put - a x #16
01 < c1: get - 7 a all #17
01 < c1: put - a y #18
01 > 02: put 01 a x #16
02 < 01: put 01 a x #16
01 > 02: get 01 1 a all #17
02 < 01: get 01 1 a all #17
01 > 02: put 01 a y #18
02 < 01: put 01 a y #18
02 > 03: put 01 a x #16
03 < 02: put 01 a x #16
02 > 03: get 01 1 a all #17
03 < 02: get 01 1 a all #17
02 > 03: put 01 a y #18
03 < 02: put 01 a y #18
03 > c3: put - a x #16
03 > c3: get - 1 a all #17
03 > c3: put - a y #18
run 18 quiet
03 < c3: reply 1 a z #20
03 < c3: final 1 #21
03 > 02: reply 1 a z #20
02 < 03: reply 1 a z #20
02 > 01: reply 1 a z #20
01 < 02: reply 1 a z #20
01 > c1: reply 7 a z #20
03 > 02: final 1 #21
02 < 03: final 1 #21
02 > 01: final 1 #21
01 < 02: final 1 #21
01 > c1: final 7 #21
run 12 quiet
";

/// How many bytes a read gives.
const PIECE: usize = 16;

/// More reads and writes than a run makes.
const MANY: u64 = 1_000;

/// What fails: a read or a write, or neither, by its number.
#[derive(Clone, Copy)]
struct Fault {
    read: Option<u64>,
    write: Option<u64>,
}

/// Whether reads or writes fail in turn.
#[derive(Clone, Copy)]
enum Kind {
    Reads,
    Writes,
}

fn fault_of(kind: Kind, number: u64) -> Fault {
    match kind {
        Kind::Reads => Fault {
            read: Some(number),
            write: None,
        },
        Kind::Writes => Fault {
            read: None,
            write: Some(number),
        },
    }
}

// How a run ends where one of these fails.
fn status_of(kind: Kind) -> Status {
    match kind {
        Kind::Reads => Status::ReadFault,
        Kind::Writes => Status::WriteFault,
    }
}

// The number of the call that fails, if one does.
fn failing(alloc: Global, number: Option<u64>) -> Result<Vec<u64>, AllocError> {
    match number {
        Some(number) => Ok(vec![in alloc; number]?),
        None => Ok(Vec::new(alloc)),
    }
}

// Runs the script, and tells its status alone.
fn status<R: Threads + Sync>(
    rt: &R,
    alloc: Global,
    input: &mut MemSource,
    out: &mut MemSink,
) -> Status {
    let options = NetOptions {
        summary: false,
        explain: false,
    };
    let mut err = MemSink::new(alloc, Vec::new(alloc));
    run_script(rt, &mut OneByOne, alloc, options, input, out, &mut err)
}

// How the script ends where this fails, and what it writes.
fn run<R: Threads + Sync>(
    rt: &R,
    alloc: Global,
    fault: Fault,
) -> Result<(Status, MemSink), AllocError> {
    let script = SCRIPT.to_vec(alloc)?;
    let reads = failing(alloc, fault.read)?;
    let mut input = MemSource::new(script, PIECE, reads, Vec::new(alloc));
    let mut out = MemSink::new(alloc, failing(alloc, fault.write)?);
    let status = status(rt, alloc, &mut input, &mut out);
    Ok((status, out))
}

// How many runs fail in turn, each with a prefix of this report written, before one makes no such call and is whole. None where one goes otherwise.
fn failed<R: Threads + Sync>(
    rt: &R,
    alloc: Global,
    kind: Kind,
    report: &[u8],
) -> Result<Option<u64>, AllocError> {
    for number in 0..MANY {
        let (status, out) = run(rt, alloc, fault_of(kind, number))?;
        let is_whole = out.bytes() == report;
        if status == Status::Done && is_whole {
            return Ok(Some(number));
        }
        if status != status_of(kind) || !report.starts_with(out.bytes()) {
            return Ok(None);
        }
    }
    Ok(None)
}

/// How many of its reads and how many of its writes fail the script in turn. None where a run goes otherwise, or the whole one reports another thing.
pub fn counts<R: Threads + Sync>(rt: &R, alloc: Global) -> Result<Option<(u64, u64)>, AllocError> {
    let nothing = Fault {
        read: None,
        write: None,
    };
    let (_, whole) = run(rt, alloc, nothing)?;
    if !whole.bytes().ends_with(BEHIND_MARK) {
        return Ok(None);
    }
    let reads = failed(rt, alloc, Kind::Reads, whole.bytes())?;
    let writes = failed(rt, alloc, Kind::Writes, whole.bytes())?;
    match (reads, writes) {
        (Some(reads), Some(writes)) => Ok(Some((reads, writes))),
        (None, _) | (_, None) => Ok(None),
    }
}
