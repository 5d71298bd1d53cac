//! A script that comes in pieces, with reads between them that give nothing, or with one that fails.

use std::alloc::{AllocError, Global};
use std::test::Fail;
use std::thread::Threads;
use zr_netrun::netrun::run_script;
use zr_netrun::options::NetOptions;
use zr_netrun::status::Status;
use zr_outside_mem::mem_sink::MemSink;
use zr_outside_mem::mem_source::MemSource;
use zr_world_gang::one_by_one::OneByOne;

const SCRIPT: &[u8] =
    b"router 0a\nclient c1 0a\nclient c2 0a\nsub c2 1 a/b\nhandle 0a c2\nmark\nput c1 a/b hi\nhandle 0a c1\ntake 0a c2\n";

const REPORT: &[u8] =
    b"0a < c2: sub 1 a/b #4\nmark #6\n0a < c1: put - a/b hi #7\n0a > c2: put - a/b hi #7\n";

/// What the script's lines up to the mark report.
const TO_MARK: &[u8] = b"0a < c2: sub 1 a/b #4\nmark #6\n";

/// Where each read gives a byte: those that fail and those that are quiet, how the run ends, and what is written before.
type Row = (&'static [u64], &'static [u64], Status, &'static [u8]);

// The mark's line has the bytes 62 to 66, and the script 105 bytes.
static ROWS: [Row; 5] = [
    (&[], &[0, 7, 8], Status::Done, REPORT),
    (&[0], &[], Status::ReadFault, b""),
    (&[67], &[], Status::ReadFault, TO_MARK),
    (&[70], &[], Status::ReadFault, TO_MARK),
    (&[105], &[], Status::ReadFault, REPORT),
];

// Runs the script, and tells its status alone.
fn status<R: Threads + Sync>(
    rt: &R,
    alloc: Global,
    input: &mut MemSource,
    out: &mut MemSink,
    err: &mut MemSink,
) -> Status {
    let options = NetOptions {
        summary: false,
        explain: false,
    };
    run_script(rt, &mut OneByOne, alloc, options, input, out, err)
}

// The script, a byte a read.
fn bytewise(alloc: Global, failing: &[u64], quiet: &[u64]) -> Result<MemSource, AllocError> {
    let script = Vec::from_slice(alloc, SCRIPT)?;
    let failing = Vec::from_slice(alloc, failing)?;
    let quiet = Vec::from_slice(alloc, quiet)?;
    Ok(MemSource::new(script, 1, failing, quiet))
}

// Whether the run ends with the row's status, has written just what the row says, and no word of an error.
fn is_so<R: Threads + Sync>(rt: &R, alloc: Global, row: &Row) -> Result<bool, AllocError> {
    let (failing, quiet, want, written) = *row;
    let mut input = bytewise(alloc, failing, quiet)?;
    let mut out = MemSink::new(alloc, Vec::new(alloc));
    let mut err = MemSink::new(alloc, Vec::new(alloc));
    let status = status(rt, alloc, &mut input, &mut out, &mut err);
    Ok(status == want && out.bytes() == written && err.bytes().is_empty())
}

// The rows. A proof writes out a static at each step of a function that names it, so this one takes few.
fn rows() -> &'static [Row] {
    &ROWS
}

// The number of the first row that isn't so; that of all where there is none.
fn first_wrong<R: Threads + Sync>(
    rt: &R,
    alloc: Global,
    rows: &[Row],
) -> Result<usize, AllocError> {
    for i in 0..rows.len() {
        if !is_so(rt, alloc, &rows[i])? {
            return Ok(i);
        }
    }
    Ok(rows.len())
}

#[test]
fn pieces_and_faults_of_reads(rt: HostRuntime) -> Result<(), Fail> {
    let rows = rows();
    let wrong = first_wrong(&rt, rt.alloc(), rows)?;
    assert!(rt; wrong == rows.len(), "row {wrong}");
    Ok(())
}
