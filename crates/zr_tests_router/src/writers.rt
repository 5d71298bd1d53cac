use crate::giving::Giving;
use crate::note::Anything;
use std::alloc::{AllocError, Global};
use std::test::Fail;
use zr_link_writer::{Writer, WriterEnd};
use zr_outside_mem::mem_clock::MemClock;
use zr_outside_mem::mem_sink::MemSink;
use zr_ring::Taker;

/// What is in the ring when the writer begins: nothing, or two parcels and the end with a reason.
#[derive(Clone, Copy)]
enum Held {
    Nothing,
    Two(Option<u8>),
}

/// What the ring holds, how many turns the writer has, with a clock that each pause moves on by 100 ms, and the write that fails, if one does; how it
/// ends, and what it has written then.
type Row = (Held, u64, Option<u64>, WriterEnd, &'static [u8]);

static ROWS: [Row; 7] = [
    // an idle writer writes KEEP_ALIVEs
    (
        Held::Nothing,
        61,
        None,
        WriterEnd::Turns,
        &[1, 0, 4, 1, 0, 4],
    ),
    (Held::Nothing, 25, None, WriterEnd::Turns, &[]),
    (Held::Nothing, 26, None, WriterEnd::Turns, &[1, 0, 4]),
    // parcels go in order, and the close last
    (
        Held::Two(Some(3)),
        9,
        None,
        WriterEnd::Done(Some(3)),
        &[2, 0, 7, 7, 1, 0, 8, 2, 0, 0x23, 3],
    ),
    (
        Held::Two(None),
        9,
        None,
        WriterEnd::Done(None),
        &[2, 0, 7, 7, 1, 0, 8],
    ),
    // they are joined into one write
    (
        Held::Two(Some(3)),
        9,
        Some(1),
        WriterEnd::WriteFault,
        &[2, 0, 7, 7, 1, 0, 8],
    ),
    (Held::Two(Some(3)), 9, Some(0), WriterEnd::WriteFault, &[]),
];

fn sink(alloc: Global, failing: Option<u64>) -> Result<MemSink, AllocError> {
    match failing {
        Some(number) => Ok(MemSink::new(alloc, vec![in alloc; number]?)),
        None => Ok(MemSink::new(alloc, Vec::new(alloc))),
    }
}

// Runs a writer, and tells its end alone.
fn ended(alloc: Global, sink: &mut MemSink, taker: &mut Taker<Anything>, turns: u64) -> WriterEnd {
    Writer::run(alloc, sink, taker, &mut MemClock::new(0, 100), turns)
}

// Whether a writer of this ring comes to what the row says.
fn writes(alloc: Global, taker: &mut Taker<Anything>, row: &Row) -> Result<bool, AllocError> {
    let (_, turns, failing, end, bytes) = *row;
    let mut sink = sink(alloc, failing)?;
    let ended = ended(alloc, &mut sink, taker, turns);
    Ok(ended == end && sink.bytes() == bytes)
}

// Two parcels and the end.
fn two_and_end(alloc: Global, reason: Option<u8>) -> Result<Taker<Anything>, AllocError> {
    let (mut giving, taker) = Giving::ring(alloc, 4)?;
    giving.give(alloc, &[7, 7])?;
    giving.give(alloc, &[8])?;
    giving.end(reason);
    Ok(taker)
}

// Whether a row is so.
fn is_so(alloc: Global, row: &Row) -> Result<bool, AllocError> {
    match row.0 {
        Held::Nothing => {
            let (_giving, mut taker) = Giving::ring(alloc, 4)?;
            writes(alloc, &mut taker, row)
        }
        Held::Two(reason) => {
            let mut taker = two_and_end(alloc, reason)?;
            writes(alloc, &mut taker, row)
        }
    }
}

// The number of the first row that isn't so; that of all where there is none.
fn first_wrong(alloc: Global) -> Result<usize, AllocError> {
    for i in 0..ROWS.len() {
        if !is_so(alloc, &ROWS[i])? {
            return Ok(i);
        }
    }
    Ok(ROWS.len())
}

#[test]
fn a_writer_writes_parcels_and_keep_alives(rt: HostRuntime) -> Result<(), Fail> {
    let wrong = first_wrong(rt.alloc())?;
    assert!(rt; wrong == ROWS.len(), "row {wrong}");
    Ok(())
}
