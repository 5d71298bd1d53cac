//! Openings, byte for byte.

ghost use Rattle.zr_trans.specs.Writing.{Fits};

use crate::row::{self, Fault, Steps};
use crate::transport::spent;
use std::alloc::Global;
use zr_bytes::Cursor;
use zr_id::zid::Zid;
use zr_open::{Expected, Opened, Opening, Progress};
use zr_trans::{Trans, read_trans};

/// What an end knows that nobody else does.
pub const SECRET: [u8; 32] = [7; 32];

/// What the link weighs at each end.
const WEIGHT: u16 = 3;

/// One end: what it starts from, and the message that it expects.
#[derive(Drop)]
struct End {
    opening: Opening,
    expected: Expected,
}

/// The end that a word names, of a router, a link and a word of these numbers, takes the steps.
pub fn answer(alloc: Global, words: &[&str]) -> Result<String, Fault> {
    let opening = opening(words)?;
    let steps = row::behind(words, 4);
    match row::word(words, 0) {
        "accepting" => of_end(alloc, opening, Expected::Init, steps),
        "dialling" => of_end(alloc, opening, Expected::InitAnswer, steps),
        _ => Err(Fault::Row),
    }
}

fn opening(words: &[&str]) -> Result<Opening, Fault> {
    let me = Zid::from_bytes(&[row::parsed(words, 1)?])?;
    let (link, word) = (row::parsed(words, 2)?, row::parsed(words, 3)?);
    Ok(Opening::new(me, &SECRET, link, word, WEIGHT))
}

fn of_end(
    alloc: Global,
    opening: Opening,
    expected: Expected,
    steps: &[&str],
) -> Result<String, Fault> {
    row::run(alloc, End { opening, expected }, steps)
}

// What the end of an open session knows: the peer and what the link to it weighs, its lease, the most bytes of a batch, the numbers of the first frames of the peer and of
// this end, and the answer to OPEN that it has to send.
fn shown(alloc: Global, o: &Opened) -> Result<String, Fault> {
    let numbers = (o.lease, o.outbox.batch(), o.first, o.outbox.next());
    row::text(
        alloc,
        &(o.peer.role, o.peer.id, o.peer.weight, numbers, &o.answer),
    )
}

// What an end makes of a message that can be spelled: its answer, what it knows then, or why it ends.
fn receive(alloc: Global, end: &mut End, message: &Trans) -> Result<String, Fault>
    requires { Fits message.now }
{
    match end.opening.receive(alloc, end.expected, message) {
        Ok(Progress::Answers { expected, answer }) => {
            end.expected = expected;
            row::or_fault(spent(alloc, answer))
        }
        Ok(Progress::Opened(o)) => {
            let text = shown(alloc, &o);
            drop(o);
            text
        }
        Err(e) => row::text(alloc, &e),
    }
}

fn hear(alloc: Global, end: &mut End, bytes: &[u8]) -> Result<String, Fault> {
    match read_trans(alloc, &mut Cursor::new(bytes)) {
        Ok(message) => {
            let text = receive(alloc, end, &message);
            drop(message);
            text
        }
        Err(_) => Err(Fault::Row),
    }
}

impl Steps for End {
    // The INIT of an end that dials, or a message that it hears.
    fn step(&mut self, alloc: Global, parts: &[&str]) -> Result<String, Fault> {
        match row::word(parts, 0) {
            "greets" => row::or_fault(spent(alloc, self.opening.greeting())),
            "hears" => hear(alloc, self, &row::bytes(alloc, parts, 1)?),
            _ => Err(Fault::Row),
        }
    }
}
