//! One end of a link: what it is told, step by step, and what it has given then.

use crate::openings::SECRET;
use crate::row::{self, Fault, Steps};
use crate::texts;
use std::alloc::{AllocError, Global};
use zr_frame::Outbox;
use zr_frame_batch::put_batch;
use zr_id::zid::Zid;
use zr_msg::peer::Peer;
use zr_open::Opening;
use zr_session::{Fate, Fed, Session, SessionEvent};

/// The link's number.
const NUMBER: u64 = 3;

/// How many bytes a batch has at most.
const MOST: usize = 65_535;

/// How many bytes a long fragment has behind its head, and a long text that is numbered.
const PIECE: usize = 65_533;

const TEXT: u16 = 2_048;

/// The INIT of the client `0a`.
const GREETED: [&str; 2] = ["whole:04000109020a", "begin"];

/// The same, and its OPEN: ten seconds, first number 0, and the cookie, which is SHA-256 of the secret, of the link's number as eight bytes, the
/// low one first, and of `01 0a`.
const CLIENT: [&str; 5] = [
    "whole:04000109020a",
    "whole:2400420a0020",
    "whole:0ca4fbedfb36484f6efc82f5fe1d99c8ea202c8200fc7c4bff2fe21db3493621",
    "confirm",
    "begin",
];

/// The same of the router `02`, whose cookie is that of `01 02`.
const ROUTER: [&str; 5] = [
    "whole:0600810900022902",
    "whole:2400420a0020",
    "whole:02055130d8f245d1b6e7622b13d64055f31ec69ac56dea1695cb6995bd365a7a",
    "confirm",
    "begin",
];

/// One end, and what it has given so far.
#[derive(Drop)]
struct Link {
    session: Session,
    fed: Fed,
    fate: Fate,
}

/// The accepting end of router 01 or the dialling one of router 02, with random word 0, takes steps; or one that has answered the INIT of a client,
/// or is open with a client or a router, of which it expects frame number 0.
pub fn answer(alloc: Global, words: &[&str]) -> Result<String, Fault> {
    let steps = row::behind(words, 1);
    match row::word(words, 0) {
        "dialling" => dialling(alloc, steps),
        "accepting" => accepting(alloc, &[], steps),
        "greeted" => accepting(alloc, &GREETED, steps),
        "client" => accepting(alloc, &CLIENT, steps),
        "router" => accepting(alloc, &ROUTER, steps),
        _ => Err(Fault::Row),
    }
}

/// What comes of a row of which one step is a question, without what stands behind it.
pub fn told(alloc: Global, row: &str) -> Result<String, Fault> {
    let words = row::parts(alloc, row, ' ')?;
    let mut told = answer(alloc, &words)?;
    told.pop();
    told.pop();
    Ok(told)
}

/// What comes of these bytes, cut behind each of them, where something else comes of it than of the whole, or of the whole.
pub fn cuts(alloc: Global, words: &[&str]) -> Result<String, Fault> {
    let bytes = row::bytes(alloc, words, 0)?;
    let whole = of_cut(alloc, &bytes, 0)?;
    for at in 0..bytes.len() {
        let other = of_cut(alloc, &bytes, at)?;
        if other.as_str() != whole.as_str() {
            return row::or_fault(format!(in alloc; "cut at {at}: {other}"));
        }
    }
    Ok(whole)
}

fn of_cut(alloc: Global, bytes: &[u8], at: usize) -> Result<String, Fault> {
    let (first, second) = bytes.split_at(at.min(bytes.len()));
    let row = cut_row(alloc, first, second)?;
    told(alloc, &row)
}

fn cut_row(alloc: Global, first: &[u8], second: &[u8]) -> Result<String, AllocError> {
    let first = row::digits(alloc, first)?;
    let second = row::digits(alloc, second)?;
    format!(in alloc; "accepting whole:{first} whole:{second} confirm told")
}

fn opening(id: u8) -> Result<Opening, Fault> {
    Ok(Opening::new(Zid::from_bytes(&[id])?, &SECRET, NUMBER, 0, 1))
}

// The accepting end of router 01, which takes the first steps before those of the row.
fn accepting(alloc: Global, first: &[&str], steps: &[&str]) -> Result<String, Fault> {
    let session = Session::accepting(alloc, opening(1)?, 0);
    of_link(alloc, session, Vec::new(alloc), first, steps)
}

// The dialling one of router 02.
fn dialling(alloc: Global, steps: &[&str]) -> Result<String, Fault> {
    let opening = opening(2)?;
    let mut bytes = Vec::new(alloc);
    let session = Session::dialling(alloc, opening, 0, &mut bytes)?;
    of_link(alloc, session, bytes, &[], steps)
}

fn of_link(
    alloc: Global,
    session: Session,
    bytes: Vec<u8>,
    first: &[&str],
    steps: &[&str],
) -> Result<String, Fault> {
    let fed = Fed {
        events: Vec::new(alloc),
        bytes,
    };
    let fate = Fate::Going;
    row::run_both(alloc, Link { session, fed, fate }, first, steps)
}

impl Link {
    // Feeds a piece at this moment, in milliseconds.
    fn feed(&mut self, now: u64, piece: &[u8]) -> Result<(), AllocError> {
        self.fate = self.session.feed(piece, now, &mut self.fed)?;
        Ok(())
    }

    fn feed_each(&mut self, bytes: &[u8]) -> Result<(), AllocError> {
        for byte in bytes {
            self.feed(0, &[*byte])?;
        }
        Ok(())
    }

    fn tick(&mut self, now: u64) -> Result<(), AllocError> {
        self.fate = self.session.tick(now, &mut self.fed.bytes)?;
        Ok(())
    }

    // Takes a step of which nothing comes at once.
    fn take(&mut self, alloc: Global, parts: &[&str]) -> Result<(), Fault> {
        match row::word(parts, 0) {
            "tick" => row::or_fault(self.tick(row::parsed(parts, 1)?)),
            "confirm" => row::or_fault(self.session.confirm(&mut self.fed.bytes)),
            "forget" => {
                self.fed.bytes.clear();
                Ok(())
            }
            "begin" => {
                begin(&mut self.fed);
                Ok(())
            }
            _ => self.bring(alloc, parts),
        }
    }

    // Takes a step that brings bytes.
    fn bring(&mut self, alloc: Global, parts: &[&str]) -> Result<(), Fault> {
        let now = moment(parts)?;
        let bytes = brought(alloc, parts)?;
        if row::word(parts, 0) == "each" {
            row::or_fault(self.feed_each(&bytes))
        } else {
            row::or_fault(self.feed(now, &bytes))
        }
    }
}

impl Steps for Link {
    // A question, or a step of which nothing comes at once.
    fn step(&mut self, alloc: Global, parts: &[&str]) -> Result<String, Fault> {
        match row::word(parts, 0) {
            "told" => row::or_fault(state(alloc, &self.fed, self.fate)),
            "counted" => row::text(alloc, &(self.fed.events.len(), self.fate)),
            _ => row::done(alloc, self.take(alloc, parts)),
        }
    }
}

// Forgets what has come so far.
fn begin(fed: &mut Fed) {
    fed.events.clear();
    fed.bytes.clear();
}

// The events, how the session stands, with the byte of a CLOSE where it has ended, and what it has to write.
fn state(alloc: Global, fed: &Fed, fate: Fate) -> Result<String, AllocError> {
    let events = events(alloc, &fed.events)?;
    let bytes = row::digits(alloc, &fed.bytes)?;
    format!(in alloc; "{events}{fate:?} {} {bytes}", reason_of(fate))
}

// The events, one behind another.
fn events(alloc: Global, events: &[SessionEvent]) -> Result<String, AllocError> {
    let mut text = String::new(alloc);
    for event in events {
        row::put(&mut text, &event_text(alloc, event)?)?;
    }
    Ok(text)
}

fn event_text(alloc: Global, event: &SessionEvent) -> Result<String, AllocError> {
    match event {
        SessionEvent::Opened(peer, outbox) => opened(alloc, peer, outbox),
        SessionEvent::Message(msg) => texts::message(alloc, msg),
    }
}

fn opened(alloc: Global, peer: &Peer, outbox: &Outbox) -> Result<String, AllocError> {
    let (role, id, batch, next) = (peer.role, peer.id, outbox.batch(), outbox.next());
    format!(in alloc; "({role:?}, {id:?}, {batch}, {next})")
}

// Zero where the session goes on.
fn reason_of(fate: Fate) -> u8 {
    match fate {
        Fate::Going => 0,
        Fate::Closed(reason) => reason.byte(),
        Fate::Peer(reason) => reason,
    }
}

// When a step's bytes come, in milliseconds.
fn moment(parts: &[&str]) -> Result<u64, Fault> {
    match row::word(parts, 0) {
        "at" => row::parsed(parts, 2),
        _ => Ok(0),
    }
}

// The bytes that a step brings.
fn brought(alloc: Global, parts: &[&str]) -> Result<Vec<u8>, Fault> {
    match row::word(parts, 0) {
        "whole" | "each" | "at" => row::bytes(alloc, parts, 1),
        name => made(alloc, name, parts),
    }
}

fn made(alloc: Global, name: &str, parts: &[&str]) -> Result<Vec<u8>, Fault> {
    let mut out = Vec::new(alloc);
    put(alloc, &mut out, name, parts)?;
    Ok(out)
}

fn put(alloc: Global, out: &mut Vec<u8>, name: &str, parts: &[&str]) -> Result<(), Fault> {
    match name {
        "batch" => put_begun(alloc, out, parts),
        "fragments" => put_fragments(alloc, out, parts),
        "numberings" => put_numberings(alloc, out, parts),
        "numbering" => put_one(alloc, out, parts),
        _ => Err(Fault::Row),
    }
}

// A batch that begins with the bytes of a step.
fn put_begun(alloc: Global, out: &mut Vec<u8>, parts: &[&str]) -> Result<(), Fault> {
    let more = row::parsed(parts, 2)?;
    let head = row::bytes(alloc, parts, 1)?;
    row::or_fault(put_long(alloc, out, &head, more))
}

fn put_one(alloc: Global, out: &mut Vec<u8>, parts: &[&str]) -> Result<(), Fault> {
    let (number, length) = (row::parsed(parts, 1)?, row::parsed(parts, 2)?);
    row::or_fault(put_numbering(alloc, out, number, length))
}

// Appends a batch of these bytes and so many more, which are the letter `a`.
fn put_long(alloc: Global, out: &mut Vec<u8>, head: &[u8], more: usize) -> Result<(), AllocError> {
    let mut batch = head.to_vec(alloc)?;
    batch.resize(head.len().saturating_add(more), b'a')?;
    put_framed(out, &batch)
}

// So many long fragments, which more follow, from number 0 on.
fn put_fragments(alloc: Global, out: &mut Vec<u8>, parts: &[&str]) -> Result<(), Fault> {
    let count: u8 = row::parsed(parts, 1)?;
    for number in 0..count {
        put_long(alloc, out, &[0x66, number], PIECE)?;
    }
    Ok(())
}

// A frame of this number that numbers a text of so many bytes, under the number plus one. The numbers and the length take two bytes each.
fn put_numbering(
    alloc: Global,
    out: &mut Vec<u8>,
    number: u16,
    length: u16,
) -> Result<(), AllocError> {
    let (frame, next) = (two_bytes(number), two_bytes(number.saturating_add(1)));
    let text = two_bytes(length);
    let head = [
        0x25, frame.0, frame.1, 0x1E, 0x20, next.0, next.1, 0x00, text.0, text.1,
    ];
    put_long(alloc, out, &head, usize::from(length))
}

// So many such frames from number 0 on, each with a long text.
fn put_numberings(alloc: Global, out: &mut Vec<u8>, parts: &[&str]) -> Result<(), Fault> {
    let count: u16 = row::parsed(parts, 1)?;
    for number in 0..count {
        put_numbering(alloc, out, number, TEXT)?;
    }
    Ok(())
}

// A number as a spelling of two bytes, the low seven bits first.
fn two_bytes(number: u16) -> (u8, u8) {
    (0x80 | (number % 128) as u8, (number / 128 % 128) as u8)
}

/// Appends a batch behind its length.
pub fn put_framed(out: &mut Vec<u8>, batch: &[u8]) -> Result<(), AllocError> {
    if batch.len() <= MOST {
        put_batch(out, batch)?;
    }
    Ok(())
}
