//! What a router knows of change logs, change by change. Keys are those of subscribers.

use crate::row::{self, Fault, Steps};
use crate::sets::declaration;
use std::alloc::{AllocError, Global};
use zr_id::zid::Zid;
use zr_log::known::Known;
use zr_msg::decl::{Decl, Kind};

/// The router that knows.
const OWN: u8 = 0x0a;

/// How many declarations on keys of 2,032 bytes a set may have: each weighs 2,048.
const MOST_LONG: u32 = 2_048;

const LONG: usize = 2_032;

pub fn answer(alloc: Global, words: &[&str]) -> Result<String, Fault> {
    let known = Known::new(alloc, Zid::from_bytes(&[OWN])?);
    row::run(alloc, known, words)
}

// A subscriber of a key of 2,032 bytes that begins with the number.
fn long(alloc: Global, number: u32) -> Result<Decl, Fault> {
    let mut text = format!(in alloc; "{number}")?.into_bytes();
    text.resize(LONG, b'a')?;
    declaration(alloc, Kind::Sub, &text)
}

// The subscriber that a word names: a key, or the number of a long one.
fn subscriber(alloc: Global, parts: &[&str], at: usize) -> Result<Decl, Fault> {
    match row::parsed(parts, at) {
        Ok(number) => long(alloc, number),
        Err(_) => declaration(alloc, Kind::Sub, row::word(parts, at).as_bytes()),
    }
}

// Subscribers on the keys that a word names, behind so many on long ones.
fn subscribers(alloc: Global, long_ones: u32, word: &str) -> Result<Vec<Decl>, Fault> {
    let mut all = Vec::new(alloc);
    push_long(alloc, &mut all, long_ones)?;
    push_short(alloc, &mut all, word)?;
    Ok(all)
}

fn push_long(alloc: Global, all: &mut Vec<Decl>, count: u32) -> Result<(), Fault> {
    for number in 0..count {
        all.push(long(alloc, number)?)?;
    }
    Ok(())
}

fn push_short(alloc: Global, all: &mut Vec<Decl>, word: &str) -> Result<(), Fault> {
    let keys = row::listed(alloc, word)?;
    for key in &keys {
        push_sub(alloc, all, key)?;
    }
    Ok(())
}

fn push_sub(alloc: Global, all: &mut Vec<Decl>, key: &str) -> Result<(), Fault> {
    let decl = declaration(alloc, Kind::Sub, key.as_bytes())?;
    all.push(decl)?;
    Ok(())
}

fn own(alloc: Global, known: &mut Known, parts: &[&str]) -> Result<String, Fault> {
    let decl = subscriber(alloc, parts, 2)?;
    let answer = known.own(row::word(parts, 1) == "add", &decl);
    row::text(alloc, &answer)
}

fn one(alloc: Global, known: &mut Known, parts: &[&str]) -> Result<String, Fault> {
    let (source, number) = (row::id(parts, 1)?, row::parsed(parts, 2)?);
    let decl = subscriber(alloc, parts, 4)?;
    let answer = known.step(source, number, row::word(parts, 3) == "add", &decl);
    row::text(alloc, &answer)
}

fn snapshot(
    alloc: Global,
    known: &mut Known,
    parts: &[&str],
    long_ones: u32,
) -> Result<String, Fault> {
    let (source, number) = (row::id(parts, 1)?, row::parsed(parts, 2)?);
    let decls = subscribers(alloc, long_ones, row::word(parts, 3))?;
    let answer = known.snap(source, number, &decls);
    row::text(alloc, &answer)
}

// What is known of a router: how many changes, and the keys behind them.
fn keys(alloc: Global, known: &Known, source: Zid) -> Result<String, AllocError> {
    let mut text = format!(in alloc; "{}", known.position(source))?;
    for decl in known.decls(source) {
        text.push_str(" ")?;
        text.push_str(decl.key.text())?;
    }
    Ok(text)
}

// The routers of whose logs a change is known, by their names and by their logs.
fn sources(alloc: Global, known: &Known) -> Result<String, AllocError> {
    let mut logs = Vec::new(alloc);
    for log in known.logs() {
        logs.push(log.source)?;
    }
    let names = known.sources();
    format!(in alloc; "{names:?} {logs:?}")
}

impl Steps for Known {
    // A change of its own or of a router's log, a snapshot, with or without all long keys, or a question.
    fn step(&mut self, alloc: Global, parts: &[&str]) -> Result<String, Fault> {
        match row::word(parts, 0) {
            "own" => own(alloc, self, parts),
            "step" => one(alloc, self, parts),
            "snap" => snapshot(alloc, self, parts, 0),
            "snap-long" => snapshot(alloc, self, parts, MOST_LONG),
            "sources" => row::or_fault(sources(alloc, self)),
            "keys" => row::or_fault(keys(alloc, self, row::id(parts, 1)?)),
            _ => Err(Fault::Row),
        }
    }
}
