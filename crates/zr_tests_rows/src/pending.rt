//! Pending requests, step by step.

use crate::row::{self, Fault, Steps};
use std::alloc::{AllocError, Global};
use zr_body::Body;
use zr_id::link::LinkNo;
use zr_key::key::KeyExpr;
use zr_msg::content::Content;
use zr_msg::extras::Extras;
use zr_pend::gathering::Ended;
use zr_pend::pending::Pending;

const TWO: LinkNo = LinkNo(2);

const THREE: LinkNo = LinkNo(3);

pub fn answer(alloc: Global, words: &[&str]) -> Result<String, Fault> {
    row::run(alloc, Pending::new(alloc), words)
}

// A request that comes from a link with a number, the links that it goes to, and whether it is for the latest replies alone.
fn begin(
    alloc: Global,
    pending: &mut Pending,
    from: LinkNo,
    number: u32,
    to: &str,
    latest: bool,
) -> Result<String, Fault> {
    match to {
        "2" => row::text(alloc, &pending.begin(from, number, &[TWO], latest)),
        "3" => row::text(alloc, &pending.begin(from, number, &[THREE], latest)),
        "2,3" => row::text(alloc, &pending.begin(from, number, &[TWO, THREE], latest)),
        "3,2" => row::text(alloc, &pending.begin(from, number, &[THREE, TWO], latest)),
        _ => Err(Fault::Row),
    }
}

// A reply under a number of a link, with its key, its payload, and whether it is later than what is held.
fn hold(
    alloc: Global,
    pending: &mut Pending,
    link: LinkNo,
    number: u32,
    parts: &[&str],
) -> Result<String, Fault> {
    let key = KeyExpr::read(alloc, row::word(parts, 3).as_bytes())?;
    let reply = row::or_fault(reply_of(alloc, key, row::word(parts, 4)))?;
    let later = row::parsed(parts, 5)?;
    row::text(alloc, &pending.hold(link, number, &reply, later))
}

// A sample serves as a reply here: no call looks at a body.
fn reply_of(alloc: Global, key: KeyExpr, payload: &str) -> Result<Content, AllocError> {
    let body = match payload {
        "x" => Body::put(alloc, b"x")?,
        _ => Body::put(alloc, b"y")?,
    };
    Content::new(alloc, key, Extras::none(), body)
}

// The payload of what is held under a key.
fn held(
    alloc: Global,
    pending: &Pending,
    link: LinkNo,
    number: u32,
    parts: &[&str],
) -> Result<String, Fault> {
    let key = KeyExpr::read(alloc, row::word(parts, 3).as_bytes())?;
    match pending.held(link, number, &key) {
        Some(reply) => row::or_fault(row::digits(alloc, reply.body().payload())),
        None => Ok(String::from_str(alloc, "none")?),
    }
}

// Who asked, and the keys and payloads of what was held.
fn finish(
    alloc: Global,
    pending: &mut Pending,
    link: LinkNo,
    number: u32,
) -> Result<String, Fault> {
    match pending.finish(link, number) {
        Some(ended) => {
            let mut text = row::or_fault(format!(in alloc; "Some({:?})", ended.asker))?;
            put_held(alloc, &mut text, &ended)?;
            Ok(text)
        }
        None => Ok(String::from_str(alloc, "None")?),
    }
}

fn drop_link(alloc: Global, pending: &mut Pending, link: LinkNo) -> Result<String, Fault> {
    let ended = row::or_fault(pending.drop_link(link))?;
    let mut text = String::from_str(alloc, "ended")?;
    for one in &ended {
        let asker = row::or_fault(format!(in alloc; " {:?}", one.asker))?;
        text.push_str(&asker)?;
        put_held(alloc, &mut text, one)?;
    }
    Ok(text)
}

// Appends the keys and payloads of what was held.
fn put_held(alloc: Global, text: &mut String, ended: &Ended) -> Result<(), Fault> {
    for reply in &ended.held {
        let payload = row::or_fault(row::digits(alloc, reply.body().payload()))?;
        let one = row::or_fault(format!(in alloc; " {}={payload}", reply.key().text()))?;
        text.push_str(&one)?;
    }
    Ok(())
}

// What is asked of a number on a link.
fn numbered(
    alloc: Global,
    pending: &mut Pending,
    link: LinkNo,
    parts: &[&str],
) -> Result<String, Fault> {
    let number = row::parsed(parts, 2)?;
    match row::word(parts, 0) {
        "begin" => begin(alloc, pending, link, number, row::word(parts, 3), false),
        "latest" => begin(alloc, pending, link, number, row::word(parts, 3), true),
        "hold" => hold(alloc, pending, link, number, parts),
        "held" => held(alloc, pending, link, number, parts),
        "finish" => finish(alloc, pending, link, number),
        "find" => row::text(alloc, &pending.find(link, number)),
        "asked" => row::text(alloc, &pending.asked(link, number)),
        _ => Err(Fault::Row),
    }
}

impl Steps for Pending {
    // A link, and maybe a number on it.
    fn step(&mut self, alloc: Global, parts: &[&str]) -> Result<String, Fault> {
        let link = LinkNo(row::parsed(parts, 1)?);
        match row::word(parts, 0) {
            "drop" => drop_link(alloc, self, link),
            "count" => row::text(alloc, &self.count(link)),
            _ => numbered(alloc, self, link, parts),
        }
    }
}
