//! What a base keeps of the records that come in, and which edges they make.

use crate::row::{self, Fault, Steps};
use std::alloc::Global;
use zr_graph::base::{Accepted, Base};
use zr_id::record::{LinkRecord, Linked, are_links};
use zr_id::zid::Zid;

/// The base of the router `02` takes the steps.
pub fn answer(alloc: Global, words: &[&str]) -> Result<String, Fault> {
    let base = Base::new(alloc, Zid::from_bytes(&[2])?)?;
    row::run(alloc, base, words)
}

// The links that a word lists, each `ID` of weight 1 or `ID*W`.
fn links_in(alloc: Global, word: &str) -> Result<Vec<Linked>, Fault> {
    let texts = row::listed(alloc, word)?;
    let mut links = Vec::new(alloc);
    for text in &texts {
        push_link(alloc, &mut links, text)?;
    }
    Ok(links)
}

fn push_link(alloc: Global, links: &mut Vec<Linked>, text: &str) -> Result<(), Fault> {
    let parts = row::parts(alloc, text, '*')?;
    let weight = if parts.len() > 1 {
        row::parsed(&parts, 1)?
    } else {
        1
    };
    links.push(linked(row::id(&parts, 0)?, weight)?)?;
    Ok(())
}

/// A link of this weight.
pub fn linked(id: Zid, weight: u16) -> Result<Linked, Fault> {
    if weight == 0 {
        return Err(Fault::Row);
    }
    Ok(Linked { id, weight })
}

/// The router whose base it is has these links from now on.
pub fn relink(base: &mut Base, links: &[Linked]) -> Result<(), Fault> {
    let me = base.me();
    if !are_links(&me, links) {
        return Err(Fault::Row);
    }
    match base.change(links) {
        Ok(()) => Ok(()),
        Err(_) => Err(Fault::Memory),
    }
}

/// A router's record.
pub fn record(id: Zid, number: u64, links: Vec<Linked>) -> Result<LinkRecord, Fault> {
    if !are_links(&id, &links) {
        return Err(Fault::Row);
    }
    Ok(LinkRecord::new(id, number, links))
}

fn accept(alloc: Global, base: &mut Base, parts: &[&str]) -> Result<String, Fault> {
    let (id, number) = (row::id(parts, 1)?, row::parsed(parts, 2)?);
    let links = links_in(alloc, row::word(parts, 3))?;
    let accepted = taken(base, record(id, number, links)?)?;
    row::text(alloc, &accepted)
}

/// A router's record comes.
pub fn taken(base: &mut Base, record: LinkRecord) -> Result<Accepted, Fault> {
    let accepted = base.accept(&record);
    drop(record);
    row::or_fault(accepted)
}

fn links(alloc: Global, base: &mut Base, parts: &[&str]) -> Result<String, Fault> {
    let links = links_in(alloc, row::word(parts, 1))?;
    relink(base, &links)?;
    Ok(String::new(alloc))
}

fn edge(alloc: Global, base: &Base, parts: &[&str]) -> Result<String, Fault> {
    let (first, second) = (row::id(parts, 1)?, row::id(parts, 2)?);
    row::text(alloc, &base.edge(first, second))
}

// Of each record its router, its number, and how many links it lists.
fn records(alloc: Global, base: &Base) -> Result<String, Fault> {
    let mut all = Vec::new(alloc);
    for record in base.records() {
        all.push((record.id(), record.seq(), record.links().len()))?;
    }
    row::text(alloc, &all)
}

impl Steps for Base {
    // Other links, a record that comes, or a question.
    fn step(&mut self, alloc: Global, parts: &[&str]) -> Result<String, Fault> {
        match row::word(parts, 0) {
            "links" => links(alloc, self, parts),
            "record" => accept(alloc, self, parts),
            "records" => records(alloc, self),
            "edge" => edge(alloc, self, parts),
            _ => Err(Fault::Row),
        }
    }
}
