//! Rows of what names a network (key expressions, how they compare and an index of them, links, trees, change logs, pending requests), of the
//! wire's formats (bytes, extensions, bodies, keys, transport messages, declarations, network messages, messages between routers), of opening, frames,
//! whole sessions and a script's wires, and of access rules.
//!
//! A row of standard input names a call and what it takes, word by word; it is written to standard output with what came of it behind `=`. Empty
//! lines and those that begin with `#` are written as they are. What is to come stands in the file `stdout` beside this folder, as the
//! specification says it, so that a call that gives something else makes the program's output differ from it.
#![tactic(auto)]

mod again;
mod bodies;
mod carriers;
mod chains;
mod equalities;
mod expressions;
mod fragments;
mod graphs;
mod indexes;
mod keys;
mod logs;
mod matches;
mod messages;
mod numbers;
mod openings;
mod parcels;
mod pending;
mod pieces;
mod row;
mod rules;
mod sendable;
mod sessions;
mod sets;
mod texts;
mod transport;
mod trees;

use crate::row::Fault;
use std::alloc::Global;

fn main(rt: HostRuntime) -> Result<(), Fault> {
    for line in rt.lines(rt.alloc()) {
        let Ok(line) = line else {
            return Err(Fault::Stream);
        };
        let line = answered(rt.alloc(), &line)?;
        if println!(rt; "{line}").is_err() {
            return Err(Fault::Stream);
        }
    }
    Ok(())
}

// A row with its answer, or a line that is no row.
fn answered(alloc: Global, line: &str) -> Result<String, Fault> {
    if line.is_empty() || line.starts_with('#') {
        return Ok(String::from_str(alloc, line)?);
    }
    let words = row::parts(alloc, line, ' ')?;
    let told = answer(alloc, row::word(&words, 0), row::behind(&words, 1))?;
    Ok(format!(in alloc; "{line} = {told}")?)
}

fn answer(alloc: Global, name: &str, words: &[&str]) -> Result<String, Fault> {
    match name {
        "number" => numbers::answer(alloc, words),
        "chain" => chains::answer(alloc, words),
        "body" => bodies::answer(alloc, words),
        "expression" => expressions::answer(alloc, words),
        "match" => matches::answer(alloc, words),
        "index" => indexes::answer(alloc, words),
        "rules" => rules::answer(alloc, words),
        "key" => keys::answer(alloc, words),
        "parcels" => parcels::answer(alloc, words),
        "transport" => transport::answer(alloc, words),
        "message" => messages::answer(alloc, words),
        "again" => again::answer(alloc, words),
        "equal" => equalities::answer(alloc, words),
        _ => of_state(alloc, name, words),
    }
}

// The calls of what has a state.
fn of_state(alloc: Global, name: &str, words: &[&str]) -> Result<String, Fault> {
    match name {
        "graph" => graphs::answer(alloc, words),
        "trees" => trees::answer(alloc, words),
        "family" => trees::children(alloc, words),
        "weighted" => trees::weighted(alloc, words),
        "weighted-family" => trees::weighted_children(alloc, words),
        "set" => sets::answer(alloc, words),
        "log" => logs::answer(alloc, words),
        "pending" => pending::answer(alloc, words),
        "fragment" => fragments::answer(alloc, words),
        "opening" => openings::answer(alloc, words),
        "session" => sessions::answer(alloc, words),
        "session-cuts" => sessions::cuts(alloc, words),
        "session-pieces" => pieces::answer(alloc, words),
        "carrier" => carriers::answer(alloc, words),
        _ => Err(Fault::Row),
    }
}
