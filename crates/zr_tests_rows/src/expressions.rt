//! Key expressions: what is read, what is refused with which error, and how much stands before the first wildcard.

use crate::row::{self, Fault};
use std::alloc::Global;
use zr_key::key::KeyExpr;

pub fn answer(alloc: Global, words: &[&str]) -> Result<String, Fault> {
    match row::word(words, 0) {
        "read" => read(alloc, row::word(words, 1)),
        "prefix" => prefix(alloc, row::word(words, 1)),
        "long" => long(alloc, words),
        _ => Err(Fault::Row),
    }
}

fn read(alloc: Global, text: &str) -> Result<String, Fault> {
    match KeyExpr::read(alloc, text.as_bytes()) {
        Ok(key) => shown(alloc, &key, &key.copy(alloc)?),
        Err(e) => row::text(alloc, &e),
    }
}

// The text of an expression and of its copy, and whether it is a key.
fn shown(alloc: Global, key: &KeyExpr, copy: &KeyExpr) -> Result<String, Fault> {
    row::text(alloc, &(key.text(), copy.text(), key.is_plain()))
}

// How many bytes stand before the first wildcard.
fn prefix(alloc: Global, text: &str) -> Result<String, Fault> {
    let key = KeyExpr::read(alloc, text.as_bytes())?;
    row::text(alloc, &key.plain_prefix_len())
}

// What so many letters and then these bytes are refused with.
fn long(alloc: Global, words: &[&str]) -> Result<String, Fault> {
    let mut long = row::letters(alloc, row::parsed(words, 1)?)?;
    let behind = row::bytes(alloc, words, 2)?;
    long.extend_from_slice(&behind)?;
    row::text(alloc, &KeyExpr::read(alloc, &long).err())
}
