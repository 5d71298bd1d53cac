//! Numbers and byte strings: what is read, what is refused, and what is written.

use crate::row::{self, Fault};
use std::alloc::{AllocError, Global};
use zr_bytes::{ByteString, Cursor, ReadError, put_bytes, put_zint};

pub fn answer(alloc: Global, words: &[&str]) -> Result<String, Fault> {
    match row::word(words, 0) {
        "text" => text(alloc, words),
        "put" => put(alloc, words),
        name => of_bytes(alloc, name, &row::bytes(alloc, words, 1)?),
    }
}

// What comes of bytes by the call of this name.
fn of_bytes(alloc: Global, name: &str, bytes: &[u8]) -> Result<String, Fault> {
    let mut c = Cursor::new(bytes);
    match name {
        "fork" => row::or_fault(fork(alloc, &c)),
        "rest" => {
            let rest = c.rest();
            row::read(alloc, &rest, c.left())
        }
        "put-text" => row::or_fault(put_text(alloc, bytes)),
        "kept" => row::or_fault(kept(alloc, bytes)),
        kind => {
            let given = number(&mut c, kind);
            row::read(alloc, &given, c.left())
        }
    }
}

// A byte that is a number, or a spelling of groups of seven bits whose number has so many bits at most.
fn number(c: &mut Cursor<'_>, kind: &str) -> Result<u64, ReadError> {
    match kind {
        "u8" => Ok(u64::from(c.u8()?)),
        "z8" => Ok(u64::from(c.z8()?)),
        "z16" => Ok(u64::from(c.z16()?)),
        "z32" => Ok(u64::from(c.z32()?)),
        "zint" => c.zint(),
        _ => Err(ReadError::UnknownId),
    }
}

// A byte string behind its length, the bytes that are left, and those that are taken as the rest.
fn text(alloc: Global, words: &[&str]) -> Result<String, Fault> {
    let limit = row::parsed(words, 1)?;
    let bytes = row::bytes(alloc, words, 2)?;
    row::or_fault(texts(alloc, limit, &bytes))
}

fn texts(alloc: Global, limit: u64, bytes: &[u8]) -> Result<String, AllocError> {
    let mut c = Cursor::new(bytes);
    let given = c.bytes(limit);
    let left = c.as_slice();
    let rest = c.rest();
    format!(in alloc; "{given:?}, {left:?}, {rest:?}")
}

// The first byte by a fork, and what the fork and its cursor have left.
fn fork(alloc: Global, c: &Cursor<'_>) -> Result<String, AllocError> {
    let mut ahead = c.fork();
    let first = ahead.u8();
    let (rest, left) = (ahead.as_slice(), c.as_slice());
    format!(in alloc; "{first:?}, {rest:?}, {left:?}")
}

fn put(alloc: Global, words: &[&str]) -> Result<String, Fault> {
    let number = row::parsed(words, 1)?;
    row::or_fault(put_number(alloc, number))
}

fn put_number(alloc: Global, number: u64) -> Result<String, AllocError> {
    let mut out = Vec::new(alloc);
    put_zint(&mut out, number)?;
    row::digits(alloc, &out)
}

fn put_text(alloc: Global, bytes: &[u8]) -> Result<String, AllocError> {
    let mut out = Vec::new(alloc);
    put_bytes(&mut out, bytes)?;
    row::digits(alloc, &out)
}

// A copy's bytes, and what is made again of its list.
fn kept(alloc: Global, bytes: &[u8]) -> Result<String, AllocError> {
    let copy = ByteString::from_slice(alloc, bytes)?.copy(alloc)?;
    row::digits(alloc, ByteString::new(copy.into_vec()).as_slice())
}
