//! Bodies of messages: which are kept, byte for byte, and why others are refused.

ghost use Rattle.std.specs.Prelude.{◌≤◌, length, IfOk};
ghost use Rattle.zr_body.specs.Body.{IsBodyIn};

use crate::row::{self, Fault};
use std::alloc::{AllocError, Global};
use zr_body::{Body, Place, is_later, latest, read_body, stamp, write_body};
use zr_bytes::Cursor;

pub fn answer(alloc: Global, words: &[&str]) -> Result<String, Fault> {
    match row::word(words, 0) {
        "push" => read(alloc, words, Place::Push),
        "request" => read(alloc, words, Place::Request),
        "response" => read(alloc, words, Place::Response),
        "latest" => asks_latest(alloc, words),
        "stamp" => stamp_in(alloc, words),
        "later" => later(alloc, words),
        "hi" => row::or_fault(made(alloc, Body::put(alloc, b"hi"))),
        "deletion" => row::or_fault(made(alloc, Body::del(alloc))),
        _ => Err(Fault::Row),
    }
}

fn read(alloc: Global, words: &[&str], place: Place) -> Result<String, Fault> {
    let bytes = row::bytes(alloc, words, 1)?;
    let mut c = Cursor::new(&bytes);
    match read_body(alloc, &mut c, place) {
        Ok(body) => row::or_fault(shown(alloc, &body, c.left())),
        Err(e) => row::read(alloc, &e, c.left()),
    }
}

// Whether a query asks for the latest replies alone.
fn asks_latest(alloc: Global, words: &[&str]) -> Result<String, Fault> {
    let body = body_at(alloc, words, 1, Place::Request)?;
    row::text(alloc, &latest(&body))
}

// When the value in a reply was given: the time, and the clock.
fn stamp_in(alloc: Global, words: &[&str]) -> Result<String, Fault> {
    let body = body_at(alloc, words, 1, Place::Response)?;
    match stamp(&body) {
        Some(stamp) => row::or_fault(format!(in alloc; "{} by {:?}", stamp.time, stamp.clock)),
        None => Ok(String::from_str(alloc, "none")?),
    }
}

// Whether a reply is later than another one, and the other one than it.
fn later(alloc: Global, words: &[&str]) -> Result<String, Fault> {
    let reply = body_at(alloc, words, 1, Place::Response)?;
    let other = body_at(alloc, words, 2, Place::Response)?;
    let (is, isnt) = (is_later(&reply, &other), is_later(&other, &reply));
    row::or_fault(format!(in alloc; "{is}, {isnt}"))
}

fn body_at(alloc: Global, words: &[&str], at: usize, place: Place) -> Result<Body, Fault> {
    body(alloc, &row::bytes(alloc, words, at)?, place)
}

/// The body at the beginning of bytes.
pub fn body(alloc: Global, bytes: &[u8], place: Place) -> Result<Body, Fault>
    ensures is_body { IfOk result (λ b. IsBodyIn place b) }
    ensures short { IfOk result (λ b. length b ≤ length bytes.now) }
{
    let mut c = Cursor::new(bytes);
    match read_body(alloc, &mut c, place) {
        Ok(body) => Ok(body),
        Err(_) => Err(Fault::Row),
    }
}

// The bytes that are kept, those that are written of a copy, the payload, whether it is a deletion, and how many bytes are left.
fn shown(alloc: Global, body: &Body, left: usize) -> Result<String, AllocError> {
    let mut text = row::digits(alloc, body.as_slice())?;
    push(alloc, &mut text, ", written ", &written(alloc, body)?)?;
    push(alloc, &mut text, ", payload ", body.payload())?;
    format!(in alloc; "{text}, deletion {}, left {left}", body.is_del())
}

// Appends what bytes are, and their digits.
fn push(alloc: Global, text: &mut String, what: &str, bytes: &[u8]) -> Result<(), AllocError> {
    text.push_str(what)?;
    text.push_str(&row::digits(alloc, bytes)?)
}

fn written(alloc: Global, body: &Body) -> Result<Vec<u8>, AllocError> {
    let copy = body.copy()?;
    let mut out = Vec::new(alloc);
    write_body(&mut out, &copy)?;
    Ok(out)
}

fn made(alloc: Global, body: Result<Body, AllocError>) -> Result<String, AllocError> {
    row::digits(alloc, body?.as_slice())
}
