//! Keys on the wire: how they are read and refused by scopes, how scopes are limited, and how a key and its number are written.

use crate::row::{self, Fault, Steps};
use std::alloc::{AllocError, Global};
use zr_bytes::{Cursor, ReadError};
use zr_key::key::KeyExpr;
use zr_wirekey::{Scopes, read_key, write_key, write_name};

pub fn answer(alloc: Global, words: &[&str]) -> Result<String, Fault> {
    match row::word(words, 0) {
        "read" => read(alloc, words),
        "written" => written(alloc, words),
        "name" => row::or_fault(name(alloc, words)),
        "scopes" => row::run(alloc, Scopes::new(alloc), row::behind(words, 1)),
        _ => Err(Fault::Row),
    }
}

/// Scopes in which `a/b` is 1.
pub fn declared(alloc: Global) -> Result<Scopes, Fault> {
    let mut scopes = Scopes::new(alloc);
    match scopes.declare(1, b"a/b") {
        Ok(()) => Ok(scopes),
        Err(_) => Err(Fault::Memory),
    }
}

fn read(alloc: Global, words: &[&str]) -> Result<String, Fault> {
    let bytes = row::bytes(alloc, words, 4)?;
    let full = declared(alloc)?;
    shown(alloc, words, &bytes, &full)
}

fn shown(alloc: Global, words: &[&str], bytes: &[u8], full: &Scopes) -> Result<String, Fault> {
    let mut c = Cursor::new(bytes);
    match key(alloc, words, &mut c, full, &Scopes::new(alloc)) {
        Ok(key) => row::read(alloc, &key.text(), c.left()),
        Err(e) => row::read(alloc, &e, c.left()),
    }
}

// By whom `a/b` was declared as 1, sender or receiver, whose number the key has, and whether it is named or bare.
fn key(
    alloc: Global,
    words: &[&str],
    c: &mut Cursor<'_>,
    full: &Scopes,
    empty: &Scopes,
) -> Result<KeyExpr, ReadError> {
    let of_sender = row::word(words, 2) == "sender";
    let named = row::word(words, 3) == "named";
    if row::word(words, 1) == "sender" {
        read_key(alloc, c, named, of_sender, full, empty)
    } else {
        read_key(alloc, c, named, of_sender, empty, full)
    }
}

fn written(alloc: Global, words: &[&str]) -> Result<String, Fault> {
    let number = row::parsed(words, 2)?;
    let key = KeyExpr::read(alloc, row::word(words, 1).as_bytes())?;
    row::or_fault(written_of(alloc, &key, number))
}

fn written_of(alloc: Global, key: &KeyExpr, number: u16) -> Result<String, AllocError> {
    let mut out = Vec::new(alloc);
    write_key(&mut out, key, number)?;
    row::digits(alloc, &out)
}

// The declaration of `a/b` under 1, under 300, or of no bytes under 1.
fn name(alloc: Global, words: &[&str]) -> Result<String, AllocError> {
    let mut out = Vec::new(alloc);
    match row::word(words, 1) {
        "1" => write_name(&mut out, 1, b"a/b")?,
        "300" => write_name(&mut out, 300, b"a/b")?,
        _ => write_name(&mut out, 1, b"")?,
    }
    row::digits(alloc, &out)
}

fn declare(alloc: Global, scopes: &mut Scopes, number: u16, text: &[u8]) -> Result<String, Fault> {
    row::text(alloc, &scopes.declare(number, text))
}

fn letters(alloc: Global, scopes: &mut Scopes, number: u16, count: usize) -> Result<String, Fault> {
    let letters = row::letters(alloc, count)?;
    declare(alloc, scopes, number, &letters)
}

fn length(alloc: Global, text: Option<&[u8]>) -> Result<String, Fault> {
    match text {
        Some(text) => row::text(alloc, &Some(text.len())),
        None => row::text(alloc, &text),
    }
}

impl Steps for Scopes {
    // A number, and where it is to stand for a text, that text or how many letters it has.
    fn step(&mut self, alloc: Global, parts: &[&str]) -> Result<String, Fault> {
        let number = row::parsed(parts, 1)?;
        match row::word(parts, 0) {
            "declare" => declare(alloc, self, number, row::word(parts, 2).as_bytes()),
            "letters" => letters(alloc, self, number, row::parsed(parts, 2)?),
            "undeclare" => {
                self.undeclare(number);
                Ok(String::new(alloc))
            }
            "length" => length(alloc, self.text(number)),
            "text" => row::text(alloc, &self.text(number)),
            _ => Err(Fault::Row),
        }
    }
}
