//! Chains of extensions: what is kept, skipped and refused, and how a chain is written.

use crate::row::{self, Fault};
use std::alloc::{AllocError, Global};
use zr_bytes::Cursor;
use zr_ext::{Content, Ext, Form, read_chain, write_chain};

pub fn answer(alloc: Global, words: &[&str]) -> Result<String, Fault> {
    match row::word(words, 0) {
        "read" => read(alloc, words),
        "written" => row::or_fault(written(alloc)),
        _ => Err(Fault::Row),
    }
}

// A chain in which 1 is known as a number, 2 as bytes and 7 as nothing.
fn read(alloc: Global, words: &[&str]) -> Result<String, Fault> {
    let bytes = row::bytes(alloc, words, 1)?;
    let mut c = Cursor::new(&bytes);
    let known = [(1, Form::Number), (2, Form::Bytes), (7, Form::Unit)];
    let given = read_chain(alloc, &mut c, &known);
    row::read(alloc, &given, c.left())
}

// A chain of a number and an extension without content.
fn written(alloc: Global) -> Result<String, AllocError> {
    let mut exts = Vec::new(alloc);
    exts.push(Ext {
        id: 1,
        mandatory: false,
        content: Content::Number(300),
    })?;
    exts.push(Ext {
        id: 7,
        mandatory: true,
        content: Content::Unit,
    })?;
    let mut out = Vec::new(alloc);
    write_chain(&mut out, &exts)?;
    row::digits(alloc, &out)
}
