//! Transport messages: which bytes are read as which, which are refused, and how messages are written.

ghost use Rattle.zr_trans.specs.Writing.{Fits};

use crate::row::{self, Fault};
use std::alloc::{AllocError, Global};
use zr_bytes::Cursor;
use zr_trans::{Trans, read_trans, write_trans};

pub fn answer(alloc: Global, words: &[&str]) -> Result<String, Fault> {
    match row::word(words, 0) {
        "read" => read(alloc, words),
        "again" => again(alloc, words),
        _ => Err(Fault::Row),
    }
}

fn read(alloc: Global, words: &[&str]) -> Result<String, Fault> {
    let bytes = row::bytes(alloc, words, 1)?;
    let mut c = Cursor::new(&bytes);
    let message = read_trans(alloc, &mut c);
    let text = row::read(alloc, &message, c.left());
    drop(message);
    text
}

// What is written of the message that was read.
fn again(alloc: Global, words: &[&str]) -> Result<String, Fault> {
    let bytes = row::bytes(alloc, words, 1)?;
    match read_trans(alloc, &mut Cursor::new(&bytes)) {
        Ok(message) => row::or_fault(spent(alloc, message)),
        Err(_) => Err(Fault::Row),
    }
}

/// The same of a message that is not used again.
pub fn spent(alloc: Global, message: Trans) -> Result<String, AllocError>
    requires { Fits message }
{
    let text = written(alloc, &message);
    drop(message);
    text
}

// What is written of a message that can be spelled.
fn written(alloc: Global, message: &Trans) -> Result<String, AllocError>
    requires { Fits message.now }
{
    let mut out = Vec::new(alloc);
    write_trans(&mut out, message)?;
    row::digits(alloc, &out)
}
