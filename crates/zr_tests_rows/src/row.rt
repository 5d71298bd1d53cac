//! A row's words, what they stand for, and values as text.

use hex::FromHexError;
use std::alloc::{AllocError, AllocFailed, Global};
use std::fmt::Debug;
use std::str::FromStr;
use zr_id::zid::{BadId, Zid};
use zr_key::key::KeyError;

/// Why a row has no answer.
#[derive(Clone, Copy, Debug, Drop)]
pub enum Fault {
    /// Memory ran out.
    Memory,
    /// The row names no call, or a word of it is not what the call takes.
    Row,
    /// The row could not be read, or its answer not be written.
    Stream,
}

impl From<AllocError> for Fault {
    fn from(_e: AllocError) -> Fault {
        Fault::Memory
    }
}

impl<T: Drop> From<AllocFailed<T>> for Fault {
    fn from(_e: AllocFailed<T>) -> Fault {
        Fault::Memory
    }
}

impl From<BadId> for Fault {
    fn from(_e: BadId) -> Fault {
        Fault::Row
    }
}

impl From<KeyError> for Fault {
    fn from(_e: KeyError) -> Fault {
        Fault::Row
    }
}

/// What takes steps, one after the other.
pub trait Steps {
    /// Takes the step of these parts, and tells what came of it.
    fn step(&mut self, alloc: Global, parts: &[&str]) -> Result<String, Fault>;
}

/// Takes the steps that the words are, each with parts between colons, and tells what came of those of which something came.
pub fn run<W: Steps + Drop>(alloc: Global, mut state: W, words: &[&str]) -> Result<String, Fault> {
    walk(alloc, &mut state, words)
}

/// The same behind first steps, of which nothing is told.
pub fn run_both<W: Steps + Drop>(
    alloc: Global,
    mut state: W,
    first: &[&str],
    words: &[&str],
) -> Result<String, Fault> {
    walk(alloc, &mut state, first)?;
    walk(alloc, &mut state, words)
}

/// The same of what is lent.
pub fn walk<W: Steps>(alloc: Global, state: &mut W, words: &[&str]) -> Result<String, Fault> {
    let mut out = String::new(alloc);
    for word in words {
        take(alloc, state, word, &mut out)?;
    }
    Ok(out)
}

fn take<W: Steps>(alloc: Global, state: &mut W, word: &str, out: &mut String) -> Result<(), Fault> {
    let parts = parts(alloc, word, ':')?;
    let told = state.step(alloc, &parts)?;
    if !told.is_empty() {
        put(out, &told)?;
    }
    Ok(())
}

/// Appends what came of a step, and what stands behind it.
pub fn put(out: &mut String, told: &str) -> Result<(), AllocError> {
    out.push_str(told)?;
    out.push_str("; ")
}

/// Nothing as the text of what was done.
pub fn done(alloc: Global, done: Result<(), Fault>) -> Result<String, Fault> {
    match done {
        Ok(()) => Ok(String::new(alloc)),
        Err(e) => Err(e),
    }
}

/// What memory was left for, or the fault that none was.
pub fn or_fault<T>(given: Result<T, AllocError>) -> Result<T, Fault> {
    match given {
        Ok(given) => Ok(given),
        Err(_) => Err(Fault::Memory),
    }
}

/// The parts of a text between these characters.
pub fn parts(alloc: Global, text: &str, between: char) -> Result<Vec<&str>, AllocError> {
    text.split(between).collect(alloc)
}

/// The parts of a word between commas, none of an empty one.
pub fn listed(alloc: Global, word: &str) -> Result<Vec<&str>, AllocError> {
    if word.is_empty() {
        return Ok(Vec::new(alloc));
    }
    parts(alloc, word, ',')
}

/// The word at a place, empty where there is none.
pub fn word<'a>(words: &[&'a str], at: usize) -> &'a str {
    match words.get(at) {
        Some(word) => *word,
        None => "",
    }
}

/// The words from a place on.
pub fn behind<'a, 'b>(words: &'b [&'a str], at: usize) -> &'b [&'a str] {
    let (_, behind) = words.split_at(at.min(words.len()));
    behind
}

/// The bytes that a word of hex digits stands for.
pub fn bytes(alloc: Global, words: &[&str], at: usize) -> Result<Vec<u8>, Fault> {
    match hex::decode(alloc, word(words, at)) {
        Ok(bytes) => Ok(bytes),
        Err(FromHexError::OutOfMemory) => Err(Fault::Memory),
        Err(_) => Err(Fault::Row),
    }
}

/// The number or the truth value that a word is.
pub fn parsed<T: FromStr>(words: &[&str], at: usize) -> Result<T, Fault>
where
    T::Err: Drop,
{
    match word(words, at).parse::<T>() {
        Ok(value) => Ok(value),
        Err(_) => Err(Fault::Row),
    }
}

/// The identifier that a word spells.
pub fn id(words: &[&str], at: usize) -> Result<Zid, Fault> {
    Ok(Zid::from_text(word(words, at))?)
}

/// A value as text.
pub fn text<T: Debug>(alloc: Global, value: &T) -> Result<String, Fault> {
    or_fault(format!(in alloc; "{value:?}"))
}

/// What was read as text, and how many bytes are left.
pub fn read<T: Debug>(alloc: Global, value: &T, left: usize) -> Result<String, Fault> {
    or_fault(format!(in alloc; "{value:?}, left {left}"))
}

/// Bytes as hex digits.
pub fn digits(alloc: Global, bytes: &[u8]) -> Result<String, AllocError> {
    hex::encode(alloc, bytes)
}

/// So many bytes that are the letter `a`.
pub fn letters(alloc: Global, count: usize) -> Result<Vec<u8>, AllocError> {
    vec![in alloc; b'a'; count]
}
