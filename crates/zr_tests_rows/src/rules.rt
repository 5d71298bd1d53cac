//! Access rules: why a text of them isn't taken, and what they decide.

use crate::row::{self, Fault};
use std::alloc::{AllocError, Global};
use zr_access::{Act, Policy, PolicyError};
use zr_key::key::KeyExpr;

/// Of a text of rules, with `_` for a space and `;` for a line end: why it isn't taken, or what it decides of an act of a client, on a key or on none.
pub fn answer(alloc: Global, words: &[&str]) -> Result<String, Fault> {
    let text = text_of(alloc, row::word(words, 0))?;
    match Policy::read(alloc, text.as_slice()) {
        Ok(policy) => judged(alloc, &policy, row::behind(words, 1)),
        Err(PolicyError::NoMemory) => Err(Fault::Memory),
        Err(refused) => row::text(alloc, &refused),
    }
}

fn text_of(alloc: Global, word: &str) -> Result<Vec<u8>, AllocError> {
    word.as_bytes().iter().map(|b| spelled(*b)).collect(alloc)
}

fn spelled(byte: u8) -> u8 {
    match byte {
        b'_' => b' ',
        b';' => b'\n',
        other => other,
    }
}

fn judged(alloc: Global, policy: &Policy, words: &[&str]) -> Result<String, Fault> {
    if words.len() < 3 {
        return judge(alloc, policy, words, None);
    }
    let key = KeyExpr::read(alloc, row::word(words, 2).as_bytes())?;
    judge(alloc, policy, words, Some(&key))
}

fn judge(
    alloc: Global,
    policy: &Policy,
    words: &[&str],
    key: Option<&KeyExpr>,
) -> Result<String, Fault> {
    let verdict = policy.judge(row::id(words, 0)?, act(row::word(words, 1))?, key);
    row::text(alloc, &verdict)
}

fn act(word: &str) -> Result<Act, Fault> {
    match word {
        "sub" => Ok(Act::Sub),
        "able" => Ok(Act::Able),
        "token" => Ok(Act::Token),
        "interest" => Ok(Act::Interest),
        "put" => Ok(Act::Put),
        "del" => Ok(Act::Del),
        "get" => Ok(Act::Get),
        "reply" => Ok(Act::Reply),
        _ => Err(Fault::Row),
    }
}
