//! How key expressions meet and cover. `tests/rules` asks of every pair of short ones.

use crate::row::{self, Fault};
use std::alloc::Global;
use zr_key::key::KeyExpr;
use zr_match::{covers, meets};

/// Of two expressions, whether they meet (either way) or whether the first covers the second.
pub fn answer(alloc: Global, words: &[&str]) -> Result<String, Fault> {
    let first = KeyExpr::read(alloc, row::word(words, 1).as_bytes())?;
    with_second(alloc, row::word(words, 0), &first, row::word(words, 2))
}

fn with_second(alloc: Global, name: &str, first: &KeyExpr, text: &str) -> Result<String, Fault> {
    let second = KeyExpr::read(alloc, text.as_bytes())?;
    of_two(alloc, name, first, &second)
}

fn of_two(alloc: Global, name: &str, first: &KeyExpr, second: &KeyExpr) -> Result<String, Fault> {
    match name {
        "meets" => row::text(alloc, &(meets(first, second), meets(second, first))),
        "covers" => row::text(alloc, &covers(first, second)),
        _ => Err(Fault::Row),
    }
}
