//! A long session in random pieces against the same in one piece.

use crate::row::{self, Fault};
use crate::sessions::{put_framed, told};
use std::alloc::{AllocError, Global};

/// How many bytes a piece has at most, and how many seeds there are.
const MOST: usize = 40;

const SEEDS: u32 = 8;

// The next number of a sequence that looks random, and how far it has come.
fn random(state: &mut u32) -> usize {
    *state = state.wrapping_mul(1_664_525).wrapping_add(1_013_904_223);
    (*state >> 16) as usize
}

/// The first seed whose pieces lead to something else than the whole, and how many events that has and how it stands, of a session of so many frames.
pub fn answer(alloc: Global, words: &[&str]) -> Result<String, Fault> {
    let bytes = session(alloc, row::parsed(words, 0)?)?;
    let digits = row::digits(alloc, &bytes)?;
    let wrong = first_wrong(alloc, &bytes, &of_whole(alloc, &digits, "told")?)?;
    let counted = of_whole(alloc, &digits, "counted")?;
    row::or_fault(format!(in alloc; "({wrong:?}, {counted})"))
}

// What comes of a client's session that is fed these bytes in one piece, by this question.
fn of_whole(alloc: Global, digits: &str, question: &str) -> Result<String, Fault> {
    let row = format!(in alloc; "client whole:{digits} {question}")?;
    told(alloc, &row)
}

// A push on `k` of so many bytes.
fn push_on_k(batch: &mut Vec<u8>, length: u8) -> Result<(), AllocError> {
    batch.extend_from_slice(&[0x3D, 0x00, 0x01, 0x6B, 0x01, length])?;
    batch.resize(batch.len().saturating_add(usize::from(length)), 0x78)
}

// Appends a frame of this number with up to four pushes on `k` of up to 70 bytes, and a KEEP_ALIVE behind.
fn put_frame(
    alloc: Global,
    out: &mut Vec<u8>,
    number: u8,
    state: &mut u32,
) -> Result<(), AllocError> {
    let mut batch = [0x25, number].to_vec(alloc)?;
    for _ in 0..random(state) % 5 {
        let length = random(state) % 71;
        push_on_k(&mut batch, length as u8)?;
    }
    batch.push(0x04)?;
    put_framed(out, &batch)
}

// So many such frames.
fn session(alloc: Global, frames: u8) -> Result<Vec<u8>, AllocError> {
    let mut state = 7;
    let mut bytes = Vec::new(alloc);
    for number in 0..frames {
        put_frame(alloc, &mut bytes, number % 128, &mut state)?;
    }
    Ok(bytes)
}

// What comes of such a session that is fed the bytes in pieces by a seed.
fn of_pieces(alloc: Global, bytes: &[u8], seed: u32) -> Result<String, Fault> {
    let mut row = String::from_str(alloc, "client")?;
    push_pieces(alloc, &mut row, bytes, seed)?;
    row.push_str(" told")?;
    told(alloc, &row)
}

// Appends a step for each piece.
fn push_pieces(alloc: Global, row: &mut String, bytes: &[u8], seed: u32) -> Result<(), AllocError> {
    let mut state = seed;
    let mut rest = bytes;
    for _ in 0..bytes.len() {
        let length = (random(&mut state) % (MOST + 1)).min(rest.len());
        let (piece, others) = rest.split_at(length);
        push_piece(alloc, row, piece)?;
        rest = others;
    }
    push_piece(alloc, row, rest)
}

fn push_piece(alloc: Global, row: &mut String, piece: &[u8]) -> Result<(), AllocError> {
    row.push_str(" whole:")?;
    row.push_str(&row::digits(alloc, piece)?)
}

fn first_wrong(alloc: Global, bytes: &[u8], whole: &str) -> Result<Option<u32>, Fault> {
    for seed in 0..SEEDS {
        if of_pieces(alloc, bytes, seed)?.as_str() != whole {
            return Ok(Some(seed));
        }
    }
    Ok(None)
}
