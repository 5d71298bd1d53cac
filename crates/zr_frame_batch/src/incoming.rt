//! What came of the next batch.

ghost use Rattle.std.specs.Prelude.{◌≡◌, ◌<◌, ◌≤◌, ◌++◌, [], length, IfSome, IfOk, OnErr};
ghost use Rattle.std.specs.Prelude.{None, true, ◌+◌, ◌*◌};
ghost use Rattle.std.specs.Vec.{vec_len, vec_capacity};
ghost use Rattle.zr_frame_batch.specs.Framing.{IsFramed, BeginsWith, lacks, is_within_one};

use std::alloc::{AllocError, Global};
use std::marker::Model;

/// Contracts see the bytes that came, with those of the length. They never go further than the end of the batch. Memory
/// is held for at most twice as many, or for 1,024.
#[derive(Drop)]
pub struct Incoming {
    alloc: Global,
    bytes: Vec<u8>,
}

/// For how many bytes memory is kept between two batches, at most.
pub const MOST_IDLE: usize = 1024;

impl Model for Incoming {
    ghost use Rattle.std.specs.Prelude.{◌≡◌, List, ℕ, true};
    ghost use Rattle.std.specs.Prelude.{length, ◌≤◌};
    ghost use Rattle.std.specs.Vec.{vec_capacity};
    ghost use Rattle.zr_frame_batch.specs.Framing.{is_within_one, most_room};

    ghost Value = { List ℕ };

    ghost view = { λ i. i.bytes.items };

    ghost invariant = { λ i. (is_within_one i.bytes.items ≡ true) × (vec_capacity i.bytes ≤ most_room (length i.bytes.items)) };
}

impl Incoming {
    /// Nothing came yet.
    pub fn new(alloc: Global) -> Incoming
        ensures { result ≡ [] }
    {
        Incoming {
            alloc,
            bytes: Vec::new(alloc),
        }
    }

    /// Takes bytes of a piece, as many as are wanted before anything can be read, and gives the others.
    pub fn take<'a>(&mut self, piece: &'a [u8]) -> Result<&'a [u8], AllocError>
        ensures parts { IfOk result (λ rest. self.new ++ rest.now ≡ self.old ++ piece.now) }
        ensures shorter { IfOk result (λ rest. 0 < lacks self.old → 0 < length piece.now → length rest.now < length piece.now) }
        ensures err { OnErr result (self.new ≡ self.old) }
    {
        let (front, rest) = cut(piece, lacks(&self.bytes));
        if front.is_empty() {
            return Ok(rest);
        }
        if has_room(&self.bytes, front) {
            append(&mut self.bytes, front);
        } else {
            self.bytes = joined(self.alloc, &self.bytes, front)?;
        }
        Ok(rest)
    }

    /// The batch, where it is whole.
    pub fn batch(&self) -> Option<&[u8]>
        ensures some { IfSome result (λ batch. IsFramed self.now batch.now) }
        ensures none { result ≡ None → 0 < lacks self.now }
    {
        whole(&self.bytes)
    }

    /// Whether nothing came of the next batch.
    pub fn is_empty(&self) -> bool
        ensures { result ≡ true → self.now ≡ [] }
    {
        self.bytes.is_empty()
    }

    /// The batch was read. The memory of a long one is given back.
    pub fn clear(&mut self)
        ensures { self.new ≡ [] }
    {
        if self.bytes.capacity() > MOST_IDLE {
            self.bytes = Vec::new(self.alloc);
        } else {
            self.bytes.clear();
        }
    }
}

fn has_room(bytes: &Vec<u8>, piece: &[u8]) -> bool
    ensures { result ≡ true → vec_len bytes.now + length piece.now ≤ vec_capacity bytes.now }
{
    bytes.len() + piece.len() <= bytes.capacity()
}

/// Appends a piece to bytes that have the room. They keep it, as isn't known of `extend_from_slice`.
fn append(bytes: &mut Vec<u8>, piece: &[u8])
    requires room { vec_len bytes.old + length piece.now ≤ vec_capacity bytes.old }
    ensures items { bytes.new.items ≡ bytes.old.items ++ piece.now }
    ensures kept { vec_capacity bytes.new ≡ vec_capacity bytes.old }
{
    for byte in piece {
        bytes.push_reserved(*byte);
    }
}

/// Some bytes with a piece behind them, in memory for as many more as there were. A long piece is copied at once so.
fn joined(alloc: Global, bytes: &[u8], piece: &[u8]) -> Result<Vec<u8>, AllocError>
    ensures items { IfOk result (λ all. all.items ≡ bytes.now ++ piece.now) }
    ensures bounded { IfOk result (λ all. vec_capacity all ≤ 2 * (length bytes.now + length piece.now)) }
{
    let count = bytes.len() + piece.len();
    let mut all = Vec::with_capacity(alloc, count.saturating_add(bytes.len()))?;
    all.extend_from_slice(bytes)?;
    all.extend_from_slice(piece)?;
    // That copying takes no more than the room that is there isn't known.
    if all.capacity().saturating_sub(count) > count {
        return Err(AllocError);
    }
    Ok(all)
}

/// The batch at the front of a piece where it is whole, and the bytes behind it: nothing is copied.
pub fn split_batch(piece: &[u8]) -> Option<(&[u8], &[u8])>
    ensures some { IfSome result (λ x. BeginsWith piece.now x.0.now x.1.now) }
    ensures none { result ≡ None → 0 < lacks piece.now }
{
    let [low, high, bytes @ ..] = piece else {
        return None;
    };
    split(bytes, length_of(*low, *high))
}

/// So many bytes, where there are as many, and the others.
fn split(bytes: &[u8], size: usize) -> Option<(&[u8], &[u8])>
    ensures some { IfSome result (λ x. (bytes.now ≡ x.0.now ++ x.1.now) × (length x.0.now ≡ size)) }
    ensures none { result ≡ None → length bytes.now < size }
{
    if bytes.len() < size {
        return None;
    }
    Some(bytes.split_at(size))
}

/// How many bytes are wanted before a batch can be read.
fn lacks(bytes: &[u8]) -> usize
    ensures { result ≡ lacks bytes.now }
{
    match bytes {
        [] => 2,
        [_] => 1,
        [low, high, batch @ ..] => length_of(*low, *high).saturating_sub(batch.len()),
    }
}

/// The length that two bytes tell, the low one first.
fn length_of(low: u8, high: u8) -> usize
    ensures { result ≡ low + 256 * high }
{
    usize::from(low) + 256 * usize::from(high)
}

/// So many bytes, or all where there are fewer, and the others.
fn cut(bytes: &[u8], most: usize) -> (&[u8], &[u8])
    ensures parts { bytes.now ≡ result.0.now ++ result.1.now }
    ensures few { length result.0.now ≤ most }
    ensures shorter { 0 < most → 0 < length bytes.now → length result.1.now < length bytes.now }
{
    if most < bytes.len() {
        bytes.split_at(most)
    } else {
        bytes.split_at(bytes.len())
    }
}

/// The batch behind its length, where it is whole.
fn whole(bytes: &[u8]) -> Option<&[u8]>
    requires { is_within_one bytes.now ≡ true }
    ensures some { IfSome result (λ batch. IsFramed bytes.now batch.now) }
    ensures none { result ≡ None → 0 < lacks bytes.now }
{
    match bytes {
        [low, high, batch @ ..] if batch.len() == length_of(*low, *high) => Some(batch),
        _ => None,
    }
}
