//! The same places in the same turns, through a ring and through one of `rtrb`.

use crate::giving::Giving;
use crate::note::Anything;
use rtrb::{Consumer, Producer, RingBuffer};
use std::alloc::{AllocError, Global};
use zr_ring::{Taker, Took};

/// How many places go through.
pub const PLACES: u64 = 1_000;

const SLOTS: u32 = 256;

// In a turn at most so many are given, and then at most so many are taken: the ring fills up.
const GIVEN_A_TURN: u64 = 96;

const TAKEN_A_TURN: u64 = 64;

const TURNS: u32 = 40;

// The place of the next parcel, if there is one.
fn next_place(taker: &mut Taker<Anything>) -> Option<u64> {
    match taker.take() {
        Took::Parcel(parcel) => Some(parcel.place),
        Took::Ended(_) | Took::Nothing => None,
    }
}

// Pushes the next places, and tells the place that follows.
fn push_turn(producer: &mut Producer<u64, Global>, next: u64) -> u64 {
    let count = (producer.slots() as u64)
        .min(GIVEN_A_TURN)
        .min(PLACES.saturating_sub(next));
    let mut pushed = next;
    for place in next..next.saturating_add(count) {
        if producer.push(place).is_ok() {
            pushed = place.saturating_add(1);
        }
    }
    pushed
}

// Takes from both, and counts the places that came out of both alike.
fn take_turn(taker: &mut Taker<Anything>, consumer: &mut Consumer<u64, Global>) -> u64 {
    let mut count = 0u64;
    for _ in 0..TAKEN_A_TURN {
        let ours = next_place(taker);
        let theirs = consumer.pop().ok();
        if ours == theirs && ours.is_some() {
            count = count.saturating_add(1);
        }
    }
    count
}

/// How many places came out of the ring just as out of the one of `rtrb`.
pub fn places_alike(alloc: Global) -> Result<u64, AllocError> {
    let (mut giving, mut taker) = Giving::ring(alloc, SLOTS)?;
    let (mut producer, mut consumer) = RingBuffer::new(alloc, SLOTS as usize)?;
    let mut next = 0;
    let mut count = 0u64;
    for _ in 0..TURNS {
        let _ = giving.give_places(alloc, PLACES, GIVEN_A_TURN);
        next = push_turn(&mut producer, next);
        count = count.saturating_add(take_turn(&mut taker, &mut consumer));
    }
    Ok(count)
}
