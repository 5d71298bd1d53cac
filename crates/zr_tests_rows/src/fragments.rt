//! Long messages in fragments: how they are cut, joined and limited.

use crate::row::{self, Fault};
use std::alloc::{AllocError, Global};
use zr_bytes::{ByteString, Cursor, ReadError};
use zr_frame::{Channel, ChannelError, Outbox};
use zr_trans::{Trans, read_trans};
use zr_wire::MOST_OF_CLIENT;

/// The size code of numbers of 32 bits.
const BITS: u8 = 2;

const BATCH: u16 = 65_535;

const LONG: usize = 200_000;

/// How many bytes a fragment has of the longest message of a client, and how many fragments that is.
const PIECE: usize = 65_536;

const PIECES: u64 = 128;

/// How many bytes a message has that a fragment ends, or none where it is kept.
type Heard = Result<Option<usize>, ChannelError>;

pub fn answer(alloc: Global, words: &[&str]) -> Result<String, Fault> {
    match row::word(words, 0) {
        "shapes" => row::or_fault(shapes(alloc)),
        "joined" => joined(alloc, row::behind(words, 1)),
        "limit" => row::or_fault(limit(alloc)),
        _ => Err(Fault::Row),
    }
}

// A message of 200,000 bytes, packed as the first one of a session.
fn long_message(alloc: Global) -> Result<Vec<ByteString>, AllocError> {
    let message = ByteString::new(vec![in alloc; 7; LONG]?);
    let mut parcels = Vec::new(alloc);
    let mut outbox = Outbox::new(BATCH, BITS, 0);
    outbox.pieces(alloc, &[message], &mut parcels)?;
    Ok(parcels)
}

// The header, the number and the length of the piece of each fragment.
fn shapes(alloc: Global) -> Result<String, AllocError> {
    let parcels = long_message(alloc)?;
    let mut all = Vec::new(alloc);
    for parcel in &parcels {
        push_shape(parcel.as_slice(), &mut all)?;
    }
    format!(in alloc; "{all:?}")
}

fn push_shape(parcel: &[u8], all: &mut Vec<(u8, u8, usize)>) -> Result<(), AllocError> {
    if let [header, number, piece @ ..] = parcel {
        all.push((*header, *number, piece.len()))?;
    }
    Ok(())
}

fn heard(alloc: Global, channel: &mut Channel, more: bool, number: u64, piece: &[u8]) -> Heard {
    match channel.fragment(alloc, MOST_OF_CLIENT, more, number, piece) {
        Ok(None) => Ok(None),
        Ok(Some(message)) => Ok(Some(message.as_slice().len())),
        Err(e) => Err(e),
    }
}

// What a channel that is handed one more parcel makes of it.
fn received(alloc: Global, channel: &mut Channel, parcel: &[u8]) -> Result<Heard, Fault> {
    let read = read_trans(alloc, &mut Cursor::new(parcel));
    let heard = heard_of(alloc, channel, &read);
    drop(read);
    heard
}

fn heard_of(
    alloc: Global,
    channel: &mut Channel,
    read: &Result<Trans, ReadError>,
) -> Result<Heard, Fault> {
    match read {
        Ok(
            Trans::Fragment {
                more,
                number,
                piece,
                ..
            },
        ) => Ok(heard(alloc, channel, *more, *number, piece.as_slice())),
        _ => Err(Fault::Row),
    }
}

// What each of these fragments of the long message leads to, by their places.
fn joined(alloc: Global, places: &[&str]) -> Result<String, Fault> {
    let parcels = long_message(alloc)?;
    let mut channel = Channel::new(BITS, 0);
    let mut all = Vec::new(alloc);
    for at in 0..places.len() {
        let parcel = parcel_at(&parcels, row::parsed(places, at)?)?;
        all.push(received(alloc, &mut channel, parcel)?)?;
    }
    row::text(alloc, &all)
}

fn parcel_at(parcels: &[ByteString], place: usize) -> Result<&[u8], Fault> {
    match parcels.get(place) {
        Some(parcel) => Ok(parcel.as_slice()),
        None => Err(Fault::Row),
    }
}

// What is made of one byte more than a client's message may have, and of the end of as much as it may have.
fn limit(alloc: Global) -> Result<String, AllocError> {
    let piece = vec![in alloc; 7; PIECE]?;
    let ends = ends(alloc, &piece);
    format!(in alloc; "{ends:?}")
}

fn ends(alloc: Global, piece: &[u8]) -> (Heard, Heard) {
    let mut channel = Channel::new(BITS, 0);
    for number in 0..PIECES {
        let _ = heard(alloc, &mut channel, true, number, piece);
    }
    let above = heard(alloc, &mut channel, true, PIECES, &[7]);
    let whole = heard(alloc, &mut channel, false, PIECES, &[]);
    (above, whole)
}
