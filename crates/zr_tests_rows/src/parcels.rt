//! Messages as the batches of a link: two samples on one key, as they go to a router and to a client; and the last of more keys than get numbers.

use crate::row::{self, Fault};
use std::alloc::{AllocError, Global};
use zr_body::Body;
use zr_bytes::ByteString;
use zr_frame::Outbox;
use zr_frame_pack::{NamingOutbox, pack};
use zr_id::zid::Zid;
use zr_key::key::KeyExpr;
use zr_msg::content::Content;
use zr_msg::extras::Extras;
use zr_msg::msg::Msg;

/// The size code of numbers of 32 bits.
const BITS: u8 = 2;

const BATCH: u16 = 65_535;

/// The last key that gets a number, counted from 0.
const LAST: u32 = 4_095;

pub fn answer(alloc: Global, words: &[&str]) -> Result<String, Fault> {
    match row::word(words, 0) {
        "router" => samples(alloc, Outbox::new(BATCH, BITS, 0).with_names()),
        "client" => samples(alloc, Outbox::new(BATCH, BITS, 0)),
        "full" => full(alloc),
        _ => Err(Fault::Row),
    }
}

// The value `hi` on `a/b` in the tree 01, twice.
fn samples(alloc: Global, outbox: Outbox) -> Result<String, Fault> {
    let key = KeyExpr::read(alloc, b"a/b")?;
    let tree = Zid::from_bytes(&[1])?;
    let mut outbox = NamingOutbox::new(alloc, outbox);
    let mut parcels = Vec::new(alloc);
    put_sample(alloc, key.copy(alloc)?, tree, &mut outbox, &mut parcels)?;
    put_sample(alloc, key, tree, &mut outbox, &mut parcels)?;
    row::or_fault(shown(alloc, &parcels))
}

// The value `hi` on the keys `k0` to `k4096`: the batches of the last two.
fn full(alloc: Global) -> Result<String, Fault> {
    let tree = Zid::from_bytes(&[1])?;
    let mut outbox = NamingOutbox::new(alloc, Outbox::new(BATCH, BITS, 0).with_names());
    let mut parcels = Vec::new(alloc);
    for i in 0..LAST + 2 {
        let text = row::or_fault(format!(in alloc; "k{i}"))?;
        let key = KeyExpr::read(alloc, text.as_bytes())?;
        put_sample(alloc, key, tree, &mut outbox, &mut parcels)?;
        if i < LAST {
            parcels.clear();
        }
    }
    row::or_fault(shown(alloc, &parcels))
}

fn put_sample(
    alloc: Global,
    key: KeyExpr,
    tree: Zid,
    outbox: &mut NamingOutbox,
    parcels: &mut Vec<ByteString>,
) -> Result<(), AllocError> {
    let content = Content::new(alloc, key, Extras::none(), Body::put(alloc, b"hi")?)?;
    let messages = [Msg::Push {
        tree: Some(tree),
        content,
    }];
    let packed = pack(alloc, &messages, outbox, parcels);
    drop(messages);
    packed
}

fn shown(alloc: Global, parcels: &[ByteString]) -> Result<String, AllocError> {
    let mut text = String::new(alloc);
    for parcel in parcels {
        text.push_str(&row::digits(alloc, parcel.as_slice())?)?;
        text.push(' ')?;
    }
    Ok(text)
}
