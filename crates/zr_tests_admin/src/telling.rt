//! What the client is told, as text.

use crate::asking::NUMBER;
use std::alloc::{AllocError, Global};
use zr_bytes::Cursor;
use zr_decl::Declared;
use zr_msg::content::Content;
use zr_msg::msg::Msg;
use zr_msg::peer::Role;
use zr_net::read_net;
use zr_ring::{Bytes, Note, Taker, Took};
use zr_trans::{Trans, read_trans};
use zr_wirekey::Scopes;

/// More takes than the ring of a client has parcels.
const MOST_TAKES: u32 = 512;

/// Takes all that is queued. Each reply to the query is a line `KEY PAYLOAD`, its final `end`, and any other message `another`.
pub fn put_all<N: Note + Drop>(
    alloc: Global,
    text: &mut String,
    taker: &mut Taker<N>,
) -> Result<(), AllocError> {
    for _ in 0..MOST_TAKES {
        match taker.take() {
            Took::Parcel(parcel) => put_parcel(alloc, text, &parcel.bytes)?,
            Took::Ended(_) => return text.push_str("ended\n"),
            Took::Nothing => return Ok(()),
        }
    }
    Ok(())
}

fn put_parcel(alloc: Global, text: &mut String, parcel: &Bytes) -> Result<(), AllocError> {
    let (head, body) = parcel.parts();
    let mut bytes = head.to_vec(alloc)?;
    bytes.extend_from_slice(body)?;
    put_frame(alloc, text, bytes.as_slice())
}

fn put_frame(alloc: Global, text: &mut String, frame: &[u8]) -> Result<(), AllocError> {
    let mut c = Cursor::new(frame);
    if !is_frame(alloc, &mut c) {
        return text.push_str("another\n");
    }
    for _ in 0..frame.len() {
        if c.left() == 0 {
            break;
        }
        put_message(alloc, text, &mut c)?;
    }
    Ok(())
}

// Reads the head of a frame; whether there is one.
fn is_frame(alloc: Global, c: &mut Cursor<'_>) -> bool {
    matches!(read_trans(alloc, c), Ok(Trans::Frame { .. }))
}

fn put_message(alloc: Global, text: &mut String, c: &mut Cursor<'_>) -> Result<(), AllocError> {
    let none = Scopes::new(alloc);
    match read_net(alloc, c, &none, &none, Role::Client) {
        Ok(declared) => put_declared(text, &declared),
        Err(_) => Err(AllocError),
    }
}

fn put_declared(text: &mut String, declared: &Declared) -> Result<(), AllocError> {
    match declared {
        Declared::Told(msg) => put_told(text, msg),
        _ => text.push_str("another\n"),
    }
}

fn put_told(text: &mut String, msg: &Msg) -> Result<(), AllocError> {
    match msg {
        Msg::Response { id, content } if *id == NUMBER => put_reply(text, content),
        Msg::Final { id, .. } if *id == NUMBER => text.push_str("end\n"),
        _ => text.push_str("another\n"),
    }
}

fn put_reply(text: &mut String, content: &Content) -> Result<(), AllocError> {
    let Ok(payload) = std::str::from_utf8(content.body().payload()) else {
        return Err(AllocError);
    };
    text.push_str(content.key().text())?;
    text.push_str(" ")?;
    text.push_str(payload)?;
    text.push_str("\n")
}
