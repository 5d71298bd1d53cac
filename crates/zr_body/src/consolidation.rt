//! Latest consolidation: which queries ask for the latest replies alone, and which of two replies is the later one.

ghost use Rattle.std.specs.Prelude.{◌≡◌, ◌&&◌};
ghost use Rattle.zr_bytes.specs.Flag.{has_flag, has_id};
ghost use Rattle.zr_bytes.specs.Reading.{number_of};
ghost use Rattle.zr_body.specs.Latest.{body_cmp, is_latest, is_later, is_three, or_none, reply_stamp, stamp_if, stamp_of};
ghost use Rattle.zr_ext.specs.Finding.{Passes};

use crate::skipping::{
    CONSOLIDATION, DEL, PUT, QUERY, REPLY, TIMESTAMP, consolidation, extensions,
};
use crate::timestamp::{Stamp, compare_stamps, read_stamp};
use crate::wire_body::Body;
use std::cmp::Ordering;
use zr_bytes::{Cursor, ReadError};
use zr_format_spec::header::ID;

/// The consolidation of a query that asks for the latest reply of each key alone.
const LATEST: u64 = 3;

/// Whether a body is a QUERY that asks for the latest replies alone.
pub fn latest(body: &Body) -> bool
    ensures { result ≡ is_latest body.now }
{
    match body.as_slice().split_first() {
        Some((header, rest)) => is_latest_query(*header, rest),
        None => false,
    }
}

/// When the value in a REPLY was given, where the reply says so. Any other body has no such time.
pub fn stamp(body: &Body) -> Option<Stamp<'_>>
    ensures { result ≡ stamp_of body.now }
{
    match body.as_slice().split_first() {
        Some((header, rest)) if header & ID == REPLY => stamp_behind(*header, rest),
        _ => None,
    }
}

/// Whether a reply is later than another one: one with a timestamp than one without, then by time, clock and all bytes.
pub fn is_later(reply: &Body, other: &Body) -> bool
    ensures { result ≡ is_later reply.now other.now }
{
    compare(other, reply) == Ordering::Less
}

fn is_latest_query(header: u8, rest: &[u8]) -> bool
    ensures { result ≡ has_id header 3 && (has_flag header 0x20 && is_three (number_of rest.now)) }
{
    if header & ID != QUERY || header & CONSOLIDATION == 0 {
        return false;
    }
    match Cursor::new(rest).zint() {
        Ok(consolidation) => consolidation == LATEST,
        Err(_) => false,
    }
}

// The timestamp in a REPLY, of which this stands behind its header.
fn stamp_behind(header: u8, rest: &[u8]) -> Option<Stamp<'_>>
    ensures { result ≡ or_none (reply_stamp header rest.now) }
{
    let mut c = Cursor::new(rest);
    match reply_stamp(&mut c, header) {
        Ok(stamp) => stamp,
        Err(_) => None,
    }
}

#[tactic(auto, unfolding(crate::specs::Latest::reply_stamp))]
fn reply_stamp<'a>(c: &mut Cursor<'a>, header: u8) -> Result<Option<Stamp<'a>>, ReadError>
    ensures { Passes result (reply_stamp header c.old) c.new }
{
    consolidation(c, header)?;
    extensions(c, header)?;
    let inner = c.u8()?;
    Ok(stamp_if(inner, c.as_slice()))
}

// The timestamp of a PUT or DEL, whose header this is.
fn stamp_if(header: u8, rest: &[u8]) -> Option<Stamp<'_>>
    ensures { result ≡ stamp_if header rest.now }
{
    if header & TIMESTAMP == 0 || (header & ID != PUT && header & ID != DEL) {
        return None;
    }
    let mut c = Cursor::new(rest);
    match read_stamp(&mut c) {
        Ok(stamp) => Some(stamp),
        Err(_) => None,
    }
}

fn compare(a: &Body, b: &Body) -> Ordering
    ensures { result ≡ body_cmp a.now b.now }
{
    let order = compare_stamps(stamp(a), stamp(b));
    order.then(a.as_slice().cmp(b.as_slice()))
}
