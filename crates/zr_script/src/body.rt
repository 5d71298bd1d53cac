//! The bodies of the queries and replies that a script makes.

ghost use Rattle.std.specs.Prelude.{◌≡◌, ◌<◌, ◌^◌, [], length, Ok, IfOk};
ghost use Rattle.zr_body.specs.Reading.{body_of};
ghost use Rattle.zr_script_spec.specs.Command.{asking_body, answer_body, reply_body, timed_body};

use std::alloc::{AllocError, Global};
use zr_body::{Body, Place, read_body, write_body};
use zr_bytes::{Cursor, put_bytes, put_zint};
use zr_id::zid::Zid;

/// The id of a QUERY, which has no parameters here (Zenoh protocol 1.0, "QUERY").
const QUERY: u8 = 3;

/// The same with the flag of a consolidation.
const CONSOLIDATED_QUERY: u8 = 0x23;

/// The consolidation of a query for the latest replies alone.
const LATEST: u8 = 3;

/// The id of a REPLY, behind which a PUT stands (Zenoh protocol 1.0, "REPLY").
const REPLY: u8 = 4;

/// The id of a PUT with the flag of a timestamp (Zenoh protocol 1.0, "PUT").
const TIMED_PUT: u8 = 0x21;

/// A query, for the latest replies alone or for all: without extensions, and with no flag but that of the consolidation.
pub fn query_body(alloc: Global, latest: bool) -> Result<Body, AllocError>
    ensures { IfOk result (λ b. b ≡ asking_body latest) }
{
    if latest {
        whole(alloc, &[CONSOLIDATED_QUERY, LATEST], Place::Request)
    } else {
        whole(alloc, &[QUERY], Place::Request)
    }
}

/// A reply of a payload, with the time, if there is one, that a clock gave it: without extensions, and with no flag but that of the timestamp.
pub fn reply_body(
    alloc: Global,
    time: Option<u32>,
    clock: &Zid,
    payload: &[u8],
) -> Result<Body, AllocError>
    requires { length payload.now < 2 ^ 32 }
    ensures { IfOk result (λ b. b ≡ answer_body time clock.now payload.now) }
{
    match time {
        None => plain_reply(alloc, payload),
        Some(time) => timed_reply(alloc, time, clock, payload),
    }
}

/// A reply of a payload, without a time.
pub fn plain_reply(alloc: Global, payload: &[u8]) -> Result<Body, AllocError>
    requires { length payload.now < 2 ^ 32 }
    ensures { IfOk result (λ b. b ≡ reply_body payload.now) }
{
    let sample = Body::put(alloc, payload)?;
    let mut bytes = Vec::new(alloc);
    bytes.push(REPLY)?;
    write_body(&mut bytes, &sample)?;
    whole(alloc, bytes.as_slice(), Place::Response)
}

fn timed_reply(alloc: Global, time: u32, clock: &Zid, payload: &[u8]) -> Result<Body, AllocError>
    requires { length payload.now < 2 ^ 32 }
    ensures { IfOk result (λ b. b ≡ timed_body time clock.now payload.now) }
{
    let mut bytes = Vec::new(alloc);
    bytes.push(REPLY)?;
    bytes.push(TIMED_PUT)?;
    put_zint(&mut bytes, u64::from(time))?;
    put_bytes(&mut bytes, clock.bytes())?;
    put_bytes(&mut bytes, payload)?;
    whole(alloc, bytes.as_slice(), Place::Response)
}

// The body that all of some bytes are: only memory can refuse it.
fn whole(alloc: Global, bytes: &[u8], place: Place) -> Result<Body, AllocError>
    requires { body_of place bytes.now ≡ Ok (bytes.now, []) }
    ensures { IfOk result (λ b. b ≡ bytes.now) }
{
    match read_body(alloc, &mut Cursor::new(bytes), place) {
        Ok(body) => Ok(body),
        Err(_) => Err(AllocError),
    }
}
