//! Passing over bodies, part by part, to the payload. Each part is there where its flag is set in the header.

ghost use Rattle.std.specs.Prelude.{◌≡◌, ◌^◌, ◌-◌, ◌%◌, ◌==◌};
ghost use Rattle.zr_bytes.specs.Flag.{has_flag};
ghost use Rattle.zr_bytes.specs.Reading.{Steps};
ghost use Rattle.zr_ext.specs.Finding.{Passes};
ghost use Rattle.zr_body.specs.Reading.{passed_if, skip_number, skip_text, skip_some_text, skip_timestamp, skip_encoding, skip_extensions, read_payload, read_put, read_del, read_query, read_sample, read_reply, read_err, read_behind, payload_in};

use crate::place::Place;
use zr_bytes::{Cursor, ReadError};
use zr_ext::skip_chain;
use zr_format_spec::header::{EXTENSIONS, ID};

pub(crate) const PUT: u8 = 1;

pub(crate) const DEL: u8 = 2;

pub(crate) const QUERY: u8 = 3;

pub(crate) const REPLY: u8 = 4;

const ERR: u8 = 5;

/// Of PUT and DEL.
pub(crate) const TIMESTAMP: u8 = 0x20;
/// Of QUERY and REPLY.
pub(crate) const CONSOLIDATION: u8 = 0x20;
/// Of PUT and ERR.
const ENCODING: u8 = 0x40;
/// Of QUERY.
const PARAMETERS: u8 = 0x40;
/// The most bytes of a clock's identifier, of a schema, of parameters and of a payload.
pub(crate) const MOST_CLOCK: u64 = 16;

const MOST_SCHEMA: u64 = 255;

const MOST_PARAMETERS: u64 = (1 << 16) - 1;

const MOST_PAYLOAD: u64 = (1 << 32) - 1;

/// The payload of a body of a message of this kind, with the cursor behind the body; no bytes where it has none.
#[tactic(auto, unfolding(crate::specs::Reading::payload_in))]
pub(crate) fn body<'a>(c: &mut Cursor<'a>, place: Place) -> Result<&'a [u8], ReadError>
    ensures { Steps (λ payload. payload.now) result (payload_in place c.old) c.new }
{
    let header = c.u8()?;
    behind(c, place, header)
}

#[tactic(auto, unfolding(crate::specs::Reading::read_behind))]
fn behind<'a>(c: &mut Cursor<'a>, place: Place, header: u8) -> Result<&'a [u8], ReadError>
    ensures { Steps (λ payload. payload.now) result (read_behind place header c.old) c.new }
{
    match (place, header & ID) {
        (Place::Push, _) => sample(c, header),
        (Place::Request, QUERY) => query(c, header),
        (Place::Response, REPLY) => reply(c, header),
        (Place::Response, ERR) => err(c, header),
        _ => Err(ReadError::UnknownId),
    }
}

#[tactic(auto, unfolding(crate::specs::Reading::read_sample))]
fn sample<'a>(c: &mut Cursor<'a>, header: u8) -> Result<&'a [u8], ReadError>
    ensures { Steps (λ payload. payload.now) result (read_sample header c.old) c.new }
{
    match header & ID {
        PUT => put(c, header),
        DEL => del(c, header),
        _ => Err(ReadError::UnknownId),
    }
}

#[tactic(auto, unfolding(crate::specs::Reading::read_put))]
fn put<'a>(c: &mut Cursor<'a>, header: u8) -> Result<&'a [u8], ReadError>
    ensures { Steps (λ payload. payload.now) result (read_put header c.old) c.new }
{
    timestamp(c, header)?;
    encoding(c, header)?;
    extensions(c, header)?;
    payload(c)
}

#[tactic(auto, unfolding(crate::specs::Reading::read_del))]
fn del<'a>(c: &mut Cursor<'a>, header: u8) -> Result<&'a [u8], ReadError>
    ensures { Steps (λ payload. payload.now) result (read_del header c.old) c.new }
{
    timestamp(c, header)?;
    extensions(c, header)?;
    Ok(&[])
}

#[tactic(auto, unfolding(crate::specs::Reading::read_query))]
fn query<'a>(c: &mut Cursor<'a>, header: u8) -> Result<&'a [u8], ReadError>
    ensures { Steps (λ payload. payload.now) result (read_query header c.old) c.new }
{
    consolidation(c, header)?;
    parameters(c, header)?;
    extensions(c, header)?;
    Ok(&[])
}

#[tactic(auto, unfolding(crate::specs::Reading::read_reply))]
fn reply<'a>(c: &mut Cursor<'a>, header: u8) -> Result<&'a [u8], ReadError>
    ensures { Steps (λ payload. payload.now) result (read_reply header c.old) c.new }
{
    consolidation(c, header)?;
    extensions(c, header)?;
    let inner = c.u8()?;
    sample(c, inner)
}

#[tactic(auto, unfolding(crate::specs::Reading::read_err))]
fn err<'a>(c: &mut Cursor<'a>, header: u8) -> Result<&'a [u8], ReadError>
    ensures { Steps (λ payload. payload.now) result (read_err header c.old) c.new }
{
    encoding(c, header)?;
    extensions(c, header)?;
    payload(c)
}

#[tactic(auto, unfolding(crate::specs::Reading::read_payload))]
fn payload<'a>(c: &mut Cursor<'a>) -> Result<&'a [u8], ReadError>
    ensures { Steps (λ payload. payload.now) result (read_payload c.old) c.new }
{
    c.bytes(MOST_PAYLOAD)
}

#[tactic(auto, unfolding(crate::specs::Reading::skip_timestamp, crate::specs::Reading::skip_number, crate::specs::Reading::skip_some_text))]
fn timestamp(c: &mut Cursor<'_>, header: u8) -> Result<(), ReadError>
    ensures { Steps (λ x. x) result (passed_if (has_flag header 0x20) skip_timestamp c.old) c.new }
{
    if header & TIMESTAMP == 0 {
        return Ok(());
    }
    c.zint()?;
    if c.bytes(MOST_CLOCK)?.is_empty() {
        return Err(ReadError::BadText);
    }
    Ok(())
}

#[tactic(auto, unfolding(crate::specs::Reading::skip_encoding))]
fn encoding(c: &mut Cursor<'_>, header: u8) -> Result<(), ReadError>
    ensures { Steps (λ x. x) result (passed_if (has_flag header 0x40) skip_encoding c.old) c.new }
{
    if header & ENCODING == 0 {
        return Ok(());
    }
    if c.z32()? % 2 == 1 {
        text(c, MOST_SCHEMA)
    } else {
        Ok(())
    }
}

#[tactic(auto, unfolding(crate::specs::Reading::skip_extensions))]
pub(crate) fn extensions(c: &mut Cursor<'_>, header: u8) -> Result<(), ReadError>
    ensures { Passes result (passed_if (has_flag header 0x80) skip_extensions c.old) c.new }
{
    if header & EXTENSIONS != 0 {
        skip_chain(c)?;
    }
    Ok(())
}

#[tactic(auto, unfolding(crate::specs::Reading::skip_number))]
pub(crate) fn consolidation(c: &mut Cursor<'_>, header: u8) -> Result<(), ReadError>
    ensures { Passes result (passed_if (has_flag header 0x20) skip_number c.old) c.new }
{
    if header & CONSOLIDATION != 0 {
        c.zint()?;
    }
    Ok(())
}

fn parameters(c: &mut Cursor<'_>, header: u8) -> Result<(), ReadError>
    ensures { Steps (λ x. x) result (passed_if (has_flag header 0x40) (skip_text (2 ^ 16 - 1)) c.old) c.new }
{
    if header & PARAMETERS != 0 {
        text(c, MOST_PARAMETERS)
    } else {
        Ok(())
    }
}

#[tactic(auto, unfolding(crate::specs::Reading::skip_text))]
fn text(c: &mut Cursor<'_>, limit: u64) -> Result<(), ReadError>
    ensures { Steps (λ x. x) result (skip_text limit c.old) c.new }
{
    c.bytes(limit)?;
    Ok(())
}
