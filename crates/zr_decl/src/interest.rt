//! Reading an interest.

ghost use Rattle.std.specs.Prelude.{◌≡◌, IfOk};
ghost use Rattle.zr_bytes.specs.Flag.{has_flag};
ghost use Rattle.zr_bytes.specs.Reading.{Keeps, Steps};
ghost use Rattle.zr_format_spec.specs.Reading.{optional_of, exts_of};
ghost use Rattle.zr_decl.specs.Reading.{wire_key_of, wanted_of, ended_of, asked_of, interest_of};
ghost use Rattle.zr_decl.specs.Writing.{Fits};

use crate::parts::{AGGREGATE, CURRENT, FUTURE, INTEREST, KINDS, RESTRICTED};
use crate::reading::{message_extensions, read_wire_key};
use std::alloc::Global;
use zr_bytes::{Cursor, ReadError};
use zr_format_spec::header::ID;
use zr_key::key::KeyExpr;
use zr_msg::msg::{Kinds, Msg};
use zr_wirekey::Scopes;

/// The interest at the front (Zenoh protocol 1.0, "INTEREST"), or the end of one: of a sender that declared `theirs` to a receiver that
/// declared `ours`. What was read can be written.
pub fn read_interest(
    alloc: Global,
    c: &mut Cursor<'_>,
    theirs: &Scopes,
    ours: &Scopes,
) -> Result<Msg, ReadError>
    ensures value { Keeps (λ m. m) result (interest_of theirs.now ours.now c.old) c.old c.new }
    ensures fits { IfOk result (λ m. Fits m) }
{
    let mut ahead = c.fork();
    let msg = message(alloc, &mut ahead, theirs, ours)?;
    *c = ahead;
    Ok(msg)
}

#[tactic(auto, unfolding(crate::specs::Reading::interest_of))]
fn message(
    alloc: Global,
    c: &mut Cursor<'_>,
    theirs: &Scopes,
    ours: &Scopes,
) -> Result<Msg, ReadError>
    ensures { Steps (λ m. m) result (interest_of theirs.now ours.now c.old) c.new }
{
    let header = c.u8()?;
    if header & ID == INTEREST {
        read_asked(alloc, c, theirs, ours, header)
    } else {
        Err(ReadError::UnknownId)
    }
}

/// What follows the header of an INTEREST. After a refusal the cursor may stand anywhere.
#[tactic(auto, unfolding(crate::specs::Reading::asked_of))]
pub fn read_asked(
    alloc: Global,
    c: &mut Cursor<'_>,
    theirs: &Scopes,
    ours: &Scopes,
    header: u8,
) -> Result<Msg, ReadError>
    ensures { Steps (λ m. m) result (asked_of theirs.now ours.now header c.old) c.new }
{
    let id = c.z32()?;
    if header & CURRENT != 0 || header & FUTURE != 0 {
        wanted(alloc, c, theirs, ours, header, id)
    } else {
        ended(alloc, c, header, id)
    }
}

#[tactic(auto, unfolding(crate::specs::Reading::wanted_of))]
fn wanted(
    alloc: Global,
    c: &mut Cursor<'_>,
    theirs: &Scopes,
    ours: &Scopes,
    header: u8,
    id: u32,
) -> Result<Msg, ReadError>
    ensures { Steps (λ m. m) result (wanted_of theirs.now ours.now header id c.old) c.new }
{
    let options = c.u8()?;
    let key = restriction(alloc, c, theirs, ours, options)?;
    message_extensions(alloc, c, header)?;
    Ok(Msg::Interest {
        id,
        current: header & CURRENT != 0,
        future: header & FUTURE != 0,
        kinds: Kinds(options % KINDS),
        key,
        aggregate: options & AGGREGATE != 0,
    })
}

/// The key that an interest is restricted to.
fn restriction(
    alloc: Global,
    c: &mut Cursor<'_>,
    theirs: &Scopes,
    ours: &Scopes,
    options: u8,
) -> Result<Option<KeyExpr>, ReadError>
    ensures { Steps (λ key. key) result (optional_of (has_flag options 16) (wire_key_of theirs.now ours.now options) c.old) c.new }
{
    if options & RESTRICTED == 0 {
        return Ok(None);
    }
    Ok(Some(read_wire_key(alloc, c, theirs, ours, options)?))
}

#[tactic(auto, unfolding(crate::specs::Reading::ended_of))]
fn ended(alloc: Global, c: &mut Cursor<'_>, header: u8, id: u32) -> Result<Msg, ReadError>
    ensures { Steps (λ m. m) result (ended_of header id c.old) c.new }
{
    message_extensions(alloc, c, header)?;
    Ok(Msg::EndInterest { id })
}
