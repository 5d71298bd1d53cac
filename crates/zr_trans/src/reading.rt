//! Reading a transport message.

ghost use Rattle.std.specs.Prelude.{◌≡◌, IfOk};
ghost use Rattle.zr_bytes.specs.Reading.{Keeps, Steps};
ghost use Rattle.zr_trans.specs.Trans.{first_number};
ghost use Rattle.zr_format_spec.specs.Reading.{optional_of};
ghost use Rattle.zr_trans.specs.Reading.{id_of, sizes_of, cookie_of, behind_id_of, init_of, open_of, close_of, keep_alive_of, frame_of, fragment_of, behind_of, trans_of};
ghost use Rattle.zr_trans.specs.Writing.{Fits};

use crate::parts::{
    CLOSE, FRAGMENT, FRAME, INIT, KEEP_ALIVE, LENGTH_STEP, OPEN, QOS, RESOLUTIONS, ROLES, SPEAKS,
};
use crate::trans::{Sizes, Trans};
use std::alloc::Global;
use zr_bytes::{ByteString, Cursor, ReadError};
use zr_ext::{Ext, Form};
use zr_format_spec::header::{FIRST, ID, SECOND};
use zr_format_spec::read_extensions;
use zr_id::zid::Zid;

/// The most bytes of a cookie.
const MOST_COOKIE: u64 = (1 << 16) - 1;

/// The transport message at the front (Zenoh protocol 1.0, "Transport messages"). A frame ends before its first network
/// message, and a fragment has the rest of the batch as its piece. `UnknownId` is for an id that has no message here. What
/// was read can be written.
pub fn read_trans(alloc: Global, c: &mut Cursor<'_>) -> Result<Trans, ReadError>
    ensures value { Keeps (λ t. t) result (trans_of c.old) c.old c.new }
    ensures fits { IfOk result (λ t. Fits t) }
{
    let mut ahead = c.fork();
    let t = message(alloc, &mut ahead)?;
    *c = ahead;
    Ok(t)
}

#[tactic(auto, unfolding(crate::specs::Reading::trans_of))]
fn message(alloc: Global, c: &mut Cursor<'_>) -> Result<Trans, ReadError>
    ensures { Steps (λ t. t) result (trans_of c.old) c.new }
{
    let header = c.u8()?;
    behind(alloc, c, header)
}

#[tactic(auto, unfolding(crate::specs::Reading::behind_of))]
fn behind(alloc: Global, c: &mut Cursor<'_>, header: u8) -> Result<Trans, ReadError>
    ensures { Steps (λ t. t) result (behind_of header c.old) c.new }
{
    match header & ID {
        INIT => read_init(alloc, c, header),
        OPEN => read_open(alloc, c, header),
        CLOSE => read_close(alloc, c, header),
        KEEP_ALIVE => read_keep_alive(alloc, c, header),
        FRAME => read_frame(alloc, c, header),
        FRAGMENT => read_fragment(alloc, c, header),
        _ => Err(ReadError::UnknownId),
    }
}

#[tactic(auto, unfolding(crate::specs::Reading::init_of))]
fn read_init(alloc: Global, c: &mut Cursor<'_>, header: u8) -> Result<Trans, ReadError>
    ensures { Steps (λ t. t) result (init_of header c.old) c.new }
{
    let version = c.u8()?;
    let tag = c.u8()?;
    let id = identifier(c, usize::from(tag / LENGTH_STEP) + 1)?;
    behind_identifier(alloc, c, header, version, tag, id)
}

#[tactic(auto, unfolding(crate::specs::Reading::behind_id_of))]
fn behind_identifier(
    alloc: Global,
    c: &mut Cursor<'_>,
    header: u8,
    version: u8,
    tag: u8,
    id: Zid,
) -> Result<Trans, ReadError>
    ensures { Steps (λ t. t) result (behind_id_of header version tag id c.old) c.new }
{
    let sizes = sizes(c, header & SECOND != 0)?;
    let cookie = cookie(alloc, c, header & FIRST != 0)?;
    let exts = read_extensions(alloc, c, header, &[(SPEAKS, Form::Number)])?;
    Ok(Trans::Init {
        answer: header & FIRST != 0,
        version,
        role: tag % ROLES,
        id,
        sizes,
        cookie,
        speaks: first_number(&exts),
    })
}

#[tactic(auto, unfolding(crate::specs::Reading::open_of))]
fn read_open(alloc: Global, c: &mut Cursor<'_>, header: u8) -> Result<Trans, ReadError>
    ensures { Steps (λ t. t) result (open_of header c.old) c.new }
{
    let lease = c.zint()?;
    let number = c.zint()?;
    let cookie = cookie(alloc, c, header & FIRST == 0)?;
    read_extensions(alloc, c, header, &[])?;
    Ok(Trans::Open {
        answer: header & FIRST != 0,
        seconds: header & SECOND != 0,
        lease,
        number,
        cookie,
    })
}

#[tactic(auto, unfolding(crate::specs::Reading::close_of))]
fn read_close(alloc: Global, c: &mut Cursor<'_>, header: u8) -> Result<Trans, ReadError>
    ensures { Steps (λ t. t) result (close_of header c.old) c.new }
{
    let reason = c.u8()?;
    read_extensions(alloc, c, header, &[])?;
    Ok(Trans::Close {
        session: header & FIRST != 0,
        reason,
    })
}

#[tactic(auto, unfolding(crate::specs::Reading::keep_alive_of))]
fn read_keep_alive(alloc: Global, c: &mut Cursor<'_>, header: u8) -> Result<Trans, ReadError>
    ensures { Steps (λ t. t) result (keep_alive_of header c.old) c.new }
{
    read_extensions(alloc, c, header, &[])?;
    Ok(Trans::KeepAlive)
}

#[tactic(auto, unfolding(crate::specs::Reading::frame_of))]
fn read_frame(alloc: Global, c: &mut Cursor<'_>, header: u8) -> Result<Trans, ReadError>
    ensures { Steps (λ t. t) result (frame_of header c.old) c.new }
{
    let number = c.zint()?;
    read_extensions(alloc, c, header, &[(QOS, Form::Number)])?;
    Ok(Trans::Frame {
        reliable: header & FIRST != 0,
        number,
    })
}

#[tactic(auto, unfolding(crate::specs::Reading::fragment_of))]
fn read_fragment(alloc: Global, c: &mut Cursor<'_>, header: u8) -> Result<Trans, ReadError>
    ensures { Steps (λ t. t) result (fragment_of header c.old) c.new }
{
    let number = c.zint()?;
    read_extensions(alloc, c, header, &[(QOS, Form::Number)])?;
    let piece = ByteString::from_slice(alloc, c.rest())?;
    Ok(Trans::Fragment {
        reliable: header & FIRST != 0,
        more: header & SECOND != 0,
        number,
        piece,
    })
}

/// An identifier of `count` bytes.
#[tactic(auto, unfolding(crate::specs::Reading::id_of, zr_format_spec::specs::Reading::so_many_of))]
fn identifier(c: &mut Cursor<'_>, count: usize) -> Result<Zid, ReadError>
    ensures { Steps (λ id. id) result (id_of count c.old) c.new }
{
    let left = c.as_slice();
    if left.len() < count {
        return Err(ReadError::Short);
    }
    let (bytes, rest) = left.split_at(count);
    let Ok(id) = Zid::from_bytes(bytes) else {
        return Err(ReadError::BadText);
    };
    *c = Cursor::new(rest);
    Ok(id)
}

#[tactic(auto, unfolding(crate::specs::Reading::sizes_of))]
fn sizes(c: &mut Cursor<'_>, has: bool) -> Result<Option<Sizes>, ReadError>
    ensures { Steps (λ s. s) result (optional_of has sizes_of c.old) c.new }
{
    if !has {
        return Ok(None);
    }
    let bits = c.u8()? % RESOLUTIONS;
    let low = u16::from(c.u8()?);
    let high = u16::from(c.u8()?);
    Ok(Some(Sizes {
        bits,
        batch: low + 256 * high,
    }))
}

#[tactic(auto, unfolding(crate::specs::Reading::cookie_of))]
fn cookie(alloc: Global, c: &mut Cursor<'_>, has: bool) -> Result<Option<ByteString>, ReadError>
    ensures { Steps (λ k. k) result (optional_of has cookie_of c.old) c.new }
{
    if !has {
        return Ok(None);
    }
    let bytes = c.bytes(MOST_COOKIE)?;
    Ok(Some(ByteString::from_slice(alloc, bytes)?))
}

/// The number that the first extension says.
fn first_number(exts: &[Ext]) -> Option<u64>
    ensures { result ≡ first_number exts.now }
{
    match exts {
        [ext, ..] => ext.content.number(),
        [] => None,
    }
}
