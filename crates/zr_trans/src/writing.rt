//! The one spelling of a transport message that is written.

ghost use Rattle.std.specs.Prelude.{◌≡◌, ◌<◌, [], ◌∷◌, ◌++◌, OnOk, OnErr};
ghost use Rattle.zr_bytes.specs.Number.{writes};
ghost use Rattle.zr_bytes.specs.Writing.{KeepsFront};
ghost use Rattle.zr_trans.specs.Writing.{writes_tag, writes_sizes, writes_cookie, writes_speaks, header_of, fields_of, writes_trans, Fits};

use crate::parts::{CLOSE, FRAGMENT, FRAME, INIT, KEEP_ALIVE, LENGTH_STEP, OPEN, SPEAKS};
use crate::trans::{Sizes, Trans};
use std::alloc::AllocError;
use zr_bytes::{ByteString, all_or_nothing, put_bytes, put_zint};
use zr_ext::{Content, Ext, write_chain};
use zr_format_spec::header::header_byte;
use zr_id::zid::Zid;

/// Appends a message that has a spelling (Zenoh protocol 1.0, "Transport messages"): a role below 4, resolutions below 16,
/// and a cookie exactly where the message has one. Where memory runs out nothing is appended.
pub fn write_trans(out: &mut Vec<u8>, t: &Trans) -> Result<(), AllocError>
    requires { Fits t.now }
    ensures ok { OnOk result (out.new.items ≡ out.old.items ++ writes_trans t.now) }
    ensures err { OnErr result (out.new.items ≡ out.old.items) }
{
    let start = out.len();
    let put = put_trans(out, t);
    all_or_nothing(out, start, put)
}

fn put_trans(out: &mut Vec<u8>, t: &Trans) -> Result<(), AllocError>
    requires { Fits t.now }
    ensures ok { OnOk result (out.new.items ≡ out.old.items ++ writes_trans t.now) }
    ensures err { OnErr result (KeepsFront out.old.items out.new.items) }
{
    out.push(header(t))?;
    put_fields(out, t)
}

fn header(t: &Trans) -> u8
    ensures { result ≡ header_of t.now }
{
    match t {
        Trans::Init {
            answer,
            sizes,
            speaks,
            ..
        } => header_byte(INIT, *answer, sizes.is_some(), speaks.is_some()),
        Trans::Open {
            answer,
            seconds,
            ..
        } => header_byte(OPEN, *answer, *seconds, false),
        Trans::Close { session, .. } => header_byte(CLOSE, *session, false, false),
        Trans::KeepAlive => header_byte(KEEP_ALIVE, false, false, false),
        Trans::Frame { reliable, .. } => header_byte(FRAME, *reliable, false, false),
        Trans::Fragment { reliable, more, .. } => header_byte(FRAGMENT, *reliable, *more, false),
    }
}

/// What stands behind the header.
fn put_fields(out: &mut Vec<u8>, t: &Trans) -> Result<(), AllocError>
    requires { Fits t.now }
    ensures ok { OnOk result (out.new.items ≡ out.old.items ++ fields_of t.now) }
    ensures err { OnErr result (KeepsFront out.old.items out.new.items) }
{
    match t {
        Trans::Init {
            version,
            role,
            id,
            sizes,
            cookie,
            speaks,
            ..
        } => put_init(out, *version, *role, id, sizes, cookie, speaks),
        Trans::Open {
            lease,
            number,
            cookie,
            ..
        } => put_open(out, *lease, *number, cookie),
        Trans::Close { reason, .. } => put_byte(out, *reason),
        Trans::KeepAlive => Ok(()),
        Trans::Frame { number, .. } => put_zint(out, *number),
        Trans::Fragment { number, piece, .. } => put_fragment(out, *number, piece),
    }
}

fn put_init(
    out: &mut Vec<u8>,
    version: u8,
    role: u8,
    id: &Zid,
    sizes: &Option<Sizes>,
    cookie: &Option<ByteString>,
    speaks: &Option<u64>,
) -> Result<(), AllocError>
    requires { role < 4 }
    ensures ok { OnOk result (out.new.items ≡ out.old.items ++ version ∷ writes_tag role id.now ∷ id.now ++ (writes_sizes sizes.now ++ (writes_cookie cookie.now ++ writes_speaks speaks.now))) }
    ensures err { OnErr result (KeepsFront out.old.items out.new.items) }
{
    out.push(version)?;
    put_identifier(out, role, id)?;
    put_settings(out, sizes, cookie, speaks)
}

fn put_settings(
    out: &mut Vec<u8>,
    sizes: &Option<Sizes>,
    cookie: &Option<ByteString>,
    speaks: &Option<u64>,
) -> Result<(), AllocError>
    ensures ok { OnOk result (out.new.items ≡ out.old.items ++ (writes_sizes sizes.now ++ (writes_cookie cookie.now ++ writes_speaks speaks.now))) }
    ensures err { OnErr result (KeepsFront out.old.items out.new.items) }
{
    put_sizes(out, sizes)?;
    put_cookie(out, cookie)?;
    put_speaks(out, speaks)
}

fn put_open(
    out: &mut Vec<u8>,
    lease: u64,
    number: u64,
    cookie: &Option<ByteString>,
) -> Result<(), AllocError>
    ensures ok { OnOk result (out.new.items ≡ out.old.items ++ (writes lease ++ (writes number ++ writes_cookie cookie.now))) }
    ensures err { OnErr result (KeepsFront out.old.items out.new.items) }
{
    put_zint(out, lease)?;
    put_zint(out, number)?;
    put_cookie(out, cookie)
}

fn put_byte(out: &mut Vec<u8>, byte: u8) -> Result<(), AllocError>
    ensures ok { OnOk result (out.new.items ≡ out.old.items ++ byte ∷ []) }
    ensures err { OnErr result (out.new.items ≡ out.old.items) }
{
    out.push(byte)?;
    Ok(())
}

fn put_fragment(out: &mut Vec<u8>, number: u64, piece: &ByteString) -> Result<(), AllocError>
    ensures ok { OnOk result (out.new.items ≡ out.old.items ++ (writes number ++ piece.now)) }
    ensures err { OnErr result (KeepsFront out.old.items out.new.items) }
{
    put_zint(out, number)?;
    out.extend_from_slice(piece.as_slice())
}

/// The length of an identifier with the role, and the identifier.
fn put_identifier(out: &mut Vec<u8>, role: u8, id: &Zid) -> Result<(), AllocError>
    requires { role < 4 }
    ensures ok { OnOk result (out.new.items ≡ out.old.items ++ writes_tag role id.now ∷ id.now) }
    ensures err { OnErr result (KeepsFront out.old.items out.new.items) }
{
    let bytes = id.bytes();
    out.push((bytes.len() - 1) as u8 * LENGTH_STEP + role)?;
    out.extend_from_slice(bytes)
}

fn put_sizes(out: &mut Vec<u8>, sizes: &Option<Sizes>) -> Result<(), AllocError>
    ensures ok { OnOk result (out.new.items ≡ out.old.items ++ writes_sizes sizes.now) }
    ensures err { OnErr result (out.new.items ≡ out.old.items) }
{
    let Some(sizes) = sizes else {
        return Ok(());
    };
    let low = (sizes.batch % 256) as u8;
    let high = (sizes.batch / 256) as u8;
    out.extend_from_slice(&[sizes.bits, low, high])
}

fn put_cookie(out: &mut Vec<u8>, cookie: &Option<ByteString>) -> Result<(), AllocError>
    ensures ok { OnOk result (out.new.items ≡ out.old.items ++ writes_cookie cookie.now) }
    ensures err { OnErr result (out.new.items ≡ out.old.items) }
{
    match cookie {
        Some(cookie) => put_bytes(out, cookie.as_slice()),
        None => Ok(()),
    }
}

/// The extension by which a router says that it tells others its links.
fn put_speaks(out: &mut Vec<u8>, speaks: &Option<u64>) -> Result<(), AllocError>
    ensures ok { OnOk result (out.new.items ≡ out.old.items ++ writes_speaks speaks.now) }
    ensures err { OnErr result (out.new.items ≡ out.old.items) }
{
    let Some(value) = speaks else {
        return Ok(());
    };
    let ext = Ext {
        id: SPEAKS,
        mandatory: false,
        content: Content::Number(*value),
    };
    write_chain(out, &[ext])
}
