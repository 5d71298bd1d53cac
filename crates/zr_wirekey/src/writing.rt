//! Writing a numbered key.

ghost use Rattle.std.specs.Prelude.{◌≡◌, ◌<◌, ◌≤◌, ◌++◌, length, OnOk, OnErr};
ghost use Rattle.zr_bytes.specs.Writing.{KeepsFront};
ghost use Rattle.zr_wirekey.specs.Writing.{writes_key, writes_name};

use std::alloc::AllocError;
use zr_bytes::{all_or_nothing, put_bytes, put_zint};
use zr_format_spec::header::header_byte;
use zr_key::key::KeyExpr;

/// The id of a DECLARE, in its header (Zenoh protocol 1.0, "DECLARE").
pub const DECLARE: u8 = 0x1E;
/// The id of a D_KEYEXPR, in its header (Zenoh protocol 1.0, "D_KEYEXPR").
pub const D_KEYEXPR: u8 = 0x00;
/// The scope that is the empty text.
const NO_SCOPE: u64 = 0;

/// Appends a key: a number that was declared for its text, or 0 and the whole text. Where memory runs out nothing is appended.
pub fn write_key(out: &mut Vec<u8>, key: &KeyExpr, number: u16) -> Result<(), AllocError>
    ensures ok { OnOk result (out.new.items ≡ out.old.items ++ writes_key key.now number) }
    ensures err { OnErr result (out.new.items ≡ out.old.items) }
{
    let start = out.len();
    let put = put_key(out, key, number);
    all_or_nothing(out, start, put)
}

fn put_key(out: &mut Vec<u8>, key: &KeyExpr, number: u16) -> Result<(), AllocError>
    ensures ok { OnOk result (out.new.items ≡ out.old.items ++ writes_key key.now number) }
    ensures err { OnErr result (KeepsFront out.old.items out.new.items) }
{
    put_zint(out, u64::from(number))?;
    if number == 0 {
        put_bytes(out, key.text().as_bytes())?;
    }
    Ok(())
}

/// Appends the whole DECLARE by which a number stands for a text of at most 2,048 bytes from now on (Zenoh protocol 1.0, "D_KEYEXPR"). The text is the suffix of
/// scope 0. Where memory runs out nothing is appended.
pub fn write_name(out: &mut Vec<u8>, number: u16, text: &[u8]) -> Result<(), AllocError>
    requires number { 0 < number }
    requires text { length text.now ≤ 2048 }
    ensures ok { OnOk result (out.new.items ≡ out.old.items ++ writes_name number text.now) }
    ensures err { OnErr result (out.new.items ≡ out.old.items) }
{
    let start = out.len();
    let put = put_name(out, number, text);
    all_or_nothing(out, start, put)
}

fn put_name(out: &mut Vec<u8>, number: u16, text: &[u8]) -> Result<(), AllocError>
    ensures ok { OnOk result (out.new.items ≡ out.old.items ++ writes_name number text.now) }
    ensures err { OnErr result (KeepsFront out.old.items out.new.items) }
{
    out.push(header_byte(DECLARE, false, false, false))?;
    out.push(header_byte(D_KEYEXPR, true, false, false))?;
    put_zint(out, u64::from(number))?;
    put_zint(out, NO_SCOPE)?;
    put_bytes(out, text)
}
