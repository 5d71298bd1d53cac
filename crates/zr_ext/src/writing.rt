//! The one spelling of a chain of extensions that is written.

ghost use Rattle.std.specs.Prelude.{◌≡◌, ◌<◌, ◌++◌, All, length, true, OnOk, OnErr};
ghost use Rattle.zr_bytes.specs.Writing.{KeepsFront};
ghost use Rattle.zr_ext.specs.Header.{form_of, encoding_of};
ghost use Rattle.zr_ext.specs.Writing.{Fits, ascends_from, writes_chain, writes_ext, writes_header};

use crate::ext::{Content, Ext, Form};
use crate::header::{MANDATORY, MORE};
use std::alloc::AllocError;
use zr_bytes::{all_or_nothing, put_bytes, put_zint};

/// Appends a chain of at least one extension, which stand in ascending order of their ids (this profile's order). Where memory runs
/// out nothing is appended.
pub fn write_chain(out: &mut Vec<u8>, exts: &[Ext]) -> Result<(), AllocError>
    requires some { 0 < length exts.now }
    requires fit { All Fits exts.now }
    requires ascending { ascends_from 0 exts.now ≡ true }
    ensures ok { OnOk result (out.new.items ≡ out.old.items ++ writes_chain exts.now) }
    ensures err { OnErr result (out.new.items ≡ out.old.items) }
{
    let start = out.len();
    let put = put_all(out, exts);
    all_or_nothing(out, start, put)
}

fn put_all(out: &mut Vec<u8>, exts: &[Ext]) -> Result<(), AllocError>
    ensures ok { OnOk result (out.new.items ≡ out.old.items ++ writes_chain exts.now) }
    ensures err { OnErr result (KeepsFront out.old.items out.new.items) }
{
    for (i, ext) in exts.iter().enumerate() {
        put_ext(out, ext, i + 1 < exts.len())?;
    }
    Ok(())
}

/// One extension, which says whether another one follows.
fn put_ext(out: &mut Vec<u8>, ext: &Ext, more: bool) -> Result<(), AllocError>
    ensures ok { OnOk result (out.new.items ≡ out.old.items ++ writes_ext ext.now more) }
    ensures err { OnErr result (KeepsFront out.old.items out.new.items) }
{
    out.push(header_byte(ext, more))?;
    match &ext.content {
        Content::Unit => Ok(()),
        Content::Number(value) => put_zint(out, *value),
        Content::Bytes(bytes) => put_bytes(out, bytes.as_slice()),
    }
}

fn header_byte(ext: &Ext, more: bool) -> u8
    ensures { result ≡ writes_header ext.now more }
{
    let mandatory = if ext.mandatory { MANDATORY } else { 0 };
    let more = if more { MORE } else { 0 };
    ext.id | mandatory | encoding(ext.content.form()) | more
}

fn encoding(form: Form) -> u8
    ensures { result ≡ encoding_of form }
{
    match form {
        Form::Unit => 0x00,
        Form::Number => 0x20,
        Form::Bytes => 0x40,
    }
}
