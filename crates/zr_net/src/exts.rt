//! What the extensions of a message say.

ghost use Rattle.std.specs.Prelude.{◌≡◌, IfOk, Some, None, drop, fold, option_copied};
ghost use Rattle.zr_format_spec.specs.Reading.{Makes};
ghost use Rattle.zr_net.specs.Exts.{content_bytes, number_in, number_at, bytes_in, bytes_at, is_kept_number, is_kept_content, bit_of, with_mark, marks_of, extras_of, target_of, tree_of};

use crate::parts::{
    ALL, BEST, BUDGET, BUDGET_MARK, COMPLETE, QOS_MARK, RESPONDER, RESPONDER_MARK, TARGET,
    TARGET_MARK, TIMEOUT, TIMEOUT_MARK, TIMESTAMP_MARK, TREE,
};
use std::alloc::{AllocError, Global};
use zr_bytes::{ByteString, ReadError};
use zr_decl::{QOS, TIMESTAMP};
use zr_ext::{Content, Ext};
use zr_id::zid::Zid;
use zr_msg::extras::Extras;
use zr_msg::msg::Target;

/// What a message passes on of its extensions.
pub(crate) fn extras(alloc: Global, exts: &[Ext]) -> Result<Extras, AllocError>
    ensures { IfOk result (λ e. e ≡ extras_of exts.now) }
{
    Ok(Extras {
        qos: number_at(exts, QOS),
        stamp: bytes_at(alloc, exts, TIMESTAMP)?,
        budget: number_at(exts, BUDGET),
        timeout: number_at(exts, TIMEOUT),
        responder: bytes_at(alloc, exts, RESPONDER)?,
        marks: marks(exts),
    })
}

/// Which queryables a request is for. A target of which there is none is `BadText`.
pub(crate) fn target(exts: &[Ext]) -> Result<Target, ReadError>
    ensures { result ≡ target_of (number_at 4 exts.now) }
{
    match number_at(exts, TARGET) {
        None => Ok(Target::Best),
        Some(number) => target_at(number),
    }
}

fn target_at(number: u64) -> Result<Target, ReadError>
    ensures { result ≡ target_of (Some number) }
{
    match number {
        BEST => Ok(Target::Best),
        ALL => Ok(Target::All),
        COMPLETE => Ok(Target::Complete),
        _ => Err(ReadError::BadText),
    }
}

/// The root of the tree along which a message goes. Bytes that are no identifier are `BadText`.
pub(crate) fn tree(exts: &[Ext]) -> Result<Option<Zid>, ReadError>
    ensures { result ≡ tree_of (bytes_at 7 exts.now) }
{
    for ext in exts {
        if let Some(bytes) = bytes_in(ext, TREE) {
            return tree_at(bytes);
        }
    }
    Ok(None)
}

fn tree_at(bytes: &[u8]) -> Result<Option<Zid>, ReadError>
    ensures { result ≡ tree_of (Some bytes.now) }
{
    match Zid::from_bytes(bytes) {
        Ok(id) => Ok(Some(id)),
        Err(_) => Err(ReadError::BadText),
    }
}

/// The number that the extension of this id says.
fn number_at(exts: &[Ext], id: u8) -> Option<u64>
    ensures { result ≡ number_at id exts.now }
{
    for ext in exts {
        let number = number_in(ext, id);
        if number.is_some() {
            return number;
        }
    }
    None
}

fn number_in(ext: &Ext, id: u8) -> Option<u64>
    ensures { result ≡ number_in id ext.now }
{
    if ext.id != id {
        return None;
    }
    ext.content.number()
}

/// A copy of the bytes that the extension of this id says.
fn bytes_at(alloc: Global, exts: &[Ext], id: u8) -> Result<Option<ByteString>, AllocError>
    ensures { IfOk result (λ b. b ≡ bytes_at id exts.now) }
{
    for ext in exts {
        if let Some(bytes) = bytes_in(ext, id) {
            return Ok(Some(ByteString::from_slice(alloc, bytes)?));
        }
    }
    Ok(None)
}

fn bytes_in(ext: &Ext, id: u8) -> Option<&[u8]>
    ensures { option_copied result ≡ bytes_in id ext.now }
{
    if ext.id != id {
        return None;
    }
    match &ext.content {
        Content::Bytes(bytes) => Some(bytes.as_slice()),
        Content::Unit | Content::Number(_) => None,
    }
}

/// The bits of all kept extensions that are mandatory.
fn marks(exts: &[Ext]) -> u8
    ensures { result ≡ marks_of exts.now }
{
    let mut marks = 0;
    for ext in exts {
        marks = with_mark(marks, ext);
    }
    marks
}

fn with_mark(marks: u8, ext: &Ext) -> u8
    ensures { result ≡ with_mark marks ext.now }
{
    if ext.mandatory && is_kept(ext.id, &ext.content) {
        marks | bit(ext.id)
    } else {
        marks
    }
}

/// Whether the extension is passed on.
fn is_kept(id: u8, content: &Content) -> bool
    ensures { result ≡ is_kept_content id content.now }
{
    match content {
        Content::Number(value) => is_kept_number(id, *value),
        Content::Bytes(_) => id == TIMESTAMP || id == RESPONDER,
        Content::Unit => false,
    }
}

/// A target of 0 is as good as none.
fn is_kept_number(id: u8, value: u64) -> bool
    ensures { result ≡ is_kept_number id value }
{
    id == QOS || id == BUDGET || id == TIMEOUT || id == TARGET && value != BEST
}

fn bit(id: u8) -> u8
    ensures { result ≡ bit_of id }
{
    match id {
        QOS => QOS_MARK,
        TIMESTAMP => TIMESTAMP_MARK,
        RESPONDER => RESPONDER_MARK,
        TARGET => TARGET_MARK,
        BUDGET => BUDGET_MARK,
        TIMEOUT => TIMEOUT_MARK,
        _ => 0,
    }
}
