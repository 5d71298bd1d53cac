//! The one spelling of a network message that is written.

ghost use Rattle.std.specs.Prelude.{◌≡◌, ◌<◌, ◌==◌, ◌∷◌, ◌++◌, All, false, None, not, true, OnOk, OnErr, IfOk};
ghost use Rattle.zr_bytes.specs.Flag.{has_flag};
ghost use Rattle.zr_bytes.specs.Number.{writes};
ghost use Rattle.zr_bytes.specs.Writing.{KeepsFront};
ghost use Rattle.zr_format_spec.specs.Writing.{writes_header};
ghost use Rattle.zr_ext.specs.Writing.{ascends_from, writes_chain, Fits as ExtFits};
ghost use Rattle.zr_wirekey.specs.Writing.{writes_key};
ghost use Rattle.zr_net.specs.Writing.{number_ext, bytes_ext, target_number, kept_exts, has_any, writes_keyed, writes_content, writes_push, writes_request, writes_response, writes_final, writes_front, writes_net, TextFits, Fits};

use crate::parts::{
    ALL, BUDGET, BUDGET_MARK, COMPLETE, PUSH, QOS_MARK, REQUEST, RESPONDER, RESPONDER_MARK,
    RESPONSE, RESPONSE_FINAL, TARGET, TARGET_MARK, TIMEOUT, TIMEOUT_MARK, TIMESTAMP_MARK, TREE,
};
use std::alloc::{AllocError, Global};
use zr_body::write_body;
use zr_bytes::{ByteString, all_or_nothing, put_zint};
use zr_decl::{QOS, TIMESTAMP};
use zr_ext::{Content, Ext, write_chain};
use zr_format_spec::header::header_byte;
use zr_id::zid::Zid;
use zr_msg::content;
use zr_msg::extras::Extras;
use zr_msg::msg::{Msg, Target};
use zr_wirekey::write_key;

/// Appends a sample, a request, a reply or the end of a request (Zenoh protocol 1.0, "Network messages"), whose kept extensions are those of its kind
/// and whose marks are of extensions that are there. Extensions go in ascending order of their ids. The key is written as a number
/// that was declared for it, or whole where that is 0. Where memory runs out nothing is appended.
pub fn write_net(out: &mut Vec<u8>, msg: &Msg, number: u16) -> Result<(), AllocError>
    requires { Fits msg.now }
    ensures ok { OnOk result (out.new.items ≡ out.old.items ++ writes_net msg.now number) }
    ensures err { OnErr result (out.new.items ≡ out.old.items) }
{
    let start = out.len();
    let put = put_net(out, msg, number);
    all_or_nothing(out, start, put)
}

/// Appends what stands before the extensions of a sample, a request or a reply: the header, the id, and the key as in `write_net`. Where memory runs out nothing
/// is appended.
pub fn write_front(out: &mut Vec<u8>, msg: &Msg, number: u16) -> Result<(), AllocError>
    ensures ok { OnOk result (out.new.items ≡ out.old.items ++ writes_front msg.now number) }
    ensures err { OnErr result (out.new.items ≡ out.old.items) }
{
    let start = out.len();
    let put = put_front(out, msg, number);
    all_or_nothing(out, start, put)
}

fn put_front(out: &mut Vec<u8>, msg: &Msg, number: u16) -> Result<(), AllocError>
    ensures ok { OnOk result (out.new.items ≡ out.old.items ++ writes_front msg.now number) }
    ensures err { OnErr result (KeepsFront out.old.items out.new.items) }
{
    match msg {
        Msg::Push { tree, content } => {
            let extended = is_extended(content.extras(), Target::Best, tree);
            put_push_front(out, content, number, extended)
        }
        Msg::Request {
            tree,
            id,
            target,
            content,
        } => {
            let extended = is_extended(content.extras(), *target, tree);
            put_numbered_front(out, REQUEST, *id, content, number, extended)
        }
        Msg::Response { id, content } => {
            let extended = is_extended(content.extras(), Target::Best, &None);
            put_numbered_front(out, RESPONSE, *id, content, number, extended)
        }
        Msg::Final { .. }
        | Msg::Sub { .. }
        | Msg::Unsub { .. }
        | Msg::Token { .. }
        | Msg::Untoken { .. }
        | Msg::Able { .. }
        | Msg::Unable { .. }
        | Msg::Interest { .. }
        | Msg::EndInterest { .. }
        | Msg::ToldSub { .. }
        | Msg::ToldAble { .. }
        | Msg::ToldUnsub { .. }
        | Msg::ToldToken { .. }
        | Msg::ToldUntoken { .. }
        | Msg::ToldUnable { .. }
        | Msg::ToldEnd { .. }
        | Msg::State { .. }
        | Msg::Step { .. }
        | Msg::Snap { .. } => Ok(()),
    }
}

fn put_push_front(
    out: &mut Vec<u8>,
    content: &content::Content,
    number: u16,
    extended: bool,
) -> Result<(), AllocError>
    ensures ok { OnOk result (out.new.items ≡ out.old.items ++ writes_header 0x1D (number == 0) (not (number == 0)) extended ∷ writes_key content.now.key number) }
    ensures err { OnErr result (KeepsFront out.old.items out.new.items) }
{
    out.push(header_byte(PUSH, number == 0, number != 0, extended))?;
    write_key(out, content.key(), number)
}

fn put_numbered_front(
    out: &mut Vec<u8>,
    message: u8,
    id: u32,
    content: &content::Content,
    number: u16,
    extended: bool,
) -> Result<(), AllocError>
    ensures ok { OnOk result (out.new.items ≡ out.old.items ++ writes_header message (number == 0) (not (number == 0)) extended ∷ (writes id ++ writes_key content.now.key number)) }
    ensures err { OnErr result (KeepsFront out.old.items out.new.items) }
{
    out.push(header_byte(message, number == 0, number != 0, extended))?;
    put_zint(out, u64::from(id))?;
    write_key(out, content.key(), number)
}

// Whether a message has an extension.
#[tactic(auto, using(crate::proofs::Kept::extended_by))]
fn is_extended(extras: &Extras, target: Target, tree: &Option<Zid>) -> bool
    ensures { result ≡ has_any (kept_exts extras.now target tree.now) }
{
    extras.qos.is_some()
        || extras.stamp.is_some()
        || extras.responder.is_some()
        || number_of(target).is_some()
        || extras.budget.is_some()
        || extras.timeout.is_some()
        || tree.is_some()
}

fn put_net(out: &mut Vec<u8>, msg: &Msg, number: u16) -> Result<(), AllocError>
    requires { Fits msg.now }
    ensures ok { OnOk result (out.new.items ≡ out.old.items ++ writes_net msg.now number) }
    ensures err { OnErr result (KeepsFront out.old.items out.new.items) }
{
    match msg {
        Msg::Push { tree, content } => put_push(out, tree, content, number),
        Msg::Request {
            tree,
            id,
            target,
            content,
        } => put_request(out, tree, *id, *target, content, number),
        Msg::Response { id, content } => put_response(out, *id, content, number),
        Msg::Final { id, extras } => put_final(out, *id, extras.get()),
        Msg::Sub { .. }
        | Msg::Unsub { .. }
        | Msg::Token { .. }
        | Msg::Untoken { .. }
        | Msg::Able { .. }
        | Msg::Unable { .. }
        | Msg::Interest { .. }
        | Msg::EndInterest { .. }
        | Msg::ToldSub { .. }
        | Msg::ToldAble { .. }
        | Msg::ToldUnsub { .. }
        | Msg::ToldToken { .. }
        | Msg::ToldUntoken { .. }
        | Msg::ToldUnable { .. }
        | Msg::ToldEnd { .. }
        | Msg::State { .. }
        | Msg::Step { .. }
        | Msg::Snap { .. } => Ok(()),
    }
}

fn put_push(
    out: &mut Vec<u8>,
    tree: &Option<Zid>,
    content: &content::Content,
    number: u16,
) -> Result<(), AllocError>
    requires stamp { TextFits content.now.extras.stamp }
    requires responder { TextFits content.now.extras.responder }
    ensures ok { OnOk result (out.new.items ≡ out.old.items ++ writes_push tree.now content.now number) }
    ensures err { OnErr result (KeepsFront out.old.items out.new.items) }
{
    let exts = kept_exts(*out.allocator(), content.extras(), Target::Best, tree)?;
    put_sample(out, content, &exts, number)
}

fn put_sample(
    out: &mut Vec<u8>,
    content: &content::Content,
    exts: &[Ext],
    number: u16,
) -> Result<(), AllocError>
    requires fit { All ExtFits exts.now }
    requires ascending { ascends_from 0 exts.now ≡ true }
    ensures ok { OnOk result (out.new.items ≡ out.old.items ++ writes_keyed 0x1D number exts.now ∷ writes_content content.now exts.now number) }
    ensures err { OnErr result (KeepsFront out.old.items out.new.items) }
{
    out.push(keyed(PUSH, number, exts))?;
    put_content(out, content, exts, number)
}

fn put_request(
    out: &mut Vec<u8>,
    tree: &Option<Zid>,
    id: u32,
    target: Target,
    content: &content::Content,
    number: u16,
) -> Result<(), AllocError>
    requires stamp { TextFits content.now.extras.stamp }
    requires responder { TextFits content.now.extras.responder }
    ensures ok { OnOk result (out.new.items ≡ out.old.items ++ writes_request tree.now id target content.now number) }
    ensures err { OnErr result (KeepsFront out.old.items out.new.items) }
{
    let exts = kept_exts(*out.allocator(), content.extras(), target, tree)?;
    put_numbered(out, REQUEST, id, content, &exts, number)
}

fn put_response(
    out: &mut Vec<u8>,
    id: u32,
    content: &content::Content,
    number: u16,
) -> Result<(), AllocError>
    requires stamp { TextFits content.now.extras.stamp }
    requires responder { TextFits content.now.extras.responder }
    ensures ok { OnOk result (out.new.items ≡ out.old.items ++ writes_response id content.now number) }
    ensures err { OnErr result (KeepsFront out.old.items out.new.items) }
{
    let exts = kept_exts(*out.allocator(), content.extras(), Target::Best, &None)?;
    put_numbered(out, RESPONSE, id, content, &exts, number)
}

/// A message with an id of its own, which stands behind the header.
fn put_numbered(
    out: &mut Vec<u8>,
    message: u8,
    id: u32,
    content: &content::Content,
    exts: &[Ext],
    number: u16,
) -> Result<(), AllocError>
    requires fit { All ExtFits exts.now }
    requires ascending { ascends_from 0 exts.now ≡ true }
    ensures ok { OnOk result (out.new.items ≡ out.old.items ++ writes_keyed message number exts.now ∷ (writes id ++ writes_content content.now exts.now number)) }
    ensures err { OnErr result (KeepsFront out.old.items out.new.items) }
{
    out.push(keyed(message, number, exts))?;
    put_zint(out, u64::from(id))?;
    put_content(out, content, exts, number)
}

fn put_final(out: &mut Vec<u8>, id: u32, extras: &Extras) -> Result<(), AllocError>
    requires stamp { TextFits extras.now.stamp }
    requires responder { TextFits extras.now.responder }
    ensures ok { OnOk result (out.new.items ≡ out.old.items ++ writes_final id extras.now) }
    ensures err { OnErr result (KeepsFront out.old.items out.new.items) }
{
    let exts = kept_exts(*out.allocator(), extras, Target::Best, &None)?;
    put_last(out, id, &exts)
}

fn put_last(out: &mut Vec<u8>, id: u32, exts: &[Ext]) -> Result<(), AllocError>
    requires fit { All ExtFits exts.now }
    requires ascending { ascends_from 0 exts.now ≡ true }
    ensures ok { OnOk result (out.new.items ≡ out.old.items ++ writes_header 0x1A false false (has_any exts.now) ∷ (writes id ++ writes_chain exts.now)) }
    ensures err { OnErr result (KeepsFront out.old.items out.new.items) }
{
    out.push(header_byte(RESPONSE_FINAL, false, false, has_any(exts)))?;
    put_zint(out, u64::from(id))?;
    put_chain(out, exts)
}

/// The header of a message with a key.
fn keyed(id: u8, number: u16, exts: &[Ext]) -> u8
    ensures { result ≡ writes_keyed id number exts.now }
{
    header_byte(id, number == 0, number != 0, has_any(exts))
}

fn has_any(exts: &[Ext]) -> bool
    ensures { result ≡ has_any exts.now }
{
    match exts {
        [] => false,
        [_, ..] => true,
    }
}

/// The key, the extensions and the body.
fn put_content(
    out: &mut Vec<u8>,
    content: &content::Content,
    exts: &[Ext],
    number: u16,
) -> Result<(), AllocError>
    requires fit { All ExtFits exts.now }
    requires ascending { ascends_from 0 exts.now ≡ true }
    ensures ok { OnOk result (out.new.items ≡ out.old.items ++ writes_content content.now exts.now number) }
    ensures err { OnErr result (KeepsFront out.old.items out.new.items) }
{
    write_key(out, content.key(), number)?;
    put_chain(out, exts)?;
    write_body(out, content.body())
}

fn put_chain(out: &mut Vec<u8>, exts: &[Ext]) -> Result<(), AllocError>
    requires fit { All ExtFits exts.now }
    requires ascending { ascends_from 0 exts.now ≡ true }
    ensures ok { OnOk result (out.new.items ≡ out.old.items ++ writes_chain exts.now) }
    ensures err { OnErr result (out.new.items ≡ out.old.items) }
{
    match exts {
        [] => Ok(()),
        [_, ..] => write_chain(out, exts),
    }
}

/// The extensions of a message in ascending order of their ids.
fn kept_exts(
    alloc: Global,
    extras: &Extras,
    target: Target,
    tree: &Option<Zid>,
) -> Result<Vec<Ext>, AllocError>
    requires stamp { TextFits extras.now.stamp }
    requires responder { TextFits extras.now.responder }
    ensures items { IfOk result (λ exts. exts.items ≡ kept_exts extras.now target tree.now) }
    ensures fit { IfOk result (λ exts. All ExtFits exts.items) }
    ensures ascending { IfOk result (λ exts. ascends_from 0 exts.items ≡ true) }
{
    let exts = each_ext(alloc, extras, target, tree)?;
    Ok(exts)
}

fn each_ext(
    alloc: Global,
    extras: &Extras,
    target: Target,
    tree: &Option<Zid>,
) -> Result<Vec<Ext>, AllocError>
    requires stamp { TextFits extras.now.stamp }
    requires responder { TextFits extras.now.responder }
    ensures items { IfOk result (λ exts. exts.items ≡ kept_exts extras.now target tree.now) }
    ensures fit { IfOk result (λ exts. All ExtFits exts.items) }
{
    let mut exts = Vec::new(alloc);
    put_origin(&mut exts, extras)?;
    put_request_exts(&mut exts, extras, target)?;
    put_tree(&mut exts, tree)?;
    Ok(exts)
}

/// The quality of service, the timestamp and the responder.
fn put_origin(exts: &mut Vec<Ext>, extras: &Extras) -> Result<(), AllocError>
    requires stamp { TextFits extras.now.stamp }
    requires responder { TextFits extras.now.responder }
    requires fit { All ExtFits exts.old.items }
    ensures items { OnOk result (exts.new.items ≡ exts.old.items ++ (number_ext 1 (has_flag extras.now.marks 0x02) extras.now.qos ++ (bytes_ext 2 (has_flag extras.now.marks 0x04) extras.now.stamp ++ bytes_ext 3 (has_flag extras.now.marks 0x08) extras.now.responder))) }
    ensures fits { OnOk result (All ExtFits exts.new.items) }
{
    let marks = extras.marks;
    put_number(exts, QOS, marks & QOS_MARK != 0, extras.qos)?;
    put_bytes(exts, TIMESTAMP, marks & TIMESTAMP_MARK != 0, &extras.stamp)?;
    put_bytes(
        exts,
        RESPONDER,
        marks & RESPONDER_MARK != 0,
        &extras.responder,
    )
}

/// The target, the budget and the timeout.
fn put_request_exts(exts: &mut Vec<Ext>, extras: &Extras, target: Target) -> Result<(), AllocError>
    requires fit { All ExtFits exts.old.items }
    ensures items { OnOk result (exts.new.items ≡ exts.old.items ++ (number_ext 4 (has_flag extras.now.marks 0x10) (target_number target) ++ (number_ext 5 (has_flag extras.now.marks 0x20) extras.now.budget ++ number_ext 6 (has_flag extras.now.marks 0x40) extras.now.timeout))) }
    ensures fits { OnOk result (All ExtFits exts.new.items) }
{
    let marks = extras.marks;
    put_number(exts, TARGET, marks & TARGET_MARK != 0, number_of(target))?;
    put_number(exts, BUDGET, marks & BUDGET_MARK != 0, extras.budget)?;
    put_number(exts, TIMEOUT, marks & TIMEOUT_MARK != 0, extras.timeout)
}

/// The number of a target. The best matching one is written as absent.
fn number_of(target: Target) -> Option<u64>
    ensures { result ≡ target_number target }
{
    match target {
        Target::Best => None,
        Target::All => Some(ALL),
        Target::Complete => Some(COMPLETE),
    }
}

fn put_number(
    exts: &mut Vec<Ext>,
    id: u8,
    mandatory: bool,
    value: Option<u64>,
) -> Result<(), AllocError>
    requires small { id < 16 }
    requires fit { All ExtFits exts.old.items }
    ensures items { OnOk result (exts.new.items ≡ exts.old.items ++ number_ext id mandatory value) }
    ensures fits { OnOk result (All ExtFits exts.new.items) }
{
    if let Some(value) = value {
        exts.push(Ext {
            id,
            mandatory,
            content: Content::Number(value),
        })?;
    }
    Ok(())
}

fn put_bytes(
    exts: &mut Vec<Ext>,
    id: u8,
    mandatory: bool,
    value: &Option<ByteString>,
) -> Result<(), AllocError>
    requires small { id < 16 }
    requires text { TextFits value.now }
    requires fit { All ExtFits exts.old.items }
    ensures items { OnOk result (exts.new.items ≡ exts.old.items ++ bytes_ext id mandatory value.now) }
    ensures fits { OnOk result (All ExtFits exts.new.items) }
{
    if let Some(value) = value {
        let copy = value.copy(*exts.allocator())?;
        exts.push(Ext {
            id,
            mandatory,
            content: Content::Bytes(copy),
        })?;
    }
    Ok(())
}

/// The root of the tree, which is mandatory.
fn put_tree(exts: &mut Vec<Ext>, tree: &Option<Zid>) -> Result<(), AllocError>
    requires fit { All ExtFits exts.old.items }
    ensures items { OnOk result (exts.new.items ≡ exts.old.items ++ bytes_ext 7 true tree.now) }
    ensures fits { OnOk result (All ExtFits exts.new.items) }
{
    if let Some(root) = tree {
        let bytes = ByteString::from_slice(*exts.allocator(), root.bytes())?;
        exts.push(Ext {
            id: TREE,
            mandatory: true,
            content: Content::Bytes(bytes),
        })?;
    }
    Ok(())
}
