//! Reading a network message.

ghost use Rattle.std.specs.Prelude.{◌≡◌, IfOk};
ghost use Rattle.zr_bytes.specs.Reading.{Keeps, Steps};
ghost use Rattle.zr_format_spec.specs.Reading.{exts_of};
ghost use Rattle.zr_net.specs.Exts.{push_known, request_known, response_known, final_known};
ghost use Rattle.zr_net.specs.Reading.{content_of, sample_of, push_of, question_of, request_of, reply_of, response_of, final_of, declared_of, told_of, behind_of, net_of};
ghost use Rattle.zr_net.specs.Writing.{ToldFits};

use crate::exts;
use crate::parts::{
    BUDGET, PUSH, REQUEST, RESPONDER, RESPONSE, RESPONSE_FINAL, TARGET, TIMEOUT, TREE,
};
use std::alloc::{AllocError, Global};
use zr_body::{Body, Place, read_body};
use zr_bytes::{Cursor, ReadError};
use zr_decl::{
    Declared, INTEREST, NODE_ID, QOS, TIMESTAMP, read_asked, read_declare, read_wire_key,
};
use zr_ext::{Ext, Form};
use zr_format_spec::header::ID;
use zr_format_spec::read_extensions;
use zr_key::key::KeyExpr;
use zr_msg::content::Content;
use zr_msg::msg::Msg;
use zr_msg::peer::Role;
use zr_msg::shared::Shared;
use zr_wirekey::{DECLARE, Scopes};

/// The network message at the front (Zenoh protocol 1.0, "Network messages"), of a sender of this role that declared `theirs` to a receiver that
/// declared `ours`. The tree of a message is known from routers alone. `UnknownId` is for any other message, those between routers
/// among them. What was told can be written.
pub fn read_net(
    alloc: Global,
    c: &mut Cursor<'_>,
    theirs: &Scopes,
    ours: &Scopes,
    role: Role,
) -> Result<Declared, ReadError>
    ensures value { Keeps (λ d. d) result (net_of role theirs.now ours.now c.old) c.old c.new }
    ensures fits { IfOk result (λ d. ToldFits d) }
{
    let mut ahead = c.fork();
    let declared = message(alloc, &mut ahead, theirs, ours, role)?;
    *c = ahead;
    Ok(declared)
}

#[tactic(auto, unfolding(crate::specs::Reading::net_of))]
fn message(
    alloc: Global,
    c: &mut Cursor<'_>,
    theirs: &Scopes,
    ours: &Scopes,
    role: Role,
) -> Result<Declared, ReadError>
    ensures { Steps (λ d. d) result (net_of role theirs.now ours.now c.old) c.new }
{
    let header = c.u8()?;
    behind(alloc, c, theirs, ours, role, header)
}

#[tactic(auto, unfolding(crate::specs::Reading::behind_of))]
fn behind(
    alloc: Global,
    c: &mut Cursor<'_>,
    theirs: &Scopes,
    ours: &Scopes,
    role: Role,
    header: u8,
) -> Result<Declared, ReadError>
    ensures { Steps (λ d. d) result (behind_of role theirs.now ours.now header c.old) c.new }
{
    match header & ID {
        PUSH => push(alloc, c, theirs, ours, role, header),
        REQUEST => request(alloc, c, theirs, ours, role, header),
        RESPONSE => response(alloc, c, theirs, ours, header),
        RESPONSE_FINAL => last(alloc, c, header),
        DECLARE => declared(alloc, c, theirs, ours, header),
        INTEREST => told(alloc, c, theirs, ours, header),
        _ => Err(ReadError::UnknownId),
    }
}

#[tactic(auto, unfolding(crate::specs::Reading::push_of))]
fn push(
    alloc: Global,
    c: &mut Cursor<'_>,
    theirs: &Scopes,
    ours: &Scopes,
    role: Role,
    header: u8,
) -> Result<Declared, ReadError>
    ensures { Steps (λ d. d) result (push_of role theirs.now ours.now header c.old) c.new }
{
    let key = read_wire_key(alloc, c, theirs, ours, header)?;
    let exts = push_extensions(alloc, c, role, header)?;
    sample(alloc, c, key, &exts)
}

/// A PUSH behind its key and its extensions.
#[tactic(auto, unfolding(crate::specs::Reading::sample_of))]
fn sample(
    alloc: Global,
    c: &mut Cursor<'_>,
    key: KeyExpr,
    exts: &[Ext],
) -> Result<Declared, ReadError>
    ensures { Steps (λ d. d) result (sample_of key exts.now c.old) c.new }
{
    let tree = exts::tree(exts)?;
    let body = read_body(alloc, c, Place::Push)?;
    let content = content(alloc, key, exts, body)?;
    Ok(Declared::Told(Msg::Push { tree, content }))
}

fn content(alloc: Global, key: KeyExpr, exts: &[Ext], body: Body) -> Result<Content, AllocError>
    ensures { IfOk result (λ c. c ≡ content_of key exts.now body) }
{
    let extras = exts::extras(alloc, exts)?;
    Content::new(alloc, key, extras, body)
}

#[tactic(auto, unfolding(crate::specs::Reading::request_of))]
fn request(
    alloc: Global,
    c: &mut Cursor<'_>,
    theirs: &Scopes,
    ours: &Scopes,
    role: Role,
    header: u8,
) -> Result<Declared, ReadError>
    ensures { Steps (λ d. d) result (request_of role theirs.now ours.now header c.old) c.new }
{
    let id = c.z32()?;
    let key = read_wire_key(alloc, c, theirs, ours, header)?;
    let exts = request_extensions(alloc, c, role, header)?;
    question(alloc, c, id, key, &exts)
}

/// A REQUEST behind its key and its extensions.
#[tactic(auto, unfolding(crate::specs::Reading::question_of))]
fn question(
    alloc: Global,
    c: &mut Cursor<'_>,
    id: u32,
    key: KeyExpr,
    exts: &[Ext],
) -> Result<Declared, ReadError>
    ensures { Steps (λ d. d) result (question_of id key exts.now c.old) c.new }
{
    let tree = exts::tree(exts)?;
    let target = exts::target(exts)?;
    let body = read_body(alloc, c, Place::Request)?;
    let content = content(alloc, key, exts, body)?;
    Ok(Declared::Told(Msg::Request {
        tree,
        id,
        target,
        content,
    }))
}

#[tactic(auto, unfolding(crate::specs::Reading::response_of))]
fn response(
    alloc: Global,
    c: &mut Cursor<'_>,
    theirs: &Scopes,
    ours: &Scopes,
    header: u8,
) -> Result<Declared, ReadError>
    ensures { Steps (λ d. d) result (response_of theirs.now ours.now header c.old) c.new }
{
    let id = c.z32()?;
    let key = read_wire_key(alloc, c, theirs, ours, header)?;
    let exts = response_extensions(alloc, c, header)?;
    reply(alloc, c, id, key, &exts)
}

/// A RESPONSE behind its key and its extensions.
#[tactic(auto, unfolding(crate::specs::Reading::reply_of))]
fn reply(
    alloc: Global,
    c: &mut Cursor<'_>,
    id: u32,
    key: KeyExpr,
    exts: &[Ext],
) -> Result<Declared, ReadError>
    ensures { Steps (λ d. d) result (reply_of id key exts.now c.old) c.new }
{
    let body = read_body(alloc, c, Place::Response)?;
    let content = content(alloc, key, exts, body)?;
    Ok(Declared::Told(Msg::Response { id, content }))
}

#[tactic(auto, unfolding(crate::specs::Reading::final_of))]
fn last(alloc: Global, c: &mut Cursor<'_>, header: u8) -> Result<Declared, ReadError>
    ensures { Steps (λ d. d) result (final_of header c.old) c.new }
{
    let id = c.z32()?;
    let exts = final_extensions(alloc, c, header)?;
    let extras = exts::extras(alloc, &exts)?;
    Ok(Declared::Told(Msg::Final {
        id,
        extras: Shared::new(alloc, extras)?,
    }))
}

#[tactic(auto, unfolding(crate::specs::Reading::declared_of))]
fn declared(
    alloc: Global,
    c: &mut Cursor<'_>,
    theirs: &Scopes,
    ours: &Scopes,
    header: u8,
) -> Result<Declared, ReadError>
    ensures { Steps (λ d. d) result (declared_of theirs.now ours.now header c.old) c.new }
{
    let (declared, _) = read_declare(alloc, c, theirs, ours, header)?;
    Ok(declared)
}

#[tactic(auto, unfolding(crate::specs::Reading::told_of))]
fn told(
    alloc: Global,
    c: &mut Cursor<'_>,
    theirs: &Scopes,
    ours: &Scopes,
    header: u8,
) -> Result<Declared, ReadError>
    ensures { Steps (λ d. d) result (told_of theirs.now ours.now header c.old) c.new }
{
    let msg = read_asked(alloc, c, theirs, ours, header)?;
    Ok(Declared::Told(msg))
}

fn push_extensions(
    alloc: Global,
    c: &mut Cursor<'_>,
    role: Role,
    header: u8,
) -> Result<Vec<Ext>, ReadError>
    ensures { Steps (λ exts. exts.items) result (exts_of (push_known role) header c.old) c.new }
{
    let known = [
        (QOS, Form::Number),
        (TIMESTAMP, Form::Bytes),
        (NODE_ID, Form::Number),
        (TREE, Form::Bytes),
    ];
    match role {
        Role::Client => read_extensions(alloc, c, header, &known[..3]),
        Role::Router => read_extensions(alloc, c, header, &known),
    }
}

fn request_extensions(
    alloc: Global,
    c: &mut Cursor<'_>,
    role: Role,
    header: u8,
) -> Result<Vec<Ext>, ReadError>
    ensures { Steps (λ exts. exts.items) result (exts_of (request_known role) header c.old) c.new }
{
    let known = [
        (QOS, Form::Number),
        (TIMESTAMP, Form::Bytes),
        (NODE_ID, Form::Number),
        (TARGET, Form::Number),
        (BUDGET, Form::Number),
        (TIMEOUT, Form::Number),
        (TREE, Form::Bytes),
    ];
    match role {
        Role::Client => read_extensions(alloc, c, header, &known[..6]),
        Role::Router => read_extensions(alloc, c, header, &known),
    }
}

fn response_extensions(alloc: Global, c: &mut Cursor<'_>, header: u8) -> Result<Vec<Ext>, ReadError>
    ensures { Steps (λ exts. exts.items) result (exts_of response_known header c.old) c.new }
{
    let known = [
        (QOS, Form::Number),
        (TIMESTAMP, Form::Bytes),
        (RESPONDER, Form::Bytes),
    ];
    read_extensions(alloc, c, header, &known)
}

fn final_extensions(alloc: Global, c: &mut Cursor<'_>, header: u8) -> Result<Vec<Ext>, ReadError>
    ensures { Steps (λ exts. exts.items) result (exts_of final_known header c.old) c.new }
{
    let known = [(QOS, Form::Number), (TIMESTAMP, Form::Bytes)];
    read_extensions(alloc, c, header, &known)
}
