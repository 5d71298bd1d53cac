//! Messages as text: each field that it has, its key as text and its body as hex digits.

use crate::row;
use std::alloc::{AllocError, Global};
use zr_bytes::ReadError;
use zr_decl::Declared;
use zr_id::record::{LinkRecord, Linked};
use zr_id::zid::Zid;
use zr_key::key::KeyExpr;
use zr_msg::content::Content;
use zr_msg::decl::Decl;
use zr_msg::extras::Extras;
use zr_msg::msg::{Msg, Target};

/// What was read, or why nothing was.
pub fn read(alloc: Global, read: &Result<Declared, ReadError>) -> Result<String, AllocError> {
    match read {
        Ok(Declared::Told(msg)) => message(alloc, msg),
        Ok(Declared::Number(number, text)) => scope(alloc, *number, text.as_slice()),
        Ok(Declared::Unnumber(number)) => format!(in alloc; "unnumber {number}"),
        Ok(Declared::Ignored) => String::from_str(alloc, "ignored"),
        Err(e) => format!(in alloc; "{e:?}"),
    }
}

fn scope(alloc: Global, number: u16, text: &[u8]) -> Result<String, AllocError> {
    let digits = row::digits(alloc, text)?;
    format!(in alloc; "number {number} {digits}")
}

/// A message.
pub fn message(alloc: Global, msg: &Msg) -> Result<String, AllocError> {
    match msg {
        Msg::Push { tree, content } => push(alloc, *tree, content),
        Msg::Request {
            tree,
            id,
            target,
            content,
        } => request(alloc, *tree, *id, *target, content),
        Msg::Response { id, content } => reply(alloc, *id, content),
        Msg::Final { id, extras } => last(alloc, *id, extras.get()),
        Msg::State { .. } | Msg::Step { .. } | Msg::Snap { .. } => between_routers(alloc, msg),
        Msg::Sub { .. }
        | Msg::Unsub { .. }
        | Msg::Token { .. }
        | Msg::Untoken { .. }
        | Msg::Able { .. }
        | Msg::Unable { .. }
        | Msg::Interest { .. }
        | Msg::EndInterest { .. }
        | Msg::ToldSub { .. }
        | Msg::ToldAble { .. }
        | Msg::ToldUnsub { .. }
        | Msg::ToldToken { .. }
        | Msg::ToldUntoken { .. }
        | Msg::ToldUnable { .. }
        | Msg::ToldEnd { .. } => declared(alloc, msg),
    }
}

fn push(alloc: Global, tree: Option<Zid>, content: &Content) -> Result<String, AllocError> {
    let content = carried(alloc, content)?;
    format!(in alloc; "push {tree:?} {content}")
}

fn request(
    alloc: Global,
    tree: Option<Zid>,
    id: u32,
    target: Target,
    content: &Content,
) -> Result<String, AllocError> {
    let content = carried(alloc, content)?;
    format!(in alloc; "request {id} {tree:?} {target:?} {content}")
}

fn reply(alloc: Global, id: u32, content: &Content) -> Result<String, AllocError> {
    let content = carried(alloc, content)?;
    format!(in alloc; "reply {id} {content}")
}

fn last(alloc: Global, id: u32, extras: &Extras) -> Result<String, AllocError> {
    let extras = extensions(alloc, extras)?;
    format!(in alloc; "final {id}{extras}")
}

// A declaration or an interest of a client. It is told nothing that is read here.
fn declared(alloc: Global, msg: &Msg) -> Result<String, AllocError> {
    match msg {
        Msg::Sub { id, key } => keyed(alloc, "sub", *id, key),
        Msg::Unsub { id } => numbered(alloc, "unsub", *id),
        Msg::Token { id, key } => keyed(alloc, "token", *id, key),
        Msg::Untoken { id } => numbered(alloc, "untoken", *id),
        Msg::Able { id, key, complete } => able(alloc, *id, key, *complete),
        Msg::Unable { id } => numbered(alloc, "unable", *id),
        Msg::Interest {
            id,
            current,
            future,
            kinds,
            key,
            aggregate,
        } => interest(alloc, *id, (*current, *future), kinds.0, key, *aggregate),
        Msg::EndInterest { id } => numbered(alloc, "end", *id),
        _ => Ok(String::new(alloc)),
    }
}

fn numbered(alloc: Global, word: &str, id: u32) -> Result<String, AllocError> {
    format!(in alloc; "{word} {id}")
}

fn keyed(alloc: Global, word: &str, id: u32, key: &KeyExpr) -> Result<String, AllocError> {
    format!(in alloc; "{word} {id} {}", key.text())
}

fn able(alloc: Global, id: u32, key: &KeyExpr, complete: bool) -> Result<String, AllocError> {
    format!(in alloc; "able {id} {} complete {complete}", key.text())
}

fn interest(
    alloc: Global,
    id: u32,
    when: (bool, bool),
    kinds: u8,
    key: &Option<KeyExpr>,
    aggregate: bool,
) -> Result<String, AllocError> {
    let key = text_of(key);
    format!(in alloc; "interest {id} {when:?} {kinds} {key:?} aggregate {aggregate}")
}

fn text_of(key: &Option<KeyExpr>) -> Option<&str> {
    match key {
        Some(key) => Some(key.text()),
        None => None,
    }
}

fn between_routers(alloc: Global, msg: &Msg) -> Result<String, AllocError> {
    match msg {
        Msg::State { links } => record(alloc, links.get()),
        Msg::Step {
            source,
            number,
            added,
            decl,
        } => entry(alloc, *source, *number, *added, decl.get()),
        Msg::Snap {
            source,
            number,
            decls,
        } => snapshot(alloc, *source, *number, decls.as_slice()),
        _ => Ok(String::new(alloc)),
    }
}

fn record(alloc: Global, record: &LinkRecord) -> Result<String, AllocError> {
    let (id, number) = (record.id(), record.seq());
    let mut out = format!(in alloc; "record {id:?} {number} [")?;
    let mut is_first = true;
    for link in record.links() {
        out.push_str(if is_first { "" } else { ", " })?;
        out.push_str(&linked(alloc, link)?)?;
        is_first = false;
    }
    out.push_str("]")?;
    Ok(out)
}

// A link of a record, with its weight where that isn't 1.
fn linked(alloc: Global, link: &Linked) -> Result<String, AllocError> {
    let (id, weight) = (link.id, link.weight);
    if weight == 1 {
        format!(in alloc; "{id:?}")
    } else {
        format!(in alloc; "{id:?}*{weight}")
    }
}

fn entry(
    alloc: Global,
    source: Zid,
    number: u64,
    added: bool,
    decl: &Decl,
) -> Result<String, AllocError> {
    let decl = declaration(alloc, decl)?;
    format!(in alloc; "entry {source:?} {number} added {added}{decl}")
}

fn snapshot(alloc: Global, source: Zid, number: u64, decls: &[Decl]) -> Result<String, AllocError> {
    let mut out = format!(in alloc; "snapshot {source:?} {number}")?;
    for decl in decls {
        out.push_str(&declaration(alloc, decl)?)?;
    }
    Ok(out)
}

fn declaration(alloc: Global, decl: &Decl) -> Result<String, AllocError> {
    let kind = decl.kind;
    format!(in alloc; " {kind:?} {}", decl.key.text())
}

// Its key, its body, and the extensions that it has.
fn carried(alloc: Global, content: &Content) -> Result<String, AllocError> {
    let body = row::digits(alloc, content.body().as_slice())?;
    let extras = extensions(alloc, content.extras())?;
    format!(in alloc; "{} {body}{extras}", content.key().text())
}

// Nothing where there are none.
fn extensions(alloc: Global, extras: &Extras) -> Result<String, AllocError> {
    let (qos, budget, timeout, marks) = (extras.qos, extras.budget, extras.timeout, extras.marks);
    if qos.is_none() && budget.is_none() && timeout.is_none() && marks == 0 {
        return Ok(String::new(alloc));
    }
    format!(in alloc; " qos {qos:?} budget {budget:?} timeout {timeout:?} marks {marks}")
}
