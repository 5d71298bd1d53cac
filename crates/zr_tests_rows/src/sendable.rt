//! Messages that a client or a router may send, each by its name: on the key `a/b`, under the number 1.

ghost use Rattle.std.specs.Prelude.{IfOk};
ghost use Rattle.zr_law_sent.specs.Passing.{IsPassable};
ghost use Rattle.zr_tests_rows.specs.Sendable.{IsPlain};

use crate::bodies;
use crate::row::{self, Fault};
use std::alloc::{AllocError, Global};
use zr_body::{Body, Place};
use zr_id::record::LinkRecord;
use zr_id::zid::Zid;
use zr_key::key::KeyExpr;
use zr_msg::content::Content;
use zr_msg::decl::{Decl, Decls, Kind};
use zr_msg::extras::Extras;
use zr_msg::msg::{Kinds, Msg, SUBSCRIBERS, Target};
use zr_msg::shared::Shared;

const ID: u32 = 1;

/// How many bytes a body may have.
const MOST_BYTES: usize = 4_096;

/// The message of this name; behind a colon stands the body of those that have one. A router's go along a tree.
pub fn message(alloc: Global, parts: &[&str], tree: Option<Zid>) -> Result<Msg, Fault>
    ensures { IfOk result (λ m. IsPassable m) }
{
    let name = row::word(parts, 0);
    match name {
        "push" | "request" | "reply" => {
            let bytes = row::bytes(alloc, parts, 1)?;
            routed(alloc, name, &bytes, tree)
        }
        "final" => last(alloc),
        "state" | "step" | "snap" => flooded(alloc, name),
        _ => declared(name, KeyExpr::read(alloc, b"a/b")?),
    }
}

fn declared(name: &str, key: KeyExpr) -> Result<Msg, Fault>
    ensures { IfOk result (λ m. IsPassable m) }
{
    match name {
        "sub" => Ok(Msg::Sub { id: ID, key }),
        "token" => Ok(Msg::Token { id: ID, key }),
        "able" => Ok(Msg::Able {
            id: ID,
            key,
            complete: true,
        }),
        "interest" => Ok(interest(key)),
        _ => taken_back(name),
    }
}

fn interest(key: KeyExpr) -> Msg
    ensures { IsPassable result }
{
    Msg::Interest {
        id: ID,
        current: true,
        future: true,
        kinds: Kinds(SUBSCRIBERS),
        key: Some(key),
        aggregate: true,
    }
}

fn taken_back(name: &str) -> Result<Msg, Fault>
    ensures { IfOk result (λ m. IsPassable m) }
{
    match name {
        "unsub" => Ok(Msg::Unsub { id: ID }),
        "untoken" => Ok(Msg::Untoken { id: ID }),
        "unable" => Ok(Msg::Unable { id: ID }),
        "uninterest" => Ok(Msg::EndInterest { id: ID }),
        _ => Err(Fault::Row),
    }
}

fn last(alloc: Global) -> Result<Msg, Fault>
    ensures { IfOk result (λ m. IsPassable m) }
{
    let extras = Shared::new(alloc, Extras::none())?;
    Ok(Msg::Final { id: ID, extras })
}

#[tactic(auto, using(crate::proofs::Passing::push_passes, crate::proofs::Passing::request_passes, crate::proofs::Passing::response_passes))]
fn routed(alloc: Global, name: &str, bytes: &[u8], tree: Option<Zid>) -> Result<Msg, Fault>
    ensures { IfOk result (λ m. IsPassable m) }
{
    match name {
        "push" => Ok(Msg::Push {
            tree,
            content: content(alloc, bytes, Place::Push)?,
        }),
        "request" => Ok(Msg::Request {
            tree,
            id: ID,
            target: Target::All,
            content: content(alloc, bytes, Place::Request)?,
        }),
        _ => Ok(Msg::Response {
            id: ID,
            content: content(alloc, bytes, Place::Response)?,
        }),
    }
}

// No more bytes than a line of a script has.
fn content(alloc: Global, bytes: &[u8], place: Place) -> Result<Content, Fault>
    ensures { IfOk result (λ c. IsPlain place c) }
{
    if bytes.len() > MOST_BYTES {
        return Err(Fault::Row);
    }
    let body = bodies::body(alloc, bytes, place)?;
    let key = KeyExpr::read(alloc, b"a/b")?;
    Ok(Content::new(alloc, key, Extras::none(), body)?)
}

fn flooded(alloc: Global, name: &str) -> Result<Msg, Fault>
    ensures { IfOk result (λ m. IsPassable m) }
{
    let source = Zid::from_bytes(&[1])?;
    match name {
        "state" => state(alloc, source),
        _ => entered(alloc, name, source),
    }
}

fn state(alloc: Global, id: Zid) -> Result<Msg, Fault>
    ensures { IfOk result (λ m. IsPassable m) }
{
    let record = LinkRecord::new(id, 1, Vec::new(alloc));
    Ok(Msg::State {
        links: Shared::new(alloc, record)?,
    })
}

fn entered(alloc: Global, name: &str, source: Zid) -> Result<Msg, Fault>
    ensures { IfOk result (λ m. IsPassable m) }
{
    let decl = Decl {
        kind: Kind::Sub,
        key: KeyExpr::read(alloc, b"a/b")?,
    };
    match name {
        "step" => step(alloc, source, decl),
        _ => snap(alloc, source, decl),
    }
}

fn step(alloc: Global, source: Zid, decl: Decl) -> Result<Msg, Fault>
    ensures { IfOk result (λ m. IsPassable m) }
{
    Ok(Msg::Step {
        source,
        number: 1,
        added: true,
        decl: Shared::new(alloc, decl)?,
    })
}

fn snap(alloc: Global, source: Zid, decl: Decl) -> Result<Msg, Fault>
    ensures { IfOk result (λ m. IsPassable m) }
{
    // Read, so that the proof knows how long it is.
    let _text = decl.key.text();
    let mut decls = Vec::new(alloc);
    decls.push(decl)?;
    Ok(Msg::Snap {
        source,
        number: 1,
        decls: Decls::new(decls)?,
    })
}
