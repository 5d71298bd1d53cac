//! Messages on a link.

ghost use Rattle.std.specs.Prelude.{◌≡◌, IfOk};
ghost use Rattle.zr_msg.specs.Groups.{group_of};

use crate::content::Content;
use crate::decl::{Decl, Decls};
use crate::extras::Extras;
use crate::shared::Shared;
use std::alloc::{AllocError, Global};
use zr_id::record::LinkRecord;
use zr_id::zid::Zid;
use zr_key::key::KeyExpr;

/// What an interest is in: the sum of some of the constants below (Zenoh protocol 1.0, "INTEREST").
#[derive(Clone, Copy, Debug, PartialEq, Eq)]
pub struct Kinds(pub u8);

/// The bit of key expressions.
pub const KEYS: u8 = 1;

/// The bit of subscribers.
pub const SUBSCRIBERS: u8 = 2;

/// The bit of queryables.
pub const QUERYABLES: u8 = 4;

/// The bit of liveliness tokens.
pub const TOKENS: u8 = 8;

/// Which queryables are to answer a request (Zenoh protocol 1.0, "REQUEST").
#[derive(Clone, Copy, Debug, PartialEq, Eq)]
pub enum Target {
    /// The best matching one, for which all are taken.
    Best,
    /// All whose expression meets the key.
    All,
    /// All complete ones.
    Complete,
}

/// What a message is about, and so between whom it goes.
#[derive(Clone, Copy, Debug, PartialEq, Eq)]
pub enum Group {
    /// What a client declares, or no longer declares.
    Declared,
    /// What a client is told of others' declarations.
    Told,
    /// A sample, a request or what answers it, which goes along routes.
    Routed,
    /// What routers tell each other of links and declarations.
    Flooded,
}

/// A message on a link (Zenoh protocol 1.0, "Network messages").
#[derive(Debug)]
pub enum Msg {
    /// A client subscribes to an expression, under an id of its own.
    Sub {
        id: u32,
        key: KeyExpr,
    },
    /// A client no longer subscribes to what it declared under the id.
    Unsub {
        id: u32,
    },
    /// A client declares a liveliness token on an expression, under an id of its own.
    Token {
        id: u32,
        key: KeyExpr,
    },
    /// A client takes back the token that it declared under the id.
    Untoken {
        id: u32,
    },
    /// A client answers requests on an expression, under an id of its own.
    Able {
        id: u32,
        key: KeyExpr,
        complete: bool,
    },
    /// A client no longer answers what it declared under the id.
    Unable {
        id: u32,
    },
    /// A client wants to be told what others declare: what is declared now, later, or both.
    Interest {
        id: u32,
        current: bool,
        future: bool,
        kinds: Kinds,
        key: Option<KeyExpr>,
        aggregate: bool,
    },
    /// A client no longer wants to be told what the interest was in.
    EndInterest {
        id: u32,
    },
    /// A client is told of a subscriber, in answer to an interest where it has one.
    ToldSub {
        id: u32,
        key: KeyExpr,
        interest: Option<u32>,
    },
    /// A client is told of a queryable, in answer to an interest where it has one.
    ToldAble {
        id: u32,
        key: KeyExpr,
        complete: bool,
        interest: Option<u32>,
    },
    /// A client is told that a subscriber is gone.
    ToldUnsub {
        id: u32,
    },
    /// A client is told that a queryable is gone.
    ToldUnable {
        id: u32,
    },
    /// A client is told of a liveliness token, in answer to an interest where it has one.
    ToldToken {
        id: u32,
        key: KeyExpr,
        interest: Option<u32>,
    },
    /// A client is told that a liveliness token is gone.
    ToldUntoken {
        id: u32,
    },
    /// A client was told all that is declared now.
    ToldEnd {
        interest: u32,
    },
    /// A sample. Between routers it names the root of the tree along which it goes.
    Push {
        tree: Option<Zid>,
        content: Content,
    },
    /// A request. Between routers it names the root of the tree along which it goes.
    Request {
        tree: Option<Zid>,
        id: u32,
        target: Target,
        content: Content,
    },
    /// A reply to a request.
    Response {
        id: u32,
        content: Content,
    },
    /// No more replies come to a request.
    Final {
        id: u32,
        extras: Shared<Extras>,
    },
    /// The links of a router, from one router to another.
    State {
        links: Shared<LinkRecord>,
    },
    /// One change of what a router's clients declare, from one router to another.
    Step {
        source: Zid,
        number: u64,
        added: bool,
        decl: Shared<Decl>,
    },
    /// All that a router's clients declare, from one router to another.
    Snap {
        source: Zid,
        number: u64,
        decls: Decls,
    },
}

// Written out, so that it is proved here, and not by each crate that lets one go. It names each part of each message, so it is long.
impl Drop for Msg {
    fn drop(self) {
        match self {
            Self::Sub { id: _id, key: _key } => (),
            Self::Unsub { id: _id } => (),
            Self::Token { id: _id, key: _key } => (),
            Self::Untoken { id: _id } => (),
            Self::Able {
                id: _id,
                key: _key,
                complete: _complete,
            } => (),
            Self::Unable { id: _id } => (),
            Self::Interest {
                id: _id,
                current: _current,
                future: _future,
                kinds: _kinds,
                key: _key,
                aggregate: _aggregate,
            } => (),
            Self::EndInterest { id: _id } => (),
            Self::ToldSub {
                id: _id,
                key: _key,
                interest: _interest,
            } => (),
            Self::ToldAble {
                id: _id,
                key: _key,
                complete: _complete,
                interest: _interest,
            } => (),
            Self::ToldUnsub { id: _id } => (),
            Self::ToldUnable { id: _id } => (),
            Self::ToldToken {
                id: _id,
                key: _key,
                interest: _interest,
            } => (),
            Self::ToldUntoken { id: _id } => (),
            Self::ToldEnd {
                interest: _interest,
            } => (),
            Self::Push {
                tree: _tree,
                content: _content,
            } => (),
            Self::Request {
                tree: _tree,
                id: _id,
                target: _target,
                content: _content,
            } => (),
            Self::Response {
                id: _id,
                content: _content,
            } => (),
            Self::Final {
                id: _id,
                extras: _extras,
            } => (),
            Self::State { links: _links } => (),
            Self::Step {
                source: _source,
                number: _number,
                added: _added,
                decl: _decl,
            } => (),
            Self::Snap {
                source: _source,
                number: _number,
                decls: _decls,
            } => (),
        }
    }
}

impl Msg {
    /// The group that it is of.
    pub fn group(&self) -> Group
        ensures { result ≡ group_of self.now }
    {
        match self {
            Msg::Sub { .. }
            | Msg::Unsub { .. }
            | Msg::Token { .. }
            | Msg::Untoken { .. }
            | Msg::Able { .. }
            | Msg::Unable { .. }
            | Msg::Interest { .. }
            | Msg::EndInterest { .. } => Group::Declared,
            Msg::ToldSub { .. }
            | Msg::ToldAble { .. }
            | Msg::ToldUnsub { .. }
            | Msg::ToldUnable { .. }
            | Msg::ToldToken { .. }
            | Msg::ToldUntoken { .. }
            | Msg::ToldEnd { .. } => Group::Told,
            Msg::Push { .. } | Msg::Request { .. } | Msg::Response { .. } | Msg::Final { .. } => {
                Group::Routed
            }
            Msg::State { .. } | Msg::Step { .. } | Msg::Snap { .. } => Group::Flooded,
        }
    }

    /// The same message again. What it shares is not copied.
    pub fn copy(&self, alloc: Global) -> Result<Msg, AllocError>
        ensures { IfOk result (λ m. m ≡ self.now) }
    {
        match self.group() {
            Group::Declared => self.copy_declared(alloc),
            Group::Told => self.copy_told(alloc),
            Group::Routed => self.copy_routed(),
            Group::Flooded => self.copy_flooded(),
        }
    }

    fn copy_declared(&self, alloc: Global) -> Result<Msg, AllocError>
        requires { group_of self.now ≡ Group.Declared }
        ensures { IfOk result (λ m. m ≡ self.now) }
    {
        Ok(match self {
            Msg::Sub { id, key } => Msg::Sub {
                id: *id,
                key: key.copy(alloc)?,
            },
            Msg::Unsub { id } => Msg::Unsub { id: *id },
            Msg::Token { id, key } => Msg::Token {
                id: *id,
                key: key.copy(alloc)?,
            },
            Msg::Untoken { id } => Msg::Untoken { id: *id },
            Msg::Able { id, key, complete } => Msg::Able {
                id: *id,
                key: key.copy(alloc)?,
                complete: *complete,
            },
            Msg::Unable { id } => Msg::Unable { id: *id },
            Msg::Interest {
                id,
                current,
                future,
                kinds,
                key,
                aggregate,
            } => Msg::Interest {
                id: *id,
                current: *current,
                future: *future,
                kinds: *kinds,
                key: copied(alloc, key)?,
                aggregate: *aggregate,
            },
            Msg::EndInterest { id } => Msg::EndInterest { id: *id },
            _ => unreachable!(),
        })
    }

    fn copy_told(&self, alloc: Global) -> Result<Msg, AllocError>
        requires { group_of self.now ≡ Group.Told }
        ensures { IfOk result (λ m. m ≡ self.now) }
    {
        Ok(match self {
            Msg::ToldSub { id, key, interest } => Msg::ToldSub {
                id: *id,
                key: key.copy(alloc)?,
                interest: *interest,
            },
            Msg::ToldAble {
                id,
                key,
                complete,
                interest,
            } => Msg::ToldAble {
                id: *id,
                key: key.copy(alloc)?,
                complete: *complete,
                interest: *interest,
            },
            Msg::ToldUnsub { id } => Msg::ToldUnsub { id: *id },
            Msg::ToldUnable { id } => Msg::ToldUnable { id: *id },
            Msg::ToldToken { id, key, interest } => Msg::ToldToken {
                id: *id,
                key: key.copy(alloc)?,
                interest: *interest,
            },
            Msg::ToldUntoken { id } => Msg::ToldUntoken { id: *id },
            Msg::ToldEnd { interest } => Msg::ToldEnd {
                interest: *interest,
            },
            _ => unreachable!(),
        })
    }

    fn copy_routed(&self) -> Result<Msg, AllocError>
        requires { group_of self.now ≡ Group.Routed }
        ensures { IfOk result (λ m. m ≡ self.now) }
    {
        Ok(match self {
            Msg::Push { tree, content } => Msg::Push {
                tree: *tree,
                content: content.copy()?,
            },
            Msg::Request {
                tree,
                id,
                target,
                content,
            } => Msg::Request {
                tree: *tree,
                id: *id,
                target: *target,
                content: content.copy()?,
            },
            Msg::Response { id, content } => Msg::Response {
                id: *id,
                content: content.copy()?,
            },
            Msg::Final { id, extras } => Msg::Final {
                id: *id,
                extras: extras.copy()?,
            },
            _ => unreachable!(),
        })
    }

    fn copy_flooded(&self) -> Result<Msg, AllocError>
        requires { group_of self.now ≡ Group.Flooded }
        ensures { IfOk result (λ m. m ≡ self.now) }
    {
        Ok(match self {
            Msg::State { links } => Msg::State {
                links: links.copy()?,
            },
            Msg::Step {
                source,
                number,
                added,
                decl,
            } => Msg::Step {
                source: *source,
                number: *number,
                added: *added,
                decl: decl.copy()?,
            },
            Msg::Snap {
                source,
                number,
                decls,
            } => Msg::Snap {
                source: *source,
                number: *number,
                decls: decls.copy()?,
            },
            _ => unreachable!(),
        })
    }
}

fn copied(alloc: Global, key: &Option<KeyExpr>) -> Result<Option<KeyExpr>, AllocError>
    ensures { IfOk result (λ k. k ≡ key.now) }
{
    Ok(match key {
        Some(key) => Some(key.copy(alloc)?),
        None => None,
    })
}
