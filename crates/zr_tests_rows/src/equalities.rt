//! Values that are equal, and values that are not.

use crate::row::{self, Fault};
use std::alloc::Global;
use zr_frame::ChannelError;
use zr_graph::base::Accepted;
use zr_key::key::KeyError;
use zr_msg::decl::Kind;
use zr_msg::peer::Role;
use zr_open::{OpenError, Reason};
use zr_session::Fate;
use zr_wirekey::ScopeError;

pub fn answer(alloc: Global, words: &[&str]) -> Result<String, Fault> {
    match row::word(words, 0) {
        "same" => row::text(alloc, &same()),
        "others" => row::text(alloc, &others()),
        _ => Err(Fault::Row),
    }
}

fn same() -> [bool; 8] {
    [
        KeyError::Empty == KeyError::Empty,
        ScopeError::Limit == ScopeError::Limit,
        Accepted::Old == Accepted::Old,
        ChannelError::TooLong == ChannelError::TooLong,
        Role::Client == Role::Client,
        Kind::Sub == Kind::Sub,
        OpenError::Closed(Reason::Invalid) == OpenError::Closed(Reason::Invalid),
        Fate::Peer(5) == Fate::Peer(5),
    ]
}

fn others() -> [bool; 8] {
    [
        KeyError::Empty == KeyError::TooLong,
        ScopeError::Limit == ScopeError::NoMemory,
        Accepted::Old == Accepted::Newer,
        ChannelError::TooLong == ChannelError::OutOfTurn,
        Role::Client == Role::Router,
        Kind::Sub == Kind::Able,
        OpenError::Closed(Reason::Invalid) == OpenError::Peer(2),
        Fate::Peer(5) == Fate::Peer(4),
    ]
}
