//! Whom an event that comes may reach: a guess by what a router shows.

use crate::askers::Askers;
use crate::links::bit_of;
use zr_id::link::LinkNo;
use zr_key::key::KeyExpr;
use zr_local::row::{Key, place_of};
use zr_match::meets;
use zr_msg::content::Content;
use zr_msg::decl::Kind;
use zr_msg::msg::Msg;
use zr_msg::peer::{LinkPeer, Role};
use zr_router_core::hub::Hub;
use zr_router_queue::may_drop;

/// How many bytes a parcel has beside a message's key and body, about.
const HEAD_BYTES: usize = 16;

/// How many parcels are taken for what answers an interest: it may be many messages, in few parcels.
const TOLD_PARCELS: u64 = 4;

/// How many parcels are taken for what may end a query for the latest replies, which leave with the final.
const LATEST_PARCELS: u64 = 32;

/// What comes over a link.
#[derive(Clone, Copy)]
pub enum Coming<'a> {
    /// A message.
    Message(&'a Msg),
    /// The link goes down.
    Down,
}

impl<'a> Coming<'a> {
    /// Whether it is a sample that may be dropped.
    pub fn may_be_dropped(self) -> bool {
        match self {
            Coming::Message(msg) => may_drop(msg),
            Coming::Down => false,
        }
    }
}

/// What a router shows, by which one guesses.
#[derive(Clone, Copy)]
pub struct View<'a> {
    /// The router, with what its clients declare and are told.
    pub hub: &'a Hub,
    /// Whose queries were handed to whom.
    pub askers: &'a Askers,
}

impl<'a> View<'a> {
    /// The links among these, a bit for each, that an event over a link may reach.
    pub fn reached(&self, from: LinkNo, coming: Coming<'_>, among: u128) -> u128 {
        let mut reached = 0;
        if among == 0 {
            return reached;
        }
        for end in self.hub.links() {
            if among & bit_of(end.link) != 0 && self.may_reach(from, coming, end) {
                reached |= bit_of(end.link);
            }
        }
        reached
    }

    /// How many parcels an event may have for one of the links that it reaches, about, where a batch for each holds so many bytes at least.
    pub fn parcels(&self, coming: Coming<'_>, reached: u128, batch: u16) -> u64 {
        match coming {
            Coming::Message(Msg::Interest { .. }) => TOLD_PARCELS,
            Coming::Message(Msg::Final { .. } | Msg::State { .. }) | Coming::Down => {
                if self.askers.may_want_latest(reached) {
                    LATEST_PARCELS
                } else {
                    1
                }
            }
            Coming::Message(msg) => match content_of(msg) {
                Some(content) => parcels_of(content, batch),
                None => 1,
            },
        }
    }

    /// Whom these links, a bit for each, lead to: routers, where one of them does.
    pub fn role_of(&self, links: u128) -> Role {
        for end in self.hub.links() {
            if links & bit_of(end.link) != 0 && end.peer.role == Role::Router {
                return Role::Router;
            }
        }
        Role::Client
    }

    // Whether an event over a link may have something for another one, or for the same. Where it says no nothing is sent, as far as the tables show.
    fn may_reach(&self, from: LinkNo, coming: Coming<'_>, end: &LinkPeer) -> bool {
        let to = end.link;
        let msg = match coming {
            Coming::Message(msg) => msg,
            Coming::Down => {
                return from.0 != to.0 && (self.is_told(end) || self.askers.may_answer(from, to));
            }
        };
        match msg {
            Msg::Push { content, .. } => from.0 != to.0 && self.seeks(end, Kind::Sub, content),
            Msg::Request { content, .. } => {
                from.0 == to.0 || self.seeks(end, Kind::Able, content)
            }
            Msg::Response { .. } | Msg::Final { .. } => self.askers.may_answer(from, to),
            Msg::Sub { .. }
            | Msg::Unsub { .. }
            | Msg::Token { .. }
            | Msg::Untoken { .. }
            | Msg::Able { .. }
            | Msg::Unable { .. } => from.0 != to.0 && self.is_told(end),
            Msg::Interest { .. } => from.0 == to.0,
            Msg::State { .. } | Msg::Step { .. } | Msg::Snap { .. } => {
                from.0 != to.0 && (self.is_told(end) || self.askers.may_wait(to))
            }
            Msg::EndInterest { .. }
            | Msg::ToldSub { .. }
            | Msg::ToldAble { .. }
            | Msg::ToldUnsub { .. }
            | Msg::ToldUnable { .. }
            | Msg::ToldToken { .. }
            | Msg::ToldUntoken { .. }
            | Msg::ToldEnd { .. } => false,
        }
    }

    // Whether a sample or a query may go over the link: to a client that has declared so, or to any router.
    fn seeks(&self, end: &LinkPeer, kind: Kind, content: &Content) -> bool {
        match end.peer.role {
            Role::Client => self.has_declared(end.link, kind, content.key()),
            Role::Router => true,
        }
    }

    // Whether a client has declared something of the kind that meets the key. Its queryables stand behind its subscribers.
    fn has_declared(&self, link: LinkNo, kind: Kind, key: &KeyExpr) -> bool {
        let rows = self.hub.rows();
        let first = match place_of(rows, Key::new(link, 0, kind)) {
            Ok(at) | Err(at) => at,
        };
        let Some(behind) = rows.get(first..) else {
            return false;
        };
        for row in behind {
            if row.link.0 != link.0 {
                return false;
            }
            if is_of_kind(row.decl.kind, kind) && meets(&row.decl.key, key) {
                return true;
            }
        }
        false
    }

    // Whether the peer may be told of what others declare: a client with an interest, or any router.
    fn is_told(&self, end: &LinkPeer) -> bool {
        match end.peer.role {
            Role::Client => self.hub.clients().iter().any(|client| {
                client.link.0 == end.link.0 && !client.interests.as_slice().is_empty()
            }),
            Role::Router => true,
        }
    }
}

// How many batches of so many bytes hold a message with these contents, about.
fn parcels_of(content: &Content, batch: u16) -> u64 {
    let room = usize::from(batch).saturating_sub(HEAD_BYTES).max(1);
    let full = (bytes_of(content) / room) as u64;
    full.saturating_add(1)
}

fn bytes_of(content: &Content) -> usize {
    let key = content.key().text().len();
    key.saturating_add(content.body().as_slice().len())
}

/// How many bytes a message has on the wire, about. Those without a body are taken for short.
pub(crate) fn size_of(msg: &Msg) -> usize {
    match content_of(msg) {
        Some(content) => HEAD_BYTES.saturating_add(bytes_of(content)),
        None => HEAD_BYTES,
    }
}

// What a message carries that has a body.
fn content_of(msg: &Msg) -> Option<&Content> {
    match msg {
        Msg::Push { content, .. } | Msg::Request { content, .. } | Msg::Response { content, .. } =>
            { Some(content) }
        Msg::Sub { .. }
        | Msg::Unsub { .. }
        | Msg::Token { .. }
        | Msg::Untoken { .. }
        | Msg::Able { .. }
        | Msg::Unable { .. }
        | Msg::Interest { .. }
        | Msg::EndInterest { .. }
        | Msg::ToldSub { .. }
        | Msg::ToldAble { .. }
        | Msg::ToldUnsub { .. }
        | Msg::ToldUnable { .. }
        | Msg::ToldToken { .. }
        | Msg::ToldUntoken { .. }
        | Msg::ToldEnd { .. }
        | Msg::Final { .. }
        | Msg::State { .. }
        | Msg::Step { .. }
        | Msg::Snap { .. } => None,
    }
}

// Whether it is a subscriber, or a queryable of either kind.
fn is_of_kind(kind: Kind, wanted: Kind) -> bool {
    match (kind, wanted) {
        (Kind::Sub, Kind::Sub) | (Kind::Able | Kind::Full, Kind::Able | Kind::Full) => true,
        (Kind::Sub | Kind::Able | Kind::Full | Kind::Token, _) => false,
    }
}
