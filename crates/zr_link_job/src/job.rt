//! The job of a link's reader, as plain data.

use zr_access::Policy;
use zr_id::zid::Zid;
use zr_msg::peer::Weight;
use zr_msg::shared::Shared;

/// Which end of a link the router is.
#[derive(Clone, Copy)]
pub enum Side {
    /// The peer has dialled.
    Accepting,
    /// The router has dialled.
    Dialling,
}

/// How a link begins: which end of it the router is, its number, counted from 0 in the order in which the links came, the router's identifier, the secret
/// of its cookies, the link's random word, what the link weighs if the peer is a router, how often its reader reads at most, and whether it has a log.
#[derive(Clone, Copy)]
pub struct LinkStart {
    pub side: Side,
    pub number: u64,
    pub me: Zid,
    pub secret: [u8; 32],
    pub word: u64,
    pub weight: Weight,
    pub turns: u64,
    pub log: bool,
}

/// The job of a link's reader: how the link begins, and the rules by which its router judges what clients send.
#[derive(Drop)]
pub struct LinkJob {
    pub start: LinkStart,
    pub policy: Shared<Policy>,
}

/// What a crew has started for a router that is served: the reader of a link, or the inner client of its administration space.
#[derive(Drop)]
pub enum ServeJob {
    Link { job: LinkJob },
    Inner,
}
