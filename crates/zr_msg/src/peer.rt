//! Who stands at the other end of a link, and what the link weighs.

ghost use Rattle.std.specs.Prelude.{◌≡◌, ◌<◌};

use std::marker::Model;
use zr_id::link::LinkNo;
use zr_id::zid::Zid;

/// What a peer is (Zenoh protocol 1.0, "WhatAmI").
#[derive(Clone, Copy, Debug, PartialEq, Eq)]
pub enum Role {
    Client,
    Router,
}

/// What a link weighs: from 1 to 65,535. Trees go along the links of the least sum of weights.
#[derive(Clone, Copy, Debug, PartialEq, Eq)]
pub struct Weight {
    value: u16,
}

impl Model for Weight {
    ghost use Rattle.std.specs.Prelude.{◌<◌, ℕ, refl};

    ghost Value = { ℕ };

    ghost view = { λ w. w.value };

    ghost invariant = { λ w. 0 < w.value };

    ghost inverse = { λ n. record { value = n } };

    ghost inverse_ok = { λ w h. refl };
}

impl Weight {
    /// This weight, which is at least 1.
    pub fn new(value: u16) -> Weight
        requires { 0 < value }
        ensures { result ≡ value }
    {
        Weight { value }
    }

    /// The weight of a link to which none was given: 1.
    pub fn one() -> Weight
        ensures { result ≡ 1 }
    {
        Weight { value: 1 }
    }

    /// The number, at least 1.
    pub fn get(self) -> u16
        ensures value { result ≡ self }
        ensures heavy { 0 < result }
    {
        self.value
    }
}

/// Who stands at the other end of a link, and what the link weighs: at least 1, and 1 where it is a client's.
#[derive(Clone, Copy, Debug, PartialEq, Eq)]
pub struct Peer {
    pub id: Zid,
    pub role: Role,
    pub weight: u16,
}

impl Model for Peer {
    ghost use Rattle.std.specs.Prelude.{◌<◌, refl};
    ghost use Rattle.zr_msg.specs.Peer.{PeerState};

    ghost Value = { PeerState };

    ghost view = { λ p. record { id = p.id; role = p.role; weight = p.weight } };

    ghost invariant = { λ p. 0 < p.weight };

    ghost inverse = { λ p. record { id = p.id; role = p.role; weight = p.weight } };

    ghost inverse_ok = { λ p h. refl };
}

/// A link that is up, and who stands at its other end.
#[derive(Clone, Copy, Debug, PartialEq, Eq)]
pub struct LinkPeer {
    pub link: LinkNo,
    pub peer: Peer,
}
