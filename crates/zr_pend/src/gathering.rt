//! `Gathering`: a request of a client that asks for the latest replies alone, with what is held for it.

ghost use Rattle.std.specs.Prelude.{◌≡◌, ◌==◌, ◌+◌, ◌≤◌, [], IfOk, OnOk, OnErr};
ghost use Rattle.std.specs.List.{sum_by};
ghost use Rattle.std.specs.Option.{option_copied};
ghost use Rattle.zr_pend_spec.specs.Held.{held_if, held_of, is_asker, is_for, most_held, regathered, reply_weight};

use crate::replies::{Held, Replies};
use std::alloc::{AllocError, Global};
use std::marker::Model;
use zr_id::link::LinkNo;
use zr_key::key::KeyExpr;
use zr_pend_spec::branch::Asker;

/// Who asked, and the replies that are held for it.
#[derive(Drop)]
pub struct Gathering {
    asker: Asker,
    replies: Replies,
}

impl Model for Gathering {
    ghost use Rattle.zr_pend_spec.specs.Held.{GatheringState};

    ghost Value = { GatheringState };

    ghost view = { λ g. record { asker = g.asker; held = g.replies } };
}

/// A request that has ended: who asked it, and what was held for it, in ascending order of the bytes of the keys.
#[derive(Drop)]
pub struct Ended {
    pub asker: Asker,
    pub held: Vec<Held>,
}

impl Model for Ended {
    ghost use Rattle.zr_pend_spec.specs.Held.{GatheringState};

    ghost Value = { GatheringState };

    ghost view = { λ e. record { asker = e.asker; held = e.held.items } };
}

impl Gathering {
    /// Nothing has come for who asked. It takes no memory.
    pub fn new(alloc: Global, asker: Asker) -> Gathering
        ensures { result ≡ record { asker = asker; held = [] } }
    {
        Gathering {
            asker,
            replies: Replies::new(alloc),
        }
    }

    /// A second one, equal to this one.
    pub fn copy(&self, alloc: Global) -> Result<Gathering, AllocError>
        ensures { IfOk result (λ g. g ≡ self.now) }
    {
        Ok(Gathering {
            asker: self.asker,
            replies: self.replies.copy(alloc)?,
        })
    }

    /// Whether this asker asked.
    pub fn is_for(&self, asker: Asker) -> bool
        ensures { result ≡ is_for asker self.now }
    {
        self.asker.link.0 == asker.link.0 && self.asker.number == asker.number
    }

    /// Whether this link asked.
    pub fn is_of(&self, link: LinkNo) -> bool
        ensures { result ≡ (self.now.asker.link.0 == link.0) }
    {
        self.asker.link.0 == link.0
    }

    /// What is held weighs so much.
    pub fn weight(&self) -> u64
        ensures { result ≡ sum_by reply_weight self.now.held }
    {
        self.replies.weight()
    }

    /// What is held for a key.
    pub fn get(&self, key: &KeyExpr) -> Option<&Held>
        ensures { option_copied result ≡ held_of self.now.held key.now }
    {
        self.replies.get(key)
    }

    /// A reply takes its place where nothing is held for its key, or where it is later than what is.
    pub fn hold(&mut self, reply: &Held, later: bool) -> Result<(), AllocError>
        requires { sum_by reply_weight self.old.held + reply_weight reply.now ≤ most_held }
        ensures ok { OnOk result (self.new ≡ regathered (λ replies. held_if (λ c. later) replies reply.now) self.old) }
        ensures err { OnErr result (self.new ≡ self.old) }
    {
        self.replies.hold(reply, later)
    }

    /// Who asked, with what was held, given without taking memory.
    pub fn into_ended(self) -> Ended
        ensures { result ≡ self }
    {
        let Gathering { asker, replies } = self;
        Ended {
            asker,
            held: replies.into_vec(),
        }
    }
}
