//! Link records: what a router tells all others of its links, and the lists of identifiers that they hold.
//! How records are kept and which edges they make is not known here.

ghost use Rattle.std.specs.Prelude.{◌≡◌, ◌&&◌, ◌^◌, nat_lt, length, drop, true, IfOk};
ghost use Rattle.std.specs.Option.{option_copied};
ghost use Rattle.zr_id.specs.Record.{are_in_order, are_links, may_follow};

use crate::zid::Zid;
use std::alloc::{AllocError, Global};
use std::marker::Model;

/// A list of identifiers.
#[derive(Debug, Drop)]
pub struct Zids {
    items: Vec<Zid>,
}

/// A router that a link leads to, and the weight of the link, at least 1.
#[derive(Clone, Copy, Debug, PartialEq, Eq)]
pub struct Linked {
    /// The router.
    pub id: Zid,
    /// What the link weighs, 1 to 65,535. Walks of a tree go by the least sum of weights.
    pub weight: u16,
}

impl Model for Linked {
    ghost use Rattle.std.specs.Prelude.{◌<◌, refl};
    ghost use Rattle.zr_id.specs.Record.{LinkedState};

    ghost Value = { LinkedState };

    ghost view = { λ l. record { id = l.id; weight = l.weight } };

    ghost invariant = { λ l. 0 < l.weight };

    ghost inverse = { λ l. record { id = l.id; weight = l.weight } };

    ghost inverse_ok = { λ l h. refl };
}

/// The links of one router, as it told them under a number that goes up with each change: at most 65,535 of them, strictly ascending
/// and without the router itself.
#[derive(Debug)]
pub struct LinkRecord {
    id: Zid,
    seq: u64,
    links: Vec<Linked>,
}

// Written out, so that it is proved here, and not by each crate that lets one go.
impl Drop for LinkRecord {
    fn drop(self) {
        let Self {
            id: _id,
            seq: _seq,
            links: _links,
        } = self;
    }
}

impl Model for LinkRecord {
    ghost use Rattle.std.specs.Prelude.{◌≡◌, true};
    ghost use Rattle.zr_id.specs.Record.{RecordState, are_links};

    ghost Value = { RecordState };

    ghost view = { λ r. record { id = r.id; seq = r.seq; links = r.links.items } };

    ghost invariant = { λ r. are_links r.id r.links.items ≡ true };
}

impl Model for Zids {
    ghost use Rattle.std.specs.Prelude.{List, ℕ};

    ghost Value = { List (List ℕ) };

    ghost view = { λ z. z.items.items };
}

impl Zids {
    /// The list of these identifiers. It takes no memory.
    pub fn new(items: Vec<Zid>) -> Zids
        ensures { result ≡ items.items }
    {
        Zids { items }
    }

    /// The identifiers, given back without taking memory.
    pub fn into_vec(self) -> Vec<Zid>
        ensures { result.items ≡ self }
    {
        let Zids { items } = self;
        items
    }

    /// The identifiers in their order.
    pub fn as_slice(&self) -> &[Zid]
        ensures { result.now ≡ self.now }
    {
        self.items.as_slice()
    }

    /// A second list of the same identifiers.
    pub fn copy(&self, alloc: Global) -> Result<Zids, AllocError>
        ensures { IfOk result (λ z. z ≡ self.now) }
    {
        Ok(Zids {
            items: Vec::from_slice(alloc, self.as_slice())?,
        })
    }
}

impl LinkRecord {
    /// A record of these links, for which [`are_links`] is true.
    pub fn new(id: Zid, seq: u64, links: Vec<Linked>) -> LinkRecord
        requires { are_links id links.items ≡ true }
        ensures { result ≡ record { id = id; seq = seq; links = links.items } }
    {
        LinkRecord { id, seq, links }
    }

    /// The router whose links these are.
    pub fn id(&self) -> Zid
        ensures { result ≡ self.now.id }
    {
        self.id
    }

    /// The number of the change.
    pub fn seq(&self) -> u64
        ensures { result ≡ self.now.seq }
    {
        self.seq
    }

    /// The links, in ascending order of the routers that they lead to.
    pub fn links(&self) -> &[Linked]
        ensures value { result.now ≡ self.now.links }
        ensures in_order { are_links self.now.id self.now.links ≡ true }
    {
        self.links.as_slice()
    }

    /// A second record, equal to this one.
    pub fn copy(&self, alloc: Global) -> Result<LinkRecord, AllocError>
        ensures { IfOk result (λ r. r ≡ self.now) }
    {
        Ok(LinkRecord {
            id: self.id,
            seq: self.seq,
            links: Vec::from_slice(alloc, self.links.as_slice())?,
        })
    }
}

/// How many links a record has at most: their number is 16 bits on the wire.
pub const MOST_LINKS: usize = 65_535;

/// Whether these are links of a record of this router: not too many, to strictly ascending routers, and the router itself is none of them.
pub fn are_links(id: &Zid, links: &[Linked]) -> bool
    ensures { result ≡ are_links id.now links.now }
{
    links.len() <= MOST_LINKS && are_in_order(id, links)
}

fn are_in_order(id: &Zid, links: &[Linked]) -> bool
    ensures { result ≡ are_in_order id.now None links.now }
{
    let mut last = None;
    for link in links {
        if !may_follow(id, last, &link.id) {
            return false;
        }
        last = Some(link.id);
    }
    true
}

/// Whether an identifier may stand behind another one among the links of a router.
pub fn may_follow(id: &Zid, last: Option<Zid>, link: &Zid) -> bool
    ensures { result ≡ may_follow id.now last link.now }
{
    let is_after = match last {
        Some(last) => last < *link,
        None => true,
    };
    is_after && id != link
}
