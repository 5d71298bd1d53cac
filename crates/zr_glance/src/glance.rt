//! `Glance`: what a router shows of itself at a moment.

ghost use Rattle.std.specs.Prelude.{◌≡◌};

use std::marker::Model;
use zr_id::record::LinkRecord;
use zr_id::zid::Zid;
use zr_msg::peer::Peer;

/// The router from which a router gets what a root sends: its parent in the tree of that root. The root itself has none, and nor has who isn't reached.
#[derive(Clone, Copy, Debug, PartialEq, Eq)]
pub struct Parent {
    pub root: Zid,
    pub parent: Option<Zid>,
}

/// What is known of what a router's clients declare: the number of the last change, and how many declarations there are then.
#[derive(Clone, Copy, Debug, PartialEq, Eq)]
pub struct Count {
    pub id: Zid,
    pub number: u64,
    pub decls: u64,
}

/// What a router shows of itself at a moment: who stands at the other ends of its links, the link records that it keeps, its parents in the trees of the
/// other routers, and what it knows of all routers' declarations. Each list is in ascending order of identifiers.
#[derive(Drop)]
pub struct Glance {
    links: Vec<Peer>,
    records: Vec<LinkRecord>,
    parents: Vec<Parent>,
    sources: Vec<Count>,
}

impl Model for Glance {
    ghost use Rattle.zr_glance.specs.Glance.{GlanceState};

    ghost Value = { GlanceState };

    ghost view = { λ g. record { links = g.links.items; records = g.records.items; parents = g.parents.items; sources = g.sources.items } };
}

impl Glance {
    /// The glance of these lists. It takes no memory.
    pub fn new(
        links: Vec<Peer>,
        records: Vec<LinkRecord>,
        parents: Vec<Parent>,
        sources: Vec<Count>,
    ) -> Glance
        ensures { result ≡ record { links = links.items; records = records.items; parents = parents.items; sources = sources.items } }
    {
        Glance {
            links,
            records,
            parents,
            sources,
        }
    }

    /// Who stands at the other ends of the links that are up.
    pub fn links(&self) -> &[Peer]
        ensures { result.now ≡ self.now.links }
    {
        self.links.as_slice()
    }

    /// The link records, the router's own among them.
    pub fn records(&self) -> &[LinkRecord]
        ensures { result.now ≡ self.now.records }
    {
        self.records.as_slice()
    }

    /// The router's parents in the trees of the other routers.
    pub fn parents(&self) -> &[Parent]
        ensures { result.now ≡ self.now.parents }
    {
        self.parents.as_slice()
    }

    /// What is known of the declarations of each router of which a change is known.
    pub fn sources(&self) -> &[Count]
        ensures { result.now ≡ self.now.sources }
    {
        self.sources.as_slice()
    }
}
