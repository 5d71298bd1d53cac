//! `TablesView`: what a router goes by, lent to those who work out what it sends.

ghost use Rattle.std.specs.Prelude.{◌≡◌};

use std::marker::Model;
use zr_id::zid::Zid;
use zr_local::local::Local;
use zr_log::known::Known;
use zr_msg::peer::LinkPeer;
use zr_tree::trees::Trees;

/// The tables of a router, lent. Contracts see them as one plain record; its records are those that the trees were made of.
#[derive(Drop)]
pub struct TablesView<'a> {
    me: Zid,
    links: &'a [LinkPeer],
    trees: &'a Trees,
    local: &'a Local,
    known: &'a Known,
}

impl<'a> Model for TablesView<'a> {
    ghost use Rattle.zr_node_spec.specs.Tables.{TableState};

    ghost Value = { TableState };

    ghost view = { λ t. record {
      links = t.links.now;
      base = record { me = t.me; records = t.trees.now };
      rows = t.local.now.rows;
      clients = t.local.now.clients;
      known = t.known.now;
    } };
}

impl<'a> TablesView<'a> {
    /// The tables of the router `me`: its links in ascending order of their numbers, the trees of its records, what its clients have
    /// declared and their live interests, and what it knows of all logs.
    pub fn new(
        me: Zid,
        links: &'a [LinkPeer],
        trees: &'a Trees,
        local: &'a Local,
        known: &'a Known,
    ) -> TablesView<'a>
        ensures { result ≡ record { links = links.now; base = record { me = me; records = trees.now }; rows = local.now.rows; clients = local.now.clients; known = known.now } }
    {
        TablesView {
            me,
            links,
            trees,
            local,
            known,
        }
    }

    /// The router itself.
    pub fn me(&self) -> Zid
        ensures { result ≡ self.now.base.me }
    {
        self.me
    }

    /// Its links.
    pub fn links(&self) -> &'a [LinkPeer]
        ensures { result.now ≡ self.now.links }
    {
        self.links
    }

    /// The trees of all roots.
    pub fn trees(&self) -> &'a Trees
        ensures { result.now ≡ self.now.base.records }
    {
        self.trees
    }

    /// What its clients have declared, and their live interests.
    pub fn local(&self) -> &'a Local
        ensures { result.now ≡ record { rows = self.now.rows; clients = self.now.clients } }
    {
        self.local
    }

    /// What it knows of all logs.
    pub fn known(&self) -> &'a Known
        ensures { result.now ≡ self.now.known }
    {
        self.known
    }
}
