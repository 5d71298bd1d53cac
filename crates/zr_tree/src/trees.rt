//! The shortest-walk trees of all routers that a base knows: parents, children and next steps.

ghost use Rattle.std.specs.Prelude.{◌≡◌, true, IfOk, OnOk, OnErr};
ghost use Rattle.zr_tree.specs.Linked.{MakeEdgesOf};
ghost use Rattle.zr_tree.specs.Same.{HaveSameEdges};
ghost use Rattle.zr_tree.specs.Tree.{parent, children, toward, reached};
ghost use Rattle.zr_tree.specs.Walk.{graph_of};

use crate::linked_records::linked_of;
use crate::rooted::{RootedTrees, names_of};
use crate::same::are_same_edges;
use crate::way::Way;
use std::alloc::{AllocError, Global};
use std::marker::Model;
use zr_graph::base::{Base, copies_of};
use zr_id::record::LinkRecord;
use zr_id::zid::Zid;

/// The trees of a base's routers, each by the edges alone.
///
/// Contracts see the records that the trees were made of, so a copy of them is kept. A router that they don't know reaches none but itself.
/// So does one that has no edge: it takes part in no tree, so that a record which no router links costs its own bytes alone.
pub struct Trees {
    records: Vec<LinkRecord>,
    linked: RootedTrees,
}

// Written out, so that it is proved here, and not by each crate that lets one go.
impl Drop for Trees {
    fn drop(self) {
        let Self {
            records: _records,
            linked: _linked,
        } = self;
    }
}

impl Model for Trees {
    ghost use Rattle.std.specs.Prelude.{List};
    ghost use Rattle.zr_id.specs.Record.{RecordState};
    ghost use Rattle.zr_tree.specs.Linked.{MakeEdgesOf};

    ghost Value = { List RecordState };

    ghost view = { λ t. t.records.items };

    ghost invariant = { λ t. MakeEdgesOf t.linked t.records.items };
}

impl Trees {
    /// Works out the trees of all routers.
    pub fn of(alloc: Global, base: &Base) -> Result<Trees, AllocError>
        ensures { IfOk result (λ t. t ≡ base.now.records) }
    {
        let records = copies_of(alloc, base.records())?;
        let linked = linked_of(alloc, &records)?;
        Ok(Trees {
            records,
            linked: RootedTrees::of(alloc, linked)?,
        })
    }

    /// Whether a base has the same routers and the same edges, of the same weights. Then its trees are these.
    pub fn have_edges_of(&self, base: &Base) -> bool
        ensures { result ≡ true → HaveSameEdges self.now base.now.records }
    {
        are_same_edges(&self.records, base.records())
    }

    /// The trees become those of a base that has the same routers and the same edges, of the same weights.
    pub fn follow(&mut self, alloc: Global, base: &Base) -> Result<(), AllocError>
        requires { HaveSameEdges self.old base.now.records }
        ensures ok { OnOk result (self.new ≡ base.now.records) }
        ensures err { OnErr result (self.new ≡ self.old) }
    {
        let copies = copies_of(alloc, base.records())?;
        self.records = copies;
        Ok(())
    }

    /// The router from which a message of the root comes to this one; the root and what isn't reached have none.
    pub fn parent(&self, root: Zid, at: Zid) -> Option<Zid>
        ensures { result ≡ parent (graph_of self.now) root at }
    {
        self.linked.parent(root, at)
    }

    /// The routers to which this one sends a message of the root on, in ascending order.
    pub fn children(&self, root: Zid, at: Zid) -> &[Zid]
        ensures { result.now ≡ children (graph_of self.now) root at }
    {
        self.linked.children(root, at)
    }

    /// The child of this router at or above the destination in the tree of the root.
    pub fn toward(&self, root: Zid, at: Zid, dest: Zid) -> Option<Zid>
        ensures { result ≡ toward (graph_of self.now) root at dest }
    {
        Way::of(self, root, at).to(dest)
    }

    /// Whether a walk leads from one router to the other.
    pub fn reached(&self, from: Zid, to: Zid) -> bool
        ensures { result ≡ reached (graph_of self.now) from to }
    {
        self.linked.reached(from, to)
    }

    /// The records that the trees were made of.
    pub(crate) fn records(&self) -> &Vec<LinkRecord>
        ensures { result.now.items ≡ self.now }
    {
        &self.records
    }

    /// The trees of the routers that have edges.
    pub(crate) fn linked(&self) -> &RootedTrees
        ensures { MakeEdgesOf result.now self.now }
    {
        &self.linked
    }
}
