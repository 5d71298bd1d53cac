//! Whose parent one router is in the trees of all routers, without these trees: a router that passes on what others tell asks no more of
//! them.

ghost use Rattle.std.specs.Prelude.{◌≡◌, ◌<◌, true, false, IfOk, OnOk, OnErr, MatchOption, length};
ghost use Rattle.zr_id.specs.Zid.{is_named};
ghost use Rattle.zr_graph.specs.Record.{has, ids};
ghost use Rattle.zr_tree.specs.Index.{name};
ghost use Rattle.zr_tree.specs.Same.{HaveSameEdges};
ghost use Rattle.zr_tree.specs.Tree.{is_child};
ghost use Rattle.zr_tree.specs.Walk.{graph_of};

use crate::edges::{Edges, index_in};
use crate::flags::{Flags, all_flags};
use crate::rooted::names_of;
use crate::same::are_same_edges;
use std::alloc::{AllocError, Global};
use std::marker::Model;
use zr_graph::base::{Base, copies_of};
use zr_id::record::LinkRecord;
use zr_id::zid::Zid;

/// The children of a base's own router in the trees of all its routers.
///
/// Contracts see the base that they were worked out of, so a copy of its records is kept.
pub struct Family {
    me: Zid,
    records: Vec<LinkRecord>,
    names: Vec<Zid>,
    // by the index of the child
    flags: Vec<Flags>,
}

// Written out, so that it is proved here, and not by each crate that lets one go.
impl Drop for Family {
    fn drop(self) {
        let Self {
            me: _me,
            records: _records,
            names: _names,
            flags: _flags,
        } = self;
    }
}

impl Model for Family {
    ghost use Rattle.zr_graph.specs.Base.{BaseState};
    ghost use Rattle.zr_tree.specs.OwnChildren.{IsFamily};

    ghost Value = { BaseState };

    ghost view = { λ f. record { me = f.me; records = f.records.items } };

    ghost invariant = { λ f. IsFamily (record { me = f.me; records = f.records.items }) f.names.items f.flags.items };
}

impl Family {
    /// Works out the children of the base's own router.
    pub fn of(alloc: Global, base: &Base) -> Result<Family, AllocError>
        ensures { IfOk result (λ f. f ≡ base.now) }
    {
        let me = base.me();
        let names = names_of(alloc, base.records())?;
        let records = copies_of(alloc, base.records())?;
        let edges = Edges::of(alloc, &records, &names)?;
        let flags = all_flags(alloc, &edges, own_index(base, &names, me))?;
        Ok(Family {
            me,
            records,
            names,
            flags,
        })
    }

    /// The router whose children they are.
    pub fn me(&self) -> Zid
        ensures { result ≡ self.now.me }
    {
        self.me
    }

    /// Whether a router is a child of this one in the tree of a root.
    pub fn is_child(&self, root: Zid, name: Zid) -> bool
        ensures { result ≡ is_child (graph_of self.now.records) root self.now.me name }
    {
        match (self.index_of(&root), self.index_of(&name)) {
            (Some(root), Some(child)) => self.is_child_at(root, child),
            _ => false,
        }
    }

    /// Whether a base is of the same router, and has the same routers and the same edges, of the same weights. Then its children are these.
    pub fn have_edges_of(&self, base: &Base) -> bool
        ensures me { result ≡ true → self.now.me ≡ base.now.me }
        ensures edges { result ≡ true → HaveSameEdges self.now.records base.now.records }
    {
        if !self.is_of(base) {
            return false;
        }
        are_same_edges(&self.records, base.records())
    }

    /// The children become those of a base of this router that has the same routers and the same edges, of the same weights.
    pub fn follow(&mut self, alloc: Global, base: &Base) -> Result<(), AllocError>
        requires me { self.old.me ≡ base.now.me }
        requires edges { HaveSameEdges self.old.records base.now.records }
        ensures ok { OnOk result (self.new ≡ base.now) }
        ensures err { OnErr result (self.new ≡ self.old) }
    {
        let copies = copies_of(alloc, base.records())?;
        self.records = copies;
        Ok(())
    }

    fn is_of(&self, base: &Base) -> bool
        ensures { result ≡ is_named self.now.me base.now.me }
    {
        self.me == base.me()
    }

    fn index_of(&self, id: &Zid) -> Option<usize>
        ensures { MatchOption result (has (ids self.now.records) id.now ≡ false) (λ i. (i < length self.now.records) × (name self.now.records i ≡ id.now)) }
    {
        index_in(&self.names, id)
    }

    fn is_child_at(&self, root: usize, child: usize) -> bool
        requires root { root < length self.now.records }
        requires child { child < length self.now.records }
        ensures { result ≡ is_child (graph_of self.now.records) (name self.now.records root) self.now.me (name self.now.records child) }
    {
        self.flags[child].at(root)
    }
}

// The index of a base's own router.
fn own_index(base: &Base, names: &[Zid], me: Zid) -> usize
    requires names { names.now ≡ ids base.now.records }
    requires me { me ≡ base.now.me }
    ensures within { result < length base.now.records }
    ensures own { name base.now.records result ≡ base.now.me }
{
    // Read, so that the proof knows that they ascend, and that the own one is among them.
    let _records = base.records();
    let Some(index) = index_in(names, &me) else {
        unreachable!()
    };
    index
}
