//! The shortest-walk trees of some routers: parents, children and next steps.

ghost use Rattle.std.specs.Prelude.{◌≡◌, ◌<◌, ◌≤◌, true, false, Some, IfOk, IfSome, IsSome, MatchOption, length};
ghost use Rattle.std.specs.Option.{option_map};
ghost use Rattle.zr_graph.specs.Record.{has, ids, IsAscending};
ghost use Rattle.zr_tree.specs.Index.{name};
ghost use Rattle.zr_tree.specs.Tree.{tree_depth, parent, children, below, toward, reached};
ghost use Rattle.zr_tree.specs.Walk.{graph_of};

use crate::edges::{Edges, index_in};
use crate::tree::{Hop, Tree, UNREACHED};
use std::alloc::{AllocError, Global};
use std::marker::Model;
use zr_id::record::LinkRecord;
use zr_id::zid::Zid;
use zr_tree_parents::lists::Lists;

/// The trees of the routers of some records, each by the edges alone. A router that they don't know reaches none but itself.
#[derive(Drop)]
pub struct RootedTrees {
    records: Vec<LinkRecord>,
    names: Vec<Zid>,
    trees: Vec<Tree>,
    lists: Lists,
}

impl Model for RootedTrees {
    ghost use Rattle.std.specs.Prelude.{List};
    ghost use Rattle.zr_id.specs.Record.{RecordState};
    ghost use Rattle.zr_tree.specs.Hop.{AreTrees};

    ghost Value = { List RecordState };

    ghost view = { λ t. t.records.items };

    ghost invariant = { λ t. AreTrees t.records.items t.names.items t.trees.items t.lists.lists };
}

impl RootedTrees {
    ghost use Rattle.zr_tree.specs.Hop.{IsSomeHop};

    /// Works out the trees of the routers of records in ascending order.
    pub fn of(alloc: Global, records: Vec<LinkRecord>) -> Result<RootedTrees, AllocError>
        requires { IsAscending (ids records.items) }
        ensures { IfOk result (λ t. t ≡ records.items) }
    {
        let names = names_of(alloc, &records)?;
        let edges = Edges::of(alloc, &records, &names)?;
        let mut lists = Lists::new(alloc, names.len())?;
        let mut trees = Vec::new(alloc);
        for root in 0..names.len() {
            trees.push(Tree::of(alloc, &edges, &names, root, &mut lists)?)?;
        }
        Ok(RootedTrees {
            records,
            names,
            trees,
            lists,
        })
    }

    /// The router from which a message of the root comes to this one; the root and what isn't reached have none.
    pub fn parent(&self, root: Zid, at: Zid) -> Option<Zid>
        ensures { result ≡ parent (graph_of self.now) root at }
    {
        let root = self.index_of(&root)?;
        let at = self.index_of(&at)?;
        let parent = self.hop(root, at).parent as usize;
        if parent == at {
            return None;
        }
        Some(self.names[parent])
    }

    /// The routers to which this one sends a message of the root on, in ascending order.
    pub fn children(&self, root: Zid, at: Zid) -> &[Zid]
        ensures { result.now ≡ children (graph_of self.now) root at }
    {
        match (self.index_of(&root), self.index_of(&at)) {
            (Some(root), Some(at)) => self.children_at(root, at),
            _ => &[],
        }
    }

    /// Whether a walk leads from one router to the other.
    pub fn reached(&self, from: Zid, to: Zid) -> bool
        ensures { result ≡ reached (graph_of self.now) from to }
    {
        if from == to {
            return true;
        }
        match (self.index_of(&from), self.index_of(&to)) {
            (Some(from), Some(to)) => self.hop(from, to).depth != UNREACHED,
            _ => false,
        }
    }

    /// The index of an identifier, if it is among the records'.
    pub(crate) fn index_of(&self, id: &Zid) -> Option<usize>
        ensures { MatchOption result (has (ids self.now) id.now ≡ false) (λ i. (i < length self.now) × (name self.now i ≡ id.now)) }
    {
        index_in(&self.names, id)
    }

    /// The index of an identifier, which is looked for at this index first.
    pub(crate) fn index_near(&self, index: usize, id: &Zid) -> Option<usize>
        ensures { MatchOption result (has (ids self.now) id.now ≡ false) (λ i. (i < length self.now) × (name self.now i ≡ id.now)) }
    {
        if self.is_at(index, id) {
            return Some(index);
        }
        self.index_of(id)
    }

    fn is_at(&self, index: usize, id: &Zid) -> bool
        ensures { result ≡ true → (index < length self.now) × (name self.now index ≡ id.now) }
    {
        index < self.names.len() && self.names[index] == *id
    }

    /// The identifier at an index.
    pub(crate) fn name_at(&self, index: usize) -> Zid
        requires { index < length self.now }
        ensures { result ≡ name self.now index }
    {
        self.names[index]
    }

    /// By index, the child of a router at or above the destination in the tree of a root.
    pub(crate) fn child_toward(&self, root: usize, at: usize, dest: usize) -> Option<usize>
        requires root { root < length self.now }
        requires at { at < length self.now }
        requires dest { dest < length self.now }
        ensures within { IfSome result (λ x. x < length self.now) }
        ensures child { option_map (name self.now) result ≡ toward (graph_of self.now) (name self.now root) (name self.now at) (name self.now dest) }
        ensures reached { IsSome result → reached (graph_of self.now) (name self.now at) (name self.now dest) ≡ true }
    {
        let depth = self.hop(root, at).depth;
        let far = self.hop(root, dest).depth;
        if far == UNREACHED || far <= depth {
            return None;
        }
        let child = self.ancestor(root, dest, depth + 1);
        if self.hop(root, child).parent as usize == at {
            Some(child)
        } else {
            None
        }
    }

    // The router at this depth that the destination is below.
    fn ancestor(&self, root: usize, dest: usize, depth: u32) -> usize
        requires root { root < length self.now }
        requires dest { dest < length self.now }
        requires reached { IsSome (tree_depth (graph_of self.now) (name self.now root) (name self.now dest)) }
        requires depth { IfSome (tree_depth (graph_of self.now) (name self.now root) (name self.now dest)) (λ far. depth ≤ far) }
        ensures within { result < length self.now }
        ensures depth { tree_depth (graph_of self.now) (name self.now root) (name self.now result) ≡ Some depth }
        ensures above { below (graph_of self.now) (name self.now root) (name self.now result) (name self.now dest) ≡ true }
    {
        let mut x = dest;
        let mut hop = self.hop(root, x);
        while hop.depth > depth {
            let jump = hop.jump as usize;
            if self.hop(root, jump).depth >= depth {
                x = jump;
            } else {
                x = hop.parent as usize;
            }
            hop = self.hop(root, x);
        }
        x
    }

    // What is kept of a router in the tree of a root.
    fn hop(&self, root: usize, at: usize) -> Hop
        requires root { root < length self.now }
        requires at { at < length self.now }
        ensures kept { IsSomeHop self.now root at result }
        ensures ascending { IsAscending (ids self.now) }
    {
        self.trees[root].hops()[at]
    }

    fn children_at(&self, root: usize, at: usize) -> &[Zid]
        requires root { root < length self.now }
        requires at { at < length self.now }
        ensures { result.now ≡ children (graph_of self.now) (name self.now root) (name self.now at) }
    {
        self.lists.get(self.trees[root].hops()[at].children)
    }
}

// The names of the records' routers.
pub(crate) fn names_of(alloc: Global, records: &[LinkRecord]) -> Result<Vec<Zid>, AllocError>
    ensures { IfOk result (λ v. v.items ≡ ids records.now) }
{
    records.iter().map(|r| r.id()).collect(alloc)
}
