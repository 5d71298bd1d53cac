//! The tree of one root, by the routers' indexes.

ghost use Rattle.std.specs.Prelude.{◌≡◌, ◌<◌, ◌^◌, IfOk, OnOk, length, unwrap_or};
ghost use Rattle.zr_graph.specs.Record.{ids};
ghost use Rattle.zr_tree_parents.specs.Climb.{at};
ghost use Rattle.zr_tree_parents.specs.Distance.{kept_at};
ghost use Rattle.zr_tree_parents.specs.Lists.{OnlyAdds};
ghost use Rattle.zr_tree.specs.Hop.{AreWays};

use crate::edges::Edges;
use crate::search::reach_from;
use std::alloc::{AllocError, Global};
use std::marker::Model;
use zr_id::zid::Zid;
use zr_tree_parents::children::children_number;
use zr_tree_parents::depths::depths_of;
use zr_tree_parents::jumps::jumps_of;
use zr_tree_parents::lists::Lists;
use zr_tree_parents::parents::parents_of;
use zr_tree_parents::search::Reach;

/// The depth of a router that its root doesn't reach.
pub const UNREACHED: u32 = u32::MAX;

/// Where a router stands in the tree of a root.
#[derive(Clone, Copy)]
pub struct Hop {
    /// How many edges of the tree lead to it from the root, or [`UNREACHED`].
    pub depth: u32,
    /// The index of its parent, or its own where it has none.
    pub parent: u32,
    /// The index of a router at or above its parent, by which a way up is shortened.
    pub jump: u32,
    /// The number of the list of its children.
    pub children: u32,
}

// By index, what is known of the tree of a root.
#[derive(Drop)]
struct Ways {
    depths: Vec<Option<u32>>,
    parents: Vec<usize>,
    jumps: Vec<usize>,
}

/// What is kept of each router in the tree of a root, by index.
#[derive(Drop)]
pub struct Tree {
    hops: Vec<Hop>,
}

impl Model for Tree {
    ghost use Rattle.std.specs.Prelude.{List};
    ghost use Rattle.zr_tree.specs.declared.tree.Hop.{Hop};

    ghost Value = { List Hop };

    ghost view = { λ t. t.hops.items };
}

impl Tree {
    ghost use Rattle.zr_tree.specs.Hop.{IsTree};

    /// The tree of a root; its lists of children are put to those of the other trees.
    pub fn of(
        alloc: Global,
        edges: &Edges,
        names: &[Zid],
        root: usize,
        lists: &mut Lists,
    ) -> Result<Tree, AllocError>
        requires root { root < length edges.now.records }
        requires names { names.now ≡ ids edges.now.records }
        requires routers { lists.old.routers ≡ length edges.now.records }
        ensures tree { IfOk result (λ t. IsTree edges.now.records root lists.new.lists t) }
        ensures kept { OnOk result (OnlyAdds lists.old.lists lists.new.lists) }
        ensures routers { OnOk result (lists.new.routers ≡ lists.old.routers) }
    {
        let rows = edges.rows();
        let ways = ways_of(alloc, edges, root)?;
        let mut hops = Vec::with_capacity(alloc, rows.len())?;
        for x in 0..rows.len() {
            let neighbours = rows[x].neighbours();
            let number = children_number(alloc, names, neighbours, &ways.parents, x, lists)?;
            hops.push(hop_of(&ways, x, number))?;
        }
        Ok(Tree { hops })
    }

    /// What is kept of each router.
    pub fn hops(&self) -> &[Hop]
        ensures { result.now ≡ self.now }
    {
        self.hops.as_slice()
    }
}

// The ways in the tree of a root.
fn ways_of(alloc: Global, edges: &Edges, root: usize) -> Result<Ways, AllocError>
    requires { root < length edges.now.records }
    ensures { IfOk result (λ w. AreWays edges.now.records root w.depths.items w.parents.items w.jumps.items) }
{
    let rows = edges.rows();
    let Reach { distances, order } = reach_from(alloc, edges, root)?;
    let parents = parents_of(alloc, rows, &distances)?;
    let depths = depths_of(alloc, &order, &parents)?;
    let jumps = jumps_of(alloc, &depths, &order, &parents)?;
    Ok(Ways {
        depths,
        parents,
        jumps,
    })
}

fn hop_of(ways: &Ways, x: usize, children: u32) -> Hop
    requires depths { x < length ways.now.depths.items }
    requires parents { x < length ways.now.parents.items }
    requires jumps { x < length ways.now.jumps.items }
    requires parent { at ways.now.parents.items x < 2 ^ 32 }
    requires jump { at ways.now.jumps.items x < 2 ^ 32 }
    ensures depth { result.depth ≡ unwrap_or (kept_at ways.now.depths.items x) UNREACHED }
    ensures parent { result.parent ≡ at ways.now.parents.items x }
    ensures jump { result.jump ≡ at ways.now.jumps.items x }
    ensures children { result.children ≡ children }
{
    Hop {
        depth: ways.depths[x].unwrap_or(UNREACHED),
        parent: ways.parents[x] as u32,
        jump: ways.jumps[x] as u32,
        children,
    }
}
