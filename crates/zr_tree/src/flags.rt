//! In which trees one router is the parent of each of its neighbours, by the routers' indexes. No search starts at a root: distances are the
//! same both ways, so those from the router, from its neighbours and from some of theirs tell it for all roots.

ghost use Rattle.std.specs.Prelude.{◌≡◌, ◌==◌, ◌<◌, ◌++◌, ◌∷◌, [], false, IfOk, OnOk, length, map, All, slice_index_or};
ghost use Rattle.std.specs.List.{list_any, position, range_with_len};
ghost use Rattle.zr_tree.specs.OwnChildren.{is_first, AreAllFlags, AreFlags};
ghost use Rattle.zr_tree.specs.Index.{name};
ghost use Rattle.zr_tree.specs.Searches.{is_nearer, AreSearches, Searched};

use crate::edges::Edges;
use crate::searches::Searches;
use std::alloc::{AllocError, Global};
use std::marker::Model;
use zr_tree_parents::row::Neighbour;

/// Whether one router is the parent of another one, by the index of the tree's root. No flags stand for `false` in all trees.
#[derive(Drop)]
pub struct Flags {
    flags: Vec<bool>,
}

impl Model for Flags {
    ghost use Rattle.std.specs.Prelude.{Bool, List};

    ghost Value = { List Bool };

    ghost view = { λ f. f.flags.items };
}

impl Flags {
    /// Whether it is the parent in the tree of this root.
    pub fn at(&self, root: usize) -> bool
        ensures { result ≡ slice_index_or self.now root false }
    {
        match self.flags.get(root) {
            Some(flag) => *flag,
            None => false,
        }
    }
}

/// The flags of router `me` and each other one, by index.
pub fn all_flags(alloc: Global, edges: &Edges, me: usize) -> Result<Vec<Flags>, AllocError>
    requires { me < length edges.now.records }
    ensures { IfOk result (λ v. AreAllFlags edges.now.records (name edges.now.records me) v.items) }
{
    let rows = edges.rows();
    let mut searches = Searches::new(alloc, rows.len())?;
    let mut all = Vec::with_capacity(alloc, rows.len())?;
    for child in 0..rows.len() {
        all.push(flags_of(alloc, edges, &mut searches, me, child)?)?;
    }
    Ok(all)
}

// The flags of router `me` and one other. A router's parent is the first of its neighbours that is nearer to the root by the edge to it.
fn flags_of(
    alloc: Global,
    edges: &Edges,
    searches: &mut Searches,
    me: usize,
    child: usize,
) -> Result<Flags, AllocError>
    requires me { me < length edges.now.records }
    requires child { child < length edges.now.records }
    requires searches { AreSearches edges.now searches.old }
    ensures flags { IfOk result (λ f. AreFlags edges.now.records (name edges.now.records me) child f) }
    ensures searches { OnOk result (AreSearches edges.now searches.new) }
{
    let neighbours = edges.rows()[child].neighbours();
    match place_of(neighbours, me) {
        Some(place) => {
            let mine = neighbours[place];
            passed(alloc, edges, searches, mine, &neighbours[..place], child)
        },
        None => Ok(Flags {
            flags: Vec::new(alloc),
        }),
    }
}

fn place_of(neighbours: &[Neighbour], index: usize) -> Option<usize>
    ensures { result ≡ position (λ n. n.index == index) neighbours.now }
{
    neighbours.iter().position(|n| n.index == index)
}

// For each root, whether router `me` is nearer to it than the child by the edge to it, and none of these others is by its own.
fn passed(
    alloc: Global,
    edges: &Edges,
    searches: &mut Searches,
    me: Neighbour,
    others: &[Neighbour],
    child: usize,
) -> Result<Flags, AllocError>
    requires me { me.index < length edges.now.records }
    requires others { All (λ n. n.index < length edges.now.records) others.now }
    requires child { child < length edges.now.records }
    requires searches { AreSearches edges.now searches.old }
    ensures flags { IfOk result (λ f. f ≡ map (is_first searches.new me others.now child) (range_with_len 0 (length edges.now.records))) }
    ensures searched { OnOk result (Searched edges.now searches.old searches.new ((map (λ n. n.index) others.now ++ me.index ∷ []) ++ child ∷ [])) }
{
    searches.search_all(alloc, edges, others)?;
    searches.search(alloc, edges, me.index)?;
    searches.search(alloc, edges, child)?;
    let flags = first_flags(alloc, searches, me, others, child, edges.rows().len())?;
    Ok(Flags { flags })
}

// The same for so many roots, where all of these were searched from.
fn first_flags(
    alloc: Global,
    searches: &Searches,
    me: Neighbour,
    others: &[Neighbour],
    child: usize,
    count: usize,
) -> Result<Vec<bool>, AllocError>
    ensures { IfOk result (λ v. v.items ≡ map (is_first searches.now me others.now child) (range_with_len 0 count)) }
{
    let mut flags = Vec::with_capacity(alloc, count)?;
    for root in 0..count {
        flags.push(is_first(searches, me, others, child, root))?;
    }
    Ok(flags)
}

fn is_first(
    searches: &Searches,
    me: Neighbour,
    others: &[Neighbour],
    child: usize,
    root: usize,
) -> bool
    ensures { result ≡ is_first searches.now me others.now child root }
{
    searches.is_nearer(me, child, root) && !is_any_nearer(searches, others, child, root)
}

fn is_any_nearer(searches: &Searches, others: &[Neighbour], child: usize, root: usize) -> bool
    ensures { result ≡ list_any (λ n. is_nearer searches.now n child root) others.now }
{
    others.iter().any(|n| searches.is_nearer(*n, child, root))
}
