//! Trees of small graphs, of a router that knows no record of its neighbour and of a long line, and the children of one router in them.
//! `tests/rules` asks of each graph of five routers.

use crate::graphs::{linked, record, relink, taken};
use crate::row::{self, Fault, Steps};
use std::alloc::{AllocError, Global};
use zr_graph::base::Base;
use zr_id::record::Linked;
use zr_id::zid::{BadId, Zid};
use zr_tree::family::Family;
use zr_tree::trees::Trees;

/// How many routers the small graphs have.
const ROUTERS: usize = 5;

/// The graph that has the edge of routers 0 and 1 alone.
const PAIR: u32 = 1;

/// The bit of an edge in the number of a graph, by the indexes of its two routers.
static BITS: [[u32; ROUTERS]; ROUTERS] = [
    [0, 1, 2, 4, 8],
    [1, 0, 16, 32, 64],
    [2, 16, 0, 128, 256],
    [4, 32, 128, 0, 512],
    [8, 64, 256, 512, 0],
];

/// How many routers the weighted graphs have.
const WEIGHED: usize = 4;

/// How far to the right the two bits of an edge's weight stand in the number of a weighted graph, by the indexes of its two routers. No edge
/// has the weight 0.
static SHIFTS: [[u32; WEIGHED]; WEIGHED] = [
    [0, 0, 2, 4],
    [0, 0, 6, 8],
    [2, 6, 0, 10],
    [4, 8, 10, 0],
];

/// What trees tell, of the graph of a number at a router, of a router that knows no record of its neighbour, or of a line of so many routers.
pub fn answer(alloc: Global, words: &[&str]) -> Result<String, Fault> {
    let base = named(alloc, words)?;
    let trees = Trees::of(alloc, &base)?;
    row::run(alloc, trees, row::behind(words, 2))
}

/// Which routers are children of the one at which such a base is.
pub fn children(alloc: Global, words: &[&str]) -> Result<String, Fault> {
    let base = named(alloc, words)?;
    let family = Family::of(alloc, &base)?;
    row::run(alloc, family, row::behind(words, 2))
}

/// What trees tell of the weighted graph of a number at a router.
pub fn weighted(alloc: Global, words: &[&str]) -> Result<String, Fault> {
    let base = weighted_base(alloc, row::parsed(words, 0)?, row::parsed(words, 1)?)?;
    let trees = Trees::of(alloc, &base)?;
    row::run(alloc, trees, row::behind(words, 2))
}

/// Which routers are children of the one at which the base of a weighted graph is.
pub fn weighted_children(alloc: Global, words: &[&str]) -> Result<String, Fault> {
    let base = weighted_base(alloc, row::parsed(words, 0)?, row::parsed(words, 1)?)?;
    let family = Family::of(alloc, &base)?;
    row::run(alloc, family, row::behind(words, 2))
}

// What the edge of two routers weighs in a weighted graph, and nothing where there is none.
fn edge_weight(graph: u32, i: usize, j: usize) -> u16 {
    if i < WEIGHED && j < WEIGHED && i != j {
        ((graph >> SHIFTS[i][j]) & 3) as u16
    } else {
        0
    }
}

// What a router gives the edge to another one. Of the two ends only one gives the whole weight: the lesser router where the graph's number is
// even, and else the greater one.
fn weight_given(graph: u32, i: usize, j: usize) -> u16 {
    let weight = edge_weight(graph, i, j);
    if (i < j) == (graph % 2 == 0) {
        weight
    } else {
        weight.min(1)
    }
}

fn weighted_links(alloc: Global, graph: u32, i: usize) -> Result<Vec<Linked>, Fault> {
    let mut links = Vec::new(alloc);
    for j in 0..WEIGHED {
        let weight = weight_given(graph, i, j);
        if weight > 0 {
            links.push(linked(name(j)?, weight)?)?;
        }
    }
    Ok(links)
}

// The base of a router that has all records of a weighted graph.
fn weighted_base(alloc: Global, graph: u32, me: usize) -> Result<Base, Fault> {
    let mut base = base_with(alloc, name(me)?, &weighted_links(alloc, graph, me)?)?;
    for i in 0..WEIGHED {
        accept(&mut base, name(i)?, 1, weighted_links(alloc, graph, i)?)?;
    }
    Ok(base)
}

// The base that a row's first two words name: of the first of a line of so many routers, or of a graph at the router of this index.
fn named(alloc: Global, words: &[&str]) -> Result<Base, Fault> {
    match row::word(words, 0) {
        "line" => line(alloc, row::parsed(words, 1)?),
        "lone" => bare(alloc, PAIR, 0),
        _ => base_of(alloc, row::parsed(words, 0)?, row::parsed(words, 1)?),
    }
}

fn is_edge(graph: u32, i: usize, j: usize) -> bool {
    i < ROUTERS && j < ROUTERS && graph & BITS[i][j] != 0
}

// The identifier of the router of this index: one byte, so the order is that of the indexes.
fn name(i: usize) -> Result<Zid, BadId> {
    Zid::from_bytes(&[(i % ROUTERS) as u8 + 1])
}

// The identifier of the router of this number in a long line: the order is that of the numbers.
fn far_name(i: u32) -> Result<Zid, BadId> {
    let [a, b, c, d] = i.to_be_bytes();
    Zid::from_bytes(&[1, a, b, c, d])
}

fn links_of(alloc: Global, graph: u32, i: usize) -> Result<Vec<Linked>, Fault> {
    let mut links = Vec::new(alloc);
    for j in 0..ROUTERS {
        if is_edge(graph, i, j) {
            links.push(linked(name(j)?, 1)?)?;
        }
    }
    Ok(links)
}

// The base of a router with these links, which knows no other one's record.
fn base_with(alloc: Global, me: Zid, links: &[Linked]) -> Result<Base, Fault> {
    let mut base = Base::new(alloc, me)?;
    relink(&mut base, links)?;
    Ok(base)
}

// The base of a router that has its links in a graph, and knows no other one's record.
fn bare(alloc: Global, graph: u32, me: usize) -> Result<Base, Fault> {
    base_with(alloc, name(me)?, &links_of(alloc, graph, me)?)
}

// A router's record comes.
fn accept(base: &mut Base, id: Zid, seq: u64, links: Vec<Linked>) -> Result<(), Fault> {
    let _ = taken(base, record(id, seq, links)?)?;
    Ok(())
}

// The base of a router that has all records of a graph.
fn base_of(alloc: Global, graph: u32, me: usize) -> Result<Base, Fault> {
    let mut base = bare(alloc, graph, me)?;
    for i in 0..ROUTERS {
        accept(&mut base, name(i)?, 1, links_of(alloc, graph, i)?)?;
    }
    Ok(base)
}

// The base of the first router of a line of so many, of which the last one lists one more, of which nothing came.
fn line(alloc: Global, routers: u32) -> Result<Base, Fault> {
    let mut base = base_with(alloc, far_name(0)?, &[linked(far_name(1)?, 1)?])?;
    for i in 1..routers {
        accept_far(alloc, &mut base, i)?;
    }
    Ok(base)
}

// The record of a router in a line comes: it lists the one before and the one behind.
fn accept_far(alloc: Global, base: &mut Base, i: u32) -> Result<(), Fault> {
    let links = [
        linked(far_name(i.saturating_sub(1))?, 1)?,
        linked(far_name(i.saturating_add(1))?, 1)?,
    ];
    accept(base, far_name(i)?, 1, links.to_vec(alloc)?)
}

impl Steps for Trees {
    // Another base of a graph, or a question: of a root and a router in its tree, or whether the edges of a graph are theirs.
    fn step(&mut self, alloc: Global, parts: &[&str]) -> Result<String, Fault> {
        match row::word(parts, 0) {
            "edges" => edges(alloc, self, row::parsed(parts, 1)?),
            "follow" => follow(alloc, self, row::parsed(parts, 1)?),
            question => asked(alloc, self, question, parts),
        }
    }
}

fn edges(alloc: Global, trees: &Trees, graph: u32) -> Result<String, Fault> {
    let base = base_of(alloc, graph, 1)?;
    row::text(alloc, &trees.have_edges_of(&base))
}

// The base of a graph comes, in which router 0 lists one router more.
fn follow(alloc: Global, trees: &mut Trees, graph: u32) -> Result<String, Fault> {
    let base = one_more(alloc, graph)?;
    let is_followed = is_followed(alloc, trees, &base)?;
    row::text(alloc, &is_followed)
}

// The base of this graph at router 3, where router 0 lists router 3 as well, which doesn't list it.
fn one_more(alloc: Global, graph: u32) -> Result<Base, Fault> {
    let mut links = links_of(alloc, graph, 0)?;
    links.push(linked(name(3)?, 1)?)?;
    let mut base = base_of(alloc, graph, 3)?;
    accept(&mut base, name(0)?, 2, links)?;
    Ok(base)
}

// Whether no edge came with that base, which is followed then.
fn is_followed(alloc: Global, trees: &mut Trees, base: &Base) -> Result<bool, AllocError> {
    if !trees.have_edges_of(base) {
        return Ok(false);
    }
    trees.follow(alloc, base)?;
    Ok(true)
}

fn asked(alloc: Global, trees: &Trees, question: &str, parts: &[&str]) -> Result<String, Fault> {
    let (root, at) = (row::id(parts, 1)?, row::id(parts, 2)?);
    match question {
        "parent" => row::text(alloc, &trees.parent(root, at)),
        "children" => row::text(alloc, &trees.children(root, at)),
        "reached" => row::text(alloc, &trees.reached(root, at)),
        "toward" => row::text(alloc, &trees.toward(root, at, row::id(parts, 3)?)),
        _ => Err(Fault::Row),
    }
}

impl Steps for Family {
    // Whether a router is a child, by the root of the tree.
    fn step(&mut self, alloc: Global, parts: &[&str]) -> Result<String, Fault> {
        match row::word(parts, 0) {
            "is_child" => is_child(alloc, self, parts),
            _ => Err(Fault::Row),
        }
    }
}

fn is_child(alloc: Global, family: &Family, parts: &[&str]) -> Result<String, Fault> {
    let (root, child) = (row::id(parts, 1)?, row::id(parts, 2)?);
    row::text(alloc, &family.is_child(root, child))
}
