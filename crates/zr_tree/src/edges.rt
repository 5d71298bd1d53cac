//! The edges of records by index, and what they weigh: what the search for shortest walks reads.

ghost use Rattle.std.specs.Prelude.{◌≡◌, ◌<◌, ◌^◌, ◌++◌, ◌∷◌, [], false, Some, IfOk, OnOk, MatchOption, length, map, All, slice_index_or};
ghost use Rattle.std.specs.Option.{option_map_or};
ghost use Rattle.zr_id.specs.Record.{linked_ids};
ghost use Rattle.zr_graph.specs.Record.{has, ids, lists, record_of, IsAscending};
ghost use Rattle.zr_tree.specs.Walk.{graph_of, near, edge_length};
ghost use Rattle.zr_tree.specs.Index.{name, AreEdges, EdgeTable, IsGiven, LinksBack};

use std::alloc::{AllocError, Global};
use std::marker::Model;
use std::snapshot::Snapshot;
use zr_id::record::{LinkRecord, Linked};
use zr_id::zid::Zid;
use zr_tree_parents::row::{Neighbour, Row};

/// The neighbours of each router of some records, by the routers' indexes in ascending order, with the weights of the edges.
#[derive(Drop)]
pub struct Edges {
    records: Snapshot<Vec<LinkRecord>>,
    rows: Vec<Row>,
}

impl Model for Edges {
    ghost use Rattle.zr_tree.specs.Index.{EdgeTable, AreEdges};

    ghost Value = { EdgeTable };

    ghost view = { λ e. record { records = e.records.value.items; rows = e.rows.items } };

    ghost invariant = { λ e. AreEdges (record { records = e.records.value.items; rows = e.rows.items }) };
}

impl Edges {
    /// The edges of records in ascending order, whose routers have these names.
    pub fn of(alloc: Global, records: &Vec<LinkRecord>, names: &[Zid]) -> Result<Edges, AllocError>
        requires names { names.now ≡ ids records.now.items }
        requires ascending { IsAscending (ids records.now.items) }
        ensures { IfOk result (λ e. e.records ≡ records.now.items) }
    {
        let rows = rows_of(alloc, names, records)?;
        Ok(Edges {
            records: Snapshot::of(records),
            rows,
        })
    }

    pub fn rows(&self) -> &[Row]
        ensures value { result.now ≡ self.now.rows }
        ensures right { AreEdges self.now }
    {
        self.rows.as_slice()
    }
}

// The rows of all records, which have these names.
fn rows_of(alloc: Global, names: &[Zid], records: &[LinkRecord]) -> Result<Vec<Row>, AllocError>
    requires names { names.now ≡ ids records.now }
    requires ascending { IsAscending (ids records.now) }
    ensures { IfOk result (λ v. AreEdges (record { records = records.now; rows = v.items })) }
{
    // a table of 2^32 rows and as many columns fits no memory
    if records.len() >= u32::MAX as usize {
        return Err(AllocError);
    }
    let mut rows = Vec::new(alloc);
    for r in records {
        rows.push(row_of(alloc, names, records, r)?)?;
    }
    Ok(rows)
}

// The edges of the router of a record, by the indexes of its neighbours.
fn row_of(
    alloc: Global,
    names: &[Zid],
    records: &[LinkRecord],
    from: &LinkRecord,
) -> Result<Row, AllocError>
    requires names { names.now ≡ ids records.now }
    requires ascending { IsAscending (ids records.now) }
    requires among { record_of records.now from.now.id ≡ Some from.now }
    ensures neighbours { IfOk result (λ r. map (λ n. name records.now n.index) r ≡ near (graph_of records.now) from.now.id) }
    ensures within { IfOk result (λ r. All (λ n. n.index < length records.now) r) }
    ensures lengths { IfOk result (λ r. All (λ n. n.weight ≡ edge_length (graph_of records.now) (name records.now n.index) from.now.id) r) }
    ensures weights { IfOk result (λ r. All (λ n. n.weight < 2 ^ 16) r) }
{
    let links = from.links();
    let mut neighbours = Vec::new(alloc);
    for link in links {
        extend(
            &mut neighbours,
            linked_back(names, records, from.id(), link),
        )?;
    }
    Ok(Row::of(neighbours))
}

/// The edge by a link, if the record of the other router links back.
pub fn linked_back(
    names: &[Zid],
    records: &[LinkRecord],
    from: Zid,
    link: &Linked,
) -> Option<Neighbour>
    requires names { names.now ≡ ids records.now }
    requires ascending { IsAscending (ids records.now) }
    ensures { MatchOption result (lists records.now link.now.id from ≡ false) (λ n. LinksBack records.now from link.now n) }
{
    let index = index_in(names, &link.id)?;
    let given = weight_to(&records[index], &from)?;
    Some(Neighbour {
        index,
        weight: link.weight.max(given),
    })
}

fn extend(neighbours: &mut Vec<Neighbour>, more: Option<Neighbour>) -> Result<(), AllocError>
    ensures { OnOk result (neighbours.new.items ≡ option_map_or (λ n. neighbours.old.items ++ n ∷ []) more neighbours.old.items) }
{
    match more {
        Some(neighbour) => Ok(neighbours.push(neighbour)?),
        None => Ok(()),
    }
}

/// The index of an identifier, if it is among these, which ascend.
pub fn index_in(names: &[Zid], id: &Zid) -> Option<usize>
    requires { IsAscending names.now }
    ensures { MatchOption result (has names.now id.now ≡ false) (λ i. (i < length names.now) × (slice_index_or names.now i [] ≡ id.now)) }
{
    names.binary_search(id).ok()
}

// What the link of a record to a router weighs, if it has one.
fn weight_to(r: &LinkRecord, to: &Zid) -> Option<u16>
    ensures { MatchOption result (has (linked_ids r.now.links) to.now ≡ false) (λ w. IsGiven r.now.links to.now w) }
{
    for link in r.links() {
        if link.id == *to {
            return Some(link.weight);
        }
    }
    None
}
