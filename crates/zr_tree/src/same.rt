//! Whether the edges stay where records change.

ghost use Rattle.std.specs.Prelude.{◌≡◌, ◌&&◌, true};
ghost use Rattle.std.specs.List.{find};
ghost use Rattle.std.specs.Option.{option_copied};
ghost use Rattle.zr_id.specs.Zid.{is_named};
ghost use Rattle.zr_graph.specs.Record.{ids, lists, record_of, IsAscending};
ghost use Rattle.zr_tree.specs.Same.{HaveSameEdges, KeepsEdges, has_linked, makes_no_edge};

use zr_graph::base::has_link;
use zr_id::record::{LinkRecord, Linked};
use zr_id::zid::Zid;

/// Whether the records are of the same routers as these others, and make the same edges of the same weights. Both are in ascending order.
pub fn are_same_edges(before: &[LinkRecord], after: &[LinkRecord]) -> bool
    requires before { IsAscending (ids before.now) }
    requires after { IsAscending (ids after.now) }
    ensures { result ≡ true → HaveSameEdges before.now after.now }
{
    if before.len() != after.len() {
        return false;
    }
    for i in 0..before.len() {
        if !keeps_edges(before, after, &before[i], &after[i]) {
            return false;
        }
    }
    true
}

// Whether all edges of a router stay where the second record comes in place of the first one.
fn keeps_edges(
    before: &[LinkRecord],
    after: &[LinkRecord],
    first: &LinkRecord,
    second: &LinkRecord,
) -> bool
    ensures { result ≡ true → KeepsEdges before.now after.now first.now second.now }
{
    if !are_of_one_router(first, second) {
        return false;
    }
    if have_same_links(first, second) {
        return true;
    }
    make_no_edge(before, after, first, second)
}

fn are_of_one_router(first: &LinkRecord, second: &LinkRecord) -> bool
    ensures { result ≡ is_named first.now.id second.now.id }
{
    first.id() == second.id()
}

fn have_same_links(first: &LinkRecord, second: &LinkRecord) -> bool
    ensures { result ≡ true → first.now.links ≡ second.now.links }
{
    if first.links().len() != second.links().len() {
        return false;
    }
    for (i, link) in first.links().iter().enumerate() {
        if *link != second.links()[i] {
            return false;
        }
    }
    true
}

// Whether no link that one of them has and the other has not, with its weight, makes an edge.
fn make_no_edge(
    before: &[LinkRecord],
    after: &[LinkRecord],
    first: &LinkRecord,
    second: &LinkRecord,
) -> bool
    ensures { result ≡ (makes_no_edge after.now second.now first.now && makes_no_edge before.now first.now second.now) }
{
    makes_no_edge(after, second, first) && makes_no_edge(before, first, second)
}

// Whether no link of a record that the other one has not, with its weight, makes an edge by these records.
fn makes_no_edge(records: &[LinkRecord], r: &LinkRecord, other: &LinkRecord) -> bool
    ensures { result ≡ makes_no_edge records.now r.now other.now }
{
    let id = r.id();
    r.links().iter().all(|link| has_linked(other, link) || !lists(records, &link.id, &id))
}

// Whether a record has a link, with its weight.
fn has_linked(r: &LinkRecord, link: &Linked) -> bool
    ensures { result ≡ has_linked r.now.links link.now }
{
    match link_to(r, &link.id) {
        Some(found) => found.weight == link.weight,
        None => false,
    }
}

// The link of a record to a router, if it has one.
fn link_to<'a>(r: &'a LinkRecord, to: &Zid) -> Option<&'a Linked>
    ensures { option_copied result ≡ find (λ m. is_named m.id to.now) r.now.links }
{
    r.links().iter().find(|l| l.id == *to)
}

// Whether the record of a router lists another one.
fn lists(records: &[LinkRecord], from: &Zid, to: &Zid) -> bool
    ensures { result ≡ lists records.now from.now to.now }
{
    match find_record(records, from) {
        Some(r) => has_link(r, to),
        None => false,
    }
}

/// The record of a router, where there is one.
pub fn find_record<'a>(records: &'a [LinkRecord], id: &Zid) -> Option<&'a LinkRecord>
    ensures { option_copied result ≡ record_of records.now id.now }
{
    records.iter().find(|r| r.id() == *id)
}
