//! The records that make edges.

ghost use Rattle.std.specs.Prelude.{◌≡◌, IfOk};
ghost use Rattle.zr_graph.specs.Record.{ids, lists, IsAscending};
ghost use Rattle.zr_tree.specs.Linked.{linked, makes_edge};

use crate::edges::linked_back;
use crate::rooted::names_of;
use std::alloc::{AllocError, Global};
use zr_id::record::{LinkRecord, Linked};
use zr_id::zid::Zid;

/// Copies of those of some records in ascending order that make an edge.
pub fn linked_of(alloc: Global, records: &[LinkRecord]) -> Result<Vec<LinkRecord>, AllocError>
    requires { IsAscending (ids records.now) }
    ensures { IfOk result (λ v. v.items ≡ linked records.now) }
{
    let names = names_of(alloc, records)?;
    let mut linked = Vec::new(alloc);
    for r in records {
        if makes_edge(&names, records, r) {
            linked.push(r.copy(alloc)?)?;
        }
    }
    Ok(linked)
}

// Whether a record makes an edge: one of its links is linked back.
fn makes_edge(names: &[Zid], records: &[LinkRecord], r: &LinkRecord) -> bool
    requires names { names.now ≡ ids records.now }
    requires ascending { IsAscending (ids records.now) }
    ensures { result ≡ makes_edge records.now r.now }
{
    let id = r.id();
    for link in r.links() {
        if is_linked_back(names, records, id, link) {
            return true;
        }
    }
    false
}

// Whether the record of a link's router links back.
fn is_linked_back(names: &[Zid], records: &[LinkRecord], from: Zid, link: &Linked) -> bool
    requires names { names.now ≡ ids records.now }
    requires ascending { IsAscending (ids records.now) }
    ensures { result ≡ lists records.now link.now.id from }
{
    linked_back(names, records, from, link).is_some()
}
