//! What a router shows of itself at a moment.

ghost use Rattle.std.specs.Prelude.{◌≡◌, ◌++◌, ◌∷◌, [], if◌then◌else◌, map, not, IfOk, OnOk};
ghost use Rattle.zr_id.specs.Zid.{is_named};
ghost use Rattle.zr_router_glance.specs.Glance.{count_of, glance_at, other_ids, others, parent_at, parent_in};

use crate::peers::peers_of;
use std::alloc::{AllocError, Global};
use zr_glance::{Count, Glance, Parent};
use zr_graph::base::{Base, copies_of};
use zr_id::record::LinkRecord;
use zr_id::zid::Zid;
use zr_log::known::Known;
use zr_log::log::Log;
use zr_msg::peer::LinkPeer;
use zr_tree::trees::Trees;

/// What a router shows of itself that has these links, these records and these logs.
pub fn glance_at(
    alloc: Global,
    links: &[LinkPeer],
    base: &Base,
    known: &Known,
) -> Result<Glance, AllocError>
    ensures { IfOk result (λ g. g ≡ glance_at links.now base.now known.now) }
{
    let links = peers_of(alloc, links)?;
    let records = copies_of(alloc, base.records())?;
    let parents = parents_of(alloc, base)?;
    let sources = counts_of(alloc, known.logs())?;
    Ok(Glance::new(links, records, parents, sources))
}

// The router's parents in the trees of the others.
fn parents_of(alloc: Global, base: &Base) -> Result<Vec<Parent>, AllocError>
    ensures { IfOk result (λ v. v.items ≡ map (λ root. parent_in base.now root) (others base.now)) }
{
    let trees = Trees::of(alloc, base)?;
    let me = base.me();
    let roots = others_of(alloc, &me, base.records())?;
    parents_in(alloc, &trees, me, &roots)
}

// The parents of a router in the trees of these roots.
fn parents_in(
    alloc: Global,
    trees: &Trees,
    me: Zid,
    roots: &[Zid],
) -> Result<Vec<Parent>, AllocError>
    ensures { IfOk result (λ v. v.items ≡ map (λ root. parent_at trees.now me root) roots.now) }
{
    let mut parents = Vec::with_capacity(alloc, roots.len())?;
    for root in roots {
        parents.push(Parent {
            root: *root,
            parent: trees.parent(*root, me),
        })?;
    }
    Ok(parents)
}

// The routers of these records but one.
fn others_of(alloc: Global, me: &Zid, records: &[LinkRecord]) -> Result<Vec<Zid>, AllocError>
    ensures { IfOk result (λ v. v.items ≡ other_ids me.now records.now) }
{
    let mut others = Vec::new(alloc);
    for links in records {
        put_other(&mut others, me, links.id())?;
    }
    Ok(others)
}

fn put_other(others: &mut Vec<Zid>, me: &Zid, id: Zid) -> Result<(), AllocError>
    ensures { OnOk result (others.new.items ≡ others.old.items ++ (if not (is_named id me.now) then id ∷ [] else [])) }
{
    if id == *me {
        return Ok(());
    }
    others.push(id)?;
    Ok(())
}

fn counts_of(alloc: Global, logs: &[Log]) -> Result<Vec<Count>, AllocError>
    ensures { IfOk result (λ v. v.items ≡ map (λ l. count_of l) logs.now) }
{
    let mut counts = Vec::with_capacity(alloc, logs.len())?;
    for log in logs {
        counts.push(Count {
            id: log.source,
            number: log.position,
            decls: log.decls.as_slice().len() as u64,
        })?;
    }
    Ok(counts)
}
