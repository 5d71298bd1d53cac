//! How the own record changes where a link to a router comes or goes.

ghost use Rattle.std.specs.Prelude.{◌≡◌, ◌++◌, filter, not, true, false, IfOk, OnOk, OnErr};
ghost use Rattle.zr_id.specs.Record.{are_links, is_before};
ghost use Rattle.zr_id.specs.Zid.{is_named};
ghost use Rattle.zr_node_spec.specs.Table.{own_links, with_linked, without_linked, joined, parted, is_worn, is_full, refuses_up, refuses_parting};
ghost use Rattle.zr_node.specs.Answer.{refusal};

use std::alloc::{AllocError, Global};
use zr_flood::flood::own_record;
use zr_graph::base::{Base, ChangeError};
use zr_id::record::{Linked, MOST_LINKS};
use zr_id::zid::Zid;
use zr_msg::peer::Role;

/// The own record lists one more link, under its next number.
pub fn join(alloc: Global, base: &mut Base, link: &Linked) -> Result<(), ChangeError>
    requires { is_named link.now.id base.old.me ≡ false }
    ensures ok { OnOk result (base.new ≡ joined base.old link.now) }
    ensures worn { refuses_up base.old Role.Router ≡ refusal result }
    ensures unchanged { OnErr result (base.new ≡ base.old) }
{
    if is_worn(base) || is_full(base) {
        return Err(ChangeError::Worn);
    }
    let links = with_linked(alloc, own_links(base), link)?;
    base.change(links.as_slice())
}

/// The own record lists a router no more, under its next number.
pub fn part(alloc: Global, base: &mut Base, id: &Zid) -> Result<(), ChangeError>
    ensures ok { OnOk result (base.new ≡ parted base.old id.now) }
    ensures worn { refuses_parting base.old Role.Router ≡ refusal result }
    ensures unchanged { OnErr result (base.new ≡ base.old) }
{
    if is_worn(base) {
        return Err(ChangeError::Worn);
    }
    let links = without_linked(alloc, own_links(base), id)?;
    base.change(links.as_slice())
}

fn is_worn(base: &Base) -> bool
    ensures { result ≡ is_worn base.now }
{
    match own_record(base) {
        Some(own) => own.seq() == u64::MAX,
        None => false,
    }
}

fn is_full(base: &Base) -> bool
    ensures { result ≡ is_full base.now }
{
    own_links(base).len() >= MOST_LINKS
}

// The links that the own record lists.
fn own_links(base: &Base) -> &[Linked]
    ensures value { result.now ≡ own_links base.now }
    ensures in_order { are_links base.now.me result.now ≡ true }
{
    match own_record(base) {
        Some(own) => own.links(),
        None => &[],
    }
}

// The links with one more in its place.
fn with_linked(alloc: Global, links: &[Linked], link: &Linked) -> Result<Vec<Linked>, AllocError>
    ensures { IfOk result (λ all. all.items ≡ with_linked links.now link.now) }
{
    let mut all = Vec::new(alloc);
    push_below(&mut all, links, &link.id)?;
    all.push(*link)?;
    push_above(&mut all, links, &link.id)?;
    Ok(all)
}

fn push_below(all: &mut Vec<Linked>, links: &[Linked], id: &Zid) -> Result<(), AllocError>
    ensures { OnOk result (all.new.items ≡ all.old.items ++ filter (λ k. is_before k.id id.now) links.now) }
{
    for link in links {
        if is_before(&link.id, id) {
            all.push(*link)?;
        }
    }
    Ok(())
}

fn push_above(all: &mut Vec<Linked>, links: &[Linked], id: &Zid) -> Result<(), AllocError>
    ensures { OnOk result (all.new.items ≡ all.old.items ++ filter (λ k. is_before id.now k.id) links.now) }
{
    for link in links {
        if is_before(id, &link.id) {
            all.push(*link)?;
        }
    }
    Ok(())
}

fn is_before(first: &Zid, second: &Zid) -> bool
    ensures { result ≡ is_before first.now second.now }
{
    *first < *second
}

fn without_linked(alloc: Global, links: &[Linked], id: &Zid) -> Result<Vec<Linked>, AllocError>
    ensures { IfOk result (λ rest. rest.items ≡ without_linked links.now id.now) }
{
    let mut rest = Vec::new(alloc);
    for link in links {
        if is_other(&link.id, id) {
            rest.push(*link)?;
        }
    }
    Ok(rest)
}

fn is_other(name: &Zid, id: &Zid) -> bool
    ensures { result ≡ not (is_named name.now id.now) }
{
    *name != *id
}
