//! The pages of a router's administration space.

ghost use Rattle.std.specs.Prelude.{◌≡◌, ◌++◌, codes, map, IfOk, OnOk};
ghost use Rattle.std.specs.Fmt.{decimal};
ghost use Rattle.zr_script_spec.specs.Report.{links_text, optional_id_text};
ghost use Rattle.zr_glance.specs.Pages.{link_page, pages, parent_page, place, record_page, role_text, source_page, space};

use crate::glance::{Count, Glance, Parent};
use std::alloc::{AllocError, Global};
use zr_bytes::ByteString;
use zr_id::record::LinkRecord;
use zr_id::zid::Zid;
use zr_key::key::KeyExpr;
use zr_msg::peer::{Peer, Role};
use zr_script::message::put_links;
use zr_script::part::{put_id, put_number, put_optional_id};

/// A page: its key, which has no wildcard, and what it says.
#[derive(Drop)]
pub struct Page {
    pub key: KeyExpr,
    pub payload: ByteString,
}

/// The pages of a router, in ascending order of their keys' bytes.
pub fn pages(alloc: Global, id: Zid, glance: &Glance) -> Result<Vec<Page>, AllocError>
    ensures { IfOk result (λ v. v.items ≡ pages id glance.now) }
{
    let mut all = Vec::new(alloc);
    put_peers(&mut all, &id, glance.links())?;
    put_parents(&mut all, &id, glance.parents())?;
    put_records(&mut all, &id, glance.records())?;
    put_sources(&mut all, &id, glance.sources())?;
    Ok(all)
}

fn put_peers(all: &mut Vec<Page>, id: &Zid, peers: &[Peer]) -> Result<(), AllocError>
    ensures { OnOk result (all.new.items ≡ all.old.items ++ map (λ p. link_page id.now p) peers.now) }
{
    for peer in peers {
        let page = link_page(*all.allocator(), id, peer)?;
        all.push(page)?;
    }
    Ok(())
}

fn put_parents(all: &mut Vec<Page>, id: &Zid, parents: &[Parent]) -> Result<(), AllocError>
    ensures { OnOk result (all.new.items ≡ all.old.items ++ map (λ q. parent_page id.now q) parents.now) }
{
    for parent in parents {
        let page = parent_page(*all.allocator(), id, parent)?;
        all.push(page)?;
    }
    Ok(())
}

fn put_records(all: &mut Vec<Page>, id: &Zid, records: &[LinkRecord]) -> Result<(), AllocError>
    ensures { OnOk result (all.new.items ≡ all.old.items ++ map (λ r. record_page id.now r) records.now) }
{
    for links in records {
        let page = record_page(*all.allocator(), id, links)?;
        all.push(page)?;
    }
    Ok(())
}

fn put_sources(all: &mut Vec<Page>, id: &Zid, sources: &[Count]) -> Result<(), AllocError>
    ensures { OnOk result (all.new.items ≡ all.old.items ++ map (λ c. source_page id.now c) sources.now) }
{
    for count in sources {
        let page = source_page(*all.allocator(), id, count)?;
        all.push(page)?;
    }
    Ok(())
}

fn link_page(alloc: Global, id: &Zid, peer: &Peer) -> Result<Page, AllocError>
    ensures { IfOk result (λ p. p ≡ link_page id.now peer.now) }
{
    let payload = ByteString::from_slice(alloc, role_text(peer.role))?;
    let key = key_of(alloc, id, b"link", &peer.id)?;
    Ok(Page { key, payload })
}

fn parent_page(alloc: Global, id: &Zid, parent: &Parent) -> Result<Page, AllocError>
    ensures { IfOk result (λ p. p ≡ parent_page id.now parent.now) }
{
    let mut text = Vec::new(alloc);
    put_optional_id(&parent.parent, &mut text)?;
    let key = key_of(alloc, id, b"parent", &parent.root)?;
    Ok(Page {
        key,
        payload: ByteString::new(text),
    })
}

fn record_page(alloc: Global, id: &Zid, links: &LinkRecord) -> Result<Page, AllocError>
    ensures { IfOk result (λ p. p ≡ record_page id.now links.now) }
{
    let mut text = Vec::new(alloc);
    put_number(links.seq(), &mut text)?;
    text.extend_from_slice(b" ")?;
    put_links(links.links(), &mut text)?;
    let key = key_of(alloc, id, b"record", &links.id())?;
    Ok(Page {
        key,
        payload: ByteString::new(text),
    })
}

fn source_page(alloc: Global, id: &Zid, count: &Count) -> Result<Page, AllocError>
    ensures { IfOk result (λ p. p ≡ source_page id.now count.now) }
{
    let mut text = Vec::new(alloc);
    put_number(count.number, &mut text)?;
    text.extend_from_slice(b" ")?;
    put_number(count.decls, &mut text)?;
    let key = key_of(alloc, id, b"source", &count.id)?;
    Ok(Page {
        key,
        payload: ByteString::new(text),
    })
}

fn role_text(role: Role) -> &'static [u8]
    ensures { result.now ≡ role_text role }
{
    match role {
        Role::Client => b"client",
        Role::Router => b"router",
    }
}

// The key of a page that tells this of that router or client.
fn key_of(alloc: Global, id: &Zid, what: &[u8], name: &Zid) -> Result<KeyExpr, AllocError>
    ensures { IfOk result (λ k. k ≡ place id.now what.now name.now) }
{
    let mut text = Vec::new(alloc);
    put_space(id, &mut text)?;
    text.extend_from_slice(what)?;
    text.extend_from_slice(b"/")?;
    put_id(name, &mut text)?;
    as_it_stands(alloc, &text)
}

/// The expression that all keys of a router's space meet, and no other key of the space of another router: `@/ID/router/**`.
pub fn space_key(alloc: Global, id: &Zid) -> Result<KeyExpr, AllocError>
    ensures { IfOk result (λ k. k ≡ space id.now ++ codes "**") }
{
    let mut text = Vec::new(alloc);
    put_space(id, &mut text)?;
    text.extend_from_slice(b"**")?;
    as_it_stands(alloc, &text)
}

fn put_space(id: &Zid, out: &mut Vec<u8>) -> Result<(), AllocError>
    ensures { OnOk result (out.new.items ≡ out.old.items ++ space id.now) }
{
    out.extend_from_slice(b"@/")?;
    put_id(id, out)?;
    out.extend_from_slice(b"/router/")
}

// The expression of a text that is canonical already: reading it can want for memory alone.
fn as_it_stands(alloc: Global, text: &[u8]) -> Result<KeyExpr, AllocError>
    ensures { IfOk result (λ k. k ≡ text.now) }
{
    match KeyExpr::read(alloc, text) {
        Ok(key) => {
            if key.text().as_bytes() == text {
                Ok(key)
            } else {
                Err(AllocError)
            }
        }
        Err(_) => Err(AllocError),
    }
}
