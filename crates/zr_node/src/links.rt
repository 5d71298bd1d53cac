//! The links of a router in ascending order of their numbers.

ghost use Rattle.std.specs.Prelude.{◌≡◌, ◌≤◌, ◌<◌, ◌^◌, [], length, Some, None, true, OnOk, IfOk, IfSome, OnErr};
ghost use Rattle.std.specs.BTreeMap.{Updates, IsUnchanged};
ghost use Rattle.std.specs.Cmp.Lexicographic.{slice_cmp};
ghost use Rattle.std.specs.List.{insert};
ghost use Rattle.std.specs.Option.{option_map};
ghost use Rattle.std.specs.Ordering.{nat_cmp};
ghost use Rattle.zr_node_spec.specs.Tables.{AreNumbered, link_at, link_to, free_link};
ghost use Rattle.zr_lists.specs.Place.{IsGap, IsPlace};
ghost use Rattle.zr_node_spec.specs.State.{new_link};
ghost use Rattle.zr_node_spec.specs.Table.{with_link, without_link};
ghost use Rattle.zr_node.specs.Hints.{AreOfLinks, leads_to};

use std::alloc::{AllocError, Global};
use std::collections::BTreeMap;
use std::marker::Model;
use zr_id::link::LinkNo;
use zr_id::zid::Zid;
use zr_msg::peer::{LinkPeer, Peer};

/// How many links a router has at most: fewer than there are numbers for them.
const MOST_LINKS: usize = 4_294_967_295;

/// The links that are up.
#[derive(Drop)]
pub struct Links {
    all: Vec<LinkPeer>,
    // By a neighbour's name, the number under which a link to it last came up: a hint, which is checked at the link. Only neighbours whose links
    // are up have one, so there are never more hints than links.
    numbers: BTreeMap<Zid, LinkNo>,
}

impl Model for Links {
    ghost use Rattle.std.specs.Prelude.{◌<◌, ◌^◌, List, length};
    ghost use Rattle.zr_msg.specs.declared.peer.LinkPeer.{LinkPeer};
    ghost use Rattle.zr_node_spec.specs.Tables.{AreNumbered};
    ghost use Rattle.zr_node.specs.Hints.{AreOfLinks};

    ghost Value = { List LinkPeer };

    ghost view = { λ l. l.all.items };

    ghost invariant = { λ l. AreNumbered l.all.items × (length l.all.items < 2 ^ 32) × AreOfLinks l.numbers l.all.items };
}

impl Links {
    /// No link.
    pub fn new(alloc: Global) -> Links
        ensures { result ≡ [] }
    {
        Links {
            all: Vec::new(alloc),
            numbers: BTreeMap::new(alloc),
        }
    }

    /// The same links once more.
    pub fn copy(&self, alloc: Global) -> Result<Links, AllocError>
        ensures { IfOk result (λ l. l ≡ self.now) }
    {
        Ok(Links {
            all: Vec::from_slice(alloc, &self.all)?,
            numbers: hints_of(alloc, &self.all)?,
        })
    }

    /// The links in ascending order of their numbers.
    pub fn as_slice(&self) -> &[LinkPeer]
        ensures value { result.now ≡ self.now }
        ensures ascending { AreNumbered self.now }
        ensures few { length self.now < 2 ^ 32 }
    {
        self.all.as_slice()
    }

    /// The link of this number, if it is up.
    pub fn at(&self, number: LinkNo) -> Option<LinkPeer>
        ensures { result ≡ link_at self.now number.0 }
    {
        match place_of(self.all.as_slice(), number) {
            Ok(at) => Some(self.all[at]),
            Err(_) => None,
        }
    }

    /// The number of a link to a neighbour, where it is found without a search through all links.
    pub fn hinted(&self, name: &Zid) -> Option<LinkNo>
        ensures { IfSome result (λ n. leads_to self.now n name.now ≡ true) }
    {
        let number = *self.numbers.get(name)?;
        let link = self.at(number)?;
        if link.peer.id == *name {
            Some(number)
        } else {
            None
        }
    }

    /// The number of the link to a neighbour, if it is up.
    pub fn link_to(&self, name: &Zid) -> Option<LinkNo>
        ensures { result ≡ option_map (λ l. l.link) (link_to self.now name.now) }
    {
        Some(self.all.iter().find(|l| l.peer.id == *name)?.link)
    }

    /// The least number that no link has.
    pub fn free(&self) -> LinkNo
        ensures { result.0 ≡ free_link self.now }
    {
        LinkNo(free_number(self.all.as_slice()))
    }

    /// A link has come up. Where memory runs out, nothing has changed.
    pub fn add(&mut self, number: LinkNo, peer: Peer) -> Result<(), AllocError>
        requires { link_at self.old number.0 ≡ None }
        ensures ok { OnOk result (self.new ≡ with_link self.old (new_link number peer)) }
        ensures err { OnErr result (self.new ≡ self.old) }
    {
        if self.all.len() >= MOST_LINKS {
            return Err(AllocError);
        }
        let at = gap_of(self.all.as_slice(), number);
        put(
            &mut self.all,
            &mut self.numbers,
            at,
            LinkPeer { link: number, peer },
        )
    }

    /// A link has gone down.
    pub fn remove(&mut self, number: LinkNo)
        ensures { self.new ≡ without_link self.old number.0 }
    {
        forget_hint(&mut self.numbers, self.all.as_slice(), number);
        take_out(&mut self.all, number);
    }
}

fn place_of(links: &[LinkPeer], number: LinkNo) -> Result<usize, usize>
    requires { AreNumbered links.now }
    ensures { IsPlace nat_cmp (λ l. l.link.0) links.now number.0 result }
{
    links.binary_search_by_key(&number.0, |l| l.link.0)
}

// The least number that no link has.
fn free_number(links: &[LinkPeer]) -> u32
    requires few { length links.now < 2 ^ 32 }
    requires ascending { AreNumbered links.now }
    ensures { result ≡ free_link links.now }
{
    let mut free = 0;
    for link in links {
        if link.link.0 != free {
            return free;
        }
        free += 1;
    }
    free
}

fn gap_of(links: &[LinkPeer], number: LinkNo) -> usize
    requires ascending { AreNumbered links.now }
    requires absent { link_at links.now number.0 ≡ None }
    ensures { IsGap nat_cmp (λ l. l.link.0) links.now number.0 result }
{
    match place_of(links, number) {
        Ok(at) => at,
        Err(at) => at,
    }
}

// A link has come up, which is put at this place, with its hint. Where memory runs out, nothing has changed.
#[tactic(auto, using(crate::proofs::Hints::put_undone))]
fn put(
    links: &mut Vec<LinkPeer>,
    numbers: &mut BTreeMap<Zid, LinkNo>,
    at: usize,
    link: LinkPeer,
) -> Result<(), AllocError>
    requires { at ≤ length links.old.items }
    ensures ok { OnOk result ((links.new.items ≡ insert links.old.items at link) × Updates (slice_cmp nat_cmp) numbers.old numbers.new link.peer.id (Some link.link)) }
    ensures err { OnErr result ((links.new.items ≡ links.old.items) × IsUnchanged numbers.old numbers.new) }
{
    links.insert(at, link)?;
    if let Err(failed) = hint(numbers, &link.peer.id, link.link) {
        links.remove(at);
        return Err(failed);
    }
    Ok(())
}

// A link has come up under this number.
fn hint(numbers: &mut BTreeMap<Zid, LinkNo>, name: &Zid, number: LinkNo) -> Result<(), AllocError>
    ensures ok { OnOk result (Updates (slice_cmp nat_cmp) numbers.old numbers.new name.now (Some number)) }
    ensures err { OnErr result (IsUnchanged numbers.old numbers.new) }
{
    numbers.insert(*name, number)?;
    Ok(())
}

// The numbers of all links.
fn hints_of(alloc: Global, links: &[LinkPeer]) -> Result<BTreeMap<Zid, LinkNo>, AllocError>
    ensures { IfOk result (λ numbers. AreOfLinks numbers links.now) }
{
    let mut numbers = BTreeMap::new(alloc);
    for link in links {
        hint(&mut numbers, &link.peer.id, link.link)?;
    }
    Ok(numbers)
}

// The link has gone down.
fn forget_hint(numbers: &mut BTreeMap<Zid, LinkNo>, links: &[LinkPeer], gone: LinkNo)
    requires ascending { AreNumbered links.now }
    requires of_links { AreOfLinks numbers.old links.now }
    ensures { AreOfLinks numbers.new (without_link links.now gone.0) }
{
    if let Ok(at) = place_of(links, gone) {
        let peer = links[at].peer;
        forget(numbers, &peer.id);
    }
}

// No number is remembered under this name any more.
fn forget(numbers: &mut BTreeMap<Zid, LinkNo>, name: &Zid)
    ensures { Updates (slice_cmp nat_cmp) numbers.old numbers.new name.now None }
{
    numbers.remove(name);
}

fn take_out(links: &mut Vec<LinkPeer>, gone: LinkNo)
    ensures { links.new.items ≡ without_link links.old.items gone.0 }
{
    links.retain(|link| link.link.0 != gone.0);
}
