//! `Clients`: the live interests of all clients of one router.

ghost use Rattle.std.specs.Prelude.{◌≡◌, ◌+◌, ◌≤◌, ◌<◌, [], length, slice_set, slice_index_or, IfOk, OnOk, OnErr};
ghost use Rattle.std.specs.Ordering.{nat_cmp};
ghost use Rattle.zr_local.specs.Clients.{AreByLink, client_link, kept, forgotten, clients_left, clients_weight, weight_but};
ghost use Rattle.zr_local.specs.Interests.{interest_id};
ghost use Rattle.zr_local.specs.declared.interest.ClientInterests.{ClientInterests};
ghost use Rattle.zr_lists.specs.Ascending.{put, without};
ghost use Rattle.zr_lists.specs.Place.{IsPlace};

use crate::interest::{ClientInterests, Interest, Interests};
use std::alloc::{AllocError, Global};
use std::marker::Model;
use zr_id::link::LinkNo;

/// The live interests of all clients of one router, by link.
#[derive(Drop)]
pub struct Clients {
    items: Vec<ClientInterests>,
}

impl Model for Clients {
    ghost use Rattle.std.specs.Prelude.{List};
    ghost use Rattle.zr_local.specs.declared.interest.ClientInterests.{ClientInterests};
    ghost use Rattle.zr_local.specs.Clients.{AreByLink};

    ghost Value = { List ClientInterests };

    ghost view = { λ c. c.items.items };

    ghost invariant = { λ c. AreByLink c.items.items };
}

impl Clients {
    /// No client has any. It takes no memory.
    pub fn new(alloc: Global) -> Clients
        ensures { result ≡ [] }
    {
        Clients {
            items: Vec::new(alloc),
        }
    }

    /// The same interests once more.
    pub fn copy(&self, alloc: Global) -> Result<Clients, AllocError>
        ensures { IfOk result (λ c. c ≡ self.now) }
    {
        Ok(Clients {
            items: copies_of(alloc, &self.items)?,
        })
    }

    /// The interests of each client, by link.
    pub fn as_slice(&self) -> &[ClientInterests]
        ensures value { result.now ≡ self.now }
        ensures in_order { AreByLink self.now }
    {
        self.items.as_slice()
    }

    /// An interest takes the place of that of its client and id.
    pub fn keep(&mut self, link: LinkNo, interest: Interest) -> Result<(), AllocError>
        ensures ok { OnOk result (self.new ≡ kept self.old link interest) }
        ensures err { OnErr result (self.new ≡ self.old) }
    {
        match place_of(&self.items, link) {
            Ok(at) => keep_at(&mut self.items, at, interest),
            Err(at) => {
                let mut interests = Interests::new(*self.items.allocator());
                interests.keep(interest)?;
                self.items.insert(at, ClientInterests { link, interests })?;
                Ok(())
            }
        }
    }

    /// The interest of a client and an id goes, if there is one.
    pub fn forget(&mut self, link: LinkNo, id: u32)
        ensures value { self.new ≡ forgotten self.old link id }
        ensures weight { clients_weight self.new ≡ weight_but self.old link id }
    {
        if let Ok(at) = place_of(&self.items, link) {
            forget_at(&mut self.items, at, id);
        }
    }

    /// The interests of a client go.
    pub fn leave(&mut self, link: LinkNo)
        ensures { self.new ≡ clients_left self.old link.0 }
    {
        if let Ok(at) = place_of(&self.items, link) {
            self.items.remove(at);
        }
    }

    /// What the interest of a client and an id weighs: 0 where there is none.
    pub fn weight_of(&self, link: LinkNo, id: u32) -> u64
        ensures { result + weight_but self.now link id ≡ clients_weight self.now }
    {
        match place_of(&self.items, link) {
            Ok(at) => self.items[at].interests.weight_of(id),
            Err(_) => 0,
        }
    }

    /// What is left of a weight without the interests of a client.
    pub fn weight_without(&self, link: LinkNo, held: u64) -> u64
        requires { clients_weight self.now ≤ held }
        ensures { result + clients_weight self.now ≡ held + clients_weight (clients_left self.now link.0) }
    {
        match place_of(&self.items, link) {
            Ok(at) => self.items[at].interests.weight_without(held),
            Err(_) => held,
        }
    }
}

fn place_of(items: &[ClientInterests], link: LinkNo) -> Result<usize, usize>
    requires { AreByLink items.now }
    ensures { IsPlace nat_cmp client_link items.now link.0 result }
{
    items.binary_search_by_key(&link.0, |client| client.link.0)
}

fn keep_at(
    items: &mut Vec<ClientInterests>,
    at: usize,
    interest: Interest,
) -> Result<(), AllocError>
    requires { at < length items.old.items }
    ensures ok { (d : ClientInterests) → OnOk result (items.new.items ≡ slice_set items.old.items at (record { link = (slice_index_or items.old.items at d).link; interests = put nat_cmp interest_id (slice_index_or items.old.items at d).interests interest })) }
    ensures err { OnErr result (items.new.items ≡ items.old.items) }
{
    let client = &mut items[at];
    client.interests.keep(interest)?;
    Ok(())
}

fn forget_at(items: &mut Vec<ClientInterests>, at: usize, id: u32)
    requires { at < length items.old.items }
    ensures { (d : ClientInterests) → items.new.items ≡ slice_set items.old.items at (record { link = (slice_index_or items.old.items at d).link; interests = without nat_cmp interest_id (slice_index_or items.old.items at d).interests id }) }
{
    let client = &mut items[at];
    client.interests.forget(id);
}

fn copies_of(alloc: Global, clients: &[ClientInterests]) -> Result<Vec<ClientInterests>, AllocError>
    ensures { IfOk result (λ v. v.items ≡ clients.now) }
{
    let mut copies = Vec::with_capacity(alloc, clients.len())?;
    for client in clients {
        copies.push(copy_of(alloc, client)?)?;
    }
    Ok(copies)
}

fn copy_of(alloc: Global, client: &ClientInterests) -> Result<ClientInterests, AllocError>
    ensures { IfOk result (λ c. c ≡ client.now) }
{
    Ok(ClientInterests {
        link: client.link,
        interests: client.interests.copy(alloc)?,
    })
}
