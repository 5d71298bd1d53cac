//! `ByKey`: live interests by the chunks of their keys.

ghost use Rattle.std.specs.Prelude.{◌≡◌, ◌++◌, ◌∷◌, ◌||◌, List, ℕ, IfOk, OnOk};
ghost use Rattle.std.specs.BTreeSet.{contains};
ghost use Rattle.std.specs.List.{list_any, AllByRecursion};
ghost use Rattle.std.specs.Ordering.{is_eq, nat_cmp};
ghost use Rattle.zr_index.specs.Meeting.{held};
ghost use Rattle.zr_index.specs.Pairs.{AreSame};
ghost use Rattle.zr_key.specs.Key.{IsKeyText, chunks};
ghost use Rattle.zr_local.specs.declared.interest.ClientInterests.{ClientInterests};
ghost use Rattle.zr_told_interested.specs.Among.{AreFound};
ghost use Rattle.zr_told_interested.specs.Keys.{AreKeyed, IsKeyed, is_met, keyed, keyless, pair_of, pairs_on, wants_all};

use std::alloc::{AllocError, Global};
use std::collections::BTreeSet;
use zr_index::index::Index;
use zr_key::key::KeyExpr;
use zr_local::interest::{ClientInterests, Interest};
use zr_told_spec::place::Place;

/// Live interests by the chunks of their keys, each with the number of its client's link.
#[derive(Drop)]
pub struct ByKey {
    keyed: Index<u32>,
    // the clients with an interest in all keys
    keyless: Vec<u32>,
}

impl ByKey {
    ghost use Rattle.zr_told_interested.specs.ByKey.{IsByKey};

    /// All live interests of these clients.
    pub fn of(alloc: Global, clients: &[ClientInterests]) -> Result<ByKey, AllocError>
        ensures { IfOk result (λ b. IsByKey clients.now b) }
    {
        know_clients(clients);
        let keyed = keyed(alloc, clients)?;
        let keyless = keyless(alloc, clients)?;
        Ok(ByKey { keyed, keyless })
    }

    /// The links, ascending, of those clients with an interest whose key meets that of one of these places, and of those with an interest in all.
    pub fn find(&self, alloc: Global, places: &[Place]) -> Result<Vec<u32>, AllocError>
        ensures { IfOk result (λ v. (cs : List ClientInterests) → IsByKey cs self.now → AreFound places.now v.items cs) }
    {
        know_places(places);
        let mut found = BTreeSet::new(alloc);
        put_links(&self.keyless, &mut found)?;
        put_all_meeting(alloc, &self.keyed, places, &mut found)?;
        // Read, so that the proof knows that the links ascend.
        let _ascends = found.len();
        links_in(alloc, &found)
    }
}

// It does nothing: a proof learns that the keys of places are key expressions.
fn know_places(places: &[Place])
    ensures { AllByRecursion (λ q. IsKeyText q.key) places.now }
{
    for place in places {
        let _text = place.key.text();
    }
}

// The same of the keys of interests.
fn know_clients(clients: &[ClientInterests])
    ensures { AllByRecursion (λ c. AreKeyed c.interests) clients.now }
{
    for client in clients {
        know_interests(client.interests.as_slice());
    }
}

fn know_interests(interests: &[Interest])
    ensures { AreKeyed interests.now }
{
    for interest in interests {
        know_key(interest);
    }
}

fn know_key(interest: &Interest)
    ensures { IsKeyed interest.now }
{
    if let Some(key) = &interest.key {
        let _text = key.text();
    }
}

fn put_links(links: &[u32], found: &mut BTreeSet<u32>) -> Result<(), AllocError>
    ensures { OnOk result ((n : ℕ) → contains nat_cmp found.new n ≡ (contains nat_cmp found.old n || list_any (λ k. is_eq (nat_cmp k n)) links.now)) }
{
    for link in links {
        found.insert(*link)?;
    }
    Ok(())
}

fn put_all_meeting(
    alloc: Global,
    index: &Index<u32>,
    places: &[Place],
    found: &mut BTreeSet<u32>,
) -> Result<(), AllocError>
    ensures { OnOk result ((n : ℕ) → contains nat_cmp found.new n ≡ (contains nat_cmp found.old n || list_any (λ q. is_met (held index.now) q.key n) places.now)) }
{
    for place in places {
        put_meeting(alloc, index, &place.key, found)?;
    }
    Ok(())
}

fn put_meeting(
    alloc: Global,
    index: &Index<u32>,
    key: &KeyExpr,
    found: &mut BTreeSet<u32>,
) -> Result<(), AllocError>
    ensures { OnOk result ((n : ℕ) → contains nat_cmp found.new n ≡ (contains nat_cmp found.old n || is_met (held index.now) key.now n)) }
{
    let mut links = Vec::new(alloc);
    index.meeting(key, &mut links)?;
    put_links(&links, found)
}

fn links_in(alloc: Global, found: &BTreeSet<u32>) -> Result<Vec<u32>, AllocError>
    ensures { IfOk result (λ v. v.items ≡ found.now.keys) }
{
    let mut links = Vec::new(alloc);
    for link in found {
        links.push(*link)?;
    }
    Ok(links)
}

fn keyed(alloc: Global, clients: &[ClientInterests]) -> Result<Index<u32>, AllocError>
    ensures { IfOk result (λ i. AreSame (held i) (keyed clients.now)) }
{
    let mut index = Index::new(alloc);
    for client in clients {
        add_client(&mut index, client)?;
    }
    Ok(index)
}

fn add_client(index: &mut Index<u32>, client: &ClientInterests) -> Result<(), AllocError>
    ensures { OnOk result (AreSame (held index.new) (pairs_on client.now ++ held index.old)) }
{
    for interest in client.interests.as_slice() {
        add_interest(index, client.link.0, interest)?;
    }
    Ok(())
}

fn add_interest(index: &mut Index<u32>, link: u32, interest: &Interest) -> Result<(), AllocError>
    ensures { OnOk result (AreSame (held index.new) (pair_of link interest.now ++ held index.old)) }
{
    match &interest.key {
        Some(key) => add_key(index, key, link),
        None => Ok(()),
    }
}

fn add_key(index: &mut Index<u32>, key: &KeyExpr, link: u32) -> Result<(), AllocError>
    ensures { OnOk result (AreSame (held index.new) ((chunks key.now, link) ∷ held index.old)) }
{
    match index.add(key, link) {
        Ok(()) => Ok(()),
        Err(_) => Err(AllocError),
    }
}

fn keyless(alloc: Global, clients: &[ClientInterests]) -> Result<Vec<u32>, AllocError>
    ensures { IfOk result (λ v. v.items ≡ keyless clients.now) }
{
    let mut links = Vec::new(alloc);
    for client in clients {
        if wants_all(client.interests.as_slice()) {
            links.push(client.link.0)?;
        }
    }
    Ok(links)
}

// Whether one of these interests is in all keys.
fn wants_all(interests: &[Interest]) -> bool
    ensures { result ≡ wants_all interests.now }
{
    interests.iter().any(|interest| interest.key.is_none())
}
