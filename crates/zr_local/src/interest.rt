//! `Interest`: of what a client wants to be told (Zenoh protocol 1.0, "INTEREST"), and the live interests of one client.

ghost use Rattle.std.specs.Prelude.{◌≡◌, ◌+◌, ◌-◌, ◌<◌, ◌≤◌, [], length, slice_set, IfOk, OnOk, OnErr};
ghost use Rattle.std.specs.Option.{option_map_or};
ghost use Rattle.std.specs.Ordering.{nat_cmp};
ghost use Rattle.zr_local.specs.Interests.{AreById, interest_id, interest_weight, interests_weight};
ghost use Rattle.zr_log_set.specs.Decls.{decl_overhead};
ghost use Rattle.zr_lists.specs.Ascending.{put, without};
ghost use Rattle.zr_lists.specs.Place.{IsPlace};

use std::alloc::{AllocError, Global};
use std::marker::Model;
use zr_id::link::LinkNo;
use zr_key::key::KeyExpr;
use zr_log_set::weight::OVERHEAD;
use zr_msg::msg::Kinds;

/// An interest of a client in what is declared later.
#[derive(Drop)]
pub struct Interest {
    /// The id that the client gave it.
    pub id: u32,
    /// In what it is.
    pub kinds: Kinds,
    /// It is in what meets this key, or in all where it has none.
    pub key: Option<KeyExpr>,
    /// All that meets its key is told as one, under that key.
    pub aggregate: bool,
}

/// The live interests of the client of a link.
#[derive(Drop)]
pub struct ClientInterests {
    pub link: LinkNo,
    pub interests: Interests,
}

/// The live interests of one client, in ascending order of their ids.
#[derive(Drop)]
pub struct Interests {
    items: Vec<Interest>,
}

impl Model for Interests {
    ghost use Rattle.std.specs.Prelude.{List};
    ghost use Rattle.zr_local.specs.declared.interest.Interest.{Interest};
    ghost use Rattle.zr_local.specs.Interests.{AreById};

    ghost Value = { List Interest };

    ghost view = { λ i. i.items.items };

    ghost invariant = { λ i. AreById i.items.items };
}

impl Interest {
    /// A second interest, equal to this one.
    pub fn copy(&self, alloc: Global) -> Result<Interest, AllocError>
        ensures { IfOk result (λ i. i ≡ self.now) }
    {
        let key = copied(alloc, &self.key)?;
        Ok(Interest {
            id: self.id,
            kinds: self.kinds,
            key,
            aggregate: self.aggregate,
        })
    }

    /// What it weighs: the bytes of its key's text, if it has one, and 16.
    pub fn weight(&self) -> u64
        ensures { result ≡ interest_weight self.now }
    {
        key_weight(&self.key)
    }
}

impl Interests {
    /// The client has none. It takes no memory.
    pub fn new(alloc: Global) -> Interests
        ensures { result ≡ [] }
    {
        Interests {
            items: Vec::new(alloc),
        }
    }

    /// The same interests once more.
    pub fn copy(&self, alloc: Global) -> Result<Interests, AllocError>
        ensures { IfOk result (λ i. i ≡ self.now) }
    {
        Ok(Interests {
            items: copies_of(alloc, &self.items)?,
        })
    }

    /// The interests in ascending order of their ids.
    pub fn as_slice(&self) -> &[Interest]
        ensures value { result.now ≡ self.now }
        ensures in_order { AreById self.now }
    {
        self.items.as_slice()
    }

    /// An interest takes the place of that of its id.
    pub fn keep(&mut self, interest: Interest) -> Result<(), AllocError>
        ensures ok { OnOk result (self.new ≡ put nat_cmp interest_id self.old interest) }
        ensures err { OnErr result (self.new ≡ self.old) }
    {
        match place_of(&self.items, interest.id) {
            Ok(at) => {
                exchange(&mut self.items, at, interest);
                Ok(())
            }
            Err(at) => {
                self.items.insert(at, interest)?;
                Ok(())
            }
        }
    }

    /// The interest of an id goes, if there is one.
    pub fn forget(&mut self, id: u32)
        ensures { self.new ≡ without nat_cmp interest_id self.old id }
    {
        if let Ok(at) = place_of(&self.items, id) {
            self.items.remove(at);
        }
    }

    /// What the interest of an id weighs: 0 where there is none.
    pub fn weight_of(&self, id: u32) -> u64
        ensures { result + interests_weight (without nat_cmp interest_id self.now id) ≡ interests_weight self.now }
    {
        match place_of(&self.items, id) {
            Ok(at) => self.items[at].weight(),
            Err(_) => 0,
        }
    }

    /// What is left of a weight without these.
    pub fn weight_without(&self, held: u64) -> u64
        requires { interests_weight self.now ≤ held }
        ensures { result ≡ held - interests_weight self.now }
    {
        weight_without(&self.items, held)
    }
}

fn exchange(items: &mut Vec<Interest>, at: usize, interest: Interest)
    requires { at < length items.old.items }
    ensures { items.new.items ≡ slice_set items.old.items at interest }
{
    items[at] = interest;
}

fn weight_without(items: &[Interest], mut held: u64) -> u64
    requires { interests_weight items.now ≤ held }
    ensures { result ≡ held - interests_weight items.now }
{
    for interest in items {
        held -= interest.weight();
    }
    held
}

fn place_of(items: &[Interest], id: u32) -> Result<usize, usize>
    requires { AreById items.now }
    ensures { IsPlace nat_cmp interest_id items.now id result }
{
    items.binary_search_by_key(&id, |interest| interest.id)
}

fn copies_of(alloc: Global, interests: &[Interest]) -> Result<Vec<Interest>, AllocError>
    ensures { IfOk result (λ v. v.items ≡ interests.now) }
{
    let mut copies = Vec::with_capacity(alloc, interests.len())?;
    for interest in interests {
        copies.push(interest.copy(alloc)?)?;
    }
    Ok(copies)
}

/// What an interest with such a key weighs: as much as a declaration of it, and one without a key as one of no text.
pub(crate) fn key_weight(key: &Option<KeyExpr>) -> u64
    ensures { result ≡ option_map_or (λ k. length k) key.now 0 + decl_overhead }
{
    match key {
        Some(key) => text_weight(key),
        None => OVERHEAD,
    }
}

/// What a declaration of a key weighs: the bytes of its text, and 16.
pub(crate) fn text_weight(key: &KeyExpr) -> u64
    ensures { result ≡ length key.now + decl_overhead }
{
    key.text().len() as u64 + OVERHEAD
}

/// The key of an interest once more, where it has one.
pub fn copied(alloc: Global, key: &Option<KeyExpr>) -> Result<Option<KeyExpr>, AllocError>
    ensures { IfOk result (λ k. k ≡ key.now) }
{
    Ok(match key {
        Some(key) => Some(key.copy(alloc)?),
        None => None,
    })
}
