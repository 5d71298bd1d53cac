//! `Replies`: the replies that are held for one request.

ghost use Rattle.std.specs.Prelude.{◌≡◌, ◌+◌, ◌≤◌, ◌<◌, [], length, slice_set, IfOk, OnOk, OnErr};
ghost use Rattle.std.specs.Cmp.Lexicographic.{slice_cmp};
ghost use Rattle.std.specs.List.{sum_by};
ghost use Rattle.std.specs.Option.{option_copied};
ghost use Rattle.std.specs.Ordering.{nat_cmp};
ghost use Rattle.zr_lists.specs.Place.{IsAt, IsGap, IsPlace};
ghost use Rattle.zr_pend_spec.specs.Held.{AreByKey, held_if, held_of, most_held, put_reply, reply_weight};

use std::alloc::{AllocError, Global};
use std::marker::Model;
use zr_key::key::KeyExpr;
use zr_msg::content::Content;

/// A reply that is held: its key, its extensions and its body.
pub type Held = Content;

/// The replies that are held for one request: one for each key, in ascending order of the bytes of their keys. What they weigh is at hand.
#[derive(Drop)]
pub struct Replies {
    items: Vec<Held>,
    weight: u64,
}

impl Model for Replies {
    ghost use Rattle.std.specs.Prelude.{◌≡◌, List};
    ghost use Rattle.std.specs.List.{sum_by};
    ghost use Rattle.zr_msg.specs.declared.content.Parts.{Parts};
    ghost use Rattle.zr_pend_spec.specs.Held.{AreByKey, reply_weight};

    ghost Value = { List Parts };

    ghost view = { λ r. r.items.items };

    ghost invariant = { λ r. AreByKey r.items.items × (r.weight ≡ sum_by reply_weight r.items.items) };
}

impl Replies {
    /// Nothing is held. It takes no memory.
    pub fn new(alloc: Global) -> Replies
        ensures { result ≡ [] }
    {
        Replies {
            items: Vec::new(alloc),
            weight: 0,
        }
    }

    /// The same replies once more.
    pub fn copy(&self, alloc: Global) -> Result<Replies, AllocError>
        ensures { IfOk result (λ r. r ≡ self.now) }
    {
        Ok(Replies {
            items: copies_of(alloc, &self.items)?,
            weight: self.weight,
        })
    }

    /// What they weigh together.
    pub fn weight(&self) -> u64
        ensures { result ≡ sum_by reply_weight self.now }
    {
        self.weight
    }

    /// What is held for a key.
    pub fn get(&self, key: &KeyExpr) -> Option<&Held>
        ensures { option_copied result ≡ held_of self.now key.now }
    {
        match place_of(&self.items, key) {
            Ok(at) => Some(&self.items[at]),
            Err(_) => None,
        }
    }

    /// A reply takes its place where nothing is held for its key, or where it is later than what is.
    pub fn hold(&mut self, reply: &Held, later: bool) -> Result<(), AllocError>
        requires { sum_by reply_weight self.old + reply_weight reply.now ≤ most_held }
        ensures ok { OnOk result (self.new ≡ held_if (λ c. later) self.old reply.now) }
        ensures err { OnErr result (self.new ≡ self.old) }
    {
        match place_of(&self.items, reply.key()) {
            Ok(at) if later => self.replace(at, reply),
            Ok(_) => Ok(()),
            Err(at) => self.insert(at, reply),
        }
    }

    /// The replies in ascending order of their keys, given back without taking memory.
    pub fn into_vec(self) -> Vec<Held>
        ensures { result.items ≡ self }
    {
        let Replies { items, weight: _ } = self;
        items
    }

    // Puts a reply in the place of that of its key.
    fn replace(&mut self, at: usize, reply: &Held) -> Result<(), AllocError>
        requires place { IsAt (slice_cmp nat_cmp) (λ c. c.key) self.old reply.now.key at }
        requires room { sum_by reply_weight self.old + reply_weight reply.now ≤ most_held }
        ensures ok { OnOk result (self.new ≡ put_reply self.old reply.now) }
        ensures err { OnErr result (self.new ≡ self.old) }
    {
        let copy = reply.copy()?;
        self.weight = self.weight - reply_weight(&self.items[at]) + reply_weight(&copy);
        exchange(&mut self.items, at, copy);
        Ok(())
    }

    // Puts a reply in at its place, where nothing is held for its key.
    fn insert(&mut self, at: usize, reply: &Held) -> Result<(), AllocError>
        requires place { IsGap (slice_cmp nat_cmp) (λ c. c.key) self.old reply.now.key at }
        requires room { sum_by reply_weight self.old + reply_weight reply.now ≤ most_held }
        ensures ok { OnOk result (self.new ≡ put_reply self.old reply.now) }
        ensures err { OnErr result (self.new ≡ self.old) }
    {
        let copy = reply.copy()?;
        let weight = reply_weight(&copy);
        self.items.insert(at, copy)?;
        self.weight += weight;
        Ok(())
    }
}

/// What a reply weighs: the bytes of its key's text and of its body.
pub fn reply_weight(reply: &Held) -> u64
    ensures { result ≡ reply_weight reply.now }
{
    reply.key().text().len() as u64 + reply.body().as_slice().len() as u64
}

fn exchange(items: &mut Vec<Held>, at: usize, reply: Held)
    requires { at < length items.old.items }
    ensures { items.new.items ≡ slice_set items.old.items at reply }
{
    items[at] = reply;
}

// The place of the reply of a key, or the place where it would stand.
fn place_of(items: &[Held], key: &KeyExpr) -> Result<usize, usize>
    requires { AreByKey items.now }
    ensures { IsPlace (slice_cmp nat_cmp) (λ c. c.key) items.now key.now result }
{
    items.binary_search_by(|reply| reply.key().text().as_bytes().cmp(key.text().as_bytes()))
}

fn copies_of(alloc: Global, replies: &[Held]) -> Result<Vec<Held>, AllocError>
    ensures { IfOk result (λ v. v.items ≡ replies.now) }
{
    let mut copies = Vec::with_capacity(alloc, replies.len())?;
    for reply in replies {
        copies.push(reply.copy()?)?;
    }
    Ok(copies)
}
