//! `Gatherings`: all that a router holds for clients that ask for the latest replies alone.

ghost use Rattle.std.specs.Prelude.{◌≡◌, ◌==◌, ◌+◌, ◌-◌, ◌≤◌, ◌<◌, ◌&&◌, ◌++◌, ◌∷◌, not, true, false, if◌then◌else◌, [], filter, length, map, slice_set, slice_index_or, is_some, IfOk, IfSome, OnOk, OnErr, None, Ok};
ghost use Rattle.std.specs.List.{fold, remove};
ghost use Rattle.std.specs.Option.{option_and_then, option_copied, option_map, option_map_or};
ghost use Rattle.std.specs.Vec.{vec_len, vec_capacity};
ghost use Rattle.zr_pend_spec.specs.Held.{GatheringState, after_final_to, are_apart, begun_if, ending, gatherer, gathering_begun, gatherings_at, gatherings_differ, gatherings_without, gathers_for, has_room, held_for, held_if, held_of, held_weight, is_for, most_held, gatherings_off, regathered, reply_weight};

use crate::gathering::{Ended, Gathering};
use crate::replies::{Held, reply_weight};
use std::alloc::{AllocError, Global};
use std::marker::Model;
use zr_id::link::LinkNo;
use zr_key::key::KeyExpr;
use zr_pend_spec::branch::Asker;

/// The most that all replies that are held weigh together.
const MOST_HELD: u64 = 67_108_864;

/// What is held for each client's request for the latest replies alone, in the order in which these began. What all of it weighs is at hand.
#[derive(Drop)]
pub struct Gatherings {
    items: Vec<Gathering>,
    weight: u64,
}

impl Model for Gatherings {
    ghost use Rattle.std.specs.Prelude.{◌≡◌, ◌≤◌, true, List};
    ghost use Rattle.zr_pend_spec.specs.Held.{GatheringState, gatherings_differ, held_weight, most_held};

    ghost Value = { List GatheringState };

    ghost view = { λ g. g.items.items };

    ghost invariant = { λ g. (gatherings_differ g.items.items ≡ true) × (g.weight ≡ held_weight g.items.items) × (held_weight g.items.items ≤ most_held) };
}

impl Gatherings {
    /// Nothing is gathered. It takes no memory.
    pub fn new(alloc: Global) -> Gatherings
        ensures { result ≡ [] }
    {
        Gatherings {
            items: Vec::new(alloc),
            weight: 0,
        }
    }

    /// The same once more. It takes no memory where nothing is gathered.
    pub fn copy(&self, alloc: Global) -> Result<Gatherings, AllocError>
        ensures { IfOk result (λ g. g ≡ self.now) }
    {
        Ok(Gatherings {
            items: copies_of(alloc, &self.items)?,
            weight: self.weight,
        })
    }

    // Replies are gathered for this asker from now on.
    fn begin(&mut self, asker: Asker) -> Result<(), AllocError>
        requires { gathers_for self.old asker ≡ false }
        ensures ok { OnOk result (self.new ≡ gathering_begun self.old asker) }
        ensures err { OnErr result (self.new ≡ self.old) }
    {
        let alloc = *self.items.allocator();
        Ok(self.items.push(Gathering::new(alloc, asker))?)
    }

    /// Whether nothing is gathered.
    pub fn is_empty(&self) -> bool
        ensures empty { result ≡ (length self.now == 0) }
        ensures differ { gatherings_differ self.now ≡ true }
    {
        self.items.is_empty()
    }

    /// Replies are gathered for this asker from now on, if its request is for the latest ones alone.
    pub fn begin_if(&mut self, latest: bool, asker: Asker) -> Result<(), AllocError>
        requires { gathers_for self.old asker ≡ false }
        ensures ok { OnOk result (self.new ≡ begun_if latest self.old asker) }
        ensures err { OnErr result (self.new ≡ self.old) }
    {
        if latest { self.begin(asker) } else { Ok(()) }
    }

    /// What is held under a key for an asker, if there is one.
    pub fn get_for(&self, asker: Option<Asker>, key: &KeyExpr) -> Option<&Held>
        ensures held { option_copied result ≡ option_and_then (λ a. held_of (held_for self.now a) key.now) asker }
        ensures differ { gatherings_differ self.now ≡ true }
    {
        // Read, so that the proof knows that the gatherings differ.
        let _ = &self.items;
        match asker {
            Some(asker) => self.get(asker, key),
            None => None,
        }
    }

    /// Holds a reply for an asker, if there is one and replies are gathered for it and there is room for this one: whether there was. It takes
    /// its place where nothing is held for its key, or where it is later than what is.
    pub fn hold_for(
        &mut self,
        asker: Option<Asker>,
        reply: &Held,
        later: bool,
    ) -> Result<bool, AllocError>
        ensures answer { IfOk result (λ holds. holds ≡ is_some (if has_room self.old reply.now then gatherer self.old asker else None)) }
        ensures held { OnOk result (self.new ≡ option_map_or (λ a. gatherings_at self.old a (λ replies. held_if (λ c. later) replies reply.now)) (if has_room self.old reply.now then gatherer self.old asker else None) self.old) }
        ensures err { OnErr result (self.new ≡ self.old) }
    {
        match asker {
            Some(asker) => self.hold(asker, reply, later),
            None => Ok(false),
        }
    }

    /// What is held for an asker, if there is one, goes to who calls.
    pub fn take_for(&mut self, asker: Option<Asker>) -> Option<Ended>
        ensures ended { result ≡ option_map (λ a. ending self.old a) asker }
        ensures others { self.new ≡ after_final_to self.old asker }
    {
        match asker {
            Some(asker) => Some(self.take(asker)),
            None => None,
        }
    }

    /// What is held for each of these askers is put behind what has ended.
    pub fn take_all(&mut self, askers: &[Asker], ended: &mut Vec<Ended>)
        requires room { vec_len ended.old + length askers.now ≤ vec_capacity ended.old }
        requires apart { are_apart askers.now ≡ true }
        ensures ended { ended.new.items ≡ ended.old.items ++ map (λ a. ending self.old a) askers.now }
        ensures others { self.new ≡ fold gatherings_without self.old askers.now }
    {
        for asker in askers {
            let taken = self.take(*asker);
            keep(ended, taken);
        }
    }

    // What is held for an asker under a key.
    fn get(&self, asker: Asker, key: &KeyExpr) -> Option<&Held>
        ensures held { option_copied result ≡ held_of (held_for self.now asker) key.now }
        ensures differ { gatherings_differ self.now ≡ true }
    {
        match place_of(&self.items, asker) {
            Some(at) => self.items[at].get(key),
            None => None,
        }
    }

    // The same for an asker.
    fn hold(&mut self, asker: Asker, reply: &Held, later: bool) -> Result<bool, AllocError>
        ensures answer { IfOk result (λ holds. holds ≡ (gathers_for self.old asker && has_room self.old reply.now)) }
        ensures held { result ≡ Ok true → self.new ≡ gatherings_at self.old asker (λ replies. held_if (λ c. later) replies reply.now) }
        ensures other { result ≡ Ok false → self.new ≡ self.old }
        ensures err { OnErr result (self.new ≡ self.old) }
    {
        let Some(at) = place_of(&self.items, asker) else {
            return Ok(false);
        };
        if !self.has_room(reply) {
            return Ok(false);
        }
        self.hold_at(at, reply, later)?;
        Ok(true)
    }

    // What is held for an asker goes to who calls.
    fn take(&mut self, asker: Asker) -> Ended
        ensures ended { result ≡ ending self.old asker }
        ensures others { self.new ≡ gatherings_without self.old asker }
    {
        match place_of(&self.items, asker) {
            Some(at) => self.take_at(at),
            None => Gathering::new(*self.items.allocator(), asker).into_ended(),
        }
    }

    /// What is held for askers on a link goes.
    pub fn forget(&mut self, link: LinkNo)
        ensures { self.new ≡ gatherings_off self.old link }
    {
        self.weight = weight_off(&self.items, link, self.weight);
        leave(&mut self.items, link);
    }

    fn has_room(&self, reply: &Held) -> bool
        ensures { result ≡ has_room self.now reply.now }
    {
        reply_weight(reply) <= MOST_HELD - self.weight
    }

    fn hold_at(&mut self, at: usize, reply: &Held, later: bool) -> Result<(), AllocError>
        requires within { at < length self.old }
        requires room { has_room self.old reply.now ≡ true }
        ensures ok { (d : GatheringState) → OnOk result (self.new ≡ slice_set self.old at (regathered (λ replies. held_if (λ c. later) replies reply.now) (slice_index_or self.old at d))) }
        ensures err { OnErr result (self.new ≡ self.old) }
    {
        let gathering = &mut self.items[at];
        let before = gathering.weight();
        gathering.hold(reply, later)?;
        self.weight = self.weight - before + gathering.weight();
        Ok(())
    }

    fn take_at(&mut self, at: usize) -> Ended
        requires { at < length self.old }
        ensures ended { (d : GatheringState) → result ≡ slice_index_or self.old at d }
        ensures others { self.new ≡ remove self.old at }
    {
        let gathering = self.items.remove(at);
        self.weight -= gathering.weight();
        gathering.into_ended()
    }
}

// What is held for askers on a link goes.
fn leave(items: &mut Vec<Gathering>, link: LinkNo)
    ensures { items.new.items ≡ gatherings_off items.old.items link }
{
    items.retain(|gathering| !gathering.is_of(link));
}

// There is room for one more.
fn keep(ended: &mut Vec<Ended>, one: Ended)
    requires { vec_len ended.old + 1 ≤ vec_capacity ended.old }
    ensures items { ended.new.items ≡ ended.old.items ++ one ∷ [] }
    ensures room { vec_len ended.new + vec_capacity ended.old ≤ vec_len ended.old + 1 + vec_capacity ended.new }
{
    let _ = ended.push(one);
}

// The place of what is gathered for an asker.
fn place_of(items: &[Gathering], asker: Asker) -> Option<usize>
    ensures none { result ≡ None → gathers_for items.now asker ≡ false }
    ensures within { IfSome result (λ at. at < length items.now) }
    ensures is_for { (d : GatheringState) → IfSome result (λ at. is_for asker (slice_index_or items.now at d) ≡ true) }
{
    for (i, gathering) in items.iter().enumerate() {
        if gathering.is_for(asker) {
            return Some(i);
        }
    }
    None
}

// What is left of a weight without what is held for askers on a link.
fn weight_off(items: &[Gathering], link: LinkNo, mut held: u64) -> u64
    requires { held ≡ held_weight items.now }
    ensures { result ≡ held_weight (gatherings_off items.now link) }
{
    for gathering in items {
        if gathering.is_of(link) {
            held -= gathering.weight();
        }
    }
    held
}

fn copies_of(alloc: Global, gatherings: &[Gathering]) -> Result<Vec<Gathering>, AllocError>
    ensures { IfOk result (λ v. v.items ≡ gatherings.now) }
{
    let mut copies = Vec::with_capacity(alloc, gatherings.len())?;
    for gathering in gatherings {
        copies.push(gathering.copy(alloc)?)?;
    }
    Ok(copies)
}
