//! What is kept of the ends of a world's links, and at which of them a step is possible.

ghost use Rattle.std.specs.Prelude.{◌≡◌, [], IfOk, OnOk, OnErr};
ghost use Rattle.std.specs.List.Sorted.{IsStrictlySortedBy};
ghost use Rattle.std.specs.Map.{keys_of};
ghost use Rattle.std.specs.Option.{option_copied};
ghost use Rattle.zr_world_spec.specs.World.{end_cmp};
ghost use Rattle.zr_world_ends.specs.Kept.{announced, broken, can_handle, can_take, emptied, lifted, lost, lowered, passed, queued};
ghost use Rattle.zr_world_ends.specs.Named.{at_end, change_at, first_at, put_at};
ghost use Rattle.zr_world_ends.specs.Steps.{Gives, from_kept};

use crate::end::{Tagged, WorldEnd};
use crate::kind::WireKind;
use crate::marks::first;
use crate::places::{NamedEnd, find};
use crate::waiting;
use std::alloc::{AllocError, Global};
use std::marker::Model;
use zr_id::zid::Zid;
use zr_msg::msg::Msg;
use zr_script_spec::error::ScriptError;

/// The ends, which are what is seen of it, each by its router and its neighbour. They stand in order, and beside
/// them are marked the places of those at which a message can be handled, and of those at which one can be taken: so the first is found
/// without a search through all ends.
#[derive(Drop)]
pub struct Queues {
    list: Vec<NamedEnd>,
    to_handle: Vec<u64>,
    to_take: Vec<u64>,
}

impl Model for Queues {
    ghost use Rattle.zr_world_ends.specs.Index.{IsIndexed};
    ghost use Rattle.zr_world_ends.specs.Kept.{KeptEnds};

    ghost Value = { KeptEnds };

    ghost view = { λ e. e.list.items };

    ghost invariant = { λ e. IsIndexed e.list.items e.to_handle.items e.to_take.items };
}

impl Queues {
    /// No ends.
    pub fn new(alloc: Global) -> Queues
        ensures { result ≡ [] }
    {
        Queues {
            list: Vec::new(alloc),
            to_handle: Vec::new(alloc),
            to_take: Vec::new(alloc),
        }
    }

    /// The ends in order, each with its router and its neighbour.
    pub fn list(&self) -> &[((Zid, Zid), WorldEnd)]
        ensures list { result.now ≡ self.now }
        ensures ordered { IsStrictlySortedBy end_cmp (keys_of self.now) }
    {
        &self.list
    }

    /// All ends as they are; behind this nothing waits at any.
    pub fn take_all(&mut self, alloc: Global) -> Result<Vec<NamedEnd>, AllocError>
        ensures { IfOk result (λ v. (v.items ≡ self.old) × (self.new ≡ emptied self.old)) }
    {
        waiting::take_all(
            alloc,
            &mut self.list,
            &mut self.to_handle,
            &mut self.to_take,
        )
    }

    /// The end of a router to a neighbour.
    pub fn get(&self, at: (Zid, Zid)) -> Option<&WorldEnd>
        ensures { option_copied result ≡ at_end self.now at }
    {
        match find(&self.list, &at) {
            Some(place) => Some(&self.list[place].1),
            None => None,
        }
    }

    /// An end comes, or takes the place of one. Where memory runs out nothing has changed.
    pub fn put(&mut self, at: (Zid, Zid), new: WorldEnd) -> Result<(), AllocError>
        ensures put { OnOk result (self.new ≡ put_at self.old at new) }
        ensures err { OnErr result (self.new ≡ self.old) }
    {
        waiting::put(
            &mut self.list,
            &mut self.to_handle,
            &mut self.to_take,
            at,
            new,
        )
    }

    /// An end comes up, where it is there.
    pub fn lift(&mut self, at: (Zid, Zid))
        ensures { self.new ≡ change_at self.old at lifted }
    {
        waiting::lift(&mut self.list, &mut self.to_handle, &mut self.to_take, at);
    }

    /// An end goes down, where it is there, and what was queued is lost.
    pub fn lower(&mut self, at: (Zid, Zid))
        ensures { self.new ≡ change_at self.old at lowered }
    {
        waiting::lower(&mut self.list, &mut self.to_handle, &mut self.to_take, at);
    }

    /// The link of an end breaks, where the end is there, and what was on the wire is lost.
    pub fn break_off(&mut self, at: (Zid, Zid))
        ensures { self.new ≡ change_at self.old at broken }
    {
        waiting::break_off(&mut self.list, &mut self.to_handle, &mut self.to_take, at);
    }

    /// A message of this kind comes onto the wire to an end, where that is there. Where memory runs out nothing has changed.
    pub fn announce(&mut self, at: (Zid, Zid), kind: WireKind) -> Result<(), AllocError>
        ensures announced { OnOk result (self.new ≡ change_at self.old at (λ k. announced k kind)) }
        ensures err { OnErr result (self.new ≡ self.old) }
    {
        waiting::announce(&mut self.list, &mut self.to_handle, at, kind)
    }

    /// The oldest message on the wire to an end has left it, where the end and the message are there.
    pub fn pass(&mut self, at: (Zid, Zid))
        ensures { self.new ≡ change_at self.old at passed }
    {
        waiting::pass(&mut self.list, &mut self.to_handle, at);
    }

    /// What was on the wire to an end is lost, where the end is there.
    pub fn lose(&mut self, at: (Zid, Zid))
        ensures { self.new ≡ change_at self.old at lost }
    {
        waiting::lose(&mut self.list, &mut self.to_handle, at);
    }

    /// A message is queued at an end, where that is there.
    pub fn enqueue(&mut self, at: (Zid, Zid), msg: Msg, tag: u64) -> Result<(), AllocError>
        ensures queued { OnOk result (self.new ≡ change_at self.old at (λ k. queued k msg tag)) }
        ensures err { OnErr result (self.new ≡ self.old) }
    {
        waiting::enqueue(&mut self.list, &mut self.to_take, at, msg, tag)
    }

    /// The oldest message that is queued at an end that is up, where the link is unbroken. It leaves the queue.
    pub fn next_queued(&mut self, at: (Zid, Zid)) -> Result<Tagged, ScriptError>
        ensures { Gives result (from_kept self.old at) self.old self.new }
    {
        waiting::next_queued(&mut self.list, &mut self.to_take, at)
    }

    /// The first end, by router and then by neighbour, at which a message can be handled.
    pub fn first_to_handle(&self) -> Option<(Zid, Zid)>
        ensures { result ≡ first_at can_handle self.now }
    {
        match first(&self.to_handle, self.list.len()) {
            Some(place) => Some(self.list[place].0),
            None => None,
        }
    }

    /// The first end, by router and then by neighbour, at which a message can be taken.
    pub fn first_to_take(&self) -> Option<(Zid, Zid)>
        ensures { result ≡ first_at can_take self.now }
    {
        match first(&self.to_take, self.list.len()) {
            Some(place) => Some(self.list[place].0),
            None => None,
        }
    }
}
