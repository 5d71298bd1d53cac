//! The ends of a world's links, with a carrier that has the messages on their wires.

ghost use Rattle.std.specs.Prelude.{◌≡◌, ◌∷◌, ◌-◌, ◌^◌, [], None, false, length, min, IfOk, OnOk};
ghost use Rattle.std.specs.List.{list_all, sum_by};
ghost use Rattle.std.specs.Option.{option_copied, option_map};
ghost use Rattle.zr_id.specs.Zid.{is_named};
ghost use Rattle.zr_world_spec.specs.World.{end_of, put_end, changed, sent, queued, broken, lifted, lowered, new_end};
ghost use Rattle.zr_law_fan.specs.Samples.{emptied};
ghost use Rattle.zr_world_spec.specs.Fan.{is_sample, sample_bytes, waiting_at};
ghost use Rattle.zr_world_spec.specs.Next.{first_where, can_handle, can_take};
ghost use Rattle.zr_world_ends.specs.Carried.{AreOnWires, ArePaired, MayArrive};
ghost use Rattle.zr_world_ends.specs.Kept.{kept, kept_ends};
ghost use Rattle.zr_world_ends.specs.Steps.{Brings, Gives, changed_at, from_wire, from_queue};

use crate::drained::NamedDrained;
use crate::end::{Tagged, WorldEnd};
use crate::queues::Queues;
use crate::totals::{count, have_samples, sample_bytes};
use crate::wires::{cut, drain_all, put_both, receive, send};
use std::alloc::{AllocError, Global};
use std::marker::Model;
use std::mem;
use zr_carrier::carrier::Carrier;
use zr_id::zid::Zid;
use zr_msg::msg::Msg;
use zr_msg::peer::{Role, Weight};
use zr_script_spec::error::ScriptError;

/// Contracts see the ends with what waits there.
#[derive(Drop)]
pub struct Ends<C: Carrier> {
    queues: Queues,
    carrier: C,
}

impl<C: Carrier> Model for Ends<C> {
    ghost use Rattle.zr_world_spec.specs.World.{Ends as EndList};
    ghost use Rattle.zr_world_ends.specs.Carried.{AreCarried, seen_ends};

    ghost Value = { EndList };

    ghost view = { λ e. seen_ends (C.wire e.carrier) e.queues };

    ghost invariant = { λ e. AreCarried (C.wire e.carrier) e.queues };
}

impl<C: Carrier> Ends<C> {
    /// No ends. Wires that the carrier has already are left alone, until a link of theirs is made.
    pub fn new(alloc: Global, carrier: C) -> Ends<C>
        ensures { result ≡ [] }
    {
        Ends {
            queues: Queues::new(alloc),
            carrier,
        }
    }

    /// What carries the messages on the wires.
    pub fn carrier(&self) -> &C
        ensures { AreOnWires (C.wire result.now) self.now }
    {
        &self.carrier
    }

    /// What is kept of the ends in order, each with its router and its neighbour.
    pub fn list(&self) -> &[((Zid, Zid), WorldEnd)]
        ensures { result.now ≡ kept_ends self.now }
    {
        self.queues.list()
    }

    /// Whether only samples wait at the ends.
    pub fn have_samples(&self) -> bool
        ensures { result ≡ list_all (λ e. list_all (λ m. is_sample m.msg) (waiting_at e.1)) self.now }
    {
        have_samples(self.queues.list())
    }

    /// How many messages wait at the ends: at most 2^64 - 1.
    pub fn count(&self) -> u64
        ensures { result ≡ min (sum_by (λ e. length (waiting_at e.1)) self.now) (2 ^ 64 - 1) }
    {
        count(self.queues.list())
    }

    /// How many bytes the keys and the bodies of the samples have that wait at the ends: at most 2^64 - 1.
    pub fn sample_bytes(&self) -> u64
        ensures { result ≡ min (sum_by (λ e. sum_by (λ m. sample_bytes m.msg) (waiting_at e.1)) self.now) (2 ^ 64 - 1) }
    {
        sample_bytes(self.queues.list())
    }

    /// All ends as they are; behind this nothing waits at any.
    pub fn take_all(&mut self, alloc: Global) -> Result<Vec<NamedDrained>, AllocError>
        ensures { IfOk result (λ v. (v.items ≡ self.old) × (self.new ≡ emptied self.old)) }
    {
        let mut queues = mem::replace(&mut self.queues, Queues::new(alloc));
        let ends = queues.take_all(alloc)?;
        let drained = drain_all(alloc, &mut self.carrier, ends)?;
        self.queues = queues;
        Ok(drained)
    }

    /// What is kept of the end of a router to a neighbour.
    pub fn get(&self, at: (Zid, Zid)) -> Option<&WorldEnd>
        ensures { option_copied result ≡ option_map kept (end_of self.now at) }
    {
        self.queues.get(at)
    }

    /// The end of a router to a client comes, which is up, or takes the place of one.
    pub fn put_client(&mut self, alloc: Global, router: Zid, client: Zid) -> Result<(), AllocError>
        requires apart { is_named router client ≡ false }
        requires none { end_of self.old (client, router) ≡ None }
        ensures { OnOk result (self.new ≡ put_end self.old (router, client) (lifted (new_end 1))) }
    {
        cut(&mut self.carrier, &mut self.queues, router, client);
        self.carrier.open(router, client, Role::Client)?;
        let mut end = WorldEnd::new(alloc, Weight::one());
        end.lift();
        self.queues.put((router, client), end)
    }

    /// The ends of a link of this weight between two routers come, or take the places of others.
    pub fn put_link(
        &mut self,
        alloc: Global,
        one: Zid,
        other: Zid,
        weight: Weight,
    ) -> Result<(), AllocError>
        requires { is_named one other ≡ false }
        ensures { OnOk result (self.new ≡ put_end (put_end self.old (one, other) (new_end weight)) (other, one) (new_end weight)) }
    {
        cut(&mut self.carrier, &mut self.queues, one, other);
        self.carrier.open(one, other, Role::Router)?;
        put_both(alloc, &mut self.queues, one, other, weight)
    }

    /// An end comes up, where it is there.
    pub fn lift(&mut self, at: (Zid, Zid))
        ensures { self.new ≡ changed_at self.old at lifted (end_of self.old at) }
    {
        self.queues.lift(at);
    }

    /// An end goes down, where it is there, and what was queued is lost.
    pub fn lower(&mut self, at: (Zid, Zid))
        ensures { self.new ≡ changed self.old at lowered }
    {
        self.queues.lower(at);
    }

    /// The link of two breaks, at each end that is there, and what was on its wires is lost.
    pub fn break_link(&mut self, one: Zid, other: Zid)
        ensures { self.new ≡ changed (changed self.old (one, other) broken) (other, one) broken }
    {
        cut(&mut self.carrier, &mut self.queues, one, other);
    }

    /// A message comes onto the wire to an end, where that is there.
    pub fn send(&mut self, at: (Zid, Zid), msg: &Msg, tag: u64) -> Result<(), AllocError>
        requires { MayArrive self.old at msg.now }
        ensures sent { OnOk result (self.new ≡ changed_at self.old at (λ s. sent s msg.now tag) (end_of self.old at)) }
        ensures changed { OnOk result (self.new ≡ changed self.old at (λ s. sent s msg.now tag)) }
    {
        send(&mut self.carrier, &mut self.queues, at.0, at.1, msg, tag)
    }

    /// A message is queued at an end, where that is there.
    pub fn enqueue(&mut self, at: (Zid, Zid), msg: Msg, tag: u64) -> Result<(), AllocError>
        ensures { OnOk result (self.new ≡ changed self.old at (λ s. queued s (msg ∷ []) tag)) }
    {
        self.queues.enqueue(at, msg, tag)
    }

    /// The oldest message on the wire to an end that is up, which leaves it.
    pub fn next_sent(&mut self, at: (Zid, Zid)) -> Result<Tagged, ScriptError>
        ensures { Brings result (from_wire self.old at) self.old self.new }
    {
        receive(&mut self.carrier, &mut self.queues, at.0, at.1)
    }

    /// The oldest message that is queued at an end that is up, where the link is unbroken. It leaves the queue.
    pub fn next_queued(&mut self, at: (Zid, Zid)) -> Result<Tagged, ScriptError>
        ensures steps { Gives result (from_queue self.old at) self.old self.new }
        ensures paired { ArePaired self.new }
    {
        self.queues.next_queued(at)
    }

    /// The first end, by router and then by neighbour, at which a message can be handled.
    pub fn first_to_handle(&self) -> Option<(Zid, Zid)>
        ensures { result ≡ first_where can_handle self.now }
    {
        self.queues.first_to_handle()
    }

    /// The first end, by router and then by neighbour, at which a message can be taken.
    pub fn first_to_take(&self) -> Option<(Zid, Zid)>
        ensures { result ≡ first_where can_take self.now }
    {
        self.queues.first_to_take()
    }
}
