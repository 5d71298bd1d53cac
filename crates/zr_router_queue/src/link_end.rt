//! One link that is up, as the tables keep it: what it sends by, and the ring to its writer.

ghost use Rattle.std.specs.Prelude.{◌≡◌, ◌+◌, ◌<◌, ◌≤◌, ◌++◌, ℕ, List, [], ◌∷◌, Option, Some, None, is_none, is_some, option_map, All, IfOk, IfSome, OnOk, length};
ghost use Rattle.std.specs.List.{AllByRecursion};
ghost use Rattle.zr_hist.specs.Words.{name, pass_name, IsSamePass, IsPassOf, seen, mine};
ghost use Rattle.zr_ring.specs.Content.{end};
ghost use Rattle.zr_ring.specs.Giver.{sent, is_going, number, slots_of, free_slots};
ghost use Rattle.zr_ring.specs.Items.{end_of, most_parcels};
ghost use Rattle.zr_ring.specs.Taker.{taken, taker_name, take_calls};
ghost use Rattle.zr_node_spec.specs.Event.{on_link};
ghost use Rattle.zr_frame_pack.specs.Marks as marks;
ghost use Rattle.zr_wire.specs.Writable.{IsWritable};
ghost use Rattle.zr_told_spec.specs.Hub.{HubState};
ghost use Rattle.zr_router_queue.specs.Batches.{written_of};
ghost use Rattle.zr_router_queue.specs.Tables as tables;
ghost use Rattle.zr_router_queue.specs.Tables.{is_among, queued, queued_by, new_queue, with_parcels, with_closed};
ghost use Rattle.zr_router_queue.specs.Note.{batches_of, FitsRing, Vouches, full_reason};
ghost use Rattle.zr_router_queue.specs.Ends.{new_end, with_queue, giver_ring, taker_ring, last_reason, is_dropped, is_closing, IsAsked, IsEntered, IsOver, IsPlanned, IsPlannedFor, IsSameRing};

use crate::link_batches::Batches;
use crate::note::Queued;
use crate::plan::Plan;
use crate::scratch::Scratch;
use std::alloc::{AllocError, Global};
use std::marker::Model;
use zr_bytes::ByteString;
use zr_frame::Outbox;
use zr_frame_pack::{Mark, NamingOutbox};
use zr_hist::{History, Pass};
use zr_id::link::LinkNo;
use zr_id::zid::Zid;
use zr_msg::msg::Msg;
use zr_msg::peer::Role;
use zr_msg::shared::Shared;
use zr_port::Entry;
use zr_ring::{Bytes, Giver, Parcel, RingName, Taker, ring};

/// How many parcels wait for a client at most.
const CLIENT_SLOTS: u32 = 256;

/// How many parcels wait for a router at most.
const ROUTER_SLOTS: u32 = 1_024;

/// A ring of which fewer than this part of the slots are free is crowded.
const CROWDED_PART: u32 = 4;

/// The reason with which a ring that is too full ends (Zenoh protocol 1.0, "CLOSE").
const FULL: u8 = 0;

/// An event has closed the link: it had so many parcels for it, and so many slots were free.
#[derive(Clone, Copy)]
pub struct Closing {
    pub asked: u64,
    pub free: u32,
    ghost less: { free < asked },
}

/// A link that is up.
#[derive(Drop)]
pub struct LinkSender {
    link: LinkNo,
    role: Role,
    // behind what is planned
    outbox: NamingOutbox,
    // where it stands behind all that the ring was given
    mark: Mark,
    giver: Giver<Queued>,
    // the place of the next parcel, and the free slots that are known
    place: u64,
    free: u32,
    closed: Option<Closing>,
    plan: Option<Plan>,
    ghost going: { is_going giver ≡ is_none closed },
    ghost ended: { end_of (sent giver) ≡ option_map (λ _. Some full_reason) closed },
    ghost lacked: { option_map (λ c. c.free) closed ≡ option_map (λ _. free) closed },
    ghost slots: { slots_of giver ≡ tables.slots_of role },
    ghost numbered: { number giver ≡ length (batches_of (sent giver)) },
    ghost counted: { place ≡ number giver },
    ghost known: { free ≡ free_slots giver },
    ghost small: { place + free ≤ most_parcels },
    ghost alike: { is_some outbox.names ≡ is_some mark.outbox.names },
    ghost kept: { mark.count ≤ marks.known outbox.names mark.count },
}

impl Model for LinkSender {
    ghost use Rattle.std.specs.Prelude.{true, option_map};
    ghost use Rattle.zr_frame_pack.specs.Marks.{at_mark};
    ghost use Rattle.zr_router_queue.specs.Ends.{EndState, giver_ring};
    ghost use Rattle.zr_router_queue.specs.Planned.{planned};
    ghost use Rattle.zr_router_queue.specs.Note.{batches_of};
    ghost use Rattle.zr_ring.specs.Giver.{sent, free_calls};

    ghost Value = { EndState };

    ghost view = { λ e. record { queue = record { link = e.link; role = e.role; is_up = true; outbox = at_mark e.outbox e.mark; batches = batches_of (sent e.giver); closed = option_map (λ c. c.asked) e.closed }; ring = giver_ring e.giver; free = e.free; calls = free_calls e.giver; plan = option_map (planned e.outbox) e.plan } };
}

/// How many parcels wait for a peer at most.
pub fn slots_of(role: Role) -> u32
    ensures { result ≡ tables.slots_of role }
{
    match role {
        Role::Client => CLIENT_SLOTS,
        Role::Router => ROUTER_SLOTS,
    }
}

impl LinkSender {
    /// A link that has come up, as the name of its ring says, and what its writer takes from.
    pub fn new(
        alloc: Global,
        name: RingName,
        role: Role,
        outbox: Outbox,
    ) -> Result<(LinkSender, Taker<Queued>), AllocError>
        ensures end { IfOk result (λ r. r.0 ≡ new_end (new_queue name.link role outbox) (taker_ring r.1)) }
        ensures name { IfOk result (λ r. taker_name r.1 ≡ name) }
        ensures taker { IfOk result (λ r. (taken r.1 ≡ []) × (take_calls r.1 ≡ 0)) }
    {
        let link = name.link;
        let (giver, taker) = ring(alloc, slots_of(role), name)?;
        let outbox = NamingOutbox::new(alloc, outbox);
        let mark = outbox.mark();
        let end = LinkSender {
            link,
            role,
            outbox,
            mark,
            giver,
            place: 0,
            free: slots_of(role),
            closed: None,
            plan: None,
        };
        Ok((end, taker))
    }

    /// The number of the link.
    pub fn link(&self) -> LinkNo
        ensures { result ≡ self.now.queue.link }
    {
        self.link
    }

    /// The most bytes of a batch on the link.
    pub fn batch(&self) -> u16
        ensures { result ≡ self.now.queue.outbox.batch }
    {
        self.mark.batch()
    }

    /// How many of the ring's slots were free as it was asked last, less those that were filled since.
    pub fn free(&self) -> u32
        ensures { result ≡ self.now.free }
    {
        self.free
    }

    /// Whether an event has closed the link, and how.
    pub fn closing(&self) -> Option<Closing>
        ensures asked { option_map (λ c. c.asked) result ≡ self.now.queue.closed }
        ensures free { IfSome result (λ c. c.free ≡ self.now.free) }
    {
        self.closed
    }

    /// Works out what an event has for the link among all that it sends and what was written of it. A link that an event has closed gets nothing any
    /// more. The memory of `scratch` is used.
    pub(crate) fn plan(
        &mut self,
        alloc: Global,
        sent: &[(LinkNo, Msg)],
        written: &[(LinkNo, Shared<ByteString>)],
        scratch: &mut Scratch,
    ) -> Result<(), AllocError>
        requires writable { All (λ x. IsWritable x.1) sent.now }
        requires written { written.now ≡ written_of sent.now }
        ensures queue { self.new.queue ≡ self.old.queue }
        ensures planned { OnOk result (IsPlannedFor (on_link self.old.queue.link sent.now) self.new) }
        ensures asked { IsAsked self.old self.new }
    {
        self.plan = None;
        self.outbox.return_to(self.mark); // behind a plan that the ring wasn't given
        if self.closed.is_some() {
            return Ok(());
        }
        let plan = Plan::of(alloc, sent, written, self.link, &mut self.outbox, scratch)?;
        let parcels = plan.batches.count();
        self.plan = Some(plan);
        self.ask(parcels);
        Ok(())
    }

    // The slots that are free, as the ring knows them now, where there are so many parcels for them.
    fn ask(&mut self, parcels: usize)
        requires open { self.old.queue.closed ≡ None }
        ensures same { (self.new.queue ≡ self.old.queue) × (self.new.ring ≡ self.old.ring) × (self.new.plan ≡ self.old.plan) }
        ensures called { 0 < parcels → self.new.calls ≡ self.old.calls + 1 }
        ensures answer { self.new.free < parcels → IsOver self.old.queue parcels }
    {
        if parcels == 0 {
            return;
        }
        self.free = self.giver.free();
    }

    /// Whether what an event has for the link is one sample that is left out, since its ring lacks room.
    pub(crate) fn is_dropped(&self) -> bool
        ensures { result ≡ is_dropped self.now }
    {
        match &self.plan {
            None => false,
            Some(plan) => plan.batches.count() > self.free as usize && plan.droppable,
        }
    }

    /// Whether the link is closed, since its ring lacks room for what an event has for it.
    pub(crate) fn is_closing(&self) -> bool
        ensures { result ≡ is_closing self.now }
    {
        match &self.plan {
            None => false,
            Some(plan) => plan.batches.count() > self.free as usize && !plan.droppable,
        }
    }

    /// For how long who brought an event is to rest, in milliseconds, so that the link's writer gets to run: where the event leaves the ring crowded with
    /// what may not be dropped, the longer the fewer slots stay free, and else not at all. It is asked before the entry is appended.
    pub fn rest_ms(&self) -> u64 {
        match &self.plan {
            None => 0,
            Some(plan) => {
                let parcels = plan.batches.count();
                if plan.droppable || parcels == 0 || parcels > self.free as usize {
                    return 0;
                }
                let crowded = u64::from(slots_of(self.role) / CROWDED_PART);
                crowded / (self.free as u64 - parcels as u64 + 1)
            }
        }
    }

    /// Whether an event that is planned leaves fewer than half of the ring's slots free, so that the link's writer is to be woken at once. It is asked
    /// before the entry is appended.
    pub fn is_half_full(&self) -> bool {
        match &self.plan {
            None => false,
            Some(plan) => {
                let parcels = plan.batches.count();
                let half = (slots_of(self.role) / 2) as usize;
                parcels > 0 && parcels.saturating_add(half) > self.free as usize
            }
        }
    }

    /// The entry of the event was appended: the ring is given the parcels, or its end, as the entry says.
    pub(crate) fn settle(
        &mut self,
        history: &History<Entry>,
        pass: &mut Pass<Entry>,
        me: Zid,
        entry: &Entry,
    )
        requires pass { IsPassOf history.now pass.old }
        requires entered { (hub : HubState) × IsEntered me (seen pass.old) hub entry.now self.old }
        ensures pass { IsSamePass pass.old pass.new × (seen pass.new ≡ seen pass.old) × (mine pass.new ≡ mine pass.old) }
        ensures queue { (hub : HubState) → IsPlanned hub entry.now.event self.old → self.new.queue ≡ queued_by hub entry.now self.old.queue }
        ensures ring { IsSameRing self.old self.new }
    {
        let Some(plan) = &self.plan else {
            return;
        };
        let asked = plan.batches.count() as u64;
        if is_among(entry.closed.as_slice(), self.link) {
            let closing = Closing {
                asked,
                free: self.free,
            };
            self.plan = None;
            let note = self.note(history, pass, me);
            self.close(closing, note);
        } else if is_among(entry.dropped.as_slice(), self.link) {
            self.plan = None;
        } else {
            self.give_plan(history, pass, me);
        }
    }

    // Gives the ring what an event has for the link, which the list of entries that the pass has seen queues next. There is room for it.
    fn give_plan(&mut self, history: &History<Entry>, pass: &mut Pass<Entry>, me: Zid)
        requires open { self.old.queue.closed ≡ None }
        requires pass { IsPassOf history.now pass.old }
        requires fits { FitsRing self.old.ring.name me self.old.queue.link (seen pass.old) }
        requires room { IfSome self.old.plan (λ p. length p.parcels.batches ≤ self.old.free) }
        requires queued { IfSome self.old.plan (λ p. queued me (seen pass.old) self.old.queue.link ≡ self.old.queue.batches ++ p.parcels.batches) }
        ensures pass { IsSamePass pass.old pass.new × (seen pass.new ≡ seen pass.old) × (mine pass.new ≡ mine pass.old) }
        ensures queue { IfSome self.old.plan (λ p. self.new.queue ≡ with_parcels self.old.queue p.parcels) }
        ensures same { IsSameRing self.old self.new }
    {
        let Some(plan) = self.plan.take() else {
            return;
        };
        self.mark = self.outbox.mark(); // the outbox stands behind the plan
        let Plan { batches, .. } = plan;
        match batches {
            Batches::One(bytes) => self.give_one(history, pass, me, bytes),
            Batches::Several(batches) => self.give_all(history, pass, me, batches),
        }
    }

    // Gives the ring the next parcels, for which there is room.
    #[tactic(auto, using(crate::proofs::Batches::with_next))]
    fn give_all(
        &mut self,
        history: &History<Entry>,
        pass: &mut Pass<Entry>,
        me: Zid,
        batches: Vec<Bytes>,
    )
        requires open { self.old.queue.closed ≡ None }
        requires pass { IsPassOf history.now pass.old }
        requires fits { FitsRing self.old.ring.name me self.old.queue.link (seen pass.old) }
        requires short { AllByRecursion (λ b. length b ≤ 65535) batches.items }
        requires room { length batches.items ≤ self.old.free }
        requires queued { queued me (seen pass.old) self.old.queue.link ≡ self.old.queue.batches ++ batches.items }
        ensures pass { IsSamePass pass.old pass.new × (seen pass.new ≡ seen pass.old) × (mine pass.new ≡ mine pass.old) }
        ensures queue { self.new.queue ≡ with_parcels self.old.queue (record { batches = batches.items; outbox = self.old.queue.outbox }) }
        ensures same { IsSameRing self.old self.new × (self.new.plan ≡ self.old.plan) }
    {
        for bytes in batches {
            self.give_one(history, pass, me, bytes);
        }
    }

    // Gives the ring the next parcel, for which there is room.
    fn give_one(&mut self, history: &History<Entry>, pass: &mut Pass<Entry>, me: Zid, bytes: Bytes)
        requires open { self.old.queue.closed ≡ None }
        requires pass { IsPassOf history.now pass.old }
        requires fits { FitsRing self.old.ring.name me self.old.queue.link (seen pass.old) }
        requires short { length bytes ≤ 65535 }
        requires room { 0 < self.old.free }
        requires queued { (more : List (List ℕ)) × (queued me (seen pass.old) self.old.queue.link ≡ self.old.queue.batches ++ bytes ∷ more) }
        ensures pass { IsSamePass pass.old pass.new × (seen pass.new ≡ seen pass.old) × (mine pass.new ≡ mine pass.old) }
        ensures queue { self.new.queue ≡ with_parcels self.old.queue (record { batches = bytes ∷ []; outbox = self.old.queue.outbox }) }
        ensures same { IsSameRing self.old self.new × (self.new.plan ≡ self.old.plan) }
    {
        let note = self.note(history, pass, me);
        self.giver.give_one(Parcel {
            place: self.place,
            bytes,
            note,
        });
        self.place += 1;
        self.free -= 1;
    }

    // What vouches for a parcel or an end of the link under what the pass has seen.
    fn note(&self, history: &History<Entry>, pass: &mut Pass<Entry>, me: Zid) -> Queued
        requires { IsPassOf history.now pass.old }
        ensures pass { IsSamePass pass.old pass.new × (seen pass.new ≡ seen pass.old) × (mine pass.new ≡ mine pass.old) }
        ensures note { (result.me ≡ me) × (result.link ≡ self.now.queue.link) × (seen result.pass ≡ seen pass.old) }
    {
        Queued {
            me,
            link: self.link,
            pass: history.split(pass),
        }
    }

    // Ends the ring, since an event had more parcels for it than it has room for.
    #[tactic(auto, using(crate::proofs::Batches::given_end))]
    fn close(&mut self, closing: Closing, note: Queued)
        requires open { self.old.queue.closed ≡ None }
        requires free { closing.free ≡ self.old.free }
        requires vouched { Vouches note.me note.link (seen note.pass) (end (Some full_reason)) (length self.old.queue.batches) }
        requires fits { FitsRing self.old.ring.name note.me note.link (seen note.pass) }
        ensures { self.new ≡ with_queue self.old (with_closed self.old.queue closing.asked) }
    {
        self.giver.end(Some(FULL), note);
        self.closed = Some(closing);
    }

    /// The link has gone down, for the reason where this end has one. The ring, whose giver is the answer, gets its end unless it has one.
    pub fn end(self, reason: Option<u8>, note: Queued) -> Giver<Queued>
        requires vouched { self.queue.closed ≡ None → Vouches note.me note.link (seen note.pass) (end reason) (length self.queue.batches) }
        requires fits { FitsRing self.ring.name note.me note.link (seen note.pass) }
        ensures ring { giver_ring result ≡ self.ring }
        ensures given { batches_of (sent result) ≡ self.queue.batches }
        ensures ended { end_of (sent result) ≡ Some (last_reason self.queue.closed reason) }
    {
        let LinkSender {
            mut giver,
            closed,
            ..
        } = self;
        if closed.is_none() {
            giver.end(reason, note);
        }
        giver
    }
}

// A link is among these.
fn is_among(links: &[LinkNo], link: LinkNo) -> bool
    ensures { result ≡ is_among links.now link }
{
    links.iter().any(|l| l.0 == link.0)
}
