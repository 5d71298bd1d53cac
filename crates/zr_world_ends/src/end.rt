//! One end of a link, that of a router: what it has queued for the neighbour, and of what kinds the messages are that the wire from the neighbour has for it.

ghost use Rattle.std.specs.Prelude.{◌≡◌, ◌∷◌, ◌+◌, ◌-◌, ◌^◌, [], not, min, length, IfNone, IfSome, OnOk, OnErr};
ghost use Rattle.std.specs.List.{list_all, sum_by};
ghost use Rattle.zr_world_spec.specs.World.{is_empty, is_calm};
ghost use Rattle.zr_world_spec.specs.Fan.{is_sample, sample_bytes};
ghost use Rattle.zr_world_ends.specs.Kept.{announced, bare, broken, can_handle, can_take, has_samples, is_calm_end, is_idle, lifted, lost, lowered, new_end, no_kinds, passed, queued, waiting_bytes, waiting_count, with_queue};

use crate::kind::{WireKind, bytes_of, is_sample, unsettles};
use std::alloc::{AllocError, Global};
use std::collections::VecDeque;
use std::marker::Model;
use zr_msg::msg::Msg;
use zr_msg::peer::Weight;

/// A message that waits, with the number of the script line that it comes from.
#[derive(Drop)]
pub struct Tagged {
    pub msg: Msg,
    pub tag: u64,
}

impl Model for Tagged {
    ghost use Rattle.zr_world_spec.specs.World.{Tagged as TaggedState};

    ghost Value = { TaggedState };

    ghost view = { λ x. record { msg = x.msg; tag = x.tag } };
}

/// A router's end of a link. A carrier has the messages on its wire.
#[derive(Drop)]
pub struct WorldEnd {
    up: bool,
    unbroken: bool,
    queue: VecDeque<Tagged>,
    kinds: VecDeque<WireKind>,
    weight: Weight,
}

impl Model for WorldEnd {
    ghost use Rattle.zr_world_ends.specs.Kept.{KeptEnd};

    ghost Value = { KeptEnd };

    ghost view = { λ e. record { up = e.up; unbroken = e.unbroken; queue = e.queue.items; kinds = e.kinds.items; weight = e.weight } };
}

impl WorldEnd {
    /// The end of a new link of this weight: it is down, and nothing waits there.
    pub fn new(alloc: Global, weight: Weight) -> WorldEnd
        ensures { result ≡ new_end weight }
    {
        WorldEnd {
            up: false,
            unbroken: true,
            queue: VecDeque::new(alloc),
            kinds: VecDeque::new(alloc),
            weight,
        }
    }

    /// Whether the end is up.
    pub fn is_up(&self) -> bool
        ensures { result ≡ self.now.up }
    {
        self.up
    }

    /// Whether the link is unbroken.
    pub fn is_unbroken(&self) -> bool
        ensures { result ≡ self.now.unbroken }
    {
        self.unbroken
    }

    /// What the link weighs for the router.
    pub fn weight(&self) -> Weight
        ensures { result ≡ self.now.weight }
    {
        self.weight
    }

    /// Whether the router can handle a message here.
    pub fn can_handle(&self) -> bool
        ensures { result ≡ can_handle self.now }
    {
        self.up && self.is_sent()
    }

    /// Whether a message can be taken here.
    pub fn can_take(&self) -> bool
        ensures { result ≡ can_take self.now }
    {
        self.up && self.unbroken && are_waiting(&self.queue)
    }

    /// Whether a message is on the wire.
    pub fn is_sent(&self) -> bool
        ensures { result ≡ not (no_kinds self.now.kinds) }
    {
        !self.kinds.is_empty()
    }

    /// How many messages are on the wire.
    pub fn sent_count(&self) -> usize
        ensures { result ≡ length self.now.kinds }
    {
        self.kinds.len()
    }

    /// Whether only samples wait here.
    pub fn has_samples(&self) -> bool
        ensures { result ≡ has_samples self.now }
    {
        are_sample_kinds(&self.kinds) && are_samples(&self.queue)
    }

    /// How many messages wait here: at most 2^64 - 1.
    pub fn count(&self) -> u64
        ensures { result ≡ min (waiting_count self.now) (2 ^ 64 - 1) }
    {
        (self.kinds.len() as u64).saturating_add(self.queue.len() as u64)
    }

    /// How many bytes the keys and the bodies of the samples have that wait here: at most 2^64 - 1.
    pub fn sample_bytes(&self) -> u64
        ensures { result ≡ min (waiting_bytes self.now) (2 ^ 64 - 1) }
    {
        kind_bytes(&self.kinds).saturating_add(sample_bytes(&self.queue))
    }

    /// Whether nothing under way here unsettles.
    pub fn is_calm(&self) -> bool
        ensures { result ≡ is_calm_end self.now }
    {
        are_calm_kinds(&self.kinds) && are_calm(&self.queue)
    }

    /// The same end, at which nothing waits.
    pub fn idle(&self, alloc: Global) -> WorldEnd
        ensures { result ≡ bare self.now }
    {
        WorldEnd {
            up: self.up,
            unbroken: self.unbroken,
            queue: VecDeque::new(alloc),
            kinds: VecDeque::new(alloc),
            weight: self.weight,
        }
    }

    /// What waits in the queue.
    pub fn into_queue(self) -> VecDeque<Tagged>
        ensures { result.items ≡ self.queue }
    {
        self.queue
    }

    /// The end comes up.
    pub fn lift(&mut self)
        ensures { self.new ≡ lifted self.old }
    {
        self.up = true;
    }

    /// The end goes down, and what was queued is lost.
    pub fn lower(&mut self)
        ensures { self.new ≡ lowered self.old }
    {
        self.up = false;
        self.queue.clear();
    }

    /// The link breaks, and what was on the wire is lost.
    pub fn break_off(&mut self)
        ensures { self.new ≡ broken self.old }
    {
        self.unbroken = false;
        self.lose();
    }

    /// A message of this kind comes onto the wire.
    pub fn announce(&mut self, kind: WireKind) -> Result<(), AllocError>
        ensures announced { OnOk result (self.new ≡ announced self.old kind) }
        ensures err { OnErr result (self.new ≡ self.old) }
        ensures take { can_take self.new ≡ can_take self.old }
    {
        self.kinds.push_back(kind)?;
        Ok(())
    }

    /// The oldest message on the wire, where there is one, has left it.
    pub fn pass(&mut self)
        ensures passed { self.new ≡ passed self.old }
        ensures take { can_take self.new ≡ can_take self.old }
    {
        drop(self.kinds.pop_front());
    }

    /// What was on the wire is lost.
    pub fn lose(&mut self)
        ensures lost { self.new ≡ lost self.old }
        ensures take { can_take self.new ≡ can_take self.old }
    {
        self.kinds.clear();
    }

    /// The router queues a message for the neighbour.
    pub fn enqueue(&mut self, msg: Msg, tag: u64) -> Result<(), AllocError>
        ensures queued { OnOk result (self.new ≡ queued self.old msg tag) }
        ensures err { OnErr result (self.new ≡ self.old) }
        ensures handle { can_handle self.new ≡ can_handle self.old }
    {
        self.queue.push_back(Tagged { msg, tag })?;
        Ok(())
    }

    /// The oldest message that is queued, which leaves the queue.
    pub fn next_queued(&mut self) -> Option<Tagged>
        ensures found { IfSome result (λ x. (self.old.queue ≡ x ∷ self.new.queue) × (self.new ≡ with_queue self.old self.new.queue)) }
        ensures none { IfNone result ((self.old.queue ≡ []) × (self.new ≡ self.old)) }
    {
        self.queue.pop_front()
    }
}

/// Whether messages wait.
pub fn are_waiting(waiting: &VecDeque<Tagged>) -> bool
    ensures { result ≡ not (is_empty waiting.now.items) }
{
    !waiting.is_empty()
}

fn are_calm(waiting: &VecDeque<Tagged>) -> bool
    ensures { result ≡ list_all is_calm waiting.now.items }
{
    waiting.iter().all(|x| is_calm(x))
}

fn are_calm_kinds(kinds: &VecDeque<WireKind>) -> bool
    ensures { result ≡ list_all (λ k. k.calm) kinds.now.items }
{
    kinds.iter().all(|kind| kind.calm)
}

fn are_sample_kinds(kinds: &VecDeque<WireKind>) -> bool
    ensures { result ≡ list_all (λ k. k.sample) kinds.now.items }
{
    kinds.iter().all(|kind| kind.sample)
}

fn is_calm(x: &Tagged) -> bool
    ensures { result ≡ is_calm x.now }
{
    !unsettles(&x.msg)
}

fn are_samples(waiting: &VecDeque<Tagged>) -> bool
    ensures { result ≡ list_all (λ m. is_sample m.msg) waiting.now.items }
{
    waiting.iter().all(|x| is_sample(&x.msg))
}

#[tactic(auto, using(crate::proofs::Sums::capped_both))]
fn sample_bytes(waiting: &VecDeque<Tagged>) -> u64
    ensures { result ≡ min (sum_by (λ m. sample_bytes m.msg) waiting.now.items) (2 ^ 64 - 1) }
{
    let (front, back) = waiting.as_slices();
    bytes_of_all(front).saturating_add(bytes_of_all(back))
}

fn bytes_of_all(waiting: &[Tagged]) -> u64
    ensures { result ≡ min (sum_by (λ m. sample_bytes m.msg) waiting.now) (2 ^ 64 - 1) }
{
    let mut sum: u64 = 0;
    for x in waiting {
        sum = sum.saturating_add(bytes_of(&x.msg));
    }
    sum
}

#[tactic(auto, using(crate::proofs::Sums::capped_both))]
fn kind_bytes(kinds: &VecDeque<WireKind>) -> u64
    ensures { result ≡ min (sum_by (λ k. k.bytes) kinds.now.items) (2 ^ 64 - 1) }
{
    let (front, back) = kinds.as_slices();
    bytes_of_kinds(front).saturating_add(bytes_of_kinds(back))
}

fn bytes_of_kinds(kinds: &[WireKind]) -> u64
    ensures { result ≡ min (sum_by (λ k. k.bytes) kinds.now) (2 ^ 64 - 1) }
{
    let mut sum: u64 = 0;
    for kind in kinds {
        sum = sum.saturating_add(bytes_in(kind));
    }
    sum
}

fn bytes_in(kind: &WireKind) -> u64
    ensures { result ≡ min kind.now.bytes (2 ^ 64 - 1) }
{
    kind.bytes
}
