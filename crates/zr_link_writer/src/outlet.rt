//! `Outlet`: where the parcels of a link go, shared by its writer and by those that queue something for it.

ghost use Rattle.std.specs.Prelude.{◌≡◌, ◌<◌, ◌++◌, [], None, Some, true};
ghost use Rattle.zr_ring.specs.Taker.{taken, IsSameTaker};
ghost use Rattle.zr_link_writer.specs.Outlet.{Stands, pending};
ghost use Rattle.zr_link_writer.specs.Turn.{OnIdle, OnEnded, TakesTurn, turns_most, turns_taken};

use crate::end::WriterEnd;
use crate::joined::Joined;
use crate::step::{Briefly, Taken, take_briefly, take_one};
use crate::told::Told;
use crate::turn::{Flush, Turn};
use crate::turns::WriterTurns;
use std::alloc::Global;
use std::snapshot::Snapshot;
use zr_outside_brief::BriefSink;
use zr_ring::{Note, Parcel, Taker};

/// How often a turn asks the ring at most: as often as the longest ring has slots.
const MOST_TAKES: u32 = 1_024;

/// How often a flush asks it at most, since whoever flushes has other work too: as often as the ring of a client has slots.
const MOST_FLUSHED: u32 = 256;

/// The taking end of a link's ring and its sink, what was taken and waits to be written, a parcel that wasn't joined to it, how it ended if it has, the
/// moment at which it began, the last one that it was told, and what its sink was then.
#[derive(Drop)]
pub struct Outlet<K: BriefSink + Drop, N: Note + Drop> {
    sink: K,
    taker: Taker<N>,
    joined: Joined,
    next: Option<Parcel<N>>,
    end: Option<WriterEnd>,
    start: u64,
    told: Told,
    began: Snapshot<K>,
    ghost stands: { ∥ Stands end (taken taker) start joined.moment told.moment (joined.bytes.items ++ pending next) (K.held began.value) (K.held sink) (K.faults began.value) (K.faults sink) ∥₁ },
}

impl<K: BriefSink + Drop, N: Note + Drop> Outlet<K, N> {
    /// An outlet of a ring of which nothing was taken.
    pub fn new(alloc: Global, sink: K, taker: Taker<N>, now: u64) -> Outlet<K, N>
        requires fresh { taken taker ≡ [] }
        ensures sink { (result.sink ≡ sink) × (result.began.value ≡ sink) }
        ensures taker { result.taker ≡ taker }
        ensures start { result.start ≡ now }
        ensures going { result.end ≡ None }
    {
        let began = Snapshot::of(&sink);
        Outlet {
            sink,
            taker,
            joined: Joined::at(alloc, now),
            next: None,
            end: None,
            start: now,
            told: Told::at(now),
            began,
        }
    }

    /// Its writer's turn at a moment: takes and writes what is there, or a KEEP_ALIVE where nothing was written for a while. It waits for a peer that
    /// reads slowly.
    pub fn turn(&mut self, now: u64, turns: &mut WriterTurns) -> Turn
        requires left { turns_taken turns.old < turns_most turns.old }
        ensures counted { TakesTurn turns.old turns.new result }
        ensures idle { OnIdle result ((self.new.end ≡ None) × (self.new.joined.bytes.items ++ pending self.new.next ≡ [])) }
        ensures ended { OnEnded result (λ end. self.new.end ≡ Some end) }
        ensures same { IsSameTaker self.old.taker self.new.taker × (self.new.start ≡ self.old.start) × (self.new.began ≡ self.old.began) }
    {
        let told = self.take_turn(now);
        turns.count(told);
        told
    }

    fn take_turn(&mut self, now: u64) -> Turn
        ensures idle { OnIdle result ((self.new.end ≡ None) × (self.new.joined.bytes.items ++ pending self.new.next ≡ [])) }
        ensures ended { OnEnded result (λ end. self.new.end ≡ Some end) }
        ensures same { IsSameTaker self.old.taker self.new.taker × (self.new.start ≡ self.old.start) × (self.new.began ≡ self.old.began) }
    {
        self.hear(now);
        self.join_next();
        for _ in 0..MOST_TAKES {
            match self.turn_once() {
                Turn::More => (),
                Turn::Idle => return Turn::Idle,
                Turn::Ended(end) => return Turn::Ended(end),
            }
        }
        Turn::More
    }

    /// Takes and writes what is there, as far as there is room at once. Whether nothing is left for its writer to do.
    pub fn flush(&mut self) -> bool
        ensures done { result ≡ true → (self.new.end ≡ None) × (self.new.joined.bytes.items ++ pending self.new.next ≡ []) }
        ensures same { IsSameTaker self.old.taker self.new.taker × (self.new.start ≡ self.old.start) × (self.new.began ≡ self.old.began) }
    {
        if !self.is_free() {
            return false;
        }
        for _ in 0..MOST_FLUSHED {
            match self.flush_once() {
                Flush::More => (),
                Flush::Done => return true,
                Flush::Left => return false,
            }
        }
        false
    }

    // Whether nothing waits, and it has not ended.
    fn is_free(&self) -> bool
        ensures { result ≡ true → (self.now.end ≡ None) × (self.now.next ≡ None) × (self.now.joined.bytes.items ≡ []) }
    {
        self.end.is_none() && self.next.is_none() && self.joined.is_empty()
    }

    // The moment now; one that is earlier than another that it was told counts as that one.
    fn hear(&mut self, now: u64)
        ensures same { IsSameTaker self.old.taker self.new.taker × (self.new.start ≡ self.old.start) × (self.new.began ≡ self.old.began) }
    {
        self.told.hear(now);
    }

    // Joins the parcel that waits for room.
    fn join_next(&mut self)
        ensures next { self.new.end ≡ None → self.new.next ≡ None }
        ensures same { IsSameTaker self.old.taker self.new.taker × (self.new.start ≡ self.old.start) × (self.new.began ≡ self.old.began) }
    {
        if self.end.is_some() {
            return;
        }
        let Some(parcel) = self.next.take() else {
            return;
        };
        let (head, body) = parcel.bytes.parts();
        match self.joined.add(&mut self.sink, &mut self.told, head, body) {
            Ok(()) => (),
            Err(stop) => self.end = Some(stop.end()),
        }
    }

    // Asks the ring once.
    fn turn_once(&mut self) -> Turn
        requires next { self.old.end ≡ None → self.old.next ≡ None }
        ensures next { self.new.end ≡ None → self.new.next ≡ None }
        ensures idle { OnIdle result ((self.new.end ≡ None) × (self.new.joined.bytes.items ≡ [])) }
        ensures ended { OnEnded result (λ end. self.new.end ≡ Some end) }
        ensures same { IsSameTaker self.old.taker self.new.taker × (self.new.start ≡ self.old.start) × (self.new.began ≡ self.old.began) }
    {
        if let Some(end) = self.end {
            return Turn::Ended(end);
        }
        match take_one(
            &mut self.sink,
            &mut self.taker,
            &mut self.joined,
            &mut self.told,
        ) {
            Ok(Taken::More) => Turn::More,
            Ok(Taken::Nothing) => Turn::Idle,
            Ok(Taken::Ended(reason)) => {
                self.end = Some(WriterEnd::Done(reason));
                Turn::Ended(WriterEnd::Done(reason))
            }
            Err(stop) => {
                self.end = Some(stop.end());
                Turn::Ended(stop.end())
            }
        }
    }

    // Asks the ring once, without waiting long.
    fn flush_once(&mut self) -> Flush
        requires going { (self.old.end ≡ None) × (self.old.next ≡ None) }
        ensures more { result ≡ Flush.More → (self.new.end ≡ None) × (self.new.next ≡ None) }
        ensures done { result ≡ Flush.Done → (self.new.end ≡ None) × (self.new.next ≡ None) × (self.new.joined.bytes.items ≡ []) }
        ensures same { IsSameTaker self.old.taker self.new.taker × (self.new.start ≡ self.old.start) × (self.new.began ≡ self.old.began) }
    {
        match take_briefly(&mut self.sink, &mut self.taker, &mut self.joined) {
            Briefly::More => Flush::More,
            Briefly::Nothing => Flush::Done,
            Briefly::Waits => Flush::Left,
            Briefly::Unjoined(parcel) => {
                self.next = Some(parcel);
                Flush::Left
            }
            Briefly::Fault => {
                self.end = Some(WriterEnd::WriteFault);
                Flush::Left
            }
        }
    }
}
