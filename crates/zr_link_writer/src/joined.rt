//! Parcels that are joined until they are written.

ghost use Rattle.std.specs.Prelude.{◌≡◌, ◌≤◌, ◌<◌, ◌+◌, ◌++◌, ◌⊎◌, ◌^◌, [], Some, length, drop, true, OnOk, OnErr, IfErr, Err};
ghost use Rattle.zr_frame_batch.specs.Framing.{framed};
ghost use Rattle.zr_outside.specs.Counts.{Rose};
ghost use Rattle.zr_outside.specs.Told.{Appends, AppendsPrefix};
ghost use Rattle.zr_link_writer.specs.Parts.{keep_alive_bytes, close_bytes};
ghost use Rattle.zr_link_writer.specs.Step.{AddsSo, FaultsSo};
ghost use Rattle.zr_link_writer.specs.Writing.{Carries, Rests, Fails, most_joined};
ghost use Rattle.zr_link_writer.specs.declared.end.Stop.TheVariants.{Fault};

use crate::close::close_batch;
use crate::end::Stop;
use crate::turn::Wrote;
use std::alloc::Global;
use zr_frame_batch::put_parts;
use zr_outside::clock::Clock;
use zr_outside::sink::{Sink, write_all};
use zr_outside_brief::{Brief, BriefSink};

/// The most bytes that are joined into one write: as many as the longest batch has with its length.
const MOST_JOINED: usize = 65_537;

/// How many bytes the length before a batch has.
const LENGTH_BYTES: usize = 2;

/// Milliseconds without a write after which a KEEP_ALIVE is written, a quarter of the lease that this router tells.
const KEEP_ALIVE_MS: u64 = 2_500;

/// A KEEP_ALIVE as a batch behind its length (Zenoh protocol 1.0, "KEEP_ALIVE").
const KEEP_ALIVE: [u8; 3] = [0x01, 0x00, 0x04];

/// Batches that wait to be written together, and the moment of the last write.
#[derive(Drop)]
pub(crate) struct Joined {
    pub(crate) bytes: Vec<u8>,
    pub(crate) moment: u64,
    ghost short: { length bytes.items ≤ most_joined },
}

impl Joined {
    /// Nothing waits, and the time to a KEEP_ALIVE begins now.
    pub(crate) fn new<C: Clock>(alloc: Global, clock: &mut C) -> Joined
        ensures empty { result.bytes.items ≡ [] }
        ensures now { (C.last clock.old ≤ result.moment) × (result.moment ≡ C.last clock.new) }
    {
        Joined::at(alloc, clock.now())
    }

    /// Nothing waits, and the time to a KEEP_ALIVE begins at this moment.
    pub(crate) fn at(alloc: Global, moment: u64) -> Joined
        ensures empty { result.bytes.items ≡ [] }
        ensures now { result.moment ≡ moment }
    {
        Joined {
            bytes: Vec::new(alloc),
            moment,
        }
    }

    /// Joins a parcel, a head with a body behind it, as one batch behind its length. What waits is written first where both are too much for one write.
    #[tactic(auto, using(crate::proofs::Carrying::carries_written, crate::proofs::Carrying::carries_joined, zr_outside::proofs::Appending::prefix_more, zr_outside::proofs::Appending::prefix_written, zr_outside::proofs::Appending::prefix_none, crate::proofs::Waiting::waits_joined))]
    pub(crate) fn add<K: Sink, C: Clock>(
        &mut self,
        sink: &mut K,
        clock: &mut C,
        head: &[u8],
        body: &[u8],
    ) -> Result<(), Stop>
        requires short { length (head.now ++ body.now) < 2 ^ 16 }
        requires past { self.old.moment ≤ C.last clock.old }
        ensures joined { OnOk result (Carries (K.held sink.old) (K.held sink.new) self.new.bytes.items (self.old.bytes.items ++ framed (head.now ++ body.now))) }
        ensures part { OnErr result (AppendsPrefix (self.old.bytes.items ++ framed (head.now ++ body.now)) (K.held sink.old) (K.held sink.new)) }
        ensures cause { result ≡ Err Fault → Rose (K.faults sink.old) (K.faults sink.new) }
        ensures later { K.faults sink.old ≤ K.faults sink.new }
        ensures moment { (self.old.moment ≤ self.new.moment) × (self.new.moment ≤ C.last clock.new) }
        ensures clock { C.last clock.old ≤ C.last clock.new }
        ensures told { K.faults sink.old < K.faults sink.new → result ≡ Err Fault }
        ensures quiet { OnOk result (K.faults sink.new ≡ K.faults sink.old) }
    {
        if head.len() + body.len() + LENGTH_BYTES > MOST_JOINED.saturating_sub(self.bytes.len()) {
            self.flush(sink, clock)?;
        }
        match put_parts(&mut self.bytes, head, body) {
            Ok(()) => Ok(()),
            Err(_) => Err(Stop::NoMemory),
        }
    }

    /// Nothing is to be had: writes what waits, or a KEEP_ALIVE where nothing was written for a while.
    #[tactic(auto, using(zr_outside::proofs::Appending::appends_none))]
    pub(crate) fn catch_up<K: Sink, C: Clock>(
        &mut self,
        sink: &mut K,
        clock: &mut C,
    ) -> Result<(), Stop>
        requires past { self.old.moment ≤ C.last clock.old }
        ensures empty { OnOk result (self.new.bytes.items ≡ []) }
        ensures wrote { OnOk result (Rests self.old.bytes.items self.old.moment self.new.moment (K.held sink.old) (K.held sink.new)) }
        ensures part { OnErr result (Fails self.old.bytes.items self.old.moment (C.last clock.new) (K.held sink.old) (K.held sink.new)) }
        ensures cause { OnErr result (Rose (K.faults sink.old) (K.faults sink.new)) }
        ensures fault { IfErr result (λ e. e ≡ Fault) }
        ensures later { K.faults sink.old ≤ K.faults sink.new }
        ensures moment { (self.old.moment ≤ self.new.moment) × (self.new.moment ≤ C.last clock.new) }
        ensures clock { C.last clock.old ≤ C.last clock.new }
        ensures quiet { OnOk result (K.faults sink.new ≡ K.faults sink.old) }
    {
        if !self.bytes.is_empty() {
            self.flush(sink, clock)?;
            return Ok(());
        }
        if clock.now().saturating_sub(self.moment) >= KEEP_ALIVE_MS {
            self.send(sink, clock, &KEEP_ALIVE)?;
            return Ok(());
        }
        Ok(())
    }

    /// The ring has ended: writes what waits, and a CLOSE where there is a reason.
    #[tactic(auto, using(zr_outside::proofs::Appending::appends_both, zr_outside::proofs::Appending::prefix_behind, zr_outside::proofs::Appending::appends_nothing_more, zr_outside::proofs::Appending::prefix_more, zr_outside::proofs::Appending::prefix_written))]
    pub(crate) fn finish<K: Sink, C: Clock>(
        &mut self,
        sink: &mut K,
        clock: &mut C,
        reason: Option<u8>,
    ) -> Result<(), Stop>
        requires past { self.old.moment ≤ C.last clock.old }
        ensures wrote { OnOk result (Appends (self.old.bytes.items ++ close_bytes (Some reason)) (K.held sink.old) (K.held sink.new)) }
        ensures part { OnErr result (AppendsPrefix (self.old.bytes.items ++ close_bytes (Some reason)) (K.held sink.old) (K.held sink.new)) }
        ensures cause { OnErr result (Rose (K.faults sink.old) (K.faults sink.new)) }
        ensures fault { IfErr result (λ e. e ≡ Fault) }
        ensures later { K.faults sink.old ≤ K.faults sink.new }
        ensures clock { C.last clock.old ≤ C.last clock.new }
        ensures quiet { OnOk result (K.faults sink.new ≡ K.faults sink.old) }
    {
        self.flush(sink, clock)?;
        match reason {
            Some(reason) => self.send(sink, clock, &close_batch(reason)),
            None => Ok(()),
        }
    }

    /// Writes what waits, all in one.
    #[tactic(auto, using(zr_outside::proofs::Appending::appends_none))]
    pub(crate) fn flush<K: Sink, C: Clock>(
        &mut self,
        sink: &mut K,
        clock: &mut C,
    ) -> Result<(), Stop>
        requires past { self.old.moment ≤ C.last clock.old }
        ensures wrote { OnOk result (Appends self.old.bytes.items (K.held sink.old) (K.held sink.new)) }
        ensures empty { OnOk result (self.new.bytes.items ≡ []) }
        ensures part { OnErr result (AppendsPrefix self.old.bytes.items (K.held sink.old) (K.held sink.new)) }
        ensures cause { OnErr result (Rose (K.faults sink.old) (K.faults sink.new)) }
        ensures fault { IfErr result (λ e. e ≡ Fault) }
        ensures later { K.faults sink.old ≤ K.faults sink.new }
        ensures moment { (self.old.moment ≤ self.new.moment) × (self.new.moment ≤ C.last clock.new) }
        ensures clock { C.last clock.old ≤ C.last clock.new }
        ensures quiet { OnOk result (K.faults sink.new ≡ K.faults sink.old) }
    {
        if self.bytes.is_empty() {
            return Ok(());
        }
        if write_all(sink, self.bytes.as_slice()).is_err() {
            return Err(Stop::Fault);
        }
        self.bytes.clear();
        self.moment = clock.now();
        Ok(())
    }

    /// Whether nothing waits.
    pub(crate) fn is_empty(&self) -> bool
        ensures { result ≡ true → self.now.bytes.items ≡ [] }
    {
        self.bytes.is_empty()
    }

    /// Joins a parcel as `add` does, without waiting long. Where there is no room for it, or no memory, it isn't joined.
    #[tactic(auto, using(crate::proofs::Carrying::carries_written, crate::proofs::Carrying::carries_joined, crate::proofs::Carrying::carries_put, crate::proofs::Waiting::waits_joined))]
    pub(crate) fn add_briefly<K: BriefSink>(
        &mut self,
        sink: &mut K,
        head: &[u8],
        body: &[u8],
    ) -> Wrote
        requires short { length (head.now ++ body.now) < 2 ^ 16 }
        ensures added { AddsSo result (K.held sink.old) (K.held sink.new) self.new.bytes.items self.old.bytes.items (framed (head.now ++ body.now)) }
        ensures faults { FaultsSo result (K.faults sink.old) (K.faults sink.new) }
        ensures moment { self.new.moment ≡ self.old.moment }
    {
        if head.len() + body.len() + LENGTH_BYTES > MOST_JOINED.saturating_sub(self.bytes.len()) {
            match self.write_some(sink) {
                Wrote::All => (),
                Wrote::Part => return Wrote::Part,
                Wrote::Fault => return Wrote::Fault,
            }
        }
        match put_parts(&mut self.bytes, head, body) {
            Ok(()) => Wrote::All,
            Err(_) => Wrote::Part,
        }
    }

    /// Writes what there is room for at once.
    #[tactic(auto, using(crate::proofs::Carrying::carries_joined, crate::proofs::Carrying::carries_some, crate::proofs::Carrying::carries_as_before))]
    pub(crate) fn write_some<K: BriefSink>(&mut self, sink: &mut K) -> Wrote
        ensures carried { Carries (K.held sink.old) (K.held sink.new) self.new.bytes.items self.old.bytes.items }
        ensures all { result ≡ Wrote.All → self.new.bytes.items ≡ [] }
        ensures faults { FaultsSo result (K.faults sink.old) (K.faults sink.new) }
        ensures moment { self.new.moment ≡ self.old.moment }
    {
        if self.bytes.is_empty() {
            return Wrote::All;
        }
        match sink.write_briefly(self.bytes.as_slice()) {
            Brief::Took(count) => {
                self.leave_out(count);
                if self.bytes.is_empty() {
                    Wrote::All
                } else {
                    Wrote::Part
                }
            }
            Brief::Full => Wrote::Part,
            Brief::Failed => Wrote::Fault,
        }
    }

    // The first so many bytes don't wait any more.
    #[tactic(auto, using(crate::proofs::Waiting::front_left_out))]
    fn leave_out(&mut self, count: usize)
        requires { count ≤ length self.old.bytes.items }
        ensures rest { self.new.bytes.items ≡ drop count self.old.bytes.items }
        ensures moment { self.new.moment ≡ self.old.moment }
    {
        let left = self.bytes.len() - count;
        self.bytes.copy_within(count.., 0);
        self.bytes.truncate(left);
    }

    // Writes a batch of the writer's own.
    fn send<K: Sink, C: Clock>(
        &mut self,
        sink: &mut K,
        clock: &mut C,
        batch: &[u8],
    ) -> Result<(), Stop>
        requires past { self.old.moment ≤ C.last clock.old }
        ensures wrote { OnOk result (Appends batch.now (K.held sink.old) (K.held sink.new)) }
        ensures part { OnErr result (AppendsPrefix batch.now (K.held sink.old) (K.held sink.new)) }
        ensures cause { OnErr result (Rose (K.faults sink.old) (K.faults sink.new)) }
        ensures fault { IfErr result (λ e. e ≡ Fault) }
        ensures later { K.faults sink.old ≤ K.faults sink.new }
        ensures same { self.new.bytes ≡ self.old.bytes }
        ensures now { OnOk result ((C.last clock.old ≤ self.new.moment) × (self.new.moment ≡ C.last clock.new)) }
        ensures moment { (self.old.moment ≤ self.new.moment) × (self.new.moment ≤ C.last clock.new) }
        ensures clock { C.last clock.old ≤ C.last clock.new }
        ensures quiet { OnOk result (K.faults sink.new ≡ K.faults sink.old) }
    {
        if write_all(sink, batch).is_err() {
            return Err(Stop::Fault);
        }
        self.moment = clock.now();
        Ok(())
    }
}
