//! `Writer`: the loop of a link's writer.

ghost use Rattle.std.specs.Prelude.{◌≡◌, ◌<◌, ◌≤◌, ◌+◌, ℕ, Option, Some, []};
ghost use Rattle.zr_outside.specs.Counts.{Rose};
ghost use Rattle.zr_outside.specs.Told.{Appends, AppendsPrefix};
ghost use Rattle.zr_ring.specs.Items.{end_of};
ghost use Rattle.zr_ring.specs.Taker.{taken, take_calls, IsSameTaker};
ghost use Rattle.zr_link_writer.specs.Parts.{close_bytes};
ghost use Rattle.zr_link_writer.specs.Writing.{Writes};
ghost use Rattle.zr_link_writer.specs.declared.end.WriterEnd.TheVariants.{Done, WriteFault, Turns};

use crate::end::WriterEnd;
use crate::joined::Joined;
use crate::step::{Taken, take_one};
use std::alloc::Global;
use zr_outside::clock::Clock;
use zr_outside::sink::Sink;
use zr_ring::{Note, Taker};

/// The writer of a link.
pub struct Writer;

impl Writer {
    /// Writes what it takes, in order, until it has taken the end or has asked the taker `turns` times: each parcel as one batch behind its length,
    /// several of them in one write while there are more; a KEEP_ALIVE where nothing was written for 2,500 ms; and a CLOSE for an end with a reason. It
    /// rests once after each Nothing.
    pub fn run<K: Sink, N: Note + Drop, C: Clock>(
        alloc: Global,
        sink: &mut K,
        taker: &mut Taker<N>,
        clock: &mut C,
        turns: u64,
    ) -> WriterEnd
        ensures written { Writes (taken taker.old) (taken taker.new) (C.last clock.old) (C.last clock.new) (close_bytes (end_of (taken taker.new))) (λ text. AppendsPrefix text (K.held sink.old) (K.held sink.new)) }
        ensures whole { (reason : Option ℕ) → result ≡ Done reason → Writes (taken taker.old) (taken taker.new) (C.last clock.old) (C.last clock.new) (close_bytes (end_of (taken taker.new))) (λ text. Appends text (K.held sink.old) (K.held sink.new)) }
        ensures done { (reason : Option ℕ) → result ≡ Done reason → end_of (taken taker.new) ≡ Some reason }
        ensures turns { result ≡ Turns → take_calls taker.new ≡ take_calls taker.old + turns }
        ensures takes { take_calls taker.new ≤ take_calls taker.old + turns }
        ensures no_end { result ≡ Turns → end_of (taken taker.new) ≡ end_of (taken taker.old) }
        ensures so_far { result ≡ Turns → Writes (taken taker.old) (taken taker.new) (C.last clock.old) (C.last clock.new) [] (λ text. Appends text (K.held sink.old) (K.held sink.new)) }
        ensures fault { result ≡ WriteFault → Rose (K.faults sink.old) (K.faults sink.new) }
        ensures later { (K.faults sink.old ≤ K.faults sink.new) × (C.last clock.old ≤ C.last clock.new) }
        ensures same { IsSameTaker taker.old taker.new }
        ensures told { K.faults sink.old < K.faults sink.new → result ≡ WriteFault }
    {
        let mut joined = Joined::new(alloc, clock);
        for _ in 0..turns {
            match take_one(sink, taker, &mut joined, clock) {
                Ok(Taken::More) => (),
                Ok(Taken::Nothing) => clock.pause(),
                Ok(Taken::Ended(reason)) => return WriterEnd::Done(reason),
                Err(stop) => return stop.end(),
            }
        }
        match joined.flush(sink, clock) {
            Ok(()) => WriterEnd::Turns,
            Err(stop) => stop.end(),
        }
    }
}
