//! What a writer does with one answer of the taker.

ghost use Rattle.std.specs.Prelude.{◌≡◌, ◌<◌, ◌≤◌, ◌+◌, ℕ, Option, Some, Ok, Err, [], OnErr, OnOk};
ghost use Rattle.zr_outside.specs.Counts.{Rose};
ghost use Rattle.zr_outside.specs.Told.{Appends, AppendsPrefix};
ghost use Rattle.zr_ring.specs.Items.{end_of};
ghost use Rattle.zr_ring.specs.Taker.{taken, take_calls, IsSameTaker};
ghost use Rattle.zr_link_writer.specs.Step.{OnGoing};
ghost use Rattle.zr_link_writer.specs.Brief.{FaultsBriefly, GoesBriefly, TakesShort};
ghost use Rattle.zr_link_writer.specs.Writing.{GoesOn, EndsIn};
ghost use Rattle.zr_link_writer.specs.declared.end.Stop.TheVariants.{Fault};

use crate::end::Stop;
use crate::joined::Joined;
use crate::turn::Wrote;
use zr_outside::clock::Clock;
use zr_outside::sink::Sink;
use zr_outside_brief::BriefSink;
use zr_ring::{Note, Parcel, Taker, Took};

/// The most bytes of a parcel that others than the writer write. A long one may keep them waiting for a peer that reads, and they have other work.
const MOST_BRIEF: usize = 32_768;

/// What came of asking the ring once.
#[derive(Clone, Copy)]
pub(crate) enum Taken {
    /// A parcel was joined to what waits.
    More,
    /// There was nothing, and all that waited was written.
    Nothing,
    /// The end was taken, with this reason, and all was written.
    Ended(Option<u8>),
}

/// What came of asking the ring once without waiting long.
#[derive(Drop)]
pub(crate) enum Briefly<N: Note + Drop> {
    /// A parcel was joined to what waits.
    More,
    /// There was nothing, and nothing waits.
    Nothing,
    /// Something waits for want of room, or the end was taken.
    Waits,
    /// This parcel waits, since it is long, or there was no room to join it, or no memory.
    Unjoined(Parcel<N>),
    /// A write failed.
    Fault,
}

/// Asks the ring once. A parcel is joined to what waits; where there is nothing, what waits is written, or a KEEP_ALIVE where nothing was written for a
/// while; and at the end all is written, with a CLOSE where there is a reason.
pub(crate) fn take_one<K: Sink, N: Note + Drop, C: Clock>(
    sink: &mut K,
    taker: &mut Taker<N>,
    joined: &mut Joined,
    clock: &mut C,
) -> Result<Taken, Stop>
    requires past { joined.old.moment ≤ C.last clock.old }
    ensures goes { OnGoing result (GoesOn (taken taker.old) (taken taker.new) joined.old.moment joined.new.moment joined.old.bytes.items joined.new.bytes.items (K.held sink.old) (K.held sink.new)) }
    ensures no_end { OnGoing result (end_of (taken taker.new) ≡ end_of (taken taker.old)) }
    ensures idle { result ≡ Ok Taken.Nothing → joined.new.bytes.items ≡ [] }
    ensures whole { (reason : Option ℕ) → result ≡ Ok (Taken.Ended reason) → EndsIn (taken taker.old) (taken taker.new) joined.old.moment (C.last clock.new) joined.old.bytes.items (K.held sink.old) (λ held text. Appends text held (K.held sink.new)) }
    ensures ended { (reason : Option ℕ) → result ≡ Ok (Taken.Ended reason) → end_of (taken taker.new) ≡ Some reason }
    ensures part { OnErr result (EndsIn (taken taker.old) (taken taker.new) joined.old.moment (C.last clock.new) joined.old.bytes.items (K.held sink.old) (λ held text. AppendsPrefix text held (K.held sink.new))) }
    ensures cause { result ≡ Err Fault → Rose (K.faults sink.old) (K.faults sink.new) }
    ensures told { K.faults sink.old < K.faults sink.new → result ≡ Err Fault }
    ensures quiet { OnOk result (K.faults sink.new ≡ K.faults sink.old) }
    ensures later { K.faults sink.old ≤ K.faults sink.new }
    ensures moment { OnGoing result ((joined.old.moment ≤ joined.new.moment) × (joined.new.moment ≤ C.last clock.new)) }
    ensures clock { C.last clock.old ≤ C.last clock.new }
    ensures called { take_calls taker.new ≡ take_calls taker.old + 1 }
    ensures same { IsSameTaker taker.old taker.new }
{
    match taker.take() {
        Took::Parcel(parcel) => {
            let (head, body) = parcel.bytes.parts();
            match joined.add(sink, clock, head, body) {
                Ok(()) => Ok(Taken::More),
                Err(stop) => Err(stop),
            }
        }
        Took::Nothing => match joined.catch_up(sink, clock) {
            Ok(()) => Ok(Taken::Nothing),
            Err(stop) => Err(stop),
        },
        Took::Ended(reason) => match joined.finish(sink, clock, reason) {
            Ok(()) => Ok(Taken::Ended(reason)),
            Err(stop) => Err(stop),
        },
    }
}

/// Asks the ring once. A short parcel is joined to what waits, where both have room in one write or some is written; where there is nothing, what waits
/// is written. No write waits long, and none is tried again.
pub(crate) fn take_briefly<K: BriefSink, N: Note + Drop>(
    sink: &mut K,
    taker: &mut Taker<N>,
    joined: &mut Joined,
) -> Briefly<N>
    ensures goes { GoesBriefly result (taken taker.old) (taken taker.new) joined.old.moment joined.old.bytes.items joined.new.bytes.items (K.held sink.old) (K.held sink.new) }
    ensures short { result ≡ Briefly.More → TakesShort (taken taker.old) (taken taker.new) }
    ensures idle { result ≡ Briefly.Nothing → joined.new.bytes.items ≡ [] }
    ensures faults { FaultsBriefly result (K.faults sink.old) (K.faults sink.new) }
    ensures moment { joined.new.moment ≡ joined.old.moment }
    ensures called { take_calls taker.new ≡ take_calls taker.old + 1 }
    ensures same { IsSameTaker taker.old taker.new }
{
    match taker.take() {
        Took::Parcel(parcel) => {
            let (head, body) = parcel.bytes.parts();
            if head.len() + body.len() > MOST_BRIEF {
                return Briefly::Unjoined(parcel);
            }
            match joined.add_briefly(sink, head, body) {
                Wrote::All => Briefly::More,
                Wrote::Part => Briefly::Unjoined(parcel),
                Wrote::Fault => Briefly::Fault,
            }
        }
        Took::Nothing => match joined.write_some(sink) {
            Wrote::All => Briefly::Nothing,
            Wrote::Part => Briefly::Waits,
            Wrote::Fault => Briefly::Fault,
        },
        Took::Ended(_) => Briefly::Waits,
    }
}
