//! The end that takes parcels. It belongs to one thread, and goes through no lock.
ghost use Rattle.std.specs.Prelude.{◌≡◌};
ghost use Rattle.zr_ring.specs.Items.{end_of};

use crate::ends::TakingEnd;
use crate::parcel::{Ending, Item, Note, Parcel};

/// It takes what was given, in order: parcels, and at last the end.
pub struct Taker<N: Note + Drop> {
    pub(crate) ring: TakingEnd<Item<N>>,
    pub(crate) over: Option<Option<u8>>,
    ghost known: { over ≡ end_of ring.seat.me.0.taker.list },
}

// Written out, so that it is proved here, and not by each crate that lets one go.
impl<N: Note + Drop> Drop for Taker<N> {
    fn drop(self) {
        let Self {
            ring: _ring,
            over: _over,
        } = self;
    }
}

/// What a take gives.
#[derive(Drop)]
pub enum Took<N: Note> {
    /// The next parcel.
    Parcel(Parcel<N>),
    /// The end was taken, in this call or before, and why the ring ended.
    Ended(Option<u8>),
    /// All is taken that was given by the moment at which the count was loaded.
    Nothing,
}

impl<N: Note + Drop> Taker<N> {
    ghost use Rattle.std.specs.Prelude.{◌+◌, ◌≤◌};
    ghost use Rattle.zr_ring.specs.Taker.{taken, taker_name, given_loaded, take_calls, IsSameTaker, TakesFor, Tells};

    /// Takes the next of what was given. It waits for nobody, and moves the bytes out.
    #[tactic(auto, using(crate::proofs::Items::end_of_one, crate::proofs::Items::end_of_last))]
    pub fn take(&mut self) -> Took<N>
        ensures same { IsSameTaker self.old self.new }
        ensures tells { Tells result (taken self.old) (taken self.new) (given_loaded self.new) }
        ensures fits { TakesFor (taker_name self.old) result }
        ensures loaded { given_loaded self.old ≤ given_loaded self.new }
        ensures called { take_calls self.new ≡ take_calls self.old + 1 }
    {
        if let Some(reason) = self.over {
            self.ring.look();
            return Took::Ended(reason);
        }
        match self.ring.take() {
            None => Took::Nothing,
            Some(Item::One(parcel)) => Took::Parcel(parcel),
            Some(Item::Last(Ending { reason, .. })) => {
                self.over = Some(reason);
                Took::Ended(reason)
            }
        }
    }
}
