//! A ring to which tests of writers give.
ghost use Rattle.std.specs.Prelude.{◌≡◌, ◌+◌, [], true, IfOk};
ghost use Rattle.zr_ring.specs.Giver.{is_going, number, sent};

use crate::note::{Anything, parcels, ring_name};
use std::alloc::{AllocError, Global};
use zr_bytes::ByteString;
use zr_msg::shared::Shared;
use zr_ring::{Bytes, Giver, MOST_BYTES, Parcel, Taker, ring};

/// A ring's giver that isn't ended, with the number of parcels that it gave.
#[derive(Drop)]
pub struct Giving {
    giver: Giver<Anything>,
    next: u64,
    ghost going: { (is_going giver ≡ true) × (next ≡ number giver) },
}

impl Giving {
    /// A new ring, with room for so many parcels.
    pub fn ring(alloc: Global, slots: u32) -> Result<(Giving, Taker<Anything>), AllocError> {
        let (giver, taker) = ring::<Anything>(alloc, slots, ring_name()?)?;
        Ok((Giving { giver, next: 0 }, taker))
    }

    /// Gives one parcel; false where there is no room for it.
    pub fn give(&mut self, alloc: Global, bytes: &[u8]) -> Result<bool, AllocError> {
        if bytes.len() > MOST_BYTES {
            return Ok(false);
        }
        let mut parcels = Vec::with_capacity(alloc, 1)?;
        parcels.push_reserved(Parcel {
            place: self.next,
            bytes: Bytes::whole(Shared::new(alloc, ByteString::from_slice(alloc, bytes)?)?),
            note: Anything,
        });
        let is_given = self.giver.free() > 0 && self.giver.give(parcels).is_ok();
        if is_given {
            self.next += 1;
        }
        Ok(is_given)
    }

    /// Gives parcels at the next places, which stay below this one: as many as there is room for, and at most so many.
    pub fn give_places(&mut self, alloc: Global, below: u64, most: u64) -> Result<(), AllocError> {
        let free = u64::from(self.giver.free());
        let count = free.min(most).min(below.saturating_sub(self.next));
        let more = parcels(alloc, self.next, count)?;
        if self.giver.give(more).is_ok() {
            self.next += count;
        }
        Ok(())
    }

    /// Gives the end.
    pub fn end(self, reason: Option<u8>) {
        let Giving { mut giver, next: _ } = self;
        giver.end(reason, Anything);
    }
}
