//! Making a ring.
ghost use Rattle.std.specs.Prelude.{◌≡◌, [], true, IfOk};
ghost use Rattle.zr_ring.specs.Giver.{sent, giver_name, is_going, slots_of, free_slots, taken_loaded, free_calls};
ghost use Rattle.zr_ring.specs.Taker.{taken, taker_name, given_loaded, take_calls, IsPair};

use crate::ends::GivingEnd;
use crate::giver::Giver;
use crate::name::RingName;
use crate::parcel::Note;
use crate::taker::Taker;
use std::alloc::{AllocError, Global};

/// The two ends of a new ring of this name, with room for so many parcels, and for its end. No other call asks for memory.
pub fn ring<N: Note + Drop>(
    alloc: Global,
    slots: u32,
    name: RingName,
) -> Result<(Giver<N>, Taker<N>), AllocError>
    ensures pair { IfOk result (λ r. IsPair r.0 r.1) }
    ensures name { IfOk result (λ r. (giver_name r.0 ≡ name) × (taker_name r.1 ≡ name)) }
    ensures slots { IfOk result (λ r. (slots_of r.0 ≡ slots) × (free_slots r.0 ≡ slots)) }
    ensures giver { IfOk result (λ r. (sent r.0 ≡ []) × (is_going r.0 ≡ true) × (taken_loaded r.0 ≡ 0) × (free_calls r.0 ≡ 0)) }
    ensures taker { IfOk result (λ r. (taken r.1 ≡ []) × (given_loaded r.1 ≡ 0) × (take_calls r.1 ≡ 0)) }
{
    let (giving, taking) = GivingEnd::pair(alloc, u64::from(slots) + 1, name)?;
    let giver = Giver {
        ring: giving,
        slots,
        free: slots,
    };
    let taker = Taker {
        ring: taking,
        over: None,
    };
    Ok((giver, taker))
}
