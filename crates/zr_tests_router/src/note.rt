//! The note of the tests' parcels, which says nothing, and a link for which lists queue.
ghost use Rattle.std.specs.Prelude.{◌≡◌, ◌+◌, ◌^◌, ◌<◌, IfOk, length};
ghost use Rattle.zr_ring.specs.Items.{GoOnFrom};

use std::alloc::{AllocError, Global};
use zr_bytes::ByteString;
use zr_id::link::LinkNo;
use zr_id::zid::Zid;
use zr_msg::shared::Shared;
use zr_ring::{Bytes, Note, Parcel, Queue, RingName};

/// It vouches for everything, in every ring.
#[derive(Drop)]
pub struct Anything;

impl Note for Anything {
    ghost use Rattle.std.specs.Coded.{Unit-prop};

    ghost vouches = { λ _ _ _. Unit {0} };

    ghost is_fact = { λ _ _ _. Unit-prop };

    ghost fits = { λ _ _. Unit {0} };
}

/// The name of a ring, of which the tests know but one.
pub fn ring_name() -> Result<RingName, AllocError> {
    match Zid::from_bytes(&[1]) {
        Ok(router) => Ok(RingName {
            router,
            link: LinkNo(0),
            since: 0,
        }),
        Err(_) => Err(AllocError),
    }
}

/// A link, for which a list of numbers queues those of its parity.
#[derive(Clone, Copy)]
pub struct Link(pub u32);

impl Queue<u64> for Link {
    ghost use Rattle.std.specs.Prelude.{false};
    ghost use Rattle.zr_tests_router.specs.Queue.{queued, queued-grows};

    ghost legal = { λ _ _. Unit {0} };

    ghost renews = { λ _ _. false };

    ghost queued = { λ link list. queued link.0 list };

    ghost grows = { λ link list more _ _. queued-grows link.0 list more };
}

fn parcel(alloc: Global, place: u64) -> Result<Parcel<Anything>, AllocError>
    ensures { IfOk result (λ p. p.place ≡ place) }
{
    let bytes = ByteString::from_slice(alloc, &[(place % 256) as u8])?;
    Ok(Parcel {
        place,
        bytes: Bytes::whole(Shared::new(alloc, bytes)?),
        note: Anything,
    })
}

/// So many parcels, whose places go on from this one.
#[tactic(auto, using(zr_ring::proofs::Items::go_on_more))]
pub fn parcels(alloc: Global, from: u64, count: u64) -> Result<Vec<Parcel<Anything>>, AllocError>
    requires { from + count < 2 ^ 64 }
    ensures places { IfOk result (λ v. GoOnFrom from v.items) }
    ensures count { IfOk result (λ v. length v.items ≡ count) }
{
    let mut all = Vec::new(alloc);
    'each: while (all.len() as u64) < count {
        let place = from + all.len() as u64;
        all.push(parcel(alloc, place)?)?;
    }
    Ok(all)
}

/// Whether a parcel has these bytes.
pub fn are_bytes(bytes: &Bytes, wanted: &[u8]) -> bool {
    let (head, body) = bytes.parts();
    let count = head.len();
    wanted.len() >= count && &wanted[..count] == head && &wanted[count..] == body
}
