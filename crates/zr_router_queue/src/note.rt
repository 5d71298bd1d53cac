//! What a parcel carries beside its bytes: under which list of entries it was given.

ghost use Rattle.std.specs.Prelude.{◌≡◌, Some, slice_get};
ghost use Rattle.zr_hist.specs.Words.{seen};
ghost use Rattle.zr_router_queue.specs.Tables.{queued};

use zr_hist::Pass;
use zr_id::link::LinkNo;
use zr_id::zid::Zid;
use zr_port::Entry;
use zr_ring::{Note, Parcel};

/// Names a router, a link of it, and by its pass the list of entries that queues the parcel. The pass was split off as the parcel was given; it takes
/// no memory.
#[derive(Drop)]
pub struct Queued {
    pub me: Zid,
    pub link: LinkNo,
    pub pass: Pass<Entry>,
}

impl Note for Queued {
    ghost use Rattle.zr_hist.specs.Words.{seen};
    ghost use Rattle.zr_router_queue.specs.Note.{FitsRing, Vouches, Vouches-prop};

    ghost vouches = { λ n c k. Vouches n.me n.link (seen n.pass) c k };

    ghost is_fact = { λ n c k. Vouches-prop n.me n.link (seen n.pass) c k };

    ghost fits = { λ name n. FitsRing name n.me n.link (seen n.pass) };
}

/// What any thread knows of a parcel that it took: its bytes are what that list queues at its place.
pub fn is_queued(parcel: &Parcel<Queued>)
    ensures { slice_get (queued parcel.now.note.me (seen parcel.now.note.pass) parcel.now.note.link) parcel.now.place ≡ Some parcel.now.bytes }
{}
