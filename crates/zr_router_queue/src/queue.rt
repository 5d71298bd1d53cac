//! What a router's history queues for a link: the law that carries parcels from the moment when they are given to every later one.

ghost use Rattle.std.specs.Prelude.{◌≡◌, true};
ghost use Rattle.zr_ring.specs.Queue.{StaysQueued};
ghost use Rattle.zr_router_queue.specs.History as history;
ghost use Rattle.zr_router_queue.specs.Tables as tables;

use zr_id::link::LinkNo;
use zr_id::zid::Zid;
use zr_port::Entry;
use zr_ring::{Queue, parcels_keep_their_places};

/// A link of a router, for which its histories queue parcels.
#[derive(Clone, Copy)]
pub struct LinkOf {
    pub me: Zid,
    pub link: LinkNo,
}

impl Queue<Entry> for LinkOf {
    ghost use Rattle.std.specs.Prelude.{◌≡◌, true};
    ghost use Rattle.zr_router_queue.specs.History as history;
    ghost use Rattle.zr_router_queue.specs.Tables as tables;
    ghost use Rattle.zr_router_queue.specs.Grows.{queued_grows};

    ghost legal = { λ q h. history.is_legal q.me h ≡ true };

    ghost renews = { λ q e. history.renews q.link e };

    ghost queued = { λ q h. tables.queued q.me h q.link };

    ghost grows = { λ q h more legal no. queued_grows q.me q.link h more legal no };
}

/// While a link isn't brought up anew, a parcel keeps its place in what every longer history queues for it.
pub fn parcels_stay_queued(link: &LinkOf)
    ensures { StaysQueued (λ h. history.is_legal link.now.me h ≡ true) (λ e. history.renews link.now.link e) (λ h. tables.queued link.now.me h link.now.link) }
{
    parcels_keep_their_places(link);
}
