//! What a list of entries queues for a link: the law that carries notes from the moment when they are given to every later one.
ghost use Rattle.zr_ring.specs.Queue.{StaysQueued};

/// What lists of entries queue for a link, as plain data of contracts.
pub trait Queue<E> {
    ghost use Rattle.std.specs.Prelude.{ℕ, List, Bool};
    ghost use Rattle.zr_ring.specs.Queue.{Grows};

    /// Which lists of entries there can be.
    ghost legal: { Self → List E → Type 0 };

    /// Which entries bring the link up anew, so that its queue begins again.
    ghost renews: { Self → E → Bool };

    /// The parcels that a list queues for the link, in order.
    ghost queued: { Self → List E → List (List ℕ) };

    ghost grows: { (link : Self) → Grows (legal link) (renews link) (queued link) };
}

/// A law of every such queue: what a note vouched for, when its parcel was given under one list, holds under every longer one.
pub fn parcels_keep_their_places<E, Q: Queue<E>>(link: &Q)
    ensures { StaysQueued (Q.legal link.now) (Q.renews link.now) (Q.queued link.now) }
{}
