//! An end with all that waited there, for a fan.

ghost use Rattle.std.specs.Prelude.{◌≡◌};
ghost use Rattle.zr_world_spec.specs.World.{is_idle};
ghost use Rattle.zr_world_ends.specs.Drained.{drained};

use crate::end::{Tagged, WorldEnd, are_waiting};
use std::collections::VecDeque;
use std::marker::Model;
use zr_id::zid::Zid;
use zr_msg::peer::Weight;

/// A router's end of a link, with what was on its wire and what was queued there.
#[derive(Drop)]
pub struct Drained {
    up: bool,
    unbroken: bool,
    queue: VecDeque<Tagged>,
    wire: VecDeque<Tagged>,
    weight: Weight,
}

/// A drained end with its router and its neighbour.
pub type NamedDrained = ((Zid, Zid), Drained);

impl Model for Drained {
    ghost use Rattle.zr_world_spec.specs.World.{EndState};

    ghost Value = { EndState };

    ghost view = { λ e. record { up = e.up; unbroken = e.unbroken; queue = e.queue.items; wire = e.wire.items; weight = e.weight } };
}

impl Drained {
    /// An end whose wire had these messages.
    pub fn new(end: WorldEnd, wire: VecDeque<Tagged>) -> Drained
        ensures { result ≡ drained end wire.items }
    {
        Drained {
            up: end.is_up(),
            unbroken: end.is_unbroken(),
            weight: end.weight(),
            queue: end.into_queue(),
            wire,
        }
    }

    /// Whether the end is up.
    pub fn is_up(&self) -> bool
        ensures { result ≡ self.now.up }
    {
        self.up
    }

    /// Whether nothing waited here.
    pub fn is_idle(&self) -> bool
        ensures { result ≡ is_idle self.now }
    {
        !are_waiting(&self.wire) && !are_waiting(&self.queue)
    }

    /// What waited on the wire, and in the queue.
    pub fn into_waiting(self) -> (VecDeque<Tagged>, VecDeque<Tagged>)
        ensures wire { result.0.items ≡ self.wire }
        ensures queue { result.1.items ≡ self.queue }
    {
        (self.wire, self.queue)
    }
}
