//! An outlet that a link's writer shares with those that queue something for the link.

ghost use Rattle.std.specs.Prelude.{◌≡◌, ◌<◌, []};
ghost use Rattle.zr_link_writer.specs.Turn.{TakesTurn, turns_most, turns_taken};
ghost use Rattle.zr_ring.specs.Taker.{taken};

use std::alloc::{AllocError, Global};
use std::sync::{Arc, Mutex, Wait};
use std::thread::Parker;
use std::time::Duration;
use zr_link_writer::{Outlet, Turn, WriterTurns};
use zr_outside_brief::BriefSink;
use zr_ring::{Note, Taker};

/// An outlet under a lock, and the bell that wakes its writer.
pub struct SharedOutlet<K: BriefSink + Drop, N: Note + Drop> {
    outlet: Mutex<Outlet<K, N>>,
    bell: Parker,
}

// Written out, so that it is proved here, and not by each crate that lets one go.
impl<K: BriefSink + Drop, N: Note + Drop> Drop for SharedOutlet<K, N> {
    fn drop(self) {
        let Self {
            outlet: _outlet,
            bell: _bell,
        } = self;
    }
}

impl<K: BriefSink + Drop, N: Note + Drop> SharedOutlet<K, N> {
    /// Of this sink, and of this taker, by which nothing was taken.
    pub fn new(
        alloc: Global,
        sink: K,
        taker: Taker<N>,
        now: u64,
    ) -> Result<Arc<SharedOutlet<K, N>>, AllocError>
        requires fresh { taken taker ≡ [] }
    {
        let shared = SharedOutlet {
            outlet: Mutex::new(Outlet::new(alloc, sink, taker, now)),
            bell: Parker::new(),
        };
        Ok(Arc::new(alloc, shared)?)
    }

    /// Its writer's turn at a moment.
    pub fn turn<R: Wait>(&self, rt: &R, now: u64, turns: &mut WriterTurns) -> Turn
        requires left { turns_taken turns.old < turns_most turns.old }
        ensures counted { TakesTurn turns.old turns.new result }
    {
        let mut outlet = self.outlet.lock(rt);
        let turn = outlet.turn(now, turns);
        drop(outlet);
        turn
    }

    /// Its writer rests until it is woken, or for so many milliseconds.
    pub fn rest<R: Wait>(&self, rt: &R, most_ms: u64) {
        self.bell.park_timeout(rt, Duration::from_millis(most_ms));
    }

    /// Something was queued: it is written where that can be done at once and nobody else has the outlet. Where something is left its writer is woken.
    pub(crate) fn serve(&self) {
        if !self.flush() {
            self.wake();
        }
    }

    /// Wakes its writer.
    pub(crate) fn wake(&self) {
        self.bell.unpark();
    }

    // Whether nothing is left for the writer to do.
    fn flush(&self) -> bool {
        let Some(mut outlet) = self.outlet.try_lock() else {
            return false;
        };
        let done = outlet.flush();
        drop(outlet);
        done
    }
}
