//! The grace period of a stream.

use crate::clock::SystemClock;
use crate::place::Place;
use std::sync::Arc;
use zr_outside::clock::Clock;

/// How long a grace period is: the lease that this router tells.
const GRACE_MS: u64 = 10_000;

/// For how long a stream is still written, from the first write behind the end of its reading end.
#[derive(Drop)]
pub(crate) struct Grace<R: std::time::Clock + Drop> {
    place: Arc<Place>,
    clock: SystemClock<R>,
    began: Option<u64>,
}

impl<R: std::time::Clock + Drop> Grace<R> {
    /// The grace period of a stream, by this clock.
    pub(crate) fn new(place: Arc<Place>, clock: SystemClock<R>) -> Grace<R> {
        Grace {
            place,
            clock,
            began: None,
        }
    }

    /// Whether the reading end is gone.
    pub(crate) fn is_due(&self) -> bool {
        self.place.is_unread()
    }

    /// Whether the period is over. Where the system tells no time it never is.
    pub(crate) fn is_over(&mut self) -> bool {
        if !self.is_due() {
            return false;
        }
        let now = self.clock.now();
        match self.began {
            Some(began) => now.saturating_sub(began) >= GRACE_MS,
            None => {
                self.began = Some(now);
                false
            }
        }
    }
}
