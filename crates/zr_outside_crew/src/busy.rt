//! How many jobs run.

use std::sync::Wait;
use std::sync::atomic::{AtomicU64, Ordering};
use std::thread::Parker;
use std::time::Duration;

/// How long a wait rests before it looks again, unless a job's end wakes it.
const LOOK_MS: u64 = 100;

/// Counts jobs that run. It is shared by their threads.
#[derive(Drop)]
pub(crate) struct Busy {
    count: AtomicU64,
    bell: Parker,
}

impl Busy {
    pub(crate) fn new() -> Busy {
        Busy {
            count: AtomicU64::new(0),
            bell: Parker::new(),
        }
    }

    /// A job is about to run.
    pub(crate) fn begin(&self) {
        self.count.fetch_add(1, Ordering::SeqCst);
    }

    /// A job has ended, or didn't begin.
    pub(crate) fn end(&self) {
        self.count.fetch_sub(1, Ordering::SeqCst);
        self.bell.unpark();
    }

    /// Waits until no job runs. One thread at a time may wait.
    pub(crate) fn wait<R: Wait>(&self, rt: &R) {
        for _ in rt.forever() {
            if self.count.load(Ordering::SeqCst) == 0 {
                return;
            }
            self.bell.park_timeout(rt, Duration::from_millis(LOOK_MS));
        }
    }
}
