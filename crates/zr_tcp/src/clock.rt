//! The system's clock.

ghost use Rattle.std.specs.Prelude.{◌≡◌};

use std::thread;
use std::time::{Duration, Instant};
use zr_outside::clock::Clock;

/// How long a pause is.
const PAUSE_MS: u64 = 1;

/// Milliseconds since it was made. Where the system tells no time it stands still.
#[derive(Drop)]
pub struct SystemClock<R: std::time::Clock + Drop> {
    rt: R,
    start: Option<Instant>,
    last: u64,
}

impl<R: std::time::Clock + Drop> SystemClock<R> {
    /// A clock that begins now.
    pub fn new(rt: R) -> SystemClock<R> {
        let start = Instant::now(&rt).ok();
        SystemClock { rt, start, last: 0 }
    }

    /// Milliseconds since it was made. Where the system tells no time it is 0.
    pub(crate) fn elapsed(&self) -> u64 {
        let Some(start) = self.start else {
            return 0;
        };
        match start.elapsed(&self.rt) {
            Ok(time) => u64::try_from(time.as_millis()).unwrap_or(u64::MAX),
            Err(_) => 0,
        }
    }
}

impl<R: std::time::Clock + Drop> Clock for SystemClock<R> {
    ghost last = { λ c. c.last };

    fn now(&mut self) -> u64 {
        let now = self.elapsed();
        self.last = self.last.max(now);
        self.last
    }

    fn pause(&mut self) {
        thread::sleep(&self.rt, Duration::from_millis(PAUSE_MS));
    }
}
