//! A clock in memory that moves on as it is asked.

ghost use Rattle.std.specs.Prelude.{◌≡◌, ◌≤◌};

use zr_outside::clock::Clock;

/// Tells the milliseconds since it was made, 0 at first. Each time that it tells them it moves on by its step.
#[derive(Clone, Copy)]
pub struct MovingClock {
    time: u64,
    step: u64,
    last: u64,
    ghost told: { last ≤ time },
}

impl MovingClock {
    pub fn new(step: u64) -> MovingClock {
        MovingClock {
            time: 0,
            step,
            last: 0,
        }
    }
}

impl Clock for MovingClock {
    ghost last = { λ c. c.last };

    fn now(&mut self) -> u64 {
        self.last = self.time;
        self.time = self.time.saturating_add(self.step);
        self.last
    }

    fn pause(&mut self) {}
}
