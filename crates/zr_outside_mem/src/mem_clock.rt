//! A clock in memory.

ghost use Rattle.std.specs.Prelude.{◌≡◌, ◌≤◌, ◌+◌, ◌-◌, ◌^◌, min};

use zr_outside::clock::Clock;

/// Stands still but for its pauses: each moves it on by so many milliseconds.
#[derive(Clone, Copy)]
pub struct MemClock {
    time: u64,
    step: u64,
    last: u64,
    ghost told: { last ≤ time },
}

impl MemClock {
    ghost use Rattle.zr_outside_mem.specs.MemClock.{time_of, step_of, last_of};

    /// A clock that begins at this moment.
    pub fn new(time: u64, step: u64) -> MemClock
        ensures begins { (time_of result ≡ time) × (last_of result ≡ time) }
        ensures step { step_of result ≡ step }
    {
        MemClock {
            time,
            step,
            last: time,
        }
    }
}

impl Clock for MemClock {
    ghost use Rattle.zr_outside_mem.specs.MemClock.{time_of, step_of, last_of, moved};

    ghost last = { λ c. c.last };

    fn now(&mut self) -> u64
        ensures value { result ≡ last_of self.new }
        ensures later { last_of self.old ≤ last_of self.new }
        ensures exact { (result ≡ time_of self.old) × (time_of self.new ≡ time_of self.old) × (step_of self.new ≡ step_of self.old) }
    {
        self.last = self.time;
        self.time
    }

    fn pause(&mut self)
        ensures last { last_of self.new ≡ last_of self.old }
        ensures moved { (time_of self.new ≡ moved (time_of self.old) (step_of self.old)) × (step_of self.new ≡ step_of self.old) }
    {
        self.time = self.time.saturating_add(self.step);
    }
}
