//! `Clock`: what time it is.

ghost use Rattle.std.specs.Prelude.{◌≡◌, ◌≤◌, ℕ};

/// Tells milliseconds since some moment, and rests.
pub trait Clock {
    // its last answer, and before the first a moment that none is below
    ghost last: { Self → ℕ };

    /// The milliseconds now: no less than it answered before.
    fn now(&mut self) -> u64
        ensures value { result ≡ last self.new }
        ensures later { last self.old ≤ last self.new };

    /// Rests for a while, or until it is woken. Nothing is promised of how long.
    fn pause(&mut self)
        ensures { last self.new ≡ last self.old };
}
