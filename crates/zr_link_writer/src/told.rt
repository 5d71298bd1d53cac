//! A clock that goes by what it is told.

ghost use Rattle.std.specs.Prelude.{◌≡◌, ◌≤◌};

use zr_outside::clock::Clock;

/// Tells the last moment that it was told.
#[derive(Drop)]
pub(crate) struct Told {
    pub(crate) moment: u64,
}

impl Told {
    /// It is this moment.
    pub(crate) fn at(moment: u64) -> Told
        ensures { result.moment ≡ moment }
    {
        Told { moment }
    }

    /// It is this moment, unless it was a later one before.
    pub(crate) fn hear(&mut self, moment: u64)
        ensures { self.old.moment ≤ self.new.moment }
    {
        self.moment = self.moment.max(moment);
    }
}

impl Clock for Told {
    ghost last = { λ c. c.moment };

    fn now(&mut self) -> u64 {
        self.moment
    }

    fn pause(&mut self) {}
}
