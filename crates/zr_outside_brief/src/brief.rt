//! A sink that takes what it has room for.

ghost use Rattle.std.specs.Prelude.{◌<◌, length};
ghost use Rattle.zr_outside.specs.Counts.{Counted};
ghost use Rattle.zr_outside_brief.specs.Brief.{IsFailed, WritesBriefly};

use zr_outside::sink::Sink;

/// What a brief write gave.
#[derive(Clone, Copy)]
pub enum Brief {
    /// The first so many bytes, at least one, were appended.
    Took(usize),
    /// There is no room now; nothing was written.
    Full,
    /// The outside has failed; nothing was written.
    Failed,
}

/// A sink to which one may also write without waiting long for room. No room is not a fault.
pub trait BriefSink: Sink {
    /// Writes a prefix of some bytes, of which there is at least one. How long it waits is not promised.
    fn write_briefly(&mut self, from: &[u8]) -> Brief
        requires { 0 < length from.now }
        ensures bytes { WritesBriefly result from.now (Self.held self.old) (Self.held self.new) }
        ensures failed { Counted (Self.faults self.old) (Self.faults self.new) (IsFailed result) };
}
