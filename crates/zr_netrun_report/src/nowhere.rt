//! `Nowhere`: a sink for what nobody reads.

ghost use Rattle.std.specs.Prelude.{◌≡◌, ◌<◌, length};

use zr_outside::sink::{Put, Sink};

/// Takes all that is written, and keeps nothing.
#[derive(Drop)]
pub struct Nowhere;

impl Sink for Nowhere {
    ghost use Rattle.std.specs.Prelude.{None};
    ghost use Rattle.zr_outside.specs.Counts.{Counted};
    ghost use Rattle.zr_outside.specs.Sink.{Writes, IsFailed};

    ghost held = { λ _. None };

    ghost faults = { λ _. 0 };

    fn write(&mut self, from: &[u8]) -> Put {
        Put::Took(from.len())
    }
}
