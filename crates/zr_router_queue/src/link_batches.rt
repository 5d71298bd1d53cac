//! The batches that an event has for a link.

ghost use Rattle.std.specs.Prelude.{◌≡◌, length};

use zr_ring::Bytes;

/// One batch, as for most samples, or any number of them.
#[derive(Drop)]
pub(crate) enum Batches {
    One(Bytes),
    Several(Vec<Bytes>),
}

impl Batches {
    ghost use Rattle.zr_router_queue.specs.Batches.{batches_in};

    /// How many there are.
    pub fn count(&self) -> usize
        ensures { result ≡ length (batches_in self.now) }
    {
        match self {
            Batches::One(_) => 1,
            Batches::Several(batches) => batches.len(),
        }
    }
}
