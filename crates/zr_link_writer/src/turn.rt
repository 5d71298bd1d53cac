//! What comes of turns and of brief writes.

use crate::end::WriterEnd;

/// What came of a turn of an outlet.
#[derive(Clone, Copy)]
pub enum Turn {
    /// There may be more to take.
    More,
    /// All was taken that was there, and written.
    Idle,
    /// The outlet has ended so.
    Ended(WriterEnd),
}

/// What came of asking the ring once without waiting long.
#[derive(Clone, Copy)]
pub(crate) enum Flush {
    /// There may be more to take.
    More,
    /// All was taken that was there, and written.
    Done,
    /// Something is left for the writer to do.
    Left,
}

/// What came of a write that doesn't wait long.
#[derive(Clone, Copy)]
pub(crate) enum Wrote {
    /// Nothing is left to be done.
    All,
    /// Something is left, for want of room or of memory.
    Part,
    /// The write failed.
    Fault,
}
