//! `Watch`: who is told as workers take shares.

/// Who is told as workers take shares.
pub trait Watch {
    /// A worker takes a share. Workers count from 0.
    fn enter(&self, worker: u32);
}

/// Nobody is told.
#[derive(Clone, Copy, Debug, Drop)]
pub struct Unwatched;

impl Watch for Unwatched {
    fn enter(&self, _worker: u32) {}
}
