//! `Entry`: how a client was told of a place.

/// Under which id a client was told of a place, and whether as complete.
#[derive(Clone, Copy)]
pub struct Entry {
    pub id: u32,
    pub complete: bool,
}
