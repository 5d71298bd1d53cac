//! What goes through a ring: parcels, and at last its end, each with its place and a note.
ghost use Rattle.std.specs.Prelude.{◌≡◌, ◌≤◌, ℕ, length};
ghost use Rattle.zr_ring.specs.Content.{Content, bytes_of, end};
ghost use Rattle.zr_ring.specs.declared.name.RingName.{RingName};
ghost use Rattle.zr_ring.specs.declared.parcel.TheConstants.{MOST_BYTES};

use crate::bytes::Bytes;
use crate::rule::HasPlace;

/// The most bytes of a parcel: what the two bytes of its length on the wire can say.
pub const MOST_BYTES: usize = 65_535;

/// It vouches for some bytes at a place of a ring, or for an end with its reason at a place.
pub trait Note {
    ghost vouches: { Self → Content → ℕ → Type 0 };

    /// Nothing but its truth is to be known of what a note vouches for.
    ghost is_fact: { (n : Self) (c : Content) (k : ℕ) → IsProp (vouches n c k) };

    /// Whether it is a note for the ring of this name.
    ghost fits: { RingName → Self → Type 0 };
}

/// Some bytes, their place in the ring, counted from 0, and the note that vouches for them there.
#[derive(Drop)]
pub struct Parcel<N: Note> {
    pub place: u64,
    pub bytes: Bytes,
    pub note: N,
    ghost vouched: { N.vouches note (bytes_of bytes) place } by { N.is_fact note (bytes_of bytes) place },
    ghost short: { length bytes ≤ MOST_BYTES },
}

/// The end of a ring, and why it ended.
#[derive(Drop)]
pub struct Ending<N: Note> {
    pub place: u64,
    pub reason: Option<u8>,
    pub note: N,
    ghost vouched: { N.vouches note (end reason) place } by { N.is_fact note (end reason) place },
}

/// What lies in a slot.
#[derive(Drop)]
pub enum Item<N: Note> {
    One(Parcel<N>),
    Last(Ending<N>),
}

impl<N: Note> HasPlace for Item<N> {
    ghost use Rattle.zr_ring.specs.Items.{Stands};

    ghost stands = { Stands };
}
