//! Parcels over a ring of slots, from one thread that gives to one that takes. Neither end waits for the other, and only making a ring
//! asks for memory. Each parcel carries its place and a note that vouches for its bytes there.
#![tactic(auto)]

mod bytes;
mod ends;
mod giver;
mod name;
mod pair;
mod parcel;
mod queue;
mod rule;
mod steps;
mod taker;

pub use bytes::{Bytes, MOST_HEAD};
pub use giver::Giver;
pub use name::RingName;
pub use pair::ring;
pub use parcel::{Ending, Item, MOST_BYTES, Note, Parcel};
pub use queue::{Queue, parcels_keep_their_places};
pub use taker::{Taker, Took};
