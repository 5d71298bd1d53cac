//! Frames and fragments of a session: which frame numbers are accepted, how the pieces of a message are joined, and how
//! messages are packed into batches. What the messages say is not known here, and neither is how a session opens.
#![tactic(auto)]

mod channel;
mod channels;
mod counter;
mod laws;
mod outbox;
mod packer;

pub use channel::{Channel, ChannelError};
pub use channels::Channels;
pub use counter::{Counter, modulus};
pub use laws::{packed_messages_are_received, parcels_are_short};
pub use outbox::{LEAST_BATCH, Outbox};
