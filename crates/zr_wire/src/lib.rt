//! Network messages of all kinds: which a peer may send, how long they may be, and how each is written. Each kind of message has its format below.
#![tactic(auto)]

mod limits;
mod roles;
mod writing;

pub use limits::{MOST_OF_CLIENT, MOST_OF_ROUTER, most_of};
pub use roles::admits;
pub use writing::{NO_NUMBER, key_in, write_message, write_numbered};
