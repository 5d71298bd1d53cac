//! Sessions: from the bytes of a link to messages, however the bytes are cut. A session is a pure state machine: it is fed pieces
//! of bytes with the moment at which they came, and gives events, bytes to answer, and how it ends. There is no socket, no clock
//! and no thread in it.
#![tactic(auto)]

mod batch;
mod carried;
mod event;
mod fate;
mod item;
mod laws;
mod opening;
mod phase;
mod piece;
mod session;
mod state;
mod stop;
mod why;
mod write;

pub use event::{Fed, SessionEvent};
pub use fate::{End, Fate};
pub use laws::{bytes_have_one_course, no_cut_matters, packed_messages_are_read_back};
pub use session::Session;
