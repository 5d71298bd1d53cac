//! Transport messages: how a session opens and closes, and the frames and fragments that carry network messages.
//! What stands in a frame is not known here.
#![tactic(auto)]

mod laws;
mod parts;
mod reading;
mod trans;
mod writing;

pub use laws::{messages_are_read, messages_have_one_reading, written_messages_are_read};
pub use reading::read_trans;
pub use trans::{Sizes, Trans};
pub use writing::write_trans;
