//! The bodies of messages: put, delete, query, reply and error. A body is judged once, and kept and passed on byte for
//! byte, with the extensions in it that nobody here knows. Of two replies it is said which is the later one.
#![tactic(auto)]

mod consolidation;
mod laws;
mod place;
mod reading;
mod skipping;
mod timestamp;
mod wire_body;

pub use consolidation::{is_later, latest, stamp};
pub use laws::{bodies_are_read, bodies_have_one_reading};
pub use place::Place;
pub use reading::read_body;
pub use timestamp::Stamp;
pub use wire_body::{Body, write_body};
