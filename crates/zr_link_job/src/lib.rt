//! The thread of a link, as a crew runs it: what it begins with, as plain data, what it owns, and how it is started. Which links there are is its
//! caller's.
#![tactic(auto)]

mod job;
mod reading;

pub use job::{LinkJob, LinkStart, ServeJob, Side};
pub use reading::{Reading, TurnedAway, hand_over, turn_away};
