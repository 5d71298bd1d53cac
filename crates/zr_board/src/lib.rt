//! The board of a router's links: the outlet of each, so that whoever queues something for a link writes it too, and the bell that wakes its writer.
#![tactic(auto)]

mod board;
mod shared;

pub use board::Board;
pub use shared::SharedOutlet;
