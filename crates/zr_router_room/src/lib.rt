//! Whether an event that comes to a router waits for room in the rings that it may need, and how long: guesses by what the router shows. A wrong
//! guess costs a wait, or closes a link whose ring is full.
#![tactic(auto)]

mod askers;
mod crowds;
mod links;
mod patience;
mod reach;
mod rested;

pub use askers::Askers;
pub use crowds::{Crowds, Outlook};
pub use links::{MOST_LINKS, bit_of};
pub use patience::{Pace, Patience};
pub use reach::{Coming, View};
pub use rested::Rested;
