//! A history: a list of entries that grows under a lock and is looked at without one. What threads share is its length, one atomic word;
//! the list itself is kept for contracts alone and takes no memory.
#![tactic(auto)]

mod history;
mod kept;
mod pass;
mod rule;
mod steps;

pub use history::{History, Worn};
pub use kept::Kept;
pub use pass::Pass;
