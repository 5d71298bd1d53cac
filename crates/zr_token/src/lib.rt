//! `Tally`: liveliness tokens, each with its owner, and which of them are alive. Who tells clients of them is not known here.
#![tactic(auto)]

pub mod laws;
pub mod owner;
mod pair;
pub mod tally;
mod text;
