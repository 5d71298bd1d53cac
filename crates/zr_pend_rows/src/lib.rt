//! The rows of pending requests: who asked each, and the branches that have not ended.
#![tactic(auto)]

mod askers;
mod places;
mod row;
mod rows;
pub mod table;
