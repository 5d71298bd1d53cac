//! The lines of a fan's steps, one behind another in one text, and their order.
#![tactic(auto)]

pub mod lines;
pub mod order;
