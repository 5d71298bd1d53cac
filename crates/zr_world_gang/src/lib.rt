//! Routers handled at the same time: the share of each router in a fan, and who handles the shares of a round.
#![tactic(auto)]

pub mod gang;
pub mod message;
pub mod one_by_one;
pub mod share;
