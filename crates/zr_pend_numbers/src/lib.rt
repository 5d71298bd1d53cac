//! The numbers that are in use on each link.
#![tactic(auto)]

pub mod numbers;
mod used;
