//! `Glancing`: a port whose router shows what it is like at a moment.
#![tactic(auto)]

mod glancing;

pub use glancing::Glancing;
