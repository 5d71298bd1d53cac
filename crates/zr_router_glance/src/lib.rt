//! What a router shows of itself, worked out of its tables.
#![tactic(auto)]

mod glancing;
mod peers;

pub use glancing::glance_at;
