//! Definitions of what clients are told of others' declarations (Zenoh protocol 1.0, "INTEREST"): what is wanted, of what a client was told,
//! what it is told after an event, and a router with its clients. Laws of them stand in `laws`. The code that keeps to them is a crate above.
#![tactic(auto)]

pub mod entry;
pub mod laws;
pub mod place;
