//! A carrier of real batches: what a script's routers and clients send each other goes as bytes through real sessions, in pieces of 1 to 64 bytes.
#![tactic(auto)]

pub mod batches;
mod line;
mod opening;
mod reading;
mod scratch;
mod tape;
mod way;
mod writing;
