//! The pending requests of one router, as definitions: who asked each request that was passed on, the links that have not finished it, and
//! what is held for requests for the latest replies alone. The code is the types of their ends, and the laws that crates above cite.
#![tactic(auto)]

pub mod branch;
pub mod laws;
