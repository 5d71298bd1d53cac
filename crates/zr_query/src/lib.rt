//! Requests, replies and finals at a router: where each goes, under which number, and what is pending once it has gone. Which links a request
//! goes over is its route's to say.
#![tactic(auto)]

pub mod answering;
pub mod asking;
