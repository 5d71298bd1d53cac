//! What clients are told of others' declarations (Zenoh protocol 1.0, "INTEREST"): of what each was told, under which ids, and what it is
//! told after an event. What is declared, and which interests are live, is lent.
#![tactic(auto)]

mod book;
pub mod error;
mod ids;
mod interest;
pub mod laws;
mod mark;
mod marks;
mod others;
pub mod place;
mod plan;
mod search;
mod tokens;
pub mod told;
mod touched;
